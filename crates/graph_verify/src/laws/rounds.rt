//! Laws of rounds. In a round, all nodes of a graph compute their outputs simultaneously.
ghost use Rattle.std.specs.Prelude.{◌≡◌, ℕ, false, length, List, None};
ghost use Rattle.vx_base.specs.declared.node.Node.{Node};
ghost use Rattle.vx_base.specs.Reference.{Reference};
ghost use Rattle.graph_verify.specs.declared.operand.Operand.{Operand};
ghost use Rattle.graph_verify.specs.Links.{reads, writes, feeds};
ghost use Rattle.graph_verify.specs.Order.{IsOrder};
ghost use Rattle.graph_verify.specs.Rounds.{rounds, one_pass, IsSolution, ReadsAlone};
ghost use Rattle.graph_verify.specs.Verdict.{two_writers, verdict};

/// Running as many rounds as there are nodes gives the same values as running the nodes one after
/// another, each after all nodes that feed it. This holds if no object has two writers and each
/// node's values depend only on the objects that the node reads.
pub fn once_through_an_order<V>()
    ensures { (value : Node → (Reference → V) → Reference → V) (nodes steps : List Node)
        (held : Reference → V) →
        ReadsAlone reads value → two_writers nodes ≡ false →
        IsOrder feeds nodes steps → (cell : Reference) →
        one_pass writes value steps held cell ≡ rounds writes value nodes (length nodes) held cell }
{}

/// If a graph can run, running as many rounds as there are nodes gives the graph's only solution.
/// In a solution, each written object has the value that its writer computes from the solution
/// itself, and every other object is unchanged. The law assumes that a node's values depend only on
/// the objects that the node reads.
pub fn only_solution<V>()
    ensures solves { (value : Node → (Reference → V) → Reference → V) (work : ℕ)
        (is : Reference → Operand)
        (nodes : List Node) (held : Reference → V) → ReadsAlone reads value →
        verdict work is nodes ≡ None →
        IsSolution writes value nodes held (rounds writes value nodes (length nodes) held) }
    ensures only { (value : Node → (Reference → V) → Reference → V) (work : ℕ)
        (is : Reference → Operand)
        (nodes : List Node) (held after : Reference → V) → ReadsAlone reads value →
        verdict work is nodes ≡ None →
        IsSolution writes value nodes held after → (cell : Reference) →
        after cell ≡ rounds writes value nodes (length nodes) held cell }
{}
