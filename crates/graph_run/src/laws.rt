//! Laws of runs: functions that do nothing, whose contracts are facts.
ghost use Rattle.std.specs.Prelude.{◌≡◌, ◌<◌, ℕ, false, List, [], ◌∷◌, length, map, None};
ghost use Rattle.std.specs.List.{AllPairs};
ghost use Rattle.std.specs.List.Sorted.{IsPermutation};
ghost use Rattle.vx_base.specs.declared.kind.Kind.TheVariants as kind;
ghost use Rattle.vx_base.specs.declared.node.Node.{Node};
ghost use Rattle.vx_base.specs.Reference.{Reference};
ghost use Rattle.vx_base.specs.Outputs.{written_by};
ghost use Rattle.object_table.specs.NamedObject.{NamedObject, object_at, with_written};
ghost use Rattle.graph_verify.specs.declared.operand.Operand.{Operand};
ghost use Rattle.graph_verify.specs.Links.{feeds};
ghost use Rattle.graph_verify.specs.Cycle.{has_cycle};
ghost use Rattle.graph_verify.specs.Members.{In, AllIn};
ghost use Rattle.graph_verify.specs.Operand.{operands_of};
ghost use Rattle.graph_verify.specs.Order.{IsOrder};
ghost use Rattle.graph_verify.specs.PartialDescriptions.{resolved_operand};
ghost use Rattle.graph_verify.specs.Verdict.{two_writers, verdict, verdict_on};
ghost use Rattle.graph_run.specs.Graph.{named_at_start, objects_at_end, rounds_of_nodes};
ghost use Rattle.graph_run.specs.Graph.{one_by_one};
ghost use Rattle.graph_run.specs.Graph.{run_of_graph};
ghost use Rattle.graph_run.specs.Operands.{CellsStand};
ghost use Rattle.graph_run.specs.Solution.{WritesNo, ReadImages, Solves};

/// If no object has two writers, running each node once, after the nodes that feed it, gives the
/// same result as a run. A run goes in rounds: in each round all nodes write at the same time.
#[tactic(auto, using(crate::proofs::OrderLaws::order_gives_rounds))]
pub fn once_in_order()
    ensures { (nodes steps : List Node) (objects : List NamedObject) → IsOrder feeds nodes steps →
        two_writers nodes ≡ false →
        AllPairs (λ a b. a.name < b.name) objects → WritesNo kind.Delay nodes objects →
        rounds_of_nodes nodes (length nodes) objects ≡ one_by_one steps objects }
{}

/// If a graph has no cycle and no object has two writers, then the result of a run is the only
/// solution of the nodes' equations.
#[tactic(auto, using(crate::proofs::SolutionLaws::only_solution))]
pub fn rounds_solve()
    ensures solves { (nodes : List Node) (before : List NamedObject) → two_writers nodes ≡ false →
        has_cycle feeds nodes ≡ false →
        WritesNo kind.Delay nodes before →
        Solves nodes before (rounds_of_nodes nodes (length nodes) before) }
    ensures only { (nodes : List Node) (before after : List NamedObject) →
        two_writers nodes ≡ false →
        has_cycle feeds nodes ≡ false →
        AllPairs (λ a b. a.name < b.name) before → WritesNo kind.Delay nodes before →
        ReadImages nodes before →
        Solves nodes before after → after ≡ rounds_of_nodes nodes (length nodes) before }
{}

/// If a graph's only node writes no virtual image, a run of the graph writes the same values as a
/// run of the node alone.
#[tactic(auto, using(crate::proofs::BegunLaws::one_node))]
pub fn run_of_one_node()
    ensures { (is : Reference → Operand) (n : Node) (objects : List NamedObject) →
        AllPairs (λ a b. a.name < b.name) objects →
        WritesNo kind.VirtualImage (n ∷ []) objects →
        run_of_graph is (n ∷ []) objects ≡ with_written objects (written_by n (object_at objects)) }
{}

/// If no object has two writers, the order in which nodes are added doesn't change the result of a
/// run.
#[tactic(auto, using(crate::proofs::AddingLaws::same_graph))]
pub fn added_in_any_order()
    ensures { (is : Reference → Operand) (nodes others : List Node) (objects : List NamedObject) →
        IsPermutation nodes others → two_writers nodes ≡ false →
        AllPairs (λ a b. a.name < b.name) objects → WritesNo kind.Delay nodes objects →
        run_of_graph (resolved_operand is nodes) nodes objects
        ≡ run_of_graph (resolved_operand is others) others objects }
{}

/// If a graph's verdict is `None`, each node can run when its turn comes. The verdict on the node
/// alone, with its resolved operands, is `None` too. After any of the nodes have run, each object
/// that the nodes name still matches its resolved operand.
#[tactic(auto, using(crate::proofs::TurnLaws::each_alone, crate::proofs::TurnLaws::at_its_turn))]
pub fn each_at_its_turn()
    ensures alone { (work : ℕ) (is : Reference → Operand) (nodes : List Node) (n : Node) →
        verdict work is nodes ≡ None → In n nodes →
        verdict_on n (operands_of (resolved_operand is nodes) n) ≡ None }
    ensures cells { (work : ℕ) (is : Reference → Operand) (nodes before : List Node)
        (objects : List NamedObject) → verdict work is nodes ≡ None →
        CellsStand is nodes objects → AllIn before nodes →
        CellsStand (resolved_operand is nodes) nodes
        (one_by_one before (map (named_at_start (resolved_operand is nodes) nodes) objects)) }
{}

/// If a graph's verdict is `None`, a run gives the same result as running each node once, in any
/// order in which the nodes can run. After the run the virtual images are as they were before it.
#[tactic(auto, using(crate::proofs::TurnLaws::run_in_order))]
pub fn runs_in_order()
    ensures { (work : ℕ) (is : Reference → Operand) (nodes steps : List Node)
        (objects : List NamedObject) →
        verdict work is nodes ≡ None →
        CellsStand is nodes objects → AllPairs (λ a b. a.name < b.name) objects →
        IsOrder feeds nodes steps →
        run_of_graph (resolved_operand is nodes) nodes objects
        ≡ objects_at_end objects
        (one_by_one steps (map (named_at_start (resolved_operand is nodes) nodes) objects)) }
{}
