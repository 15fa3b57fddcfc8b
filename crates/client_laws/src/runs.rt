//! Laws of the requests that verify and run graphs.
ghost use Rattle.std.specs.Prelude.{◌≡◌, ◌≢◌, ℕ, true, false, All, Some, Ok};
ghost use Rattle.std.specs.List.Sorted.{IsPermutation};
ghost use Rattle.vx_base.specs.declared.kind.Kind.TheVariants as kind;
ghost use Rattle.vx_base.specs.declared.node.Node.{Node};
ghost use Rattle.vx_base.specs.Reference.{Reference};
ghost use Rattle.vx_base.specs.Graph.{GraphValue, nodes_of, is_registered};
ghost use Rattle.vx_base.specs.Outputs.{written_from};
ghost use Rattle.object_table.specs.Context.{Context};
ghost use Rattle.object_table.specs.NamedObject.{object_at};
ghost use Rattle.graph_verify.specs.Links.{is_written};
ghost use Rattle.graph_verify.specs.Members.{In};
ghost use Rattle.graph_run.specs.Operands.{names_cell};
ghost use Rattle.graph_run.specs.Solution.{kind_in};
ghost use Rattle.client_model.specs.declared.request.Request.TheVariants.{VerifyGraph};
ghost use Rattle.client_model.specs.declared.request.Request.TheVariants.{ProcessGraph};
ghost use Rattle.client_model.specs.declared.reply.Reply.TheVariants.{Empty};
ghost use Rattle.client_model.specs.Limits.{LimitsValue};
ghost use Rattle.client_model.specs.Answer.{answer_to};
ghost use Rattle.client_model.specs.Context.{State};
ghost use Rattle.client_model.specs.Graphs.{graph_named, process_found};
ghost use Rattle.client_model.specs.States.{KeepsLimits};
ghost use Rattle.client_laws.specs.Run.{IsRunOf};

/// ProcessGraph gets the reply that VerifyGraph would get.
#[tactic(auto, using(crate::proofs::RunLaws::same_reply))]
pub fn what_verifies_runs()
    ensures { (limits : LimitsValue) (state : State) (name : ℕ) →
        (answer_to limits state (ProcessGraph name)).0
        ≡ (answer_to limits state (VerifyGraph name)).0 }
{}

/// A successful ProcessGraph leaves the only solution of the graph. In the solution, the outputs of
/// each node are the results of the node's function. The function's arguments are the node's inputs
/// at the end of the run. A function that adds to an output also takes that output as it was before
/// the run. Inputs and outputs include virtual images. Objects that no node writes are unchanged.
/// After the run, virtual images have no samples again, and the graph's registered delays age.
#[tactic(auto, using(crate::proofs::RunLaws::run_is))]
pub fn a_run_is_the_only_solution()
    ensures { (limits : LimitsValue) (c later : Context) (name : ℕ) → KeepsLimits limits c →
        answer_to limits (Some c) (ProcessGraph name) ≡ (Empty, Some later) →
        IsRunOf name c later }
{}

/// What each reference names after a successful ProcessGraph:
///
/// - `written`: the outputs of a node are the results of its function. The function's arguments are
///   the node's inputs after the run. A function that adds to an output also takes that output as
///   it was before the run. The law covers only nodes that name no virtual image and no delay that
///   ages with the graph.
/// - `others`: an object that no node writes is unchanged. The law also covers a slot of a delay,
///   if the delay doesn't age with the graph. The law doesn't cover whole delays, since a delay
///   changes when one of its slots is written.
/// - `virtual_images`: a virtual image is unchanged.
#[tactic(auto, using(crate::proofs::RunLaws::what_a_run_leaves))]
pub fn what_a_run_leaves()
    ensures written { (limits : LimitsValue) (c later : Context) (name : ℕ) (graph : GraphValue)
        (n : Node) → KeepsLimits limits c →
        answer_to limits (Some c) (ProcessGraph name) ≡ (Empty, Some later) →
        graph_named c.objects name ≡ Ok graph → In n (nodes_of graph) →
        ((cell : Reference) → names_cell n cell ≡ true →
        kind_in c.objects cell ≢ Some kind.VirtualImage) →
        ((cell : Reference) → names_cell n cell ≡ true → is_registered graph cell.name ≡ false) →
        All (λ w. object_at later.objects w.0 ≡ Some w.1)
        (written_from (object_at c.objects) n (object_at later.objects)) }
    ensures others { (limits : LimitsValue) (c later : Context) (name : ℕ) (graph : GraphValue)
        (cell : Reference) → KeepsLimits limits c →
        answer_to limits (Some c) (ProcessGraph name) ≡ (Empty, Some later) →
        graph_named c.objects name ≡ Ok graph → is_written (nodes_of graph) cell ≡ false →
        kind_in c.objects cell ≢ Some kind.Delay → is_registered graph cell.name ≡ false →
        object_at later.objects cell ≡ object_at c.objects cell }
    ensures virtual_images { (limits : LimitsValue) (c later : Context) (name : ℕ)
        (cell : Reference) →
        KeepsLimits limits c →
        answer_to limits (Some c) (ProcessGraph name) ≡ (Empty, Some later) →
        kind_in c.objects cell ≡ Some kind.VirtualImage →
        object_at later.objects cell ≡ object_at c.objects cell }
{}

/// If a graph runs, it would also run with its nodes added in another order, and leave the same
/// result. Any other graph with the same nodes, in any order, and the same list of registered
/// delays would also run and leave this result.
#[tactic(auto, using(crate::proofs::OrderLaws::any_order))]
pub fn nodes_in_any_order()
    ensures had { (limits : LimitsValue) (c later : Context) (name : ℕ) (graph other : GraphValue) →
        KeepsLimits limits c → graph_named c.objects name ≡ Ok graph →
        IsPermutation (nodes_of graph) (nodes_of other) → graph.delays ≡ other.delays →
        process_found (Ok graph) limits c ≡ Ok (Empty, Some later) →
        process_found (Ok other) limits c ≡ Ok (Empty, Some later) }
    ensures graphs { (limits : LimitsValue) (c later : Context) (one two : ℕ)
        (graph other : GraphValue) → KeepsLimits limits c →
        graph_named c.objects one ≡ Ok graph → graph_named c.objects two ≡ Ok other →
        IsPermutation (nodes_of graph) (nodes_of other) → graph.delays ≡ other.delays →
        answer_to limits (Some c) (ProcessGraph one) ≡ (Empty, Some later) →
        answer_to limits (Some c) (ProcessGraph two) ≡ (Empty, Some later) }
{}
