//! Laws of the states of clients.
ghost use Rattle.std.specs.Prelude.{◌≡◌, ◌≢◌, ℕ, ◌<◌, false, List, All, Some, None, IfSome};
ghost use Rattle.std.specs.Prelude.{IsSome, Ok};
ghost use Rattle.std.specs.Option.{option_map};
ghost use Rattle.vx_base.specs.Reference.{Reference};
ghost use Rattle.vx_base.specs.declared.code.Code.{Code};
ghost use Rattle.vx_base.specs.declared.code.Code.TheVariants.{Success, NoMemory};
ghost use Rattle.vx_base.specs.declared.node.Node.{Node};
ghost use Rattle.vx_base.specs.Graph.{GraphValue};
ghost use Rattle.object_table.specs.Context.{Context};
ghost use Rattle.object_table.specs.NamedObject.{object_held, object_at};
ghost use Rattle.object_table.specs.Skeleton.{skeleton};
ghost use Rattle.object_table.specs.Uses.{nodes_in};
ghost use Rattle.graph_verify.specs.declared.verified.Verified.{Verified};
ghost use Rattle.graph_verify.specs.Operand.{operand_of};
ghost use Rattle.graph_run.specs.Operands.{IsReady};
ghost use Rattle.client_model.specs.declared.request.Request.{Request};
ghost use Rattle.client_model.specs.declared.reply.Reply.TheVariants.{Refused};
ghost use Rattle.client_model.specs.Limits.{LimitsValue};
ghost use Rattle.client_model.specs.Context.{State};
ghost use Rattle.client_model.specs.Request.{IsRequest};
ghost use Rattle.client_model.specs.Answer.{answer_to};
ghost use Rattle.client_model.specs.Graphs.{graph_named, graph_verdict};
ghost use Rattle.client_model.specs.States.{KeepsLimits, state_after};
ghost use Rattle.client_model.specs.States.{IsLater, Stays, changes_nodes};

/// Every context that a client reaches by requests, beginning without a context, has this
/// invariant:
///
/// - Each object is valid: an image has samples of its format, and 0 outside its valid rectangle.
/// - Names are distinct and below the next name, which is at most 2^32.
/// - Each object has a live name or is used by a node, and nodes still find their operands.
/// - At most 1,024 objects are held, and their charge is at most the quota.
#[tactic(auto, using(crate::proofs::StepLaws::state_after_keeps))]
pub fn limits_are_kept()
    ensures { (limits : LimitsValue) (requests : List Request) → All IsRequest requests →
        IfSome (state_after limits None requests) (KeepsLimits limits) }
{}

/// As long as an object is held, no request of its client changes the object's skeleton: the kind,
/// sizes, formats, slots and bins. (ReleaseContext drops the object.) The skeleton of a lookup
/// table, a threshold, a convolution or a virtual image is the whole object. A graph keeps its
/// nodes until a node is added or removed. It follows that:
///
/// - while an object is held under a name, references to that name denote the same operand
/// - the verdict on a graph is the same until the graph's nodes change
/// - a verified graph can still run, in the same order and with the same descriptions, until its
///   nodes change or the graph is dropped
#[tactic(auto, using(crate::proofs::StayLaws::what_stays))]
pub fn what_is_held_stays()
    ensures after_one { (limits : LimitsValue) (c later : Context) (request : Request) (name : ℕ) →
        KeepsLimits limits c → IsRequest request →
        (answer_to limits (Some c) request).1 ≡ Some later →
        name < c.next → Stays skeleton c.objects later.objects name }
    ensures skeletons { (limits : LimitsValue) (c later : Context) (requests : List Request)
        (name : ℕ) → IsLater limits c requests later →
        name < c.next → Stays skeleton c.objects later.objects name }
    ensures nodes { (limits : LimitsValue) (c later : Context) (requests : List Request)
        (name : ℕ) →
        IsLater limits c requests later →
        All (λ request. changes_nodes request name ≡ false) requests →
        name < c.next → Stays nodes_in c.objects later.objects name }
    ensures operands { (limits : LimitsValue) (c later : Context) (requests : List Request)
        (cell : Reference) → IsLater limits c requests later →
        cell.name < c.next → IsSome (object_held later.objects cell.name) →
        option_map operand_of (object_at later.objects cell)
        ≡ option_map operand_of (object_at c.objects cell) }
    ensures verdicts { (limits : LimitsValue) (c later : Context) (requests : List Request)
        (name : ℕ) (before after : GraphValue) → IsLater limits c requests later →
        All (λ request. changes_nodes request name ≡ false) requests →
        graph_named c.objects name ≡ Ok before → graph_named later.objects name ≡ Ok after →
        graph_verdict limits later.objects after ≡ graph_verdict limits c.objects before }
    ensures ready { (limits : LimitsValue) (c later : Context) (requests : List Request) (name : ℕ)
        (nodes : List Node) (v : Verified) → IsLater limits c requests later →
        All (λ request. changes_nodes request name ≡ false) requests →
        name < c.next → option_map nodes_in (object_held c.objects name) ≡ Some nodes →
        IsSome (object_held later.objects name) →
        IsReady c.objects nodes v → IsReady later.objects nodes v }
{}

/// A refusal leaves the state unchanged, and its code is neither SUCCESS nor NO_MEMORY.
#[tactic(auto, using(crate::proofs::RefusalLaws::refusals))]
pub fn refusals()
    ensures state { (limits : LimitsValue) (state : State) (request : Request) (code : Code) →
        (answer_to limits state request).0 ≡ Refused code →
        (answer_to limits state request).1 ≡ state }
    ensures success { (limits : LimitsValue) (state : State) (request : Request) →
        (answer_to limits state request).0 ≢ Refused Success }
    ensures no_memory { (limits : LimitsValue) (state : State) (request : Request) →
        (answer_to limits state request).0 ≢ Refused NoMemory }
{}
