//! The law of nodes that wait to be ordered.
ghost use Rattle.std.specs.Prelude.{◌≡◌, ◌&&◌, not, List};
ghost use Rattle.vx_base.specs.Reference.{Reference};
ghost use Rattle.vx_base.specs.declared.node.Node.{Node};
ghost use Rattle.graph_verify.specs.declared.linked.Linked.{Linked};
ghost use Rattle.graph_verify.specs.Links.{writes, is_written};
ghost use Rattle.graph_verify.specs.Waiting.{waiting_among, once_ordered};

/// After a node is ordered, each remaining node waits for an input if and only if a remaining node
/// writes that input. The law assumes that the remaining nodes write all written objects except
/// those that the ordered node writes. This assumption holds if no object has two writers.
pub fn waits_for_the_rest()
    ensures { (ordered : Node) (all rest : List Node) → ((cell : Reference) →
        (is_written all cell && not (writes ordered cell)) ≡ is_written rest cell) → (l : Linked) →
        once_ordered ordered (waiting_among all l) ≡ waiting_among rest l }
{}
