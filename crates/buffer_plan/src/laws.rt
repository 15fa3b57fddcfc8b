//! Facts about plans.
ghost use Rattle.std.specs.Prelude.{◌≡◌, ◌≢◌, ◌∷◌, ◌++◌, List, true, false};
ghost use Rattle.vx_base.specs.declared.node.Node.{Node};
ghost use Rattle.graph_verify.specs.declared.known.VirtualOutput.{VirtualOutput};
ghost use Rattle.graph_verify.specs.Links.{writes, is_written};
ghost use Rattle.graph_verify.specs.Members.{In};
ghost use Rattle.buffer_plan.specs.Lives.{is_node_operand};
ghost use Rattle.buffer_plan.specs.Plan.{IsPlan, PlanView};

/// When an image takes a slot, the slot's earlier images are no longer used. Neither the step that
/// writes the new image nor a later step reads or writes an earlier image.
pub fn free_when_taken()
    ensures { (before after : List Node) (n : Node) (images : List VirtualOutput) (p : PlanView) →
        IsPlan (before ++ n ∷ after) images p → (taken held : VirtualOutput) →
        In taken images → In held images → held.desc.format ≡ taken.desc.format →
        writes n taken.cell ≡ true → is_written before held.cell ≡ true →
        p.slot_of held.cell ≡ p.slot_of taken.cell → held.cell ≢ taken.cell →
        is_node_operand (n ∷ after) held.cell ≡ false }
{}
