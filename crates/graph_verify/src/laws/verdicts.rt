//! Laws of verdicts.
ghost use Rattle.std.specs.Prelude.{◌≡◌, ◌++◌, ℕ, false, List, [], ◌∷◌, None};
ghost use Rattle.std.specs.List.{list_any};
ghost use Rattle.vx_base.specs.declared.node.Node.{Node};
ghost use Rattle.vx_base.specs.Reference.{Reference};
ghost use Rattle.vx_base.specs.Node.{inputs, outputs};
ghost use Rattle.graph_verify.specs.declared.operand.Operand.{Operand};
ghost use Rattle.graph_verify.specs.Members.{In};
ghost use Rattle.graph_verify.specs.Operand.{is_virtual, operands_of};
ghost use Rattle.graph_verify.specs.PartialDescriptions.{resolved_operand};
ghost use Rattle.graph_verify.specs.Verdict.{verdict, verdict_on};

/// If a graph can run, each of its nodes can also run alone, on the node's resolved operands.
pub fn each_node_can_run()
    ensures { (work : ℕ) (is : Reference → Operand) (nodes : List Node) (n : Node) →
        verdict work is nodes ≡ None → In n nodes →
        verdict_on n (operands_of (resolved_operand is nodes) n) ≡ None }
{}

/// The verdict on a graph of one node without virtual images is the verdict on that node.
pub fn verdict_on_one_node()
    ensures { (work : ℕ) (is : Reference → Operand) (n : Node) →
        list_any (λ c. is_virtual (is c)) (inputs n ++ outputs n) ≡ false →
        verdict work is (n ∷ []) ≡ verdict_on n (operands_of is n) }
{}
