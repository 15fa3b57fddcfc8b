//! Checks of a node's fields against the parameters of its function.
ghost use Rattle.std.specs.Prelude.{◌≡◌, ◌<◌, ◌^◌, IfSome};
ghost use Rattle.vx_base.specs.Reference.{IsReference};
ghost use Rattle.vx_base.specs.Node.{is_named, all_named, has_amount, has_operands, is_node};
ghost use Rattle.vx_base.specs.Node.{IsBorder};

use crate::border::Border;
use crate::function::Parameters;
use crate::node::Node;
use crate::policy::Policy;
use crate::reference::ObjRef;

/// Checks whether a node's fields suit its function.
pub fn is_node(node: &Node) -> bool
    ensures { result ≡ is_node node.now }
{
    let parameters = node.function.parameters();
    has_amount(parameters, node.policy, node.amount)
        && has_operands(parameters, node)
        && all_named(node)
}

fn has_amount(parameters: Parameters, policy: Policy, amount: u8) -> bool
    ensures { result ≡ has_amount parameters policy amount }
{
    (parameters.policy || policy == Policy::Wrap)
        && amount <= parameters.greatest_amount.unwrap_or(0)
}

fn has_operands(parameters: Parameters, node: &Node) -> bool
    ensures { result ≡ has_operands parameters node.now }
{
    let outputs = if parameters.output_pair {
        node.out1.is_some() || node.out2.is_some()
    } else {
        node.out1.is_some() && node.out2.is_none()
    };
    node.in2.is_some() == parameters.second_input.is_some() && outputs
}

fn is_named(operand: Option<ObjRef>) -> bool
    ensures { result ≡ is_named operand }
{
    match operand {
        None => true,
        Some(cell) => !cell.is_nothing(),
    }
}

fn all_named(node: &Node) -> bool
    ensures { result ≡ all_named node.now }
{
    !node.in1.is_nothing() && is_named(node.in2) && is_named(node.out1) && is_named(node.out2)
}

/// Proves that the node's numbers are in the ranges of their types. The prover learns a number's
/// range only where the number is read. At run time this function does nothing.
pub fn prove_numbers(node: &Node)
    ensures border { IsBorder node.now.border }
    ensures amount { node.now.amount < 2 ^ 8 }
    ensures in1 { IsReference node.now.in1 }
    ensures in2 { IfSome node.now.in2 IsReference }
    ensures out1 { IfSome node.now.out1 IsReference }
    ensures out2 { IfSome node.now.out2 IsReference }
{
    let _amount = node.amount;
    prove_constant(node.border);
    node.in1.prove_reference();
    prove_references(node.in2);
    prove_references(node.out1);
    prove_references(node.out2);
}

fn prove_constant(border: Border)
    ensures { IsBorder border }
{
    match border {
        Border::Constant(_value) => {}
        Border::Undefined | Border::Replicate => {}
    }
}

fn prove_references(cell: Option<ObjRef>)
    ensures { IfSome cell IsReference }
{
    if let Some(cell) = cell {
        cell.prove_reference();
    }
}
