//! The nine fields of a node: function, border mode, constant, policy, amount, in1, in2, out1,
//! out2.
ghost use Rattle.std.specs.Prelude.{◌≡◌, ◌||◌, nat_le, unwrap_or, IfOk, IsTrue};
ghost use Rattle.vx_base.specs.Node.{is_wrap};
ghost use Rattle.vx_wire.specs.Fields.{Takes};
ghost use Rattle.vx_wire.specs.Node.{take_function, take_border, border_bytes, take_policy};
ghost use Rattle.vx_wire.specs.Node.{policy_number, take_amount, take_node, node_bytes};

use crate::body_fault::BodyFault;
use crate::fields::operand::{operand_bytes, take_first_input, take_operands};
use crate::fields::reference::reference_bytes;
use crate::fields::{Field, Fields};
use vx_base::{Border, Function, Node, NodeSpec, Parameters, Policy};

/// Reads a function by its number. `InvalidParameters`: no function has the number.
fn take_function(fields: &mut Fields) -> Result<Function, BodyFault>
    ensures { Takes take_function fields.old fields.new result }
{
    let number = fields.byte()?;
    match Function::from_number(number) {
        Some(function) => Ok(function),
        None => Err(BodyFault::InvalidParameters),
    }
}

/// Reads a border: its mode, then its constant, which is 0 unless the mode is CONSTANT.
/// `InvalidParameters`: no border has this mode and this constant.
fn take_border(fields: &mut Fields) -> Result<Border, BodyFault>
    ensures { Takes take_border fields.old fields.new result }
{
    let mode = fields.byte()?;
    let constant = fields.byte()?;
    match (mode, constant) {
        (0, 0) => Ok(Border::Undefined),
        (1, constant) => Ok(Border::Constant(constant)),
        (2, 0) => Ok(Border::Replicate),
        _ => Err(BodyFault::InvalidParameters),
    }
}

/// Returns the bytes of a border: its mode and its constant.
fn border_bytes(border: Border) -> [u8; 2]
    ensures { result ≡ border_bytes border }
{
    match border {
        Border::Undefined => [0, 0],
        Border::Constant(value) => [1, value],
        Border::Replicate => [2, 0],
    }
}

/// Reads the overflow policy: 0 for WRAP or 1 for SATURATE. If the function has no policy, the
/// number must be 0. `InvalidParameters`: the number isn't allowed.
fn take_policy(fields: &mut Fields, parameters: Parameters) -> Result<Policy, BodyFault>
    ensures taken { Takes (take_policy parameters) fields.old fields.new result }
    ensures has { IfOk result (λ p. IsTrue (parameters.policy || is_wrap p)) }
{
    match fields.byte()? {
        0 => Ok(Policy::Wrap),
        1 if parameters.policy => Ok(Policy::Saturate),
        _ => Err(BodyFault::InvalidParameters),
    }
}

fn policy_number(policy: Policy) -> u8
    ensures { result ≡ policy_number policy }
{
    match policy {
        Policy::Wrap => 0,
        Policy::Saturate => 1,
    }
}

/// Reads the amount, which is 0 if the function has none. `InvalidParameters`: the function has no
/// amount, and the number isn't 0. `InvalidValue`: the amount is above the function's greatest
/// amount.
fn take_amount(fields: &mut Fields, parameters: Parameters) -> Result<u8, BodyFault>
    ensures taken { Takes (take_amount parameters) fields.old fields.new result }
    ensures has { IfOk result (λ n. IsTrue (nat_le n (unwrap_or parameters.greatest_amount 0))) }
{
    let amount = fields.byte()?;
    match parameters.greatest_amount {
        None if amount == 0 => Ok(amount),
        None => Err(BodyFault::InvalidParameters),
        Some(greatest) if amount <= greatest => Ok(amount),
        Some(_) => Err(BodyFault::InvalidValue),
    }
}

impl Field for NodeSpec {
    ghost grammar = { take_node };

    /// Reads a node.
    fn take(fields: &mut Fields) -> Result<NodeSpec, BodyFault> {
        let function = take_function(fields)?;
        let parameters = function.parameters();
        let border = take_border(fields)?;
        let policy = take_policy(fields, parameters)?;
        let amount = take_amount(fields, parameters)?;
        let in1 = take_first_input(fields)?;
        let (in2, out1, out2) = take_operands(fields, parameters)?;
        Ok(NodeSpec::of(Node {
            function,
            border,
            policy,
            amount,
            in1,
            in2,
            out1,
            out2,
        }))
    }
}

/// Returns the bytes of a node.
pub fn node_bytes(node: NodeSpec) -> [u8; 25]
    ensures { result ≡ node_bytes node }
{
    let node = node.node();
    let [mode, constant] = border_bytes(node.border);
    let policy = policy_number(node.policy);
    let mut bytes = [0; 25];
    bytes[..5].copy_from_slice(&[node.function.number(), mode, constant, policy, node.amount]);
    bytes[5..10].copy_from_slice(&reference_bytes(node.in1));
    bytes[10..15].copy_from_slice(&operand_bytes(node.in2));
    bytes[15..20].copy_from_slice(&operand_bytes(node.out1));
    bytes[20..].copy_from_slice(&operand_bytes(node.out2));
    bytes
}
