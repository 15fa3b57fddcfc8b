//! The operands of a node. An absent operand is encoded as name 0 without a slot.
ghost use Rattle.std.specs.Prelude.{◌≡◌, not, IfOk, IsTrue};
ghost use Rattle.vx_base.specs.Node.{is_nothing};
ghost use Rattle.vx_wire.specs.Fields.{Takes};
ghost use Rattle.vx_wire.specs.Operand.{take_operand, operand_bytes, is_operand, second_input};
ghost use Rattle.vx_wire.specs.Operand.{first_output, second_output, take_first_input};
ghost use Rattle.vx_wire.specs.Operand.{take_operands};

use crate::body_fault::BodyFault;
use crate::fields::reference::reference_bytes;
use crate::fields::{Field, Fields};
use vx_base::{ObjRef, Parameters};

/// Whether an operand is required, absent or optional.
#[derive(Clone, Copy, Debug, PartialEq, Eq)]
pub enum Presence {
    /// The operand is required.
    Required,
    /// The node's function has no such operand.
    Absent,
    /// The operand is optional.
    Free,
}

/// Reads an operand, and returns `None` if the operand is absent. `InvalidParameters`: a required
/// operand is absent, or an operand is given where the function has none.
fn take_operand(fields: &mut Fields, presence: Presence) -> Result<Option<ObjRef>, BodyFault>
    ensures taken { Takes (take_operand presence) fields.old fields.new result }
    ensures has { IfOk result (λ o. IsTrue (is_operand presence o)) }
{
    let reference = ObjRef::take(fields)?;
    match (presence, reference.is_nothing()) {
        (Presence::Required | Presence::Free, false) => Ok(Some(reference)),
        (Presence::Absent | Presence::Free, true) => Ok(None),
        _ => Err(BodyFault::InvalidParameters),
    }
}

/// Returns the bytes of an operand.
pub fn operand_bytes(operand: Option<ObjRef>) -> [u8; 5]
    ensures { result ≡ operand_bytes operand }
{
    match operand {
        None => reference_bytes(ObjRef::new(0, None)),
        Some(reference) => reference_bytes(reference),
    }
}

fn second_input(parameters: Parameters) -> Presence
    ensures { result ≡ second_input parameters }
{
    if parameters.second_input.is_some() {
        Presence::Required
    } else {
        Presence::Absent
    }
}

fn first_output(parameters: Parameters) -> Presence
    ensures { result ≡ first_output parameters }
{
    if parameters.output_pair {
        Presence::Free
    } else {
        Presence::Required
    }
}

/// Returns whether the second output is required, absent or optional. In a pair of outputs, the
/// second is required if the first is absent.
fn second_output(parameters: Parameters, out1: &Option<ObjRef>) -> Presence
    ensures { result ≡ second_output parameters out1.now }
{
    match (parameters.output_pair, out1) {
        (false, _) => Presence::Absent,
        (true, None) => Presence::Required,
        (true, Some(_)) => Presence::Free,
    }
}

/// Reads the first input. `InvalidParameters`: the input is absent.
pub fn take_first_input(fields: &mut Fields) -> Result<ObjRef, BodyFault>
    ensures taken { Takes take_first_input fields.old fields.new result }
    ensures has { IfOk result (λ cell. IsTrue (not (is_nothing cell))) }
{
    let reference = ObjRef::take(fields)?;
    if reference.is_nothing() {
        Err(BodyFault::InvalidParameters)
    } else {
        Ok(reference)
    }
}

/// Reads the second input and the outputs.
pub fn take_operands(
    fields: &mut Fields,
    parameters: Parameters,
) -> Result<(Option<ObjRef>, Option<ObjRef>, Option<ObjRef>), BodyFault>
    ensures taken { Takes (take_operands parameters) fields.old fields.new result }
    ensures in2 { IfOk result (λ others. IsTrue (is_operand (second_input parameters) others.0)) }
    ensures out1 { IfOk result (λ others. IsTrue (is_operand (first_output parameters) others.1)) }
    ensures out2 { IfOk result (λ others.
        IsTrue (is_operand (second_output parameters others.1) others.2)) }
{
    let in2 = take_operand(fields, second_input(parameters))?;
    let out1 = take_operand(fields, first_output(parameters))?;
    let out2 = take_operand(fields, second_output(parameters, &out1))?;
    Ok((in2, out1, out2))
}
