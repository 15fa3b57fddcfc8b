//! Partial descriptions of virtual images: the format, the width and the height. Each is 0 if it is
//! open.
ghost use Rattle.std.specs.Prelude.{◌≡◌, IfOk, IsTrue};
ghost use Rattle.vx_base.specs.PartialDescription.{may_be_side};
ghost use Rattle.vx_wire.specs.Fields.{Takes};
ghost use Rattle.vx_wire.specs.PartialDescription.{take_open_side, take_partial_desc};
ghost use Rattle.vx_wire.specs.PartialDescription.{partial_desc_bytes};

use crate::body_fault::BodyFault;
use crate::fields::format::{open_format_number, take_open_format};
use crate::fields::{Field, Fields};
use vx_base::{GREATEST_SIDE, PartialDesc};

/// Reads a width or a height: 1 to 8192, or 0 if the side is open. `InvalidDimension`: the number
/// is above 8192.
fn take_open_side(fields: &mut Fields) -> Result<Option<u16>, BodyFault>
    ensures taken { Takes take_open_side fields.old fields.new result }
    ensures allowed { IfOk result (λ side. IsTrue (may_be_side side)) }
{
    match fields.short()? {
        0 => Ok(None),
        side if side <= GREATEST_SIDE => Ok(Some(side)),
        _ => Err(BodyFault::InvalidDimension),
    }
}

impl Field for PartialDesc {
    ghost grammar = { take_partial_desc };

    /// Reads a partial description.
    fn take(fields: &mut Fields) -> Result<PartialDesc, BodyFault> {
        let format = take_open_format(fields)?;
        let width = take_open_side(fields)?;
        let height = take_open_side(fields)?;
        Ok(PartialDesc::new(width, height, format).unwrap())
    }
}

/// Returns the bytes of a partial description.
pub fn partial_desc_bytes(partial_desc: PartialDesc) -> [u8; 5]
    ensures { result ≡ partial_desc_bytes partial_desc }
{
    let format = open_format_number(partial_desc.format());
    let [a, b] = partial_desc.width().unwrap_or(0).to_be_bytes();
    let [c, d] = partial_desc.height().unwrap_or(0).to_be_bytes();
    [format, a, b, c, d]
}
