//! An image's description: the format, the width and the height.
ghost use Rattle.std.specs.Prelude.{◌≡◌, IfOk, IsTrue};
ghost use Rattle.vx_base.specs.Description.{is_side};
ghost use Rattle.vx_wire.specs.Fields.{Takes};
ghost use Rattle.vx_wire.specs.Description.{take_side, take_description, description_bytes};

use crate::body_fault::BodyFault;
use crate::fields::format::{format_number, take_format};
use crate::fields::{Field, Fields};
use vx_base::{Desc, GREATEST_SIDE};

/// Reads a width or a height: 1 to 8192. `InvalidDimension`: the number is 0 or above 8192.
fn take_side(fields: &mut Fields) -> Result<u16, BodyFault>
    ensures taken { Takes take_side fields.old fields.new result }
    ensures allowed { IfOk result (λ n. IsTrue (is_side n)) }
{
    let side = fields.short()?;
    if (1..=GREATEST_SIDE).contains(&side) {
        Ok(side)
    } else {
        Err(BodyFault::InvalidDimension)
    }
}

impl Field for Desc {
    ghost grammar = { take_description };

    /// Reads a description.
    fn take(fields: &mut Fields) -> Result<Desc, BodyFault> {
        let format = take_format(fields)?;
        let width = take_side(fields)?;
        let height = take_side(fields)?;
        Ok(Desc::with_sides(width, height, format))
    }
}

/// Returns the bytes of a description.
pub fn description_bytes(desc: Desc) -> [u8; 5]
    ensures { result ≡ description_bytes desc }
{
    let format = format_number(desc.format());
    let [a, b] = desc.width().to_be_bytes();
    let [c, d] = desc.height().to_be_bytes();
    [format, a, b, c, d]
}
