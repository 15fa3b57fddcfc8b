//! The bins of a distribution: their number, the offset and the range.
ghost use Rattle.std.specs.Prelude.{◌≡◌, ◌<◌, IfOk, IsTrue};
ghost use Rattle.vx_wire.specs.Fields.{Takes};
ghost use Rattle.vx_wire.specs.Bins.{is_up_to_256, take_up_to_256, take_offset, take_bins};
ghost use Rattle.vx_wire.specs.Bins.{bins_bytes};

use crate::body_fault::BodyFault;
use crate::fields::{Field, Fields};
use vx_base::Bins;

/// Reads the number of bins, or their `range`: a number from 1 to 256. `InvalidValue`: the number
/// is 0 or above 256.
fn take_up_to_256(fields: &mut Fields) -> Result<u16, BodyFault>
    ensures taken { Takes take_up_to_256 fields.old fields.new result }
    ensures allowed { IfOk result (λ n. IsTrue (is_up_to_256 n)) }
{
    let number = fields.short()?;
    if (1..=256).contains(&number) {
        Ok(number)
    } else {
        Err(BodyFault::InvalidValue)
    }
}

/// Reads the offset: 0 to 255. The offset is the least sample that falls into a bin.
/// `InvalidValue`: the offset is above 255.
fn take_offset(fields: &mut Fields) -> Result<u16, BodyFault>
    ensures taken { Takes take_offset fields.old fields.new result }
    ensures limit { IfOk result (λ n. n < 256) }
{
    let offset = fields.short()?;
    if offset < 256 {
        Ok(offset)
    } else {
        Err(BodyFault::InvalidValue)
    }
}

impl Field for Bins {
    ghost grammar = { take_bins };

    /// Reads the bins of a distribution. The last value that they cover, `offset + range - 1`, may
    /// be above 255.
    fn take(fields: &mut Fields) -> Result<Bins, BodyFault> {
        let bins = take_up_to_256(fields)?;
        let offset = take_offset(fields)?;
        let range = take_up_to_256(fields)?;
        Ok(Bins::new(bins, offset, range).unwrap())
    }
}

/// Returns the bytes of a distribution's bins.
pub fn bins_bytes(bins: Bins) -> [u8; 6]
    ensures { result ≡ bins_bytes bins }
{
    let [a, b] = bins.bins().to_be_bytes();
    let [c, d] = bins.offset().to_be_bytes();
    let [e, f] = bins.range().to_be_bytes();
    [a, b, c, d, e, f]
}
