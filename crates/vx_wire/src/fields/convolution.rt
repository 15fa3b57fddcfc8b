//! Convolutions: the number of columns, the number of rows, the exponent, and the coefficients row
//! by row from the top.
ghost use Rattle.std.specs.Prelude.{◌≤◌, IfOk, IsTrue};
ghost use Rattle.vx_base.specs.Convolution.{is_odd_side};
ghost use Rattle.vx_wire.specs.Fields.{Takes};
ghost use Rattle.vx_wire.specs.Convolution.{take_odd_side, take_exponent, take_convolution};

use crate::body_fault::BodyFault;
use crate::fields::samples::{decode_wide, take_samples};
use crate::fields::{Field, Fields};
use vx_base::{Convolution, Format, GREATEST_COEFFICIENTS};

/// Reads the number of columns or rows: 3, 5, 7 or 9. `InvalidDimension`: the number is none of
/// these.
fn take_odd_side(fields: &mut Fields) -> Result<u8, BodyFault>
    ensures taken { Takes take_odd_side fields.old fields.new result }
    ensures allowed { IfOk result (λ n. IsTrue (is_odd_side n)) }
    ensures limit { IfOk result (λ n. n ≤ 9) }
{
    let side = fields.byte()?;
    if side == 3 || side == 5 || side == 7 || side == 9 {
        Ok(side)
    } else {
        Err(BodyFault::InvalidDimension)
    }
}

/// Reads the exponent n, 0 to 31, of the scale 2^n by which sums are divided. `InvalidValue`: the
/// exponent is above 31.
fn take_exponent(fields: &mut Fields) -> Result<u8, BodyFault>
    ensures taken { Takes take_exponent fields.old fields.new result }
    ensures limit { IfOk result (λ n. n ≤ 31) }
{
    let exponent = fields.byte()?;
    if exponent <= 31 {
        Ok(exponent)
    } else {
        Err(BodyFault::InvalidValue)
    }
}

impl Field for Convolution {
    ghost grammar = { take_convolution };

    /// Reads a convolution. Allocates nothing, since there are at most 81 coefficients.
    fn take(fields: &mut Fields) -> Result<Convolution, BodyFault> {
        let columns = take_odd_side(fields)?;
        let rows = take_odd_side(fields)?;
        let exponent = take_exponent(fields)?;
        let count = usize::from(rows) * usize::from(columns);
        let bytes = take_samples(fields, Format::S16, count)?;
        let mut buffer = [0i16; GREATEST_COEFFICIENTS];
        let coefficients = &mut buffer[..count];
        decode_wide(bytes, coefficients);
        Ok(Convolution::new(columns, rows, exponent, coefficients).unwrap())
    }
}
