//! Thresholds: the kind, the format, one limit or two, the true value and the false value.
ghost use Rattle.std.specs.Prelude.{◌≡◌, ◌≢◌, IfOk, IsTrue, int_le};
ghost use Rattle.vx_base.specs.declared.format.Format.TheVariants.{U32 as FormatU32};
ghost use Rattle.vx_base.specs.declared.threshold.ThresholdKind.TheVariants.{Binary, Range};
ghost use Rattle.vx_base.specs.Threshold.{has_limits, is_sample};
ghost use Rattle.vx_wire.specs.Fields.{Takes};
ghost use Rattle.vx_wire.specs.Threshold.{take_is_range, take_signed, take_limit, take_upper};
ghost use Rattle.vx_wire.specs.Threshold.{take_limits, take_threshold, threshold_bytes};

use crate::body_fault::BodyFault;
use crate::fields::format::{format_number, take_input_format};
use crate::fields::samples::WideSample;
use crate::fields::{Field, Fields};
use vx_base::{Format, ThresholdKind, ThresholdRule};

/// Reads a threshold's kind, 0 for BINARY and 1 for RANGE. Returns whether the kind is RANGE.
/// `InvalidParameters`: the number is neither 0 nor 1.
fn take_is_range(fields: &mut Fields) -> Result<bool, BodyFault>
    ensures { Takes take_is_range fields.old fields.new result }
{
    match fields.byte()? {
        0 => Ok(false),
        1 => Ok(true),
        _ => Err(BodyFault::InvalidParameters),
    }
}

/// Reads a signed number of two bytes.
fn take_signed(fields: &mut Fields) -> Result<i16, BodyFault>
    ensures { Takes take_signed fields.old fields.new result }
{
    let bytes = fields.bytes(2)?;
    Ok(i16::decode(bytes))
}

/// Reads a limit, a signed number of two bytes. `InvalidValue`: the limit isn't a sample of the
/// format.
fn take_limit(fields: &mut Fields, format: Format) -> Result<i16, BodyFault>
    ensures taken { Takes (take_limit format) fields.old fields.new result }
    ensures sample { IfOk result (λ z. IsTrue (is_sample format z)) }
{
    let number = take_signed(fields)?;
    if format.has_sample(number) {
        Ok(number)
    } else {
        Err(BodyFault::InvalidValue)
    }
}

/// Reads the upper limit. `InvalidValue`: the limit isn't a sample of the format, or is below the
/// lower limit.
fn take_upper(fields: &mut Fields, format: Format, lower: i16) -> Result<i16, BodyFault>
    ensures taken { Takes (take_upper format lower) fields.old fields.new result }
    ensures sample { IfOk result (λ z. IsTrue (is_sample format z)) }
    ensures ordered { IfOk result (λ z. IsTrue (int_le lower z)) }
{
    let upper = take_limit(fields, format)?;
    if lower <= upper {
        Ok(upper)
    } else {
        Err(BodyFault::InvalidValue)
    }
}

/// Reads the limit of a BINARY threshold, or both limits of a RANGE threshold.
fn take_limits(
    fields: &mut Fields,
    is_range: bool,
    format: Format,
) -> Result<ThresholdKind, BodyFault>
    requires { format ≢ FormatU32 }
    ensures taken { Takes (take_limits is_range format) fields.old fields.new result }
    ensures has { IfOk result (λ kind. IsTrue (has_limits format kind)) }
{
    let lower = take_limit(fields, format)?;
    if !is_range {
        return Ok(ThresholdKind::Binary(lower));
    }
    let upper = take_upper(fields, format, lower)?;
    Ok(ThresholdKind::Range(lower, upper))
}

impl Field for ThresholdRule {
    ghost grammar = { take_threshold };

    /// Reads a threshold.
    fn take(fields: &mut Fields) -> Result<ThresholdRule, BodyFault> {
        let is_range = take_is_range(fields)?;
        let format = take_input_format(fields)?;
        let kind = take_limits(fields, is_range, format)?;
        let true_value = fields.byte()?;
        let false_value = fields.byte()?;
        Ok(ThresholdRule::with_limits(format, kind, true_value, false_value))
    }
}

/// Returns the bytes of a BINARY threshold.
pub fn binary_bytes(format: Format, limit: i16, true_value: u8, false_value: u8) -> [u8; 6]
    ensures { result ≡ threshold_bytes (record {
      format = format;
      kind = Binary limit;
      true_value =
          true_value;
      false_value = false_value;
    }) }
{
    let [a, b] = limit.to_be_bytes();
    [0, format_number(format), a, b, true_value, false_value]
}

/// Returns the bytes of a RANGE threshold.
pub fn range_bytes(
    format: Format,
    lower: i16,
    upper: i16,
    true_value: u8,
    false_value: u8,
) -> [u8; 8]
    ensures { result ≡ threshold_bytes (record {
      format = format;
      kind = Range lower upper;
      true_value = true_value;
      false_value = false_value;
    }) }
{
    let [a, b] = lower.to_be_bytes();
    let [c, d] = upper.to_be_bytes();
    [
        1,
        format_number(format),
        a,
        b,
        c,
        d,
        true_value,
        false_value,
    ]
}
