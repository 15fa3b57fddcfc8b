//! Formats of samples, as numbers.
ghost use Rattle.std.specs.Prelude.{◌≡◌, ◌≢◌, IfOk};
ghost use Rattle.vx_base.specs.declared.format.Format.TheVariants.{U32 as FormatU32};
ghost use Rattle.vx_wire.specs.Fields.{Takes};
ghost use Rattle.vx_wire.specs.Format.{format_number, open_format_number, take_format};
ghost use Rattle.vx_wire.specs.Format.{take_input_format, take_open_format};

use crate::body_fault::BodyFault;
use crate::fields::Fields;
use vx_base::Format;

/// Reads the format of an image: 1, 2 or 3. `InvalidFormat`: the number is none of these.
pub fn take_format(fields: &mut Fields) -> Result<Format, BodyFault>
    ensures { Takes take_format fields.old fields.new result }
{
    match fields.byte()? {
        1 => Ok(Format::U8),
        2 => Ok(Format::S16),
        3 => Ok(Format::U32),
        _ => Err(BodyFault::InvalidFormat),
    }
}

/// Reads the format of a partial description: 1, 2 or 3, or 0 if the format is open.
/// `InvalidFormat`: the number is none of these.
pub fn take_open_format(fields: &mut Fields) -> Result<Option<Format>, BodyFault>
    ensures { Takes take_open_format fields.old fields.new result }
{
    match fields.byte()? {
        0 => Ok(None),
        1 => Ok(Some(Format::U8)),
        2 => Ok(Some(Format::S16)),
        3 => Ok(Some(Format::U32)),
        _ => Err(BodyFault::InvalidFormat),
    }
}

/// Reads the input format of a lookup table or a threshold: 1 or 2. `InvalidFormat`: the number is
/// neither.
pub fn take_input_format(fields: &mut Fields) -> Result<Format, BodyFault>
    ensures taken { Takes take_input_format fields.old fields.new result }
    ensures input { IfOk result (λ f. f ≢ FormatU32) }
{
    match fields.byte()? {
        1 => Ok(Format::U8),
        2 => Ok(Format::S16),
        _ => Err(BodyFault::InvalidFormat),
    }
}

/// Returns the number of a format.
pub fn format_number(format: Format) -> u8
    ensures { result ≡ format_number format }
{
    match format {
        Format::U8 => 1,
        Format::S16 => 2,
        Format::U32 => 3,
    }
}

/// Returns the number of a format, or 0 if the format is open.
pub fn open_format_number(format: Option<Format>) -> u8
    ensures { result ≡ open_format_number format }
{
    match format {
        None => 0,
        Some(format) => format_number(format),
    }
}
