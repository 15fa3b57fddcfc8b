//! The header of a text: its encoding, width, height and maxval.
ghost use Rattle.std.specs.Prelude.{◌≡◌, IfSome, IfNone, None, Some, Ok, Err, IfOk, IfErr, IsTrue};
ghost use Rattle.pgm_images.specs.Header.{take_magic, past_header, take_header, is_maxval};
ghost use Rattle.pgm_images.specs.Header.{format_up_to, header_description, TakesHeader};

use crate::fault::PgmFault;
use crate::marks::{is_space, take_next};
use vx_base::{Desc, Format};

/// How the samples of a text are encoded.
#[derive(Clone, Copy, Debug, PartialEq, Eq)]
pub enum Encoding {
    /// P2: decimal numbers.
    Plain,
    /// P5: one or two bytes for each sample.
    Raw,
}

/// The fields of a header. A number above 65535 is stored as 65535. That is still larger than any
/// width, height or maxval that is accepted.
#[derive(Clone, Copy, Debug)]
pub struct Header {
    pub encoding: Encoding,
    pub width: u16,
    pub height: u16,
    pub maxval: u16,
}

/// Returns the encoding that `P2` or `P5` at the front stands for, and the text after these two
/// bytes.
fn take_magic(text: &[u8]) -> Option<(Encoding, &[u8])>
    ensures some { IfSome result (λ taken. take_magic text.now ≡ Some (taken.0, taken.1.now)) }
    ensures none { IfNone result (take_magic text.now ≡ None) }
{
    match text {
        [b'P', b'2', rest @ ..] => Some((Encoding::Plain, rest)),
        [b'P', b'5', rest @ ..] => Some((Encoding::Raw, rest)),
        _ => None,
    }
}

/// Returns the text after the header, given the text after the maxval. A header of P5 ends with one
/// whitespace byte right after the maxval.
fn past_header(encoding: Encoding, text: &[u8]) -> Option<&[u8]>
    ensures some { IfSome result (λ rest. past_header encoding text.now ≡ Some rest.now) }
    ensures none { IfNone result (past_header encoding text.now ≡ None) }
{
    match (encoding, text.split_first()) {
        (Encoding::Plain, _) => Some(text),
        (Encoding::Raw, Some((byte, rest))) if is_space(*byte) => Some(rest),
        (Encoding::Raw, _) => None,
    }
}

/// Returns the header at the front, and the text after it. `None`: the text has no header.
pub fn take_header(text: &[u8]) -> Option<(Header, &[u8])>
    ensures some { IfSome result (λ taken. TakesHeader (take_header text.now) taken.0 taken.1.now) }
    ensures none { IfNone result (take_header text.now ≡ None) }
{
    let (encoding, rest) = take_magic(text)?;
    let (width, rest) = take_next(rest)?;
    let (height, rest) = take_next(rest)?;
    let (maxval, rest) = take_next(rest)?;
    let rest = past_header(encoding, rest)?;
    let header = Header {
        encoding,
        width,
        height,
        maxval,
    };
    Some((header, rest))
}

impl Header {
    /// Returns the description of a picture with this header. `InvalidDimension`: a side isn't 1 to
    /// 8192. `InvalidFormat`: the sides are 1 to 8192, but the maxval isn't 1 to 32767.
    pub fn read_description(self) -> Result<Desc, PgmFault>
        ensures value { result ≡ header_description self.width self.height self.maxval }
        ensures allowed { IfOk result (λ d. IsTrue (is_maxval self.maxval)) }
        ensures format { IfOk result (λ d. d.format ≡ format_up_to self.maxval) }
    {
        let format = if self.maxval < 256 {
            Format::U8
        } else {
            Format::S16
        };
        match Desc::new(self.width, self.height, format) {
            None => Err(PgmFault::InvalidDimension),
            Some(desc) if 1 <= self.maxval && self.maxval <= 32767 => Ok(desc),
            Some(_) => Err(PgmFault::InvalidFormat),
        }
    }
}
