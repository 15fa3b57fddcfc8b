//! The samples of a text.
ghost use Rattle.std.specs.Prelude.{◌≡◌, ℕ, ◌≤◌, nat_le, ◌<◌, Some, None, IfSome, IfNone, IsTrue};
ghost use Rattle.std.specs.Prelude.{length, map, pos, ◌||◌, Bool, List, Option};
ghost use Rattle.vx_base.specs.Picture.{values, samples_format};
ghost use Rattle.pgm_images.specs.Header.{is_maxval, format_up_to};
ghost use Rattle.pgm_images.specs.Marks.{TakesNumber, take_next, ends};
ghost use Rattle.pgm_images.specs.Raster.{Reads, all_up_to, numbers_in, take_count};
ghost use Rattle.pgm_images.specs.Raster.{take_short_sample};
ghost use Rattle.pgm_images.specs.Raster.{take_long_sample, nothing_left, samples_up_to, PlainUpTo};

use crate::block::ShortNumbers;
use crate::fault::PgmFault;
use crate::header::{Encoding, Header};
use crate::marks::{ends, take_next};
use crate::text_sample::TextSample;
use vx_base::Samples;

/// How many numbers are read one by one before a block is tried again.
const SINGLES: usize = 16;

/// Reads numbers one by one and writes them over the samples `from..to`. A number above the maxval
/// is written as the maxval. Returns whether a number is above the maxval, and the text after the
/// numbers. `None`: the text has too few numbers for these samples.
fn read_singly<'a, T: TextSample>(
    maxval: u16,
    text: &'a [u8],
    samples: &mut [T],
    from: usize,
    to: usize,
) -> Option<(bool, &'a [u8])>
    requires limit { maxval ≤ T.limit }
    requires maxval { maxval ≤ 32767 }
    requires order { from ≤ to }
    requires within { to ≤ length samples.old }
    ensures some { IfSome result (λ taken. (above : Bool) (whole : Option (List ℕ)) →
        PlainUpTo T.value maxval from above samples.old text.now whole →
        PlainUpTo T.value maxval to (above || taken.0) samples.new taken.1.now whole) }
    ensures none { IfNone result ((above : Bool) (whole : Option (List ℕ)) →
        PlainUpTo T.value maxval from above samples.old text.now whole → whole ≡ None) }
    ensures same { length samples.new ≡ length samples.old }
{
    let mut rest = text;
    let mut high = false;
    for index in from..to {
        let (number, others) = take_next(rest)?;
        high = high | (number > maxval);
        samples[index] = T::of_number(number.min(maxval));
        rest = others;
    }
    Some((high, rest))
}

/// Reads one decimal number for each sample; only whitespace and comments may follow the last
/// number. A number above the maxval is written as the maxval, and is reported only after the whole
/// text is read.
fn read_plain<T: TextSample>(maxval: u16, text: &[u8], samples: &mut [T]) -> Result<(), PgmFault>
    requires limit { maxval ≤ T.limit }
    requires maxval { maxval ≤ 32767 }
    ensures { Reads (samples_up_to maxval
        (take_count take_next ends (length samples.old) text.now)) (map T.value samples.new)
        result }
{
    let mut block = ShortNumbers::new();
    let (mut rest, mut index) = (text, 0);
    let mut above = false;
    while index < samples.len() {
        let begins = block.renew(maxval, rest);
        if begins != 0 {
            let (end, next) = block.fill(maxval, begins, rest, samples, index);
            rest = &rest[end..];
            index = next;
            continue;
        }
        let next = index + SINGLES.min(samples.len() - index);
        let Some((high, others)) = read_singly(maxval, rest, samples, index, next) else {
            return Err(PgmFault::InvalidFormat);
        };
        above = above | high;
        rest = others;
        index = next;
    }
    if !ends(rest) {
        Err(PgmFault::InvalidFormat)
    } else if above {
        Err(PgmFault::InvalidValue)
    } else {
        Ok(())
    }
}

/// Returns the greatest of the bytes, or 0 if there are none.
fn greatest_byte(bytes: &[u8]) -> u8
    ensures { (n : ℕ) → nat_le result n ≡ all_up_to n bytes.now }
{
    let mut greatest = 0;
    for byte in bytes {
        greatest = greatest.max(*byte);
    }
    greatest
}

/// Reads one byte for each sample; no byte may be left over.
fn read_bytes(maxval: u16, bytes: &[u8], samples: &mut [u8]) -> Result<(), PgmFault>
    ensures { Reads (samples_up_to maxval
        (take_count take_short_sample nothing_left (length samples.old) bytes.now))
        (map pos samples.new) result }
{
    if bytes.len() != samples.len() {
        return Err(PgmFault::InvalidFormat);
    }
    samples.copy_from_slice(bytes);
    // No byte is above 255.
    if maxval >= 255 {
        return Ok(());
    }
    if u16::from(greatest_byte(bytes)) > maxval {
        return Err(PgmFault::InvalidValue);
    }
    Ok(())
}

/// Returns the number that the first two bytes encode, and the bytes after them.
fn take_pair(bytes: &[u8]) -> Option<(u16, &[u8])>
    ensures some { IfSome result
        (λ taken. TakesNumber (take_long_sample bytes.now) taken.0 taken.1.now) }
    ensures none { IfNone result (take_long_sample bytes.now ≡ None) }
{
    let (high, rest) = bytes.split_first()?;
    let (low, rest) = rest.split_first()?;
    Some((u16::from_be_bytes([*high, *low]), rest))
}

/// Reads two bytes for each sample; no byte may be left over.
fn read_pairs<T: TextSample>(maxval: u16, bytes: &[u8], samples: &mut [T]) -> Result<(), PgmFault>
    requires limit { maxval ≤ T.limit }
    requires maxval { maxval ≤ 32767 }
    ensures { Reads (samples_up_to maxval
        (take_count take_long_sample nothing_left (length samples.old) bytes.now))
        (map T.value samples.new) result }
{
    let mut rest = bytes;
    let mut above = false;
    for index in 0..samples.len() {
        let Some((number, others)) = take_pair(rest) else {
            return Err(PgmFault::InvalidFormat);
        };
        above = above | (number > maxval);
        samples[index] = T::of_number(number.min(maxval));
        rest = others;
    }
    if !rest.is_empty() {
        Err(PgmFault::InvalidFormat)
    } else if above {
        Err(PgmFault::InvalidValue)
    } else {
        Ok(())
    }
}

/// Reads one number for each sample from the text after a header, and writes it over the sample.
/// In a plain text, whitespace and comments may follow the last number read. The maxval must be 1
/// to 32767. The samples must be U8 if the maxval is below 256, else S16. After a fault the samples
/// may have any value. `InvalidFormat`: the text has too few numbers for the samples, or doesn't
/// end after the last number read. `InvalidValue`: a number is above the maxval, and there is no
/// other fault.
pub fn read_samples(header: Header, text: &[u8], samples: &mut Samples) -> Result<(), PgmFault>
    requires maxval { IsTrue (is_maxval header.maxval) }
    requires format { samples_format samples.old ≡ format_up_to header.maxval }
    ensures format { samples_format samples.new ≡ samples_format samples.old }
    ensures count { length (values samples.new) ≡ length (values samples.old) }
    ensures value { Reads (samples_up_to header.maxval
        (numbers_in header.encoding header.maxval (length (values samples.old)) text.now))
        (values samples.new) result }
{
    match (header.encoding, samples) {
        (Encoding::Plain, Samples::U8(samples)) => read_plain(header.maxval, text, samples),
        (Encoding::Plain, Samples::S16(samples)) => read_plain(header.maxval, text, samples),
        (Encoding::Raw, Samples::U8(samples)) => read_bytes(header.maxval, text, samples),
        (Encoding::Raw, Samples::S16(samples)) => read_pairs(header.maxval, text, samples),
        (_, Samples::U32(_)) => unreachable!(),
    }
}
