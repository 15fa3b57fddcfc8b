//! Writes whole texts.
ghost use Rattle.std.specs.Prelude.{◌≡◌, ◌+◌, ◌≤◌, ◌++◌, length, drop, IfOk};
ghost use Rattle.vx_base.specs.declared.format.Format.TheVariants.{U8 as FormatU8};
ghost use Rattle.vx_base.specs.Picture.{picture_of};
ghost use Rattle.pgm_images.specs.Writing.{written_header, pgm_text};

use image_core::Image;
use itoa::write_digits;
use std::alloc::{AllocError, Global};
use std::marker::Model;
use vx_base::Desc;

/// The length of the longest header in bytes: both sides have four digits.
const LONGEST_HEADER: usize = 17;

/// The header of a text that is written: `P5`, the sides and the maxval 255.
#[derive(Debug, Drop)]
pub struct WrittenHeader {
    /// The header is at the end of these bytes; the bytes before `start` have no meaning.
    bytes: [u8; LONGEST_HEADER],
    start: usize,
}

impl Model for WrittenHeader {
    ghost use Rattle.std.specs.Prelude.{◌≤◌, ℕ, List, drop};

    ghost Value = { List ℕ };

    ghost view = { λ h. drop h.start h.bytes };

    ghost invariant = { λ h. h.start ≤ 17 };
}

impl WrittenHeader {
    /// Returns the header of a U8 picture with the sides of `desc`. Builds the header from its end.
    /// Allocates nothing.
    #[tactic(auto, using(crate::proofs::WritingLemmas::side_digits))]
    pub fn new(desc: Desc) -> WrittenHeader
        ensures { result ≡ written_header desc }
    {
        desc.prove_sides();
        let mut bytes = [0; LONGEST_HEADER];
        let maxval = put_before(&mut bytes, LONGEST_HEADER, b"\n255\n");
        let height = write_digits(u64::from(desc.height()), &mut bytes, maxval);
        let blank = put_before(&mut bytes, height, b" ");
        let width = write_digits(u64::from(desc.width()), &mut bytes, blank);
        let start = put_before(&mut bytes, width, b"P5\n");
        WrittenHeader { bytes, start }
    }

    /// Returns the bytes of the header, at most 17.
    pub fn bytes(&self) -> &[u8]
        ensures value { result.now ≡ self.now }
        ensures short { length result.now ≤ 17 }
    {
        &self.bytes[self.start..]
    }
}

/// Copies `part` into `bytes` right before index `end`. Returns the index where `part` begins.
fn put_before(bytes: &mut [u8], end: usize, part: &[u8]) -> usize
    requires fits { length part.now ≤ end }
    requires within { end ≤ length bytes.old }
    ensures start { result + length part.now ≡ end }
    ensures written { drop result bytes.new ≡ part.now ++ drop end bytes.old }
{
    let start = end - part.len();
    bytes[start..end].copy_from_slice(part);
    start
}

/// Returns the PGM text of a U8 image (Netpbm, pgm(5)): a raw text (P5) with maxval 255 and all
/// samples, whether valid or not. `read` returns the image's picture from this text. An error means
/// that there is no memory for the text.
pub fn write(alloc: Global, image: &Image<'_>) -> Result<Vec<u8>, AllocError>
    requires { image.now.format ≡ FormatU8 }
    ensures { IfOk result (λ text. text.items ≡ pgm_text (picture_of image.now)) }
{
    let desc = image.desc();
    // The contract of `valid` tells the prover that the image has a sample for each pixel.
    let _valid = image.valid();
    let header = WrittenHeader::new(desc);
    let mut text = Vec::with_capacity(alloc, LONGEST_HEADER + desc.sample_count())?;
    text.extend_from_slice(header.bytes())?;
    for y in 0..desc.height() {
        text.extend_from_slice(image.row::<u8>(y))?;
    }
    Ok(text)
}
