//! The number type of each format's samples.
ghost use Rattle.std.specs.Prelude.{◌≡◌, ◌*◌, ◌≤◌, ℕ, pos, map, length, replicate};
ghost use Rattle.vx_base.specs.declared.desc.TheConstants.{GREATEST_SIDE};
ghost use Rattle.vx_base.specs.declared.format.Format.{Format};
ghost use Rattle.vx_base.specs.declared.format.Format.TheVariants.{U8, S16, U32};
ghost use Rattle.vx_base.specs.Rectangle.{empty_rectangle};
ghost use Rattle.vx_base.specs.Image.{image_over, band, zero_outside};
ghost use Rattle.image_core.specs.Bands.{IsInRows};
ghost use Rattle.image_core.specs.Rows.{sample_from};
ghost use Rattle.image_core.specs.Slices.{slice_format, slice_values};

use crate::band::Band;
use crate::image_mut::ImageMut;
use crate::number::Number;
use crate::row_update::RowChange;
use crate::rows::change_rows;
use crate::slice::Slice;
use vx_base::{Desc, GREATEST_SIDE, Rect};

/// The number type of a format's samples. `Image::row` and `ImageMut::write` are generic over it.
pub trait Sample: Number {
    ghost use Rattle.image_core.specs.declared.image_mut.ImageMut.{ImageMut};
    ghost use Rattle.image_core.specs.Target.{target_image, IsTarget, SameSlices};

    /// The format of images whose samples have this type.
    ghost format: { Format };

    /// Wraps samples of this type in a `Slice` of their format.
    fn lend(samples: &[Self]) -> Slice<'_>
        ensures format { slice_format result ≡ format }
        ensures value { slice_values result ≡ map Self.value samples.now };

    /// Unwraps the samples from a `Slice`, which must have this type's format.
    fn lent(samples: Slice<'_>) -> &[Self]
        requires { slice_format samples ≡ format }
        ensures { map Self.value result.now ≡ slice_values samples.entry };

    /// Returns `count` samples that are 0. `count` must be at most the greatest width of an image.
    fn zeros<'a>(count: usize) -> &'a [Self]
        requires { count ≤ GREATEST_SIDE }
        ensures { map Self.value result.now ≡ replicate count (pos 0) };

    /// The ghost name of an output's slice for this sample type. An output has one slice for each
    /// sample type.
    ghost slice_name: { ImageMut → ℕ };

    /// Returns the output over the samples of a band, as `ImageMut::of_rows` does.
    fn lend_mut<'a>(desc: Desc, rows: Band, samples: &'a mut [Self]) -> ImageMut<'a>
        requires format { desc.format ≡ format }
        requires rows { IsInRows desc.height rows }
        requires size { length samples.old ≡ rows.count * desc.width }
        ensures target { IsTarget result }
        ensures rows { result.rows ≡ rows }
        ensures value { target_image result ≡ image_over desc empty_rectangle
            (map Self.value samples.old) }
        ensures same_slice { slice_name result ≡ samples.entry.ghost_name };

    /// Applies the change to an output's samples within the change's area, and sets the output's
    /// other samples to 0.
    fn apply<S, C: RowChange<Self, S>>(output: &mut ImageMut<'_>, change: &C, scratch: &mut [S])
        requires target { IsTarget output.old }
        requires format { (target_image output.old).format ≡ format }
        requires room { (C.area change.now).x1 ≤ (target_image output.old).width }
        requires scratch { C.scratch_len change.now ≤ length scratch.old }
        ensures value { target_image output.new
            ≡ image_over output.old.desc output.old.valid
            (band (target_image output.old).width output.old.rows.start output.old.rows.count
            (zero_outside (C.area change.now) (λ x y. C.next change.now x y
            (sample_from output.old.desc.width output.old.rows.start
            (target_image output.old).samples x y)))) }
        ensures slices { SameSlices output.old output.new };
}

/// The number of samples in the longest row.
const LONGEST_ROW: usize = GREATEST_SIDE as usize;

/// A row of zeros, as long as the longest row. There is one for each number type.
static ZERO_BYTES: [u8; LONGEST_ROW] = [0; LONGEST_ROW];

static ZERO_SHORTS: [i16; LONGEST_ROW] = [0; LONGEST_ROW];

static ZERO_WORDS: [u32; LONGEST_ROW] = [0; LONGEST_ROW];

/// Makes an output over one of three slices. The other two must be empty.
macro_rules! image_mut {
    ($desc:expr, $rows:expr, $bytes:expr, $shorts:expr, $words:expr) => {
        ImageMut {
            desc: $desc,
            valid: Rect::empty(),
            rows: $rows,
            bytes: $bytes,
            shorts: $shorts,
            words: $words,
        }
    };
}

/// Unwraps the samples from a `Slice` of the format `$format`.
macro_rules! lent_as {
    ($samples:expr, $format:ident) => {
        match $samples {
            Slice::$format(samples) => samples,
            _ => unreachable!(),
        }
    };
}

/// Changes the samples in one of an output's slices.
macro_rules! change_slice {
    ($output:expr, $change:expr, $scratch:expr, $slice:ident) => {{
        let (width, _limits) = ($output.desc.width(), $output.desc.height());
        change_rows($change, width, $output.rows, $scratch, $output.$slice);
    }};
}

impl Sample for u8 {
    ghost format = { U8 };

    ghost slice_name = { λ image. image.bytes.ghost_name };

    fn lend(samples: &[u8]) -> Slice<'_> {
        Slice::U8(samples)
    }

    fn lent(samples: Slice<'_>) -> &[u8] {
        lent_as!(samples, U8)
    }

    fn zeros<'a>(count: usize) -> &'a [u8] {
        &ZERO_BYTES[..count]
    }

    fn lend_mut<'a>(desc: Desc, rows: Band, samples: &'a mut [u8]) -> ImageMut<'a> {
        image_mut!(desc, rows, samples, &mut [], &mut [])
    }

    fn apply<S, C: RowChange<u8, S>>(output: &mut ImageMut<'_>, change: &C, scratch: &mut [S]) {
        change_slice!(output, change, scratch, bytes);
    }
}

impl Sample for i16 {
    ghost format = { S16 };

    ghost slice_name = { λ image. image.shorts.ghost_name };

    fn lend(samples: &[i16]) -> Slice<'_> {
        Slice::S16(samples)
    }

    fn lent(samples: Slice<'_>) -> &[i16] {
        lent_as!(samples, S16)
    }

    fn zeros<'a>(count: usize) -> &'a [i16] {
        &ZERO_SHORTS[..count]
    }

    fn lend_mut<'a>(desc: Desc, rows: Band, samples: &'a mut [i16]) -> ImageMut<'a> {
        image_mut!(desc, rows, &mut [], samples, &mut [])
    }

    fn apply<S, C: RowChange<i16, S>>(output: &mut ImageMut<'_>, change: &C, scratch: &mut [S]) {
        change_slice!(output, change, scratch, shorts);
    }
}

impl Sample for u32 {
    ghost format = { U32 };

    ghost slice_name = { λ image. image.words.ghost_name };

    fn lend(samples: &[u32]) -> Slice<'_> {
        Slice::U32(samples)
    }

    fn lent(samples: Slice<'_>) -> &[u32] {
        lent_as!(samples, U32)
    }

    fn zeros<'a>(count: usize) -> &'a [u32] {
        &ZERO_WORDS[..count]
    }

    fn lend_mut<'a>(desc: Desc, rows: Band, samples: &'a mut [u32]) -> ImageMut<'a> {
        image_mut!(desc, rows, &mut [], &mut [], samples)
    }

    fn apply<S, C: RowChange<u32, S>>(output: &mut ImageMut<'_>, change: &C, scratch: &mut [S]) {
        change_slice!(output, change, scratch, words);
    }
}
