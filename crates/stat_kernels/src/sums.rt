//! Integral images.
ghost use Rattle.std.specs.Prelude.{◌≡◌, ◌⊎◌, ◌+◌, ◌*◌, ◌<◌, ◌≤◌, ℕ, pos, map, length, slice_index};
ghost use Rattle.std.specs.Prelude.{IfSome};
ghost use Rattle.std.specs.Option.{option_copied};
ghost use Rattle.vx_base.specs.declared.desc.TheConstants.{GREATEST_SIDE};
ghost use Rattle.vx_base.specs.declared.format.Format.TheVariants.{U8, U32};
ghost use Rattle.vx_base.specs.Image.{ImageValue, band, run, zero_outside};
ghost use Rattle.vx_base.specs.Statistics.{sum_to, integral};
ghost use Rattle.image_core.specs.Bands.{IsInRows};
ghost use Rattle.image_core.specs.Fits.{HaveSameSize};
ghost use Rattle.image_core.specs.Target.{target_image, IsTarget, Writes};
ghost use Rattle.stat_kernels.specs.Sums.{AreRowsOf, IsRowAbove, last_row, next_sum, row_sums};
ghost use Rattle.stat_kernels.specs.Sums.{sum_on, sums_row};

use crate::valid::valid_row;
use image_core::{Band, Image, ImageMut, Whole};
use lane_rows::running_sums;
use vx_base::{GREATEST_SIDE, Rect};

const LONGEST_ROW: usize = GREATEST_SIDE as usize;

/// The row of sums above row 0 of an integral image: all zeros.
static ZEROS: [u32; LONGEST_ROW] = [0; LONGEST_ROW];

/// Returns `above`, or `width` zeros at the top of an image, where `above` is `None`.
fn sums_above<'a>(above: Option<&'a [u32]>, width: usize) -> &'a [u32]
    requires above_len { IfSome above (λ row. length row.now ≡ width) }
    requires room { width ≤ GREATEST_SIDE }
    ensures sums { (x : ℕ) → slice_index result.now x ≡ row_sums (option_copied above.entry) x }
    ensures len { length result.now ≡ width }
{
    match above {
        Some(above) => above,
        None => &ZEROS[..width],
    }
}

/// Writes row `y` of an integral image from the row above it.
fn write_integral_row(image: &Image<'_>, y: u16, above: &[u32], out: &mut [u32])
    requires format { image.now.format ≡ U8 }
    requires row { y < image.now.height }
    requires above_len { length above.now ≡ image.now.width }
    requires out_len { length out.old ≡ image.now.width }
    ensures { map pos out.new ≡ run 0 image.now.width
        (λ x. zero_outside image.now.valid (next_sum image.now (slice_index above.now)) x y) }
{
    let row = valid_row::<u8>(image, y);
    let x = usize::from(image.valid().x0());
    let (left, others) = out.split_at_mut(x);
    let (middle, right) = others.split_at_mut(row.len());
    left.fill(0);
    running_sums(row, &above[x..x + row.len()], middle);
    right.fill(0);
}

/// Returns the last `width` sums of `before`, or `None` if `before` is empty. `before` must be
/// empty or have at least `width` sums.
pub fn row_above(before: &[u32], width: usize) -> Option<&[u32]>
    requires { length before.now ≡ 0 ⊎ width ≤ length before.now }
    ensures { option_copied result ≡ last_row width before.now }
{
    if before.is_empty() {
        None
    } else {
        Some(&before[before.len() - width..])
    }
}

/// Writes a band of an integral image, continuing from `above`: the row above the band, or `None`
/// at the top of an image. Reads only the band's rows of `image`. Let `whole` be an image that has
/// these rows from row `line` on. If `above` is the row above row `line` in the integral image of
/// `whole`, this function writes `rows.count` rows of that integral image, from row `line` on.
pub fn integral_on(image: &Image<'_>, rows: Band, above: Option<&[u32]>, samples: &mut [u32])
    requires format { image.now.format ≡ U8 }
    requires rows { IsInRows image.now.height rows }
    requires above_len { IfSome above (λ row. length row.now ≡ image.now.width) }
    requires size { length samples.old ≡ rows.count * image.now.width }
    ensures sums { map pos samples.new ≡ band image.now.width rows.start rows.count
        (zero_outside image.now.valid
        (sum_on image.now rows.start (row_sums (option_copied above.entry)))) }
    ensures whole { (whole : ImageValue) (line : ℕ) → AreRowsOf image.now rows whole line →
        IsRowAbove whole line (option_copied above.entry) → map pos samples.new
        ≡ band image.now.width line rows.count (zero_outside whole.valid (sum_to whole)) }
{
    let width = usize::from(image.desc().width());
    for k in 0..rows.count {
        let (before, others) = samples.split_at_mut(usize::from(k) * width);
        let above = sums_above(row_above(before, width).or(above), width);
        write_integral_row(image, rows.start + k, above, &mut others[..width]);
    }
}

/// Writes row `y` of the integral image. Computes the rows above it first, one by one from the top.
fn write_row_from_top(image: &Image<'_>, y: u16, out: &mut [u32])
    requires format { image.now.format ≡ U8 }
    requires row { y < image.now.height }
    requires out_len { length out.old ≡ image.now.width }
    ensures { map pos out.new ≡ sums_row image.now y }
{
    let (_valid, _limits) = (image.valid(), image.desc().width());
    let mut scratch = [0; LONGEST_ROW];
    let above = &mut scratch[..out.len()];
    integral_on(image, Band { start: 0, count: 1 }, None, out);
    for line in 0..y {
        above.copy_from_slice(out);
        let row = Band {
            start: line + 1,
            count: 1,
        };
        integral_on(image, row, Some(above), out);
    }
}

/// Writes a band of the integral image. Computes the row above the band first, from the top of the
/// image.
fn write_integral_rows(image: &Image<'_>, rows: Band, samples: &mut [u32])
    requires format { image.now.format ≡ U8 }
    requires rows { IsInRows image.now.height rows }
    requires size { length samples.old ≡ rows.count * image.now.width }
    ensures { map pos samples.new ≡ band image.now.width rows.start rows.count
        (zero_outside image.now.valid (sum_to image.now)) }
{
    let _valid = image.valid();
    if rows.start == 0 {
        integral_on(image, rows, None, samples);
    } else {
        let mut scratch = [0; LONGEST_ROW];
        let above = &mut scratch[..usize::from(image.desc().width())];
        write_row_from_top(image, rows.start - 1, above);
        integral_on(image, rows, Some(above), samples);
    }
}

/// An image whose integral image is written.
#[derive(Drop)]
struct Sums<'a, 'b> {
    image: &'a Image<'b>,
    ghost format: { image.now.format ≡ U8 },
}

impl Whole for Sums<'_, '_> {
    ghost at = { λ s. sum_to s.image.now };

    ghost area = { λ s. s.image.now.valid };

    ghost width = { λ s. s.image.now.width };

    ghost height = { λ s. s.image.now.height };

    fn area(&self) -> Rect {
        self.image.valid()
    }

    fn fill(&self, rows: Band, out: &mut [u32]) {
        write_integral_rows(self.image, rows, out);
    }
}

/// Writes the integral image of a U8 image (OpenVX 1.3, "Integral Image") to a U32 image of its
/// size; sums are modulo 2^32.
#[tactic(auto, using(image_core::proofs::SizeLaws::same_sides))]
pub fn integral(image: &Image<'_>, output: &mut ImageMut<'_>)
    requires format { image.now.format ≡ U8 }
    requires target { IsTarget output.old }
    requires output_format { (target_image output.old).format ≡ U32 }
    requires size { HaveSameSize (target_image output.old) image.now }
    ensures { Writes (integral image.now) output.old output.new }
{
    output.write_whole(&Sums { image });
}
