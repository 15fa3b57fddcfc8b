//! Rows as windows read them, border included.
ghost use Rattle.std.specs.Prelude.{◌≡◌, ◌+◌, ◌-◌, ◌<◌, ◌≤◌, ◌++◌, pos, ◌+ℤ◌, ◌-ℤ◌, IfSome, length};
ghost use Rattle.std.specs.Prelude.{map, replicate};
ghost use Rattle.vx_base.specs.declared.format.Format.TheVariants.{U8};
ghost use Rattle.vx_base.specs.Image.{IsImage, run, pixel_at};
ghost use Rattle.vx_base.specs.Window.{sample_or_border};
ghost use Rattle.border_rows.specs.Seen.{border_value, row_seen, seen_along};

use image_core::{Image, Number, set_all};
use vx_base::Border;

/// A number type into which rows are loaded: `u8` or `i16`.
pub trait Loaded: Number {
    /// Returns the sample, converted to this number type.
    fn loaded(sample: u8) -> Self
        ensures { Self.value result ≡ pos sample };
}

impl Loaded for u8 {
    fn loaded(sample: u8) -> u8 {
        sample
    }
}

impl Loaded for i16 {
    fn loaded(sample: u8) -> i16 {
        i16::from(sample)
    }
}

/// Returns the border's sample next to a valid edge sample; 0 under an undefined border.
pub fn border_value(border: Border, edge: u8) -> u8
    ensures { pos result ≡ border_value border (pos edge) }
{
    match border {
        Border::Undefined => 0,
        Border::Constant(value) => value,
        Border::Replicate => edge,
    }
}

/// Returns the valid row that a window reads for row `y`: row `y` itself if it is valid, else the
/// nearest valid row if the border is replicated. `None` if neither is the case.
fn row_seen(image: &Image<'_>, border: Border, y: i32) -> Option<u16>
    requires { image.now.valid.y0 < image.now.valid.y1 }
    ensures value { result ≡ row_seen image.now.valid border y }
    ensures valid { IfSome result (λ line. line < image.now.valid.y1) }
    ensures image { IsImage image.now }
{
    let (first, end) = (image.valid().y0(), image.valid().y1());
    if i32::from(first) <= y && y < i32::from(end) {
        return Some(y as u16);
    }
    match border {
        Border::Replicate if y < i32::from(first) => Some(first),
        Border::Replicate => Some(end - 1),
        _ => None,
    }
}

/// Writes the samples to `out`, converted to the number type.
fn load_samples<T: Loaded>(samples: &[u8], out: &mut [T])
    requires { length samples.now ≡ length out.old }
    ensures { map T.value out.new ≡ map pos samples.now }
{
    for (i, item) in out.iter_mut().enumerate() {
        *item = T::loaded(samples[i]);
    }
}

/// Fills `out` with `before` copies of `left`, then the samples, then copies of `right`.
fn load_between<T: Loaded>(left: u8, before: usize, samples: &[u8], right: u8, out: &mut [T])
    requires { before + length samples.now ≤ length out.old }
    ensures { map T.value out.new ≡ replicate before (pos left)
        ++ (map pos samples.now
        ++ replicate (length out.old - (before + length samples.now)) (pos right)) }
{
    let (front, others) = out.split_at_mut(before);
    let (middle, back) = others.split_at_mut(samples.len());
    set_all(front, T::loaded(left));
    load_samples(samples, middle);
    set_all(back, T::loaded(right));
}

/// Fills `out` with the samples that a window reads along the valid row `line`, from column
/// `start - radius` on.
fn load_line<T: Loaded>(
    image: &Image<'_>,
    start: u16,
    radius: u16,
    line: u16,
    border: Border,
    out: &mut [T],
)
    requires format { image.now.format ≡ U8 }
    requires columns { image.now.valid.x0 < image.now.valid.x1 }
    requires line { line < image.now.valid.y1 }
    ensures { map T.value out.new ≡ run start (length out.old)
        (λ c. seen_along image.now border line (pos c -ℤ pos radius)) }
{
    let valid = image.valid();
    let row = image.row::<u8>(line);
    let left = border_value(border, row[usize::from(valid.x0())]);
    let right = border_value(border, row[usize::from(valid.x1()) - 1]);
    let (shift, begin) = (usize::from(radius), usize::from(start));
    let before = (usize::from(valid.x0()) + shift)
        .saturating_sub(begin)
        .min(out.len());
    let end = (usize::from(valid.x1()) + shift)
        .saturating_sub(begin)
        .min(out.len());
    let first = start.saturating_sub(radius).max(valid.x0()).min(valid.x1());
    let samples = image.part_of_row::<u8>(first, line, end - before);
    load_between(left, before, samples, right, out);
}

/// Fills `out` with the samples that a window reads in row `y` of a U8 image, from column
/// `start - radius` on. The caller must pass an image with at least one valid pixel.
pub fn load_row<T: Loaded>(
    image: &Image<'_>,
    start: u16,
    radius: u16,
    y: i32,
    border: Border,
    out: &mut [T],
)
    requires format { image.now.format ≡ U8 }
    requires columns { image.now.valid.x0 < image.now.valid.x1 }
    requires rows { image.now.valid.y0 < image.now.valid.y1 }
    ensures { map T.value out.new ≡ run start (length out.old)
        (λ c. sample_or_border image.now border (pos c -ℤ pos radius) y) }
{
    match row_seen(image, border, y) {
        Some(line) => load_line(image, start, radius, line, border, out),
        None => set_all(out, T::loaded(border_value(border, 0))),
    }
}

/// Returns the samples that a window reads in row `y` of a U8 image, at `count` columns from column
/// `x` on. The result borrows the image's samples, or `off_rows` if the window reads no valid row
/// for row `y`. The caller must pass valid columns, and an image with at least one valid row.
/// `off_rows` must have at least `count` samples, each equal to `border_value(border, 0)`.
pub fn row_in_place<'a>(
    image: &'a Image<'_>,
    x: u16,
    y: i32,
    count: usize,
    border: Border,
    off_rows: &'a [u8],
) -> &'a [u8]
    requires format { image.now.format ≡ U8 }
    requires rows { image.now.valid.y0 < image.now.valid.y1 }
    requires columns { (image.now.valid.x0 ≤ x) × (x + count ≤ image.now.valid.x1) }
    requires off_rows { map pos off_rows.now
        ≡ replicate (length off_rows.now) (border_value border (pos 0)) }
    requires room { count ≤ length off_rows.now }
    ensures value { map pos result.now
        ≡ run x count (λ c. sample_or_border image.now border (pos c) y) }
    ensures len { length result.now ≡ count }
{
    match row_seen(image, border, y) {
        Some(line) => image.part_of_row::<u8>(x, line, count),
        None => &off_rows[..count],
    }
}

/// Returns the sample that a window reads along the valid row `line`, in the column to the left of
/// column `x`.
fn sample_before(image: &Image<'_>, x: u16, line: u16, border: Border) -> u8
    requires format { image.now.format ≡ U8 }
    requires line { line < image.now.valid.y1 }
    requires columns { image.now.valid.x0 < image.now.valid.x1 }
    ensures { pos result ≡ seen_along image.now border line (pos x -ℤ pos 1) }
{
    let (valid, row) = (image.valid(), image.row::<u8>(line));
    if x <= valid.x0() {
        border_value(border, row[usize::from(valid.x0())])
    } else if x <= valid.x1() {
        row[usize::from(x) - 1]
    } else {
        border_value(border, row[usize::from(valid.x1()) - 1])
    }
}

/// Returns three samples that a window reads in row `y` of a U8 image: at the columns `x - 1`, `x`
/// and `x + 1`. The caller must pass a valid column `x`, and an image with at least one valid row.
pub fn seen_around(image: &Image<'_>, x: u16, y: i32, border: Border) -> (u8, u8, u8)
    requires format { image.now.format ≡ U8 }
    requires rows { image.now.valid.y0 < image.now.valid.y1 }
    requires columns { (image.now.valid.x0 ≤ x) × (x < image.now.valid.x1) }
    ensures left { pos result.0 ≡ sample_or_border image.now border (pos x -ℤ pos 1) y }
    ensures middle { pos result.1 ≡ sample_or_border image.now border (pos x) y }
    ensures right { pos result.2 ≡ sample_or_border image.now border (pos x +ℤ pos 1) y }
{
    match row_seen(image, border, y) {
        Some(line) => (
            sample_before(image, x, line, border),
            sample_before(image, x + 1, line, border),
            sample_before(image, x + 2, line, border),
        ),
        None => {
            let off = border_value(border, 0);
            (off, off, off)
        }
    }
}
