//! 3x3 window functions on whole images.
ghost use Rattle.std.specs.Prelude.{◌≡◌, ◌+◌, ◌*◌, ◌<◌, ◌≤◌, ℕ, ℤ, List, pos, map, length};
ghost use Rattle.std.specs.Prelude.{replicate, refl};
ghost use Rattle.vx_base.specs.declared.format.Format.TheVariants.{U8};
ghost use Rattle.vx_base.specs.Image.{run};
ghost use Rattle.vx_base.specs.Window.{sample_or_border, nine_around, window_valid, from_nine};
ghost use Rattle.image_core.specs.Fits.{HaveSameSize};
ghost use Rattle.image_core.specs.Target.{target_image, IsTarget, Writes};
ghost use Rattle.border_rows.specs.Seen.{border_value};
ghost use Rattle.lane_rows.specs.Windows.{nine_of, nine_from};

use border_rows::{border_value, row_in_place, seen_around, window_valid};
use image_core::{Image, ImageMut, RowFormula, Sample, set_all};
use lane_rows::{Item, ThreeItems};
use vx_base::{Border, GREATEST_SIDE, Rect};

/// A type that is an `Item` of `lane_rows` and a `Sample`: `u8` or `i16`. A number has the same
/// value in both traits.
pub trait SampleItem: Sample + Item {
    ghost same: { Self.Item.value ≡ Self.Number.value };
}

impl SampleItem for u8 {
    ghost same = { refl };
}

impl SampleItem for i16 {
    ghost same = { refl };
}

/// A function of a 3x3 window.
pub trait OfWindow<T: Sample, S> {
    /// The output sample, from the nine samples in row-major order.
    ghost formula: { Self → List ℤ → ℤ };

    /// The number of scratch items that the function needs for each column of three rows.
    ghost scratch_rows: { ℕ };

    /// Returns the output sample of one window.
    fn item(&self, above: ThreeItems, here: ThreeItems, below: ThreeItems) -> T
        ensures { T.value result ≡ formula self.now (nine_of above here below) };

    /// Writes the results for all windows in three rows. `out` must have two items fewer than each
    /// row.
    fn write_row(&self, above: &[u8], here: &[u8], below: &[u8], scratch: &mut [S], out: &mut [T])
        requires above { length above.now ≡ length out.old + 2 }
        requires here { length here.now ≡ length out.old + 2 }
        requires below { length below.now ≡ length out.old + 2 }
        requires scratch { scratch_rows * length above.now ≤ length scratch.old }
        ensures { map T.value out.new ≡ run 0 (length out.old)
            (λ i. formula self.now (nine_from above.now here.now below.now i)) };
}

/// The results of a window function on a U8 image under a border, and their valid rectangle.
#[derive(Drop)]
struct FromNine<'a, 'b, K> {
    kernel: &'a K,
    image: &'a Image<'b>,
    border: Border,
    /// A row of the border's samples. Windows read it for rows above and below the valid rectangle.
    /// Under REPLICATE they read the nearest valid row instead.
    off_rows: &'a [u8],
    area: Rect,
    ghost format: { image.now.format ≡ U8 },
    ghost columns: { (area.x1 ≤ image.now.valid.x1) ×
        (area.x0 < area.x1 → image.now.valid.x0 < image.now.valid.x1) },
    ghost inside: { area.x0 < area.x1 → image.now.valid.x0 ≤ area.x0 },
    ghost rows: { (area.y1 ≤ image.now.valid.y1) ×
        (area.y0 < area.y1 → image.now.valid.y0 < image.now.valid.y1) },
    ghost off: { map pos off_rows.now ≡ replicate (length off_rows.now)
        (border_value border (pos 0)) },
    ghost room: { image.now.width ≤ length off_rows.now },
}

impl<K> FromNine<'_, '_, K> {
    /// Writes the sample of one pixel.
    fn write_pixel<T: Sample, S>(&self, x: u16, y: u16, out: &mut [T])
    where
        K: OfWindow<T, S>,
        requires rows { self.now.image.now.valid.y0 < self.now.image.now.valid.y1 }
        requires column { (self.now.image.now.valid.x0 ≤ x) × (x < self.now.image.now.valid.x1) }
        requires one { length out.old ≡ 1 }
        ensures { map T.value out.new ≡ run x 1 (λ k. K.formula self.now.kernel.now (nine_around
            (sample_or_border self.now.image.now self.now.border) (pos k) (pos y))) }
    {
        let (image, border, line) = (self.image, self.border, i32::from(y));
        let above = seen_around(image, x, line - 1, border);
        let here = seen_around(image, x, line, border);
        let below = seen_around(image, x, line + 1, border);
        set_all(out, self.kernel.item(above, here, below));
    }

    /// Writes to `out` the samples of row `y` from column `x + 1` on. The windows of these samples
    /// must lie in valid columns. The rows are read without a copy.
    fn write_inside<T: Sample, S>(&self, x: u16, y: u16, scratch: &mut [S], out: &mut [T])
    where
        K: OfWindow<T, S>,
        requires rows { self.now.image.now.valid.y0 < self.now.image.now.valid.y1 }
        requires columns { (self.now.image.now.valid.x0 ≤ x) ×
            (x + length out.old + 2 ≤ self.now.image.now.valid.x1) }
        requires scratch { K.scratch_rows * (length out.old + 2) ≤ length scratch.old }
        ensures { map T.value out.new ≡ run (x + 1) (length out.old)
            (λ k. K.formula self.now.kernel.now (nine_around
            (sample_or_border self.now.image.now self.now.border) (pos k) (pos y))) }
    {
        let (image, border, off_rows) = (self.image, self.border, self.off_rows);
        let (_valid, line) = (image.valid(), i32::from(y));
        let count = out.len() + 2;
        let above = row_in_place(image, x, line - 1, count, border, off_rows);
        let here = row_in_place(image, x, line, count, border, off_rows);
        let below = row_in_place(image, x, line + 1, count, border, off_rows);
        self.kernel.write_row(above, here, below, scratch, out);
    }
}

impl<T: Sample, S, K: OfWindow<T, S>> RowFormula<T, S> for FromNine<'_, '_, K> {
    ghost at = { λ s x y. K.formula s.kernel.now
        (nine_around (sample_or_border s.image.now s.border) (pos x) (pos y)) };

    ghost area = { λ s. s.area };

    ghost most = { λ _. 65535 };

    ghost scratch_len = { λ s. K.scratch_rows * s.image.now.width };

    fn area(&self) -> Rect {
        self.area
    }

    fn most(&self) -> u16 {
        u16::MAX
    }

    fn fill(&self, x: u16, y: u16, scratch: &mut [S], out: &mut [T]) {
        let (_valid, last) = (self.image.valid(), out.len() - 1);
        if last == 0 {
            self.write_pixel::<T, S>(x, y, out);
        } else {
            // Only the windows of the first and the last pixel may reach beyond the valid columns.
            let (first, others) = out.split_at_mut(1);
            let (inside, end) = others.split_at_mut(last - 1);
            self.write_pixel::<T, S>(x, y, first);
            self.write_inside(x, y, scratch, inside);
            self.write_pixel::<T, S>(x + last as u16, y, end);
        }
    }
}

/// Writes the results of a window function, given a row of the border's samples.
fn write_windows_with_rows<T: Sample, S, K: OfWindow<T, S>>(
    kernel: &K,
    image: &Image<'_>,
    output: &mut ImageMut<'_>,
    border: Border,
    off_rows: &[u8],
    scratch: &mut [S],
)
    requires target { IsTarget output.old }
    requires size { HaveSameSize (target_image output.old) image.now }
    requires input_format { image.now.format ≡ U8 }
    requires format { (target_image output.old).format ≡ T.format }
    requires off_rows { map pos off_rows.now
        ≡ replicate (length off_rows.now) (border_value border (pos 0)) }
    requires room { image.now.width ≤ length off_rows.now }
    requires scratch { K.scratch_rows * image.now.width ≤ length scratch.old }
    ensures { Writes (from_nine T.format (K.formula kernel.now) border image.now)
        output.old output.new }
{
    let area = window_valid(border, 1, 1, image.valid());
    let formula = FromNine {
        kernel,
        image,
        border,
        off_rows,
        area,
    };
    output.write_by_rows::<T, S, _>(&formula, scratch);
}

/// The greatest width of an image.
pub const SIDE: usize = GREATEST_SIDE as usize;

/// Makes a call with a slice of items on the stack.
///
/// `with_scratch!(count, [item; most], row => call)` binds the slice to `row`. `count` is the
/// image's width. Initializing the items takes time, so a narrow image gets a short slice. If
/// `count` is at most 64, the slice has 64 items. If `count` is 65 to 512, the slice has 512 items.
/// For a greater `count` it has `most` items. With `[item; small, middle, most]` the three lengths
/// are `small`, `middle` and `most`.
macro_rules! with_scratch {
    ($count:expr, [$item:expr; $most:expr], $row:ident => $call:expr) => {
        with_scratch!($count, [$item; 64, 512, $most], $row => $call)
    };
    (
        $count:expr,
        [$item:expr; $small:expr, $middle:expr, $most:expr],
        $row:ident => $call:expr
    ) => {
        if $count <= 64 {
            let $row = &mut [$item; $small];
            $call
        } else if $count <= 512 {
            let $row = &mut [$item; $middle];
            $call
        } else {
            let $row = &mut [$item; $most];
            $call
        }
    };
}

pub(crate) use with_scratch;

/// Writes the results of a window function on a U8 image to an output of the same size. The row of
/// the border's samples is on the stack.
pub fn write_windows<T: Sample, S, K: OfWindow<T, S>>(
    kernel: &K,
    image: &Image<'_>,
    output: &mut ImageMut<'_>,
    border: Border,
    scratch: &mut [S],
)
    requires target { IsTarget output.old }
    requires size { HaveSameSize (target_image output.old) image.now }
    requires input_format { image.now.format ≡ U8 }
    requires format { (target_image output.old).format ≡ T.format }
    requires scratch { K.scratch_rows * image.now.width ≤ length scratch.old }
    ensures { Writes (from_nine T.format (K.formula kernel.now) border image.now)
        output.old output.new }
{
    let _limits = image.valid();
    let (width, off) = (image.desc().width(), border_value(border, 0));
    with_scratch!(width, [off; SIDE], rows => {
        write_windows_with_rows(kernel, image, output, border, rows, scratch)
    })
}
