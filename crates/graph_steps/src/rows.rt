//! Reads and writes rows in a block of samples.
ghost use Rattle.std.specs.Prelude.{◌≡◌, ◌+◌, ◌-◌, ◌*◌, ◌≤◌, length, map, pos};
ghost use Rattle.vx_base.specs.declared.format.Format.TheVariants.{U8, U32};
ghost use Rattle.vx_base.specs.Image.{image_from, IsImage};
ghost use Rattle.vx_base.specs.Rectangle.{IsWithin};
ghost use Rattle.image_core.specs.Bands.{IsInRows, image_over_rows, rows_in};
ghost use Rattle.image_core.specs.Second.{second_object};
ghost use Rattle.stat_kernels.specs.Sums.{sum_on};
ghost use Rattle.graph_steps.specs.Planes.{written_among, rows_of_block};
ghost use Rattle.graph_steps.specs.Steps.{CanMake, kernel_image, sums_above};

use crate::kernel::Kernel;
use image_core::{Band, Image, ImageMut, Sample};
use stat_kernels::{integral_on, row_above};
use vx_base::{Desc, Rect};

/// Returns the image that has these rows, read from a block that begins with row `top`. All other
/// rows are 0.
pub fn read_rows<T: Sample>(
    desc: Desc,
    valid: Rect,
    top: u16,
    rows: Band,
    samples: &[T],
) -> Image<'_>
    requires format { desc.format ≡ T.format }
    requires rows { IsInRows desc.height rows }
    requires top { top ≤ rows.start }
    requires room { (rows.start - top + rows.count) * desc.width ≤ length samples.now }
    requires image { IsImage (image_over_rows desc valid rows
        (rows_of_block desc.width top rows (map T.value samples.now))) }
    ensures { result ≡ image_over_rows desc valid rows
        (rows_of_block desc.width top rows (map T.value samples.now)) }
{
    let width = usize::from(desc.width());
    let start = usize::from(rows.start - top) * width;
    let count = usize::from(rows.count) * width;
    Image::of_rows(desc, valid, rows, &samples[start..start + count])
}

/// Writes to `$samples` the rows that a kernel computes, and returns the output's valid rectangle.
/// The prover can reason about an output's samples only if their type is known, so each impl of
/// `RowSample` has this body.
macro_rules! make_rows {
    ($desc:expr, $rows:expr, $valid:expr, $samples:expr, $kernel:expr) => {{
        let mut output = ImageMut::of_rows($desc, $rows, $samples);
        output.set_valid($valid);
        $kernel.run(&mut output);
        output.valid()
    }};
}

/// A sample type in which kernels write rows.
pub trait RowSample: Sample {
    /// Writes to `samples` the rows that a kernel computes, and returns the output's valid
    /// rectangle. `valid` is the output's previous valid rectangle.
    fn make_rows(
        desc: Desc,
        rows: Band,
        valid: Rect,
        samples: &mut [Self],
        kernel: &Kernel<'_, '_, '_>,
    ) -> Rect
        requires format { desc.format ≡ Self.format }
        requires can { CanMake kernel.now.step.now kernel.now.first.now
            (second_object kernel.now.second.now) desc }
        requires rows { IsInRows desc.height rows }
        requires within { IsWithin valid desc.width desc.height }
        requires size { length samples.old ≡ rows.count * desc.width }
        ensures samples { map Self.value samples.new ≡ (rows_in rows (kernel_image kernel.now
            (image_over_rows desc valid rows (map Self.value samples.old)))).samples }
        ensures valid { result ≡ (kernel_image kernel.now
            (image_over_rows desc valid rows (map Self.value samples.old))).valid };
}

impl RowSample for u8 {
    fn make_rows(
        desc: Desc,
        rows: Band,
        valid: Rect,
        samples: &mut [u8],
        kernel: &Kernel<'_, '_, '_>,
    ) -> Rect {
        make_rows!(desc, rows, valid, samples, kernel)
    }
}

impl RowSample for i16 {
    fn make_rows(
        desc: Desc,
        rows: Band,
        valid: Rect,
        samples: &mut [i16],
        kernel: &Kernel<'_, '_, '_>,
    ) -> Rect {
        make_rows!(desc, rows, valid, samples, kernel)
    }
}

impl RowSample for u32 {
    fn make_rows(
        desc: Desc,
        rows: Band,
        valid: Rect,
        samples: &mut [u32],
        kernel: &Kernel<'_, '_, '_>,
    ) -> Rect {
        make_rows!(desc, rows, valid, samples, kernel)
    }
}

/// Writes these rows of an image's integral image to a block that begins with row `top`. The first
/// row continues from the row above it, or from zeros if the block doesn't have that row.
pub fn write_sums(width: u16, top: u16, rows: Band, image: &Image<'_>, samples: &mut [u32])
    requires input { image.now.format ≡ U8 }
    requires width { image.now.width ≡ width }
    requires rows { IsInRows image.now.height rows }
    requires top { top ≤ rows.start }
    requires room { (rows.start - top + rows.count) * width ≤ length samples.old }
    ensures { map pos samples.new ≡ written_among top rows
        (image_from image.now.width image.now.height U32 image.now.valid
        (sum_on image.now rows.start (sums_above width top rows.start (map pos samples.old))))
        (map pos samples.old) }
{
    let width = usize::from(width);
    let start = usize::from(rows.start - top) * width;
    let count = usize::from(rows.count) * width;
    let (above, others) = samples.split_at_mut(start);
    integral_on(image, rows, row_above(above, width), &mut others[..count]);
}
