//! The valid samples of an image, row by row.
ghost use Rattle.std.specs.Prelude.{◌≡◌, ◌+◌, ◌<◌, ◌≤◌, map, length};
ghost use Rattle.stat_kernels.specs.Part.{columns_in, valid_run};

use image_core::{Image, Sample};
use vx_base::Rect;

/// Returns the number of pixels that a rectangle has in row `y`.
fn columns_in(valid: Rect, y: u16) -> u16
    ensures { result ≡ columns_in valid y }
{
    if valid.y0() <= y && y < valid.y1() {
        valid.x1() - valid.x0()
    } else {
        0
    }
}

/// Returns the valid samples of row `y`: none if the row is above or below the valid rectangle.
pub fn valid_row<'a, T: Sample>(image: &'a Image<'_>, y: u16) -> &'a [T]
    requires format { image.now.format ≡ T.format }
    requires below { y < image.now.height }
    ensures value { map T.value result.now ≡ valid_run image.now y }
    ensures len { length result.now ≡ columns_in image.now.valid y }
    ensures within { image.now.valid.x0 + length result.now ≤ image.now.width }
{
    let valid = image.valid();
    image.part_of_row::<T>(valid.x0(), y, usize::from(columns_in(valid, y)))
}
