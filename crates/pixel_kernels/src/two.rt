//! Output images from two input images.
ghost use Rattle.std.specs.Prelude.{◌≡◌};
ghost use Rattle.vx_base.specs.Rectangle.{IsWithin, meet_of};
ghost use Rattle.vx_base.specs.Image.{pixel_at};
ghost use Rattle.vx_base.specs.Pixelwise.{from_two};
ghost use Rattle.image_core.specs.Fits.{HaveSameSize};
ghost use Rattle.image_core.specs.Target.{target_image, IsTarget, Writes};

use crate::pixel::Pixel;
use image_core::{Formula, Image, ImageMut};
use lane_rows::{OfPair, zip_rows};
use std::marker::PhantomData;
use vx_base::Rect;

/// The results of a lane kernel for two images of one size, where both are valid.
#[derive(Drop)]
struct FromTwo<'a, 'b, A: Pixel, B: Pixel, K> {
    kernel: &'a K,
    first: &'a Image<'b>,
    second: &'a Image<'b>,
    area: Rect,
    samples: PhantomData<(A, B)>,
    ghost first_format: { first.now.format ≡ A.format },
    ghost second_format: { second.now.format ≡ B.format },
    ghost first_room: { IsWithin area first.now.width first.now.height },
    ghost second_room: { IsWithin area second.now.width second.now.height },
}

impl<A: Pixel, B: Pixel, T: Pixel, K: OfPair<A, B, T>> Formula<T> for FromTwo<'_, '_, A, B, K> {
    ghost at = { λ s x y. K.formula s.kernel.now (pixel_at s.first.now x y)
        (pixel_at s.second.now x y) };

    ghost area = { λ s. s.area };

    fn area(&self) -> Rect {
        self.area
    }

    fn fill(&self, x: u16, y: u16, out: &mut [T]) {
        let first = self.first.part_of_row::<A>(x, y, out.len());
        let second = self.second.part_of_row::<B>(x, y, out.len());
        zip_rows(self.kernel, first, second, out);
    }
}

/// Writes the results of a lane kernel for two images to a third image of the same size.
pub fn write_two<A: Pixel, B: Pixel, T: Pixel, K: OfPair<A, B, T>>(
    kernel: &K,
    first: &Image<'_>,
    second: &Image<'_>,
    output: &mut ImageMut<'_>,
)
    requires target { IsTarget output.old }
    requires size { HaveSameSize (target_image output.old) first.now }
    requires second_size { HaveSameSize second.now first.now }
    requires first_format { first.now.format ≡ A.format }
    requires second_format { second.now.format ≡ B.format }
    requires format { (target_image output.old).format ≡ T.format }
    ensures { Writes (from_two T.format (K.formula kernel.now) first.now second.now)
        output.old output.new }
{
    let area = first.valid().meet(second.valid());
    let formula = FromTwo {
        kernel,
        first,
        second,
        area,
        samples: PhantomData,
    };
    output.write::<T, _>(&formula);
}
