//! Output images from one input image.
ghost use Rattle.std.specs.Prelude.{◌≡◌};
ghost use Rattle.vx_base.specs.Rectangle.{IsWithin};
ghost use Rattle.vx_base.specs.Image.{pixel_at};
ghost use Rattle.vx_base.specs.Pixelwise.{from_one};
ghost use Rattle.image_core.specs.Fits.{HaveSameSize};
ghost use Rattle.image_core.specs.Target.{target_image, IsTarget, Writes};

use crate::pixel::Pixel;
use image_core::{Formula, Image, ImageMut};
use lane_rows::{LanesOfItem, map_row};
use std::marker::PhantomData;
use vx_base::Rect;

/// The results of a lane kernel for an image, where the image is valid.
#[derive(Drop)]
struct FromOne<'a, 'b, A: Pixel, K> {
    kernel: &'a K,
    image: &'a Image<'b>,
    area: Rect,
    samples: PhantomData<A>,
    ghost format: { image.now.format ≡ A.format },
    ghost room: { IsWithin area image.now.width image.now.height },
}

impl<A: Pixel, T: Pixel, K: LanesOfItem<A, T>> Formula<T> for FromOne<'_, '_, A, K> {
    ghost at = { λ s x y. K.formula s.kernel.now (pixel_at s.image.now x y) };

    ghost area = { λ s. s.area };

    fn area(&self) -> Rect {
        self.area
    }

    fn fill(&self, x: u16, y: u16, out: &mut [T]) {
        let row = self.image.part_of_row::<A>(x, y, out.len());
        map_row(self.kernel, row, out);
    }
}

/// Writes the results of a lane kernel for an image to another image of the same size.
pub fn write_one<A: Pixel, T: Pixel, K: LanesOfItem<A, T>>(
    kernel: &K,
    image: &Image<'_>,
    output: &mut ImageMut<'_>,
)
    requires target { IsTarget output.old }
    requires size { HaveSameSize (target_image output.old) image.now }
    requires input_format { image.now.format ≡ A.format }
    requires format { (target_image output.old).format ≡ T.format }
    ensures { Writes (from_one T.format (K.formula kernel.now) image.now) output.old output.new }
{
    let area = image.valid();
    let formula = FromOne {
        kernel,
        image,
        area,
        samples: PhantomData,
    };
    output.write::<T, _>(&formula);
}
