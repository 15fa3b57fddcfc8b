//! Functions that add an image's samples to the output's earlier samples.
ghost use Rattle.std.specs.Prelude.{◌≡◌, ◌≤◌, None};
ghost use Rattle.vx_base.specs.declared.format.Format.TheVariants.{U8, S16};
ghost use Rattle.vx_base.specs.declared.function.Function.TheVariants.{Accumulate};
ghost use Rattle.vx_base.specs.declared.function.Function.TheVariants.{AccumulateSquare};
ghost use Rattle.vx_base.specs.Rectangle.{IsWithin};
ghost use Rattle.vx_base.specs.Image.{ImageValue, pixel_at};
ghost use Rattle.vx_base.specs.Pixelwise.{accumulated_sum, accumulated_square, from_two};
ghost use Rattle.image_core.specs.Bands.{rows_in};
ghost use Rattle.image_core.specs.Fits.{Fits, HaveSameSize};
ghost use Rattle.image_core.specs.Target.{target_image, IsTarget, Writes};

use image_core::{Image, ImageMut, RowUpdate};
use lane_rows::{Accumulated, OfSum, Squared, update_row};
use vx_base::Rect;

/// Updates an image of sums from `image`, which has the same size. `kernel` computes each new sum
/// in `area`.
#[derive(Drop)]
struct Added<'a, 'b, K> {
    kernel: &'a K,
    image: &'a Image<'b>,
    area: Rect,
    ghost format: { image.now.format ≡ U8 },
    ghost room: { IsWithin area image.now.width image.now.height },
}

impl<K: OfSum<u8, i16>> RowUpdate<i16> for Added<'_, '_, K> {
    ghost next = { λ s x y sum. K.formula s.kernel.now (pixel_at s.image.now x y) sum };

    ghost area = { λ s. s.area };

    fn area(&self) -> Rect {
        self.area
    }

    fn update(&self, x: u16, y: u16, row: &mut [i16]) {
        let samples = self.image.part_of_row::<u8>(x, y, row.len());
        update_row(self.kernel, samples, row);
    }
}

/// Updates an image of sums from an image of the same size. `kernel` computes the new sums where
/// both images are valid. All other sums become 0.
fn add_to_sums<K: OfSum<u8, i16>>(kernel: &K, image: &Image<'_>, sums: &mut ImageMut<'_>)
    requires target { IsTarget sums.old }
    requires size { HaveSameSize (target_image sums.old) image.now }
    requires image_format { image.now.format ≡ U8 }
    requires format { (target_image sums.old).format ≡ S16 }
    requires room { IsWithin (target_image sums.old).valid (target_image sums.old).width
        (target_image sums.old).height }
    ensures { (old : ImageValue) → rows_in sums.old.rows old ≡ target_image sums.old →
        Writes (from_two S16 (K.formula kernel.now) image.now old) sums.old sums.new }
{
    let area = image.valid().meet(sums.valid());
    let update = Added {
        kernel,
        image,
        area,
    };
    sums.update::<i16, _>(&update);
}

/// Adds the samples of a U8 image to the samples of an S16 image where both are valid (OpenVX 1.3,
/// "Accumulate"). Elsewhere the sums become 0. Sums above 32,767 become 32,767. In the contract
/// `old` is any image that has the earlier sums in the rows of the output's band.
pub fn accumulate(image: &Image<'_>, sums: &mut ImageMut<'_>)
    requires fits { Fits Accumulate image.now None sums.old }
    requires room { IsWithin (target_image sums.old).valid (target_image sums.old).width
        (target_image sums.old).height }
    ensures { (old : ImageValue) → rows_in sums.old.rows old ≡ target_image sums.old →
        Writes (from_two S16 (accumulated_sum S16) image.now old) sums.old sums.new }
{
    add_to_sums(&Accumulated, image, sums);
}

/// Adds the squares of a U8 image's samples, divided by 2^amount and rounded down, to the samples
/// of an S16 image where both are valid (OpenVX 1.3, "Accumulate Squared"). Elsewhere the sums
/// become 0. Sums above 32,767 become 32,767. In the contract `old` is any image that has the
/// earlier sums in the rows of the output's band.
pub fn accumulate_square(image: &Image<'_>, sums: &mut ImageMut<'_>, amount: u8)
    requires fits { Fits AccumulateSquare image.now None sums.old }
    requires room { IsWithin (target_image sums.old).valid (target_image sums.old).width
        (target_image sums.old).height }
    requires amount { amount ≤ 15 }
    ensures { (old : ImageValue) → rows_in sums.old.rows old ≡ target_image sums.old →
        Writes (from_two S16 (accumulated_square S16 amount) image.now old) sums.old sums.new }
{
    add_to_sums(&Squared { amount }, image, sums);
}
