//! The least and the greatest sample.
ghost use Rattle.std.specs.Prelude.{◌≡◌, ◌≢◌, ◌+◌, ◌<◌, ◌^◌};
ghost use Rattle.vx_base.specs.declared.format.Format.TheVariants.{U32};
ghost use Rattle.vx_base.specs.Image.{pixel_at};
ghost use Rattle.vx_base.specs.Statistics.{row_pixels, extremes};
ghost use Rattle.image_core.specs.Bands.{IsInRows};
ghost use Rattle.stat_kernels.specs.Extreme.{added_extremes, extremes_of, found_in, merge_found};
ghost use Rattle.stat_kernels.specs.Extreme.{shift_found};
ghost use Rattle.stat_kernels.specs.Part.{columns_in, valid_in};

use crate::extreme::Found;
use crate::valid::valid_row;
use image_core::{Band, Image};
use vx_base::{Extremes, Format};

/// Merges the valid samples of row `y` into the extremes of the rows above it. The row's pixels are
/// recorded `down` rows lower, in row `y` + `down`.
fn with_row(found: Found, image: &Image<'_>, y: u16, down: u16) -> Found
    requires format { image.now.format ≢ U32 }
    requires row { y < image.now.height }
    requires down { down + image.now.height < 2 ^ 16 }
    requires least_room { found.least.count + image.now.width < 2 ^ 32 }
    requires greatest_room { found.greatest.count + image.now.width < 2 ^ 32 }
    ensures { result ≡ merge_found found (shift_found down (found_in (pixel_at image.now)
        (row_pixels image.now.valid.x0 (columns_in image.now.valid y) y))) }
{
    let (x, _limits) = (image.valid().x0(), image.desc().width());
    match image.desc().format() {
        Format::U8 => found.include_row(x, y + down, valid_row::<u8>(image, y)),
        Format::S16 => found.include_row(x, y + down, valid_row::<i16>(image, y)),
        Format::U32 => unreachable!(),
    }
}

/// Returns the least and the greatest valid sample of a U8 or S16 image (OpenVX 1.3, "Min, Max
/// Location"). For each of the two, also returns how many pixels have this value, and which of them
/// comes first.
#[tactic(auto, using(crate::proofs::BandLaws::few_extremes))]
pub fn min_max(image: &Image<'_>) -> Extremes
    requires { image.now.format ≢ U32 }
    ensures { result ≡ extremes image.now }
{
    let (_valid, _limits) = (image.valid(), image.desc().height());
    let nothing = extremes_of(Found::nowhere());
    add_min_max(image, Band::whole(image.desc()), 0, nothing)
}

/// Merges the extremes of a band into the extremes of the rows above it. Row 0 of `image` is row
/// `down` of the whole image.
pub fn add_min_max(image: &Image<'_>, rows: Band, down: u16, above: Extremes) -> Extremes
    requires format { image.now.format ≢ U32 }
    requires rows { IsInRows image.now.height rows }
    requires down { down + image.now.height < 2 ^ 16 }
    requires least_room { above.min_count + (extremes (valid_in rows image.now)).min_count
        < 2 ^ 32 }
    requires greatest_room { above.max_count + (extremes (valid_in rows image.now)).max_count
        < 2 ^ 32 }
    ensures { result ≡ added_extremes down above (extremes (valid_in rows image.now)) }
{
    let (_valid, _limits) = (image.valid(), image.desc().height());
    let mut found = Found::nowhere();
    for k in 0..rows.count {
        found = with_row(found, image, rows.start + k, down);
    }
    extremes_of(Found::of(above).merge(found))
}

/// Returns the numbers of `found` as `Extremes`.
fn extremes_of(found: Found) -> Extremes
    ensures { result ≡ extremes_of found }
{
    Extremes {
        min: found.least.value,
        max: found.greatest.value,
        min_count: found.least.count,
        max_count: found.greatest.count,
        min_at: found.least.at,
        max_at: found.greatest.at,
    }
}
