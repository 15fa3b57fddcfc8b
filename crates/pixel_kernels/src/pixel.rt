//! Number types for image samples and row items.
ghost use Rattle.std.specs.Prelude.{◌≡◌, refl};

use image_core::Sample;
use lane_rows::Item;

/// A number type for both image samples and row items: `u8` or `i16`.
pub trait Pixel: Sample + Item {
    /// The value as an item equals the value as a sample.
    ghost same: { Self.Item.value ≡ Self.Number.value };
}

impl Pixel for u8 {
    ghost same = { refl };
}

impl Pixel for i16 {
    ghost same = { refl };
}
