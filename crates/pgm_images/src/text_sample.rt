//! Number types of the samples of texts.
ghost use Rattle.std.specs.Prelude.{◌≡◌, ◌≤◌, ℕ, pos};

use image_core::Number;

/// A number type of the samples that texts encode: `u8` or `i16`.
pub trait TextSample: Number {
    /// The greatest number that fits in a sample.
    ghost limit: { ℕ };

    /// Returns the number as a sample.
    fn of_number(number: u16) -> Self
        requires { number ≤ limit }
        ensures { Self.value result ≡ pos number };
}

impl TextSample for u8 {
    ghost limit = { 255 };

    fn of_number(number: u16) -> u8 {
        number as u8
    }
}

impl TextSample for i16 {
    ghost limit = { 32767 };

    fn of_number(number: u16) -> i16 {
        number as i16
    }
}
