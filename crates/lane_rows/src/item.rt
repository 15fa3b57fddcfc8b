//! The number types of a row's items.
#![tactic(auto, using(crate::proofs::SampleLaws::samples))]

ghost use Rattle.std.specs.Prelude.{◌≡◌, ℤ, pos, map, length, FitsSigned};
ghost use Rattle.std.specs.Int.{w16};
ghost use Rattle.std.specs.Simd.Lanes.{Each1};

use std::simd::prelude::*;
use vx_base::prove_shorts;

/// The number type of a row's items.
pub trait Item: Copy {
    /// The item's value.
    ghost value: { Self → ℤ };
}

impl Item for u8 {
    ghost value = { pos };
}

impl Item for i16 {
    ghost value = { λ z. z };
}

impl Item for i32 {
    ghost value = { λ z. z };
}

/// An item type that converts to S16 without loss: `u8` or `i16`.
pub trait Short: Item {
    /// Returns the item's value as an S16 sample.
    fn short(self) -> i16
        ensures { result ≡ Self.value self };

    /// Returns the 16 items of a block as S16 samples.
    fn shorts(block: &[Self]) -> i16x16
        requires { length block.now ≡ 16 }
        ensures value { result ≡ map Self.value block.now }
        ensures fits { Each1 (FitsSigned w16) result };
}

impl Short for u8 {
    fn short(self) -> i16 {
        i16::from(self)
    }

    fn shorts(block: &[u8]) -> i16x16 {
        u8x16::from_slice(block).cast::<i16>()
    }
}

impl Short for i16 {
    fn short(self) -> i16 {
        self
    }

    fn shorts(block: &[i16]) -> i16x16 {
        prove_shorts(block);
        i16x16::from_slice(block)
    }
}

/// Returns the 32 bytes of a block.
#[inline(always)]
pub fn bytes_of(block: &[u8]) -> u8x32
    requires { length block.now ≡ 32 }
    ensures { result ≡ block.now }
{
    u8x32::from_slice(block)
}

/// Returns the 32 items of a block.
pub fn shorts_of(block: &[i16]) -> i16x32
    requires { length block.now ≡ 32 }
    ensures value { result ≡ block.now }
    ensures fits { Each1 (FitsSigned w16) result }
{
    prove_shorts(block);
    i16x32::from_slice(block)
}
