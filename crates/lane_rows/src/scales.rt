//! Numbers divided by a power of two, rounded toward zero and clamped.
#![tactic(auto, using(crate::proofs::ShortLaws::fit_as_bits))]

ghost use Rattle.std.specs.Prelude.{◌≡◌, ◌≤◌, ◌^◌, ℤ, pos, int_div, map, length, FitsSigned};
ghost use Rattle.std.specs.Int.{w32};
ghost use Rattle.std.specs.Simd.Lanes.{Each1};
ghost use Rattle.vx_base.specs.declared.format.Format.{Format};
ghost use Rattle.vx_base.specs.declared.format.Format.TheVariants.{U8, S16};
ghost use Rattle.vx_base.specs.Sample.{clamp};

use crate::item::Item;
use crate::kernel::{LanesOfItem, OfItem};
use crate::rows::map_row;
use crate::shorts::clamped;
use std::simd::prelude::*;
use vx_base::{Policy, narrow_s16, narrow_u8};

/// Returns the number divided by 2^exponent, rounded toward zero. A shift rounds down, so
/// 2^exponent - 1 is added to a negative number first.
pub fn scaled(number: i32, exponent: u8) -> i32
    requires { exponent ≤ 31 }
    ensures { result ≡ int_div number (pos (2 ^ exponent)) }
{
    let rest = ((1u32 << exponent) - 1) as i32;
    if number < 0 {
        (number + rest) >> exponent
    } else {
        number >> exponent
    }
}

/// Returns the numbers divided by 2^exponent, rounded toward zero.
pub fn scaled_lanes(numbers: i32x16, exponent: u8) -> i32x16
    requires exponent { exponent ≤ 31 }
    requires len { length numbers ≡ 16 }
    requires fits { Each1 (FitsSigned w32) numbers }
    ensures value { result ≡ map (λ z. int_div z (pos (2 ^ exponent))) numbers }
    ensures result_fits { Each1 (FitsSigned w32) result }
{
    let rest = i32x16::splat(((1u32 << exponent) - 1) as i32);
    let none = i32x16::splat(0);
    let added = numbers.simd_lt(none).select(rest, none);
    (numbers + added) >> i32::from(exponent)
}

/// Reads a block of 16 numbers into lanes.
pub fn sixteen(row: &[i32]) -> i32x16
    requires { length row.now ≡ 16 }
    ensures value { result ≡ row.now }
    ensures fits { Each1 (FitsSigned w32) result }
{
    // Each read of a signed number tells the prover the number's range. The compiler removes the
    // loop.
    for number in row {
        let _number = *number;
    }
    i32x16::from_slice(row)
}

/// An item type to which numbers are clamped: `u8` or `i16`.
pub trait Clamped: Item {
    /// The format of the samples.
    ghost format: { Format };

    /// Returns the sample nearest to a number.
    fn nearest(number: i32) -> Self
        ensures { Self.value result ≡ clamp format number };

    /// Writes the sample nearest to each of 16 numbers.
    fn store_nearest(numbers: i32x16, out: &mut [Self])
        requires len { length numbers ≡ 16 }
        requires fits { Each1 (FitsSigned w32) numbers }
        requires out_len { length out.old ≡ 16 }
        ensures { map Self.value out.new ≡ map (clamp format) numbers };
}

impl Clamped for u8 {
    ghost format = { U8 };

    fn nearest(number: i32) -> u8 {
        narrow_u8(number, Policy::Saturate)
    }

    fn store_nearest(numbers: i32x16, out: &mut [u8]) {
        numbers
            .simd_max(i32x16::splat(0))
            .simd_min(i32x16::splat(255))
            .cast::<u8>()
            .copy_to_slice(out);
    }
}

impl Clamped for i16 {
    ghost format = { S16 };

    fn nearest(number: i32) -> i16 {
        narrow_s16(number, Policy::Saturate)
    }

    fn store_nearest(numbers: i32x16, out: &mut [i16]) {
        clamped(numbers).copy_to_slice(out);
    }
}

/// A number divided by 2^exponent, rounded toward zero and clamped.
#[derive(Drop)]
pub struct Scale {
    pub exponent: u8,
    ghost small: { exponent ≤ 31 },
}

impl Scale {
    /// Writes the results for 16 numbers.
    #[tactic(auto, using(crate::proofs::NarrowLaws::scale_lanes))]
    fn write_sixteen<T: Clamped>(&self, row: &[i32], out: &mut [T])
        requires row_len { length row.now ≡ 16 }
        requires out_len { length out.old ≡ 16 }
        ensures { map T.value out.new ≡ map (λ z.
            clamp T.format (int_div z (pos (2 ^ self.now.exponent)))) row.now }
    {
        T::store_nearest(scaled_lanes(sixteen(row), self.exponent), out);
    }
}

impl<T: Clamped> OfItem<i32, T> for Scale {
    ghost formula = { λ s z. clamp T.format (int_div z (pos (2 ^ s.exponent))) };

    fn item(&self, a: i32) -> T {
        T::nearest(scaled(a, self.exponent))
    }
}

impl<T: Clamped> LanesOfItem<i32, T> for Scale {
    #[tactic(auto, using(crate::proofs::BlockLaws::parts))]
    fn lanes(&self, row: &[i32], out: &mut [T]) {
        let (row, row_rest) = row.split_at(16);
        let (out, out_rest) = out.split_at_mut(16);
        self.write_sixteen(row, out);
        self.write_sixteen(row_rest, out_rest);
    }
}

/// Writes the numbers divided by 2^exponent, rounded toward zero and clamped to U8.
pub fn scale_u8(acc: &[i32], exponent: u8, out: &mut [u8])
    requires len { length acc.now ≡ length out.old }
    requires exponent { exponent ≤ 31 }
    ensures { map pos out.new ≡ map (λ z. clamp U8 (int_div z (pos (2 ^ exponent)))) acc.now }
{
    map_row(&Scale { exponent }, acc, out);
}

/// Writes the numbers divided by 2^exponent, rounded toward zero and clamped to S16.
pub fn scale_s16(acc: &[i32], exponent: u8, out: &mut [i16])
    requires len { length acc.now ≡ length out.old }
    requires exponent { exponent ≤ 31 }
    ensures { out.new ≡ map (λ z. clamp S16 (int_div z (pos (2 ^ exponent)))) acc.now }
{
    map_row(&Scale { exponent }, acc, out);
}
