//! S16 numbers in 16 lanes.
#![tactic(auto, using(crate::proofs::ShortLaws::fit_as_bits))]

ghost use Rattle.std.specs.Prelude.{◌≡◌, ◌≤◌, ◌+ℤ◌, ◌-ℤ◌, ◌*ℤ◌, ◌^◌, pos, map, length};
ghost use Rattle.std.specs.Prelude.{FitsSigned};
ghost use Rattle.std.specs.Int.{w16, w32, int_div_euclid};
ghost use Rattle.std.specs.Simd.Lanes.{zip2, Each1};
ghost use Rattle.vx_base.specs.declared.format.Format.TheVariants.{S16};
ghost use Rattle.vx_base.specs.declared.policy.Policy.TheVariants.{Saturate};
ghost use Rattle.vx_base.specs.Sample.{narrow, distance};
ghost use Rattle.vx_base.specs.Pixelwise.{product, smaller, greater, accumulated_sum};
ghost use Rattle.lane_rows.specs.Quarters.{swap_quarters};

use crate::scales::scaled_lanes;
use std::simd::prelude::*;
use vx_base::Policy;

/// Returns the products of the lanes of `a` and `b`, with the second and third quarters exchanged.
///
/// The low and high halves of each product are computed separately. Multiplying numbers of 16 bits
/// and joining the halves is faster than widening the numbers and multiplying them in 32 bits. In
/// registers of 32 bytes, a processor joins low and high halves within each 16 bytes. This gives
/// the order with exchanged quarters.
pub fn products(a: i16x16, b: i16x16) -> i32x16
    requires a_len { length a ≡ 16 }
    requires b_len { length b ≡ 16 }
    requires a_fits { Each1 (FitsSigned w16) a }
    requires b_fits { Each1 (FitsSigned w16) b }
    ensures value { result ≡ swap_quarters (zip2 ◌*ℤ◌ a b) }
    ensures fits { Each1 (FitsSigned w32) result }
{
    let low = a * b;
    let high = ((a.cast::<i32>() * b.cast::<i32>()) >> 16).cast::<i16>();
    let halves = low.shuffle(
        high,
        [
            0, 16, 1, 17, 2, 18, 3, 19, 8, 24, 9, 25, 10, 26, 11, 27, 4, 20, 5, 21, 6, 22, 7, 23,
            12, 28, 13, 29, 14, 30, 15, 31,
        ],
    );
    i32x16::from_le_bytes(halves.to_le_bytes())
}

/// Returns the S16 sample nearest to each number.
pub fn clamped(numbers: i32x16) -> i16x16
    requires len { length numbers ≡ 16 }
    requires fits { Each1 (FitsSigned w32) numbers }
    ensures { result ≡ map (narrow S16 Saturate) numbers }
{
    numbers
        .simd_max(i32x16::splat(-32768))
        .simd_min(i32x16::splat(32767))
        .cast::<i16>()
}

/// Returns the numbers narrowed to S16 by the policy.
pub fn narrowed(numbers: i32x16, policy: Policy) -> i16x16
    requires len { length numbers ≡ 16 }
    requires fits { Each1 (FitsSigned w32) numbers }
    ensures value { result ≡ map (narrow S16 policy) numbers }
    ensures result_fits { Each1 (FitsSigned w16) result }
{
    match policy {
        Policy::Wrap => ((numbers << 16) >> 16).cast::<i16>(),
        Policy::Saturate => clamped(numbers),
    }
}

/// Returns the numbers with the second and third quarters exchanged.
///
/// A processor with registers of 32 bytes exchanges the quarters itself when it narrows two
/// registers. This function exchanges lanes of 64 bits. The compiler would move an exchange of
/// 16-bit lanes before the narrowing, and the code would be slower.
pub fn quarters_exchanged(numbers: i16x16) -> i16x16
    requires len { length numbers ≡ 16 }
    requires fits { Each1 (FitsSigned w16) numbers }
    ensures value { result ≡ swap_quarters numbers }
    ensures result_fits { Each1 (FitsSigned w16) result }
{
    let quarters = u64x4::from_le_bytes(numbers.to_le_bytes());
    i16x16::from_le_bytes(quarters.swizzle([0, 2, 1, 3]).to_le_bytes())
}
