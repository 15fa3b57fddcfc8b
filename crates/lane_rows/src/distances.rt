//! Absolute differences. OpenVX 1.3, "Absolute Difference".
#![tactic(auto, using(crate::proofs::ShortLanes::distance_lanes))]

ghost use Rattle.std.specs.Prelude.{◌≡◌, pos, map, length};
ghost use Rattle.std.specs.Simd.Lanes.{zip2};
ghost use Rattle.vx_base.specs.declared.format.Format.TheVariants.{U8, S16};
ghost use Rattle.vx_base.specs.Pixelwise.{absolute_difference};

use crate::arithmetic::{Arithmetic, OfSamples};
use crate::item::Short;
use crate::rows::zip_rows;
use crate::shorts::narrowed;
use std::simd::prelude::*;
use vx_base::Policy;

/// The absolute difference, at most the format's greatest sample.
#[derive(Drop)]
pub struct Distance;

impl Arithmetic for Distance {
    ghost formula = { λ _. absolute_difference };

    fn of_bytes(&self, a: u8, b: u8) -> u8 {
        a.abs_diff(b)
    }

    fn of_shorts(&self, a: i16, b: i16) -> i16 {
        a.abs_diff(b).min(32_767) as i16
    }

    #[tactic(auto, using(crate::proofs::ByteLaws::distances_are))]
    fn bytes(&self, a: u8x32, b: u8x32) -> u8x32 {
        a.simd_max(b) - a.simd_min(b)
    }

    fn shorts(&self, a: i16x16, b: i16x16) -> i16x16 {
        let distances = a.simd_max(b).cast::<i32>() - a.simd_min(b).cast::<i32>();
        narrowed(distances, Policy::Saturate)
    }
}

/// Writes the absolute difference of each pair of items.
pub fn absdiff_u8(first: &[u8], second: &[u8], out: &mut [u8])
    requires first_len { length first.now ≡ length out.old }
    requires second_len { length second.now ≡ length out.old }
    ensures { map pos out.new ≡ zip2 (absolute_difference U8) (map pos first.now)
        (map pos second.now) }
{
    zip_rows(&OfSamples(&Distance), first, second, out);
}

/// Writes the absolute difference of each pair of items. A difference above 32,767 becomes 32,767.
/// Each input row is U8 or S16.
pub fn absdiff_s16<A: Short, B: Short>(first: &[A], second: &[B], out: &mut [i16])
    requires first_len { length first.now ≡ length out.old }
    requires second_len { length second.now ≡ length out.old }
    ensures { out.new ≡ zip2 (absolute_difference S16) (map A.value first.now)
        (map B.value second.now) }
{
    zip_rows(&OfSamples(&Distance), first, second, out);
}
