//! Sums and differences. OpenVX 1.3, "Arithmetic Addition" and "Arithmetic Subtraction".
#![tactic(auto, using(crate::proofs::ShortLaws::fit_as_bits))]

ghost use Rattle.std.specs.Prelude.{◌≡◌, pos, map, length};
ghost use Rattle.std.specs.Simd.Lanes.{zip2};
ghost use Rattle.vx_base.specs.declared.format.Format.TheVariants.{U8, S16};
ghost use Rattle.vx_base.specs.Pixelwise.{sum, difference};

use crate::arithmetic::{Arithmetic, OfSamples};
use crate::item::Short;
use crate::overflow::{Overflow, Saturated, Wrapped, with_overflow};
use crate::rows::zip_rows;
use crate::shorts::narrowed;
use std::simd::prelude::*;
use vx_base::{Policy, narrow_s16};

/// The sum of two items, narrowed by the policy.
#[derive(Drop)]
pub struct Sum<P>(pub P);

impl<P: Overflow> Arithmetic for Sum<P> {
    ghost formula = { λ s format. sum format (P.policy s.0) };

    fn of_bytes(&self, a: u8, b: u8) -> u8 {
        match self.0.policy() {
            Policy::Wrap => a.wrapping_add(b),
            Policy::Saturate => a.saturating_add(b),
        }
    }

    fn of_shorts(&self, a: i16, b: i16) -> i16 {
        narrow_s16(i32::from(a) + i32::from(b), self.0.policy())
    }

    #[tactic(auto, using(crate::proofs::ByteLaws::sum_lanes))]
    fn bytes(&self, a: u8x32, b: u8x32) -> u8x32 {
        match self.0.policy() {
            Policy::Wrap => a + b,
            Policy::Saturate => a.saturating_add(b),
        }
    }

    #[tactic(auto, using(crate::proofs::ShortLanes::sum_lanes))]
    fn shorts(&self, a: i16x16, b: i16x16) -> i16x16 {
        narrowed(a.cast::<i32>() + b.cast::<i32>(), self.0.policy())
    }
}

/// The first item minus the second, narrowed by the policy.
#[derive(Drop)]
pub struct Difference<P>(pub P);

impl<P: Overflow> Arithmetic for Difference<P> {
    ghost formula = { λ s format. difference format (P.policy s.0) };

    fn of_bytes(&self, a: u8, b: u8) -> u8 {
        match self.0.policy() {
            Policy::Wrap => a.wrapping_sub(b),
            Policy::Saturate => a.saturating_sub(b),
        }
    }

    fn of_shorts(&self, a: i16, b: i16) -> i16 {
        narrow_s16(i32::from(a) - i32::from(b), self.0.policy())
    }

    #[tactic(auto, using(crate::proofs::ByteLaws::difference_lanes))]
    fn bytes(&self, a: u8x32, b: u8x32) -> u8x32 {
        match self.0.policy() {
            Policy::Wrap => a - b,
            Policy::Saturate => a.simd_max(b) - b,
        }
    }

    #[tactic(auto, using(crate::proofs::ShortLanes::difference_lanes))]
    fn shorts(&self, a: i16x16, b: i16x16) -> i16x16 {
        narrowed(a.cast::<i32>() - b.cast::<i32>(), self.0.policy())
    }
}

/// Writes the sum of each pair of items, narrowed by the policy.
pub fn add_u8(first: &[u8], second: &[u8], policy: Policy, out: &mut [u8])
    requires first_len { length first.now ≡ length out.old }
    requires second_len { length second.now ≡ length out.old }
    ensures { map pos out.new ≡ zip2 (sum U8 policy) (map pos first.now) (map pos second.now) }
{
    with_overflow!(policy, overflow => {
        zip_rows(&OfSamples(&Sum(overflow)), first, second, out)
    })
}

/// Writes the sum of each pair of items, narrowed by the policy. Each input row is U8 or S16.
pub fn add_s16<A: Short, B: Short>(first: &[A], second: &[B], policy: Policy, out: &mut [i16])
    requires first_len { length first.now ≡ length out.old }
    requires second_len { length second.now ≡ length out.old }
    ensures { out.new ≡ zip2 (sum S16 policy) (map A.value first.now) (map B.value second.now) }
{
    with_overflow!(policy, overflow => {
        zip_rows(&OfSamples(&Sum(overflow)), first, second, out)
    })
}

/// Writes the items of the first row minus the items of the second, narrowed by the policy.
pub fn sub_u8(first: &[u8], second: &[u8], policy: Policy, out: &mut [u8])
    requires first_len { length first.now ≡ length out.old }
    requires second_len { length second.now ≡ length out.old }
    ensures { map pos out.new ≡ zip2 (difference U8 policy) (map pos first.now)
        (map pos second.now) }
{
    with_overflow!(policy, overflow => {
        zip_rows(&OfSamples(&Difference(overflow)), first, second, out)
    })
}

/// Writes the items of the first row minus the items of the second, narrowed by the policy. Each
/// input row is U8 or S16.
pub fn sub_s16<A: Short, B: Short>(first: &[A], second: &[B], policy: Policy, out: &mut [i16])
    requires first_len { length first.now ≡ length out.old }
    requires second_len { length second.now ≡ length out.old }
    ensures { out.new ≡ zip2 (difference S16 policy) (map A.value first.now)
        (map B.value second.now) }
{
    with_overflow!(policy, overflow => {
        zip_rows(&OfSamples(&Difference(overflow)), first, second, out)
    })
}
