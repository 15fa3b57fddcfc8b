//! Conversion between U8 and S16 items. OpenVX 1.3, "Convert Bit Depth".
#![tactic(auto, using(crate::proofs::ShortLaws::fit_as_bits))]

ghost use Rattle.std.specs.Prelude.{◌≡◌, ◌≤◌, ◌^◌, ◌*ℤ◌, pos, map, length};
ghost use Rattle.vx_base.specs.declared.format.Format.TheVariants.{U8};
ghost use Rattle.vx_base.specs.Pixelwise.{depth_conversion};

use crate::item::{bytes_of, shorts_of};
use crate::kernel::{LanesOfItem, OfItem};
use crate::overflow::{Overflow, Saturated, Wrapped, with_overflow};
use crate::rows::map_row;
use crate::stores::{store_32_bytes, store_32_shorts};
use std::simd::prelude::*;
use vx_base::Policy;

/// The item times 2^amount.
#[derive(Drop)]
pub struct ShiftedUp {
    pub amount: u8,
    ghost small: { amount ≤ 7 },
}

impl OfItem<u8, i16> for ShiftedUp {
    ghost formula = { λ s a. a *ℤ pos (2 ^ s.amount) };

    fn item(&self, a: u8) -> i16 {
        (u16::from(a) << self.amount) as i16
    }
}

impl LanesOfItem<u8, i16> for ShiftedUp {
    fn lanes(&self, row: &[u8], out: &mut [i16]) {
        let shorts = bytes_of(row).cast::<i16>() << i16::from(self.amount);
        store_32_shorts(shorts.to_array(), out);
    }
}

/// The item divided by 2^amount, rounded down and narrowed by the policy.
#[derive(Drop)]
pub struct Narrowed<P> {
    pub overflow: P,
    pub amount: u8,
    ghost small: { amount ≤ 7 },
}

impl<P: Overflow> OfItem<i16, u8> for Narrowed<P> {
    ghost formula = { λ s. depth_conversion U8 (P.policy s.overflow) s.amount };

    fn item(&self, a: i16) -> u8 {
        match self.overflow.policy() {
            Policy::Wrap => (a >> self.amount).rem_euclid(256) as u8,
            Policy::Saturate => (a >> self.amount).clamp(0, 255) as u8,
        }
    }
}

impl<P: Overflow> LanesOfItem<i16, u8> for Narrowed<P> {
    fn lanes(&self, row: &[i16], out: &mut [u8]) {
        let numbers = shorts_of(row) >> i16::from(self.amount);
        let bytes = match self.overflow.policy() {
            Policy::Wrap => (numbers & i16x32::splat(255)).cast::<u8>(),
            Policy::Saturate => numbers
                .simd_max(i16x32::splat(0))
                .simd_min(i16x32::splat(255))
                .cast::<u8>(),
        };
        store_32_bytes(bytes.to_array(), out);
    }
}

/// Writes the items as S16 samples of the same values.
#[tactic(auto, using(crate::proofs::DepthLaws::widening))]
pub fn widen(row: &[u8], out: &mut [i16])
    requires { length row.now ≡ length out.old }
    ensures { out.new ≡ map pos row.now }
{
    map_row(&ShiftedUp { amount: 0 }, row, out);
}

/// Writes the items multiplied by 2^amount.
pub fn shift_up(row: &[u8], amount: u8, out: &mut [i16])
    requires len { length row.now ≡ length out.old }
    requires amount { amount ≤ 7 }
    ensures { out.new ≡ map (λ a. a *ℤ pos (2 ^ amount)) (map pos row.now) }
{
    map_row(&ShiftedUp { amount }, row, out);
}

/// Writes the items divided by 2^amount, rounded down and narrowed by the policy.
pub fn narrow(row: &[i16], amount: u8, policy: Policy, out: &mut [u8])
    requires len { length row.now ≡ length out.old }
    requires amount { amount ≤ 7 }
    ensures { map pos out.new ≡ map (depth_conversion U8 policy amount) row.now }
{
    with_overflow!(policy, overflow => {
        map_row(&Narrowed { overflow, amount }, row, out)
    })
}
