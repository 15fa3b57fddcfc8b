//! Products. OpenVX 1.3, "Pixel-wise Multiplication".
#![tactic(auto, using(crate::proofs::ShortLaws::fit_as_bits))]

ghost use Rattle.std.specs.Prelude.{◌≡◌, ◌≤◌, ◌^◌, ◌*ℤ◌, pos, int_div, map, length};
ghost use Rattle.std.specs.Simd.Lanes.{zip2};
ghost use Rattle.vx_base.specs.declared.format.Format.TheVariants.{U8, S16};
ghost use Rattle.vx_base.specs.Sample.{IsSample, narrow};
ghost use Rattle.vx_base.specs.Pixelwise.{product};

use crate::arithmetic::{Arithmetic, OfSamples};
use crate::item::Short;
use crate::overflow::{Overflow, Saturated, Wrapped, with_overflow};
use crate::rows::zip_rows;
use crate::scales::{scaled, scaled_lanes};
use crate::shorts::{narrowed, products, quarters_exchanged};
use std::simd::prelude::*;
use vx_base::{Policy, narrow_s16, narrow_u8};

/// Returns the product of two S16 samples, divided by 2^amount and rounded toward zero.
fn scaled_product(a: i16, b: i16, amount: u8) -> i32
    requires { amount ≤ 15 }
    ensures { result ≡ int_div (a *ℤ b) (pos (2 ^ amount)) }
{
    scaled(i32::from(a) * i32::from(b), amount)
}

/// Returns the numbers narrowed to U8 by the policy.
#[tactic(auto, using(crate::proofs::LaneLaws::narrow_lanes))]
fn narrowed_bytes(numbers: u16x32, policy: Policy) -> u8x32
    ensures { map pos result ≡ map (narrow U8 policy) (map pos numbers) }
{
    match policy {
        Policy::Wrap => (numbers & u16x32::splat(255)).cast::<u8>(),
        Policy::Saturate => numbers.simd_min(u16x32::splat(255)).cast::<u8>(),
    }
}

/// The product divided by 2^amount, rounded toward zero and narrowed by the policy.
#[derive(Drop)]
pub struct Product<P> {
    pub overflow: P,
    pub amount: u8,
    ghost small: { amount ≤ 15 },
}

impl<P: Overflow> Arithmetic for Product<P> {
    ghost formula = { λ s format. product format (P.policy s.overflow) s.amount };

    fn of_bytes(&self, a: u8, b: u8) -> u8 {
        let product = scaled_product(i16::from(a), i16::from(b), self.amount);
        narrow_u8(product, self.overflow.policy())
    }

    fn of_shorts(&self, a: i16, b: i16) -> i16 {
        narrow_s16(scaled_product(a, b, self.amount), self.overflow.policy())
    }

    #[tactic(auto, using(crate::proofs::LaneLaws::products_narrowed))]
    fn bytes(&self, a: u8x32, b: u8x32) -> u8x32 {
        let products = (a.cast::<u16>() * b.cast::<u16>()) >> self.amount as u16;
        narrowed_bytes(products, self.overflow.policy())
    }

    fn shorts(&self, a: i16x16, b: i16x16) -> i16x16 {
        let quotients = scaled_lanes(products(a, b), self.amount);
        quarters_exchanged(narrowed(quotients, self.overflow.policy()))
    }
}

/// Writes the product of each pair of items, divided by 2^amount, rounded toward zero and narrowed
/// by the policy.
pub fn mul_u8(first: &[u8], second: &[u8], amount: u8, policy: Policy, out: &mut [u8])
    requires first_len { length first.now ≡ length out.old }
    requires second_len { length second.now ≡ length out.old }
    requires amount { amount ≤ 15 }
    ensures { map pos out.new ≡ zip2 (product U8 policy amount) (map pos first.now)
        (map pos second.now) }
{
    with_overflow!(policy, overflow => {
        zip_rows(&OfSamples(&Product { overflow, amount }), first, second, out)
    })
}

/// Writes the product of each pair of items, divided by 2^amount, rounded toward zero and narrowed
/// by the policy. Each input row is U8 or S16.
pub fn mul_s16<A: Short, B: Short>(
    first: &[A],
    second: &[B],
    amount: u8,
    policy: Policy,
    out: &mut [i16],
)
    requires first_len { length first.now ≡ length out.old }
    requires second_len { length second.now ≡ length out.old }
    requires amount { amount ≤ 15 }
    ensures { out.new ≡ zip2 (product S16 policy amount) (map A.value first.now)
        (map B.value second.now) }
{
    with_overflow!(policy, overflow => {
        zip_rows(&OfSamples(&Product { overflow, amount }), first, second, out)
    })
}
