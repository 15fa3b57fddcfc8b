//! The smaller and the greater of two items. OpenVX 1.3, "Min" and "Max".
#![tactic(auto, using(crate::proofs::ShortLanes::extreme_lanes))]

ghost use Rattle.std.specs.Prelude.{◌≡◌, pos, map, length};
ghost use Rattle.std.specs.Simd.Lanes.{zip2};
ghost use Rattle.vx_base.specs.Pixelwise.{smaller, greater};

use crate::arithmetic::{Arithmetic, OfSamples};
use crate::item::Short;
use crate::rows::zip_rows;
use std::simd::prelude::*;

/// The smaller of two items.
#[derive(Drop)]
pub struct Smaller;

impl Arithmetic for Smaller {
    ghost formula = { λ _ _. smaller };

    fn of_bytes(&self, a: u8, b: u8) -> u8 {
        a.min(b)
    }

    fn of_shorts(&self, a: i16, b: i16) -> i16 {
        a.min(b)
    }

    #[tactic(auto, using(crate::proofs::ByteLaws::extreme_lanes))]
    fn bytes(&self, a: u8x32, b: u8x32) -> u8x32 {
        a.simd_min(b)
    }

    fn shorts(&self, a: i16x16, b: i16x16) -> i16x16 {
        a.simd_min(b)
    }
}

/// The greater of two items.
#[derive(Drop)]
pub struct Greater;

impl Arithmetic for Greater {
    ghost formula = { λ _ _. greater };

    fn of_bytes(&self, a: u8, b: u8) -> u8 {
        a.max(b)
    }

    fn of_shorts(&self, a: i16, b: i16) -> i16 {
        a.max(b)
    }

    #[tactic(auto, using(crate::proofs::ByteLaws::extreme_lanes))]
    fn bytes(&self, a: u8x32, b: u8x32) -> u8x32 {
        a.simd_max(b)
    }

    fn shorts(&self, a: i16x16, b: i16x16) -> i16x16 {
        a.simd_max(b)
    }
}

/// Writes the smaller item of each pair.
pub fn min_u8(first: &[u8], second: &[u8], out: &mut [u8])
    requires first_len { length first.now ≡ length out.old }
    requires second_len { length second.now ≡ length out.old }
    ensures { map pos out.new ≡ zip2 smaller (map pos first.now) (map pos second.now) }
{
    zip_rows(&OfSamples(&Smaller), first, second, out);
}

/// Writes the greater item of each pair.
pub fn max_u8(first: &[u8], second: &[u8], out: &mut [u8])
    requires first_len { length first.now ≡ length out.old }
    requires second_len { length second.now ≡ length out.old }
    ensures { map pos out.new ≡ zip2 greater (map pos first.now) (map pos second.now) }
{
    zip_rows(&OfSamples(&Greater), first, second, out);
}

/// Writes the smaller item of each pair. Each input row is U8 or S16.
pub fn min_s16<A: Short, B: Short>(first: &[A], second: &[B], out: &mut [i16])
    requires first_len { length first.now ≡ length out.old }
    requires second_len { length second.now ≡ length out.old }
    ensures { out.new ≡ zip2 smaller (map A.value first.now) (map B.value second.now) }
{
    zip_rows(&OfSamples(&Smaller), first, second, out);
}

/// Writes the greater item of each pair. Each input row is U8 or S16.
pub fn max_s16<A: Short, B: Short>(first: &[A], second: &[B], out: &mut [i16])
    requires first_len { length first.now ≡ length out.old }
    requires second_len { length second.now ≡ length out.old }
    ensures { out.new ≡ zip2 greater (map A.value first.now) (map B.value second.now) }
{
    zip_rows(&OfSamples(&Greater), first, second, out);
}
