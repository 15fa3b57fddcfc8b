//! Bitwise kernels.
#![tactic(auto, using(crate::proofs::ByteLaws::bit_lanes))]

ghost use Rattle.std.specs.Prelude.{◌≡◌, pos, map, length};
ghost use Rattle.std.specs.Simd.Lanes.{zip2};
ghost use Rattle.vx_base.specs.Pixelwise.{and_bits, or_bits, xor_bits, not_bits};

use crate::item::bytes_of;
use crate::kernel::{LanesOfItem, OfItem, OfPair};
use crate::rows::{map_row, zip_rows};
use crate::stores::store_32_bytes;
use std::simd::prelude::*;

/// The bitwise AND of two bytes.
pub struct And;

impl OfPair<u8, u8, u8> for And {
    ghost formula = { λ _. and_bits };

    fn item(&self, a: u8, b: u8) -> u8 {
        a & b
    }

    fn lanes(&self, first: &[u8], second: &[u8], out: &mut [u8]) {
        let bits = bytes_of(first) & bytes_of(second);
        store_32_bytes(bits.to_array(), out);
    }
}

/// The bitwise OR of two bytes.
pub struct Or;

impl OfPair<u8, u8, u8> for Or {
    ghost formula = { λ _. or_bits };

    fn item(&self, a: u8, b: u8) -> u8 {
        a | b
    }

    fn lanes(&self, first: &[u8], second: &[u8], out: &mut [u8]) {
        let bits = bytes_of(first) | bytes_of(second);
        store_32_bytes(bits.to_array(), out);
    }
}

/// The bitwise XOR of two bytes.
pub struct Xor;

impl OfPair<u8, u8, u8> for Xor {
    ghost formula = { λ _. xor_bits };

    fn item(&self, a: u8, b: u8) -> u8 {
        a ^ b
    }

    fn lanes(&self, first: &[u8], second: &[u8], out: &mut [u8]) {
        let bits = bytes_of(first) ^ bytes_of(second);
        store_32_bytes(bits.to_array(), out);
    }
}

/// The item with all bits inverted.
pub struct Not;

impl OfItem<u8, u8> for Not {
    ghost formula = { λ _. not_bits };

    fn item(&self, a: u8) -> u8 {
        !a
    }
}

impl LanesOfItem<u8, u8> for Not {
    fn lanes(&self, row: &[u8], out: &mut [u8]) {
        store_32_bytes((!u8x32::from_slice(row)).to_array(), out);
    }
}

/// Writes the bitwise AND of each pair of items.
pub fn and_u8(first: &[u8], second: &[u8], out: &mut [u8])
    requires first_len { length first.now ≡ length out.old }
    requires second_len { length second.now ≡ length out.old }
    ensures { map pos out.new ≡ zip2 and_bits (map pos first.now) (map pos second.now) }
{
    zip_rows(&And, first, second, out);
}

/// Writes the bitwise OR of each pair of items.
pub fn or_u8(first: &[u8], second: &[u8], out: &mut [u8])
    requires first_len { length first.now ≡ length out.old }
    requires second_len { length second.now ≡ length out.old }
    ensures { map pos out.new ≡ zip2 or_bits (map pos first.now) (map pos second.now) }
{
    zip_rows(&Or, first, second, out);
}

/// Writes the bitwise XOR of each pair of items.
pub fn xor_u8(first: &[u8], second: &[u8], out: &mut [u8])
    requires first_len { length first.now ≡ length out.old }
    requires second_len { length second.now ≡ length out.old }
    ensures { map pos out.new ≡ zip2 xor_bits (map pos first.now) (map pos second.now) }
{
    zip_rows(&Xor, first, second, out);
}

/// Writes the items with all bits inverted.
pub fn not_u8(row: &[u8], out: &mut [u8])
    requires { length row.now ≡ length out.old }
    ensures { map pos out.new ≡ map not_bits (map pos row.now) }
{
    map_row(&Not, row, out);
}
