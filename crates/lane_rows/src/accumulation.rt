//! Kernels that add a row of bytes to a row of sums. OpenVX 1.3, "Accumulate" and "Accumulate
//! Squared".
#![tactic(auto, using(crate::proofs::ShortLaws::fit_as_bits))]

ghost use Rattle.std.specs.Prelude.{◌≡◌, ◌≤◌, ◌*◌, ◌/◌, ◌^◌, pos, map, length};
ghost use Rattle.std.specs.Simd.Lanes.{zip2};
ghost use Rattle.vx_base.specs.declared.format.Format.TheVariants.{S16};
ghost use Rattle.vx_base.specs.Pixelwise.{accumulated_sum, accumulated_square};

use crate::item::Short;
use crate::kernel::OfSum;
use crate::rows::update_row;
use std::simd::prelude::*;

/// Adds each of 16 numbers to the sum at its index. A sum above 32,767 becomes 32,767.
///
/// Each number is first limited to 32,767 minus the old sum. That difference fits in an unsigned
/// number of 16 bits.
fn add_lanes(numbers: u16x16, sums: &mut [i16])
    requires { length sums.old ≡ 16 }
    ensures { sums.new ≡ zip2 (accumulated_sum S16) (map pos numbers) sums.old }
{
    let before = i16::shorts(sums);
    let room = u16x16::from_le_bytes((i16x16::splat(32767) - before).to_le_bytes());
    let added = i16x16::from_le_bytes(numbers.simd_min(room).to_le_bytes());
    (before + added).copy_to_slice(sums);
}

/// The sum plus the byte, at most 32,767.
pub struct Accumulated;

impl OfSum<u8, i16> for Accumulated {
    ghost formula = { λ _. accumulated_sum S16 };

    fn item(&self, a: u8, sum: i16) -> i16 {
        sum.saturating_add(i16::from(a))
    }

    fn lanes(&self, row: &[u8], sums: &mut [i16]) {
        add_lanes(u8x16::from_slice(row).cast::<u16>(), sums);
    }
}

/// Returns the square of a byte, divided by 2^amount and rounded down.
fn scaled_square(a: u8, amount: u8) -> u16
    requires { amount ≤ 15 }
    ensures { result ≡ a * a / 2 ^ amount }
{
    (u16::from(a) * u16::from(a)) >> amount
}

/// The sum plus the byte's square, at most 32,767. The square is divided by 2^amount and rounded
/// down.
#[derive(Drop)]
pub struct Squared {
    pub amount: u8,
    ghost small: { amount ≤ 15 },
}

impl OfSum<u8, i16> for Squared {
    ghost formula = { λ s. accumulated_square S16 s.amount };

    fn item(&self, a: u8, sum: i16) -> i16 {
        sum.saturating_add_unsigned(scaled_square(a, self.amount))
    }

    #[tactic(auto, using(crate::proofs::SumLaws::square_lanes))]
    fn lanes(&self, row: &[u8], sums: &mut [i16]) {
        let bytes = u8x16::from_slice(row).cast::<u16>();
        add_lanes((bytes * bytes) >> self.amount as u16, sums);
    }
}

/// Adds each item to the sum at its index. A sum above 32,767 becomes 32,767.
pub fn accumulate(row: &[u8], sums: &mut [i16])
    requires { length row.now ≡ length sums.old }
    ensures { sums.new ≡ zip2 (accumulated_sum S16) (map pos row.now) sums.old }
{
    update_row(&Accumulated, row, sums);
}

/// Adds each item's square, divided by 2^amount and rounded down, to the sum at its index. A sum
/// above 32,767 becomes 32,767.
pub fn accumulate_square(row: &[u8], amount: u8, sums: &mut [i16])
    requires length { length row.now ≡ length sums.old }
    requires amount { amount ≤ 15 }
    ensures { sums.new ≡ zip2 (accumulated_square S16 amount) (map pos row.now) sums.old }
{
    update_row(&Squared { amount }, row, sums);
}
