//! Adds a coefficient times a row of bytes to a row of sums.
ghost use Rattle.std.specs.Prelude.{◌≡◌, ◌+ℤ◌, ◌*ℤ◌, pos, map, length, FitsSigned};
ghost use Rattle.std.specs.Int.{w16, w32, int_wrap};
ghost use Rattle.std.specs.Simd.Lanes.{zip2, Each1};
ghost use Rattle.lane_rows.specs.Axpy.{FitsProduct, with_product};

use crate::kernel::OfSum;
use crate::rows::update_row;
use crate::scales::sixteen;
use std::simd::prelude::*;

/// The sum plus a coefficient times the byte, modulo 2^32.
#[derive(Drop)]
struct Axpy {
    k: i16,
    ghost fits: { FitsSigned w16 k },
}

impl OfSum<u8, i32> for Axpy {
    ghost formula = { λ s a sum. int_wrap w32 (sum +ℤ s.k *ℤ a) };

    fn item(&self, a: u8, sum: i32) -> i32 {
        sum.wrapping_add(i32::from(self.k) * i32::from(a))
    }

    fn lanes(&self, row: &[u8], sums: &mut [i32]) {
        let products = u8x16::from_slice(row).cast::<i32>() * i32x16::splat(i32::from(self.k));
        (sixteen(sums) + products).copy_to_slice(sums);
    }
}

/// Adds `k` times each byte to the sum at its index. The caller must pass sums from -2,139,127,807
/// to 2,139,127,807, so that no new sum overflows.
pub fn axpy_i32(row: &[u8], k: i16, sums: &mut [i32])
    requires len { length row.now ≡ length sums.old }
    requires limit { Each1 FitsProduct sums.old }
    ensures { sums.new ≡ zip2 (with_product k) (map pos row.now) sums.old }
{
    update_row(&Axpy { k }, row, sums);
}
