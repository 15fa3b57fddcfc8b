//! Sums of samples times coefficients modulo 2^32, by the processor's multiply-and-add instruction.
//!
//! In registers of 32 bytes, the instruction multiplies 16 numbers by 16 others and adds the two
//! products of each pair of neighbours. With two alternating coefficients, it gives the sums at
//! every second index. A second instruction, one index further on, gives the sums at the indices in
//! between.
ghost use Rattle.std.specs.Prelude.{◌≡◌, ◌+◌, ◌*◌, ◌≤◌, ℤ, length, FitsSigned};
ghost use Rattle.std.specs.Int.{w16, w32, int_wrap};
ghost use Rattle.std.specs.Simd.Lanes.{chunk, Each1};
ghost use Rattle.vx_base.specs.Image.{run};
ghost use Rattle.lane_rows.specs.Pairs.{AreAdded, IsPairTable, alternation, pair_at, row_sum};

use std::simd::prelude::*;

/// Returns a sum for each of eight indices: every second index from `index` on. Each sum is the
/// sample at its index times one coefficient, plus the next sample times another, modulo 2^32.
///
/// The two coefficients alternate in the 16 items of `table` from `at` on. This function reads them
/// from the table. If a caller loaded them into vectors before its loop, the compiler would widen
/// those vectors, and then need a multiplication for each product.
fn eight_pairs(row: &[i16], index: usize, table: &[i16], at: usize) -> i32x8
    requires room { index + 16 ≤ length row.now }
    requires fit { Each1 (FitsSigned w16) row.now }
    requires table_room { at + 16 ≤ length table.now }
    requires table_fits { Each1 (FitsSigned w16) table.now }
    ensures { (a b : ℤ) → chunk at 16 table.now ≡ alternation 8 a b →
        result ≡ run 0 8 (λ i. int_wrap w32 (pair_at row.now a b (index + 2 * i))) }
{
    let samples = i16x16::from_slice(&row[index..index + 16]);
    let coefficients = i16x16::from_slice(&table[at..at + 16]);
    samples.swizzle([0, 2, 4, 6, 8, 10, 12, 14]).cast::<i32>()
        * coefficients
            .swizzle([0, 2, 4, 6, 8, 10, 12, 14])
            .cast::<i32>()
        + samples.swizzle([1, 3, 5, 7, 9, 11, 13, 15]).cast::<i32>()
            * coefficients
                .swizzle([1, 3, 5, 7, 9, 11, 13, 15])
                .cast::<i32>()
}

/// Returns the sums that `eight_pairs` returns, but for 16 indices: every second index from
/// `index` on.
///
/// The two halves are joined before the caller adds them to its sums. Otherwise the compiler adds
/// the products one by one, which takes twice as many multiplications.
fn sixteen_pairs(row: &[i16], index: usize, table: &[i16], at: usize) -> i32x16
    requires room { index + 32 ≤ length row.now }
    requires fit { Each1 (FitsSigned w16) row.now }
    requires table_room { at + 16 ≤ length table.now }
    requires table_fits { Each1 (FitsSigned w16) table.now }
    ensures { (a b : ℤ) → chunk at 16 table.now ≡ alternation 8 a b →
        result ≡ run 0 16 (λ i. int_wrap w32 (pair_at row.now a b (index + 2 * i))) }
{
    let (first, second) = (
        eight_pairs(row, index, table, at),
        eight_pairs(row, index + 16, table, at),
    );
    first.shuffle(
        second,
        [0, 1, 2, 3, 4, 5, 6, 7, 8, 9, 10, 11, 12, 13, 14, 15],
    )
}

/// Adds the products of one matrix row to the sums at the 32 indices from `index` on. Returns the
/// new sums modulo 2^32: first those at an even distance from `index`, then those at an odd
/// distance.
pub fn add_row(
    row: &[i16],
    index: usize,
    table: &[i16],
    pairs: usize,
    even: i32x16,
    odd: i32x16,
) -> (i32x16, i32x16)
    requires room { index + 2 * pairs + 31 ≤ length row.now }
    requires fit { Each1 (FitsSigned w16) row.now }
    requires table_len { 16 * pairs ≤ length table.now }
    requires table { IsPairTable pairs table.now }
    requires table_fits { Each1 (FitsSigned w16) table.now }
    ensures even { AreAdded (λ i. row_sum row.now table.now pairs (index + 2 * i)) even result.0 }
    ensures odd { AreAdded (λ i. row_sum row.now table.now pairs (index + 1 + 2 * i)) odd
        result.1 }
{
    let (mut left, mut right) = (even, odd);
    for j in 0..pairs {
        let more_left = sixteen_pairs(row, index + 2 * j, table, 16 * j);
        let more_right = sixteen_pairs(row, index + 1 + 2 * j, table, 16 * j);
        left = left + more_left;
        right = right + more_right;
    }
    (left, right)
}
