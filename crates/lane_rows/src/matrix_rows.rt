//! Sums of samples times the coefficients of a matrix, over all rows of the matrix.
ghost use Rattle.std.specs.Prelude.{◌≡◌, ◌+◌, ◌*◌, ◌<◌, ◌≤◌, ◌^◌, ℕ, pos, int_div, map, length};
ghost use Rattle.std.specs.Prelude.{FitsSigned, All};
ghost use Rattle.std.specs.Int.{w16, w32, int_wrap};
ghost use Rattle.vx_base.specs.Image.{run};
ghost use Rattle.vx_base.specs.Sample.{clamp};
ghost use Rattle.lane_rows.specs.Pairs.{IsNear, IsPairTable, line_of};

use crate::items::map_items;
use crate::kernel::LanesOfItem;
use crate::pairs::add_row;
use crate::scales::{Clamped, Scale};
use std::simd::prelude::*;

/// The rows of U8 samples under a matrix, and the matrix's coefficients.
#[derive(Drop)]
pub struct MatrixRows<'a> {
    /// The samples of the rows, row after row.
    pub rows: &'a [i16],
    /// The length of a row in items.
    pub line: u16,
    /// The coefficients: 80 items for each row of the matrix. They hold each pair of the row's
    /// coefficients eight times.
    pub tables: &'a [i16],
    /// The number of rows.
    pub count: u8,
    /// The number of pairs of coefficients in each row of the matrix.
    pub pairs: usize,
    /// The exponent of the power of two by which the sums are divided.
    pub exponent: u8,
    ghost few: { (count ≤ 9) × (pairs ≤ 5) },
    ghost small: { exponent ≤ 31 },
    ghost rows_len: { length rows.now ≡ count * line },
    ghost near: { All (IsNear 255) rows.now },
    ghost tables_len: { length tables.now ≡ count * 80 },
    ghost paired: { (l : ℕ) → l < count → IsPairTable pairs (line_of tables.now 80 l) },
    ghost fits: { All (FitsSigned w16) tables.now },
}

/// Returns row `l` of `items`, which holds rows of `line` items.
fn row_of(items: &[i16], line: u16, l: u8) -> &[i16]
    requires { l * line + line ≤ length items.now }
    ensures { result.now ≡ line_of items.now line l }
{
    let step = usize::from(line);
    let start = usize::from(l) * step;
    &items[start..start + step]
}

impl MatrixRows<'_> {
    ghost use Rattle.lane_rows.specs.MatrixRows.{matrix_sum};

    /// Returns the sums at the 32 indices from `index` on, modulo 2^32: first the sums at an even
    /// distance from `index`, then the sums at an odd distance.
    fn sum_rows(&self, index: usize) -> (i32x16, i32x16)
        requires { index + 2 * self.now.pairs + 31 ≤ self.now.line }
        ensures even { result.0
            ≡ run 0 16 (λ i. int_wrap w32 (matrix_sum self.now (index + 2 * i))) }
        ensures odd { result.1
            ≡ run 0 16 (λ i. int_wrap w32 (matrix_sum self.now (index + 1 + 2 * i))) }
    {
        let (mut even, mut odd) = (i32x16::splat(0), i32x16::splat(0));
        for l in 0..self.count {
            let (row, table) = (row_of(self.rows, self.line, l), row_of(self.tables, 80, l));
            let (left, right) = add_row(row, index, table, self.pairs, even, odd);
            even = left;
            odd = right;
        }
        (even, odd)
    }

    /// Returns the sums at the 32 indices from `index` on.
    fn sum_block(&self, index: usize) -> [i32; 32]
        requires { index + 2 * self.now.pairs + 31 ≤ self.now.line }
        ensures { result ≡ run 0 32 (λ i. matrix_sum self.now (index + i)) }
    {
        let (even, odd) = self.sum_rows(index);
        let (first, second) = even.interleave(odd);
        let mut sums = [0; 32];
        first.copy_to_slice(&mut sums[..16]);
        second.copy_to_slice(&mut sums[16..]);
        sums
    }

    /// Writes the results of `write` for the indices from `index` on. `out` must have at most 32
    /// items.
    fn write_block<T: Clamped>(&self, index: usize, out: &mut [T])
        requires few { length out.old ≤ 32 }
        requires room { index + 41 ≤ self.now.line }
        ensures { map T.value out.new ≡ run 0 (length out.old) (λ i.
            clamp T.format (int_div (matrix_sum self.now (index + i))
            (pos (2 ^ self.now.exponent)))) }
    {
        let sums = self.sum_block(index);
        let scale = Scale {
            exponent: self.exponent,
        };
        if out.len() == 32 {
            scale.lanes(&sums, out);
        } else {
            map_items(&scale, &sums[..out.len()], out);
        }
    }

    /// Writes the sums divided by 2^exponent, rounded toward zero and clamped. The rows must be at
    /// least 48 items longer than `out`, since a block reads beyond the last index that it writes.
    pub fn write<T: Clamped>(&self, out: &mut [T])
        requires { length out.old + 48 ≤ self.now.line }
        ensures { map T.value out.new ≡ run 0 (length out.old) (λ i.
            clamp T.format (int_div (matrix_sum self.now i) (pos (2 ^ self.now.exponent)))) }
    {
        let count = out.len();
        for k in 0..count.div_ceil(32) {
            let first = 32 * k;
            let end = (first + 32).min(count);
            self.write_block(first, &mut out[first..end]);
        }
    }
}
