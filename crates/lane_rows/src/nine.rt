//! Kernels of the nine samples of 3 x 3 windows.
ghost use Rattle.std.specs.Prelude.{◌≡◌, ◌+◌, ◌<◌, ◌≤◌, ℕ, ℤ, List, map, length, slice_index};
ghost use Rattle.std.specs.List.{range_with_len};
ghost use Rattle.vx_base.specs.Image.{run};
ghost use Rattle.lane_rows.specs.Windows.{three_of, nine_of, nine_at, window_count};
ghost use Rattle.lane_rows.specs.Windows.{lanes_of, three_from, nine_from};

use crate::indexed::{Indexed, write_indexed};
use crate::item::Item;
use crate::nine_rows::{Nine, Three};
use std::simd::prelude::*;

/// Three samples, from left to right or from top to bottom.
pub type ThreeItems = (u8, u8, u8);

/// A kernel of the nine samples of a window.
pub trait OfNine<T: Item> {
    /// The result, from the nine samples in row-major order.
    ghost formula: { Self → List ℤ → ℤ };

    fn item(&self, above: ThreeItems, here: ThreeItems, below: ThreeItems) -> T
        ensures { T.value result ≡ formula self.now (nine_of above here below) };

    /// Writes the results of the 32 windows from `index` on.
    fn lanes(&self, nine: &Nine<'_>, index: usize, out: &mut [T])
        requires room { index + 32 ≤ window_count nine.now }
        requires out_len { length out.old ≡ 32 }
        ensures { map T.value out.new ≡ run index 32
            (λ i. formula self.now (nine_at nine.now i)) };
}

impl<'a> Three<'a> {
    /// Returns, for each item of a row except the last two, the item and the two items to its
    /// right.
    fn along(row: &'a [u8]) -> Three<'a>
        requires { 2 ≤ length row.now }
        ensures len { length result.left.now + 2 ≡ length row.now }
        ensures value { (i : ℕ) → i < length result.left.now →
            three_of result i ≡ three_from row.now i }
    {
        let count = row.len() - 2;
        Three {
            left: &row[..count],
            middle: &row[1..count + 1],
            right: &row[2..],
        }
    }

    /// Returns the three items at an index.
    pub fn items(&self, index: usize) -> ThreeItems
        requires { index < length self.now.left.now }
        ensures { result ≡ three_of self.now index }
    {
        (self.left[index], self.middle[index], self.right[index])
    }
}

impl<'a> Nine<'a> {
    /// Returns the 3 x 3 windows of three rows, one for each column except the last two.
    pub fn around(above: &'a [u8], here: &'a [u8], below: &'a [u8]) -> Nine<'a>
        requires some { 2 ≤ length above.now }
        requires here { length here.now ≡ length above.now }
        requires below { length below.now ≡ length above.now }
        ensures len { window_count result + 2 ≡ length above.now }
        ensures value { (i : ℕ) → i < window_count result →
            nine_at result i ≡ nine_from above.now here.now below.now i }
    {
        Nine {
            above: Three::along(above),
            here: Three::along(here),
            below: Three::along(below),
        }
    }
}

/// Three neighbours in each of 32 lanes.
pub type ThreeLanes = (u8x32, u8x32, u8x32);

/// Returns the 32 items of a row from `index` on.
fn lanes_at(row: &[u8], index: usize) -> u8x32
    requires { index + 32 ≤ length row.now }
    ensures { result ≡ map (slice_index row.now) (range_with_len index 32) }
{
    u8x32::from_slice(&row[index..index + 32])
}

/// Returns, for each of three rows, the 32 items from `index` on.
pub fn three_lanes(rows: &Three<'_>, index: usize) -> ThreeLanes
    requires { index + 32 ≤ length rows.now.left.now }
    ensures { result ≡ lanes_of rows.now index }
{
    (
        lanes_at(rows.left, index),
        lanes_at(rows.middle, index),
        lanes_at(rows.right, index),
    )
}

/// A kernel's result for each window in `nine`.
#[derive(Drop)]
struct NineAt<'a, 'b, K> {
    kernel: &'a K,
    nine: &'a Nine<'b>,
}

impl<T: Item, K: OfNine<T>> Indexed<T> for NineAt<'_, '_, K> {
    ghost count = { λ s. window_count s.nine.now };

    ghost at = { λ s i. K.formula s.kernel.now (nine_at s.nine.now i) };

    fn item(&self, index: usize) -> T {
        let nine = self.nine;
        let (above, here) = (nine.above.items(index), nine.here.items(index));
        self.kernel.item(above, here, nine.below.items(index))
    }

    fn lanes(&self, index: usize, out: &mut [T]) {
        self.kernel.lanes(self.nine, index, out);
    }
}

/// Writes the kernel's result for each window in `nine`.
pub fn write_nine<T: Item, K: OfNine<T>>(kernel: &K, nine: &Nine<'_>, out: &mut [T])
    requires { window_count nine.now ≡ length out.old }
    ensures { map T.value out.new ≡ run 0 (length out.old)
        (λ i. K.formula kernel.now (nine_at nine.now i)) }
{
    write_indexed(&NineAt { kernel, nine }, out);
}
