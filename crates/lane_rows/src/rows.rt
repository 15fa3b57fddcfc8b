//! Writes or updates whole rows: complete blocks in lanes, and the remaining items one by one.
#![tactic(auto, using(crate::proofs::BlockLaws::parts))]

ghost use Rattle.std.specs.Prelude.{◌≡◌, map, length};
ghost use Rattle.std.specs.Simd.Lanes.{zip2};

use crate::item::Item;
use crate::items::{map_items, update_items, zip_items};
use crate::kernel::{LanesOfItem, OfPair, OfSum};

/// Writes the kernel's result for each item of a row.
pub fn map_row<A: Item, T: Item, K: LanesOfItem<A, T>>(kernel: &K, row: &[A], out: &mut [T])
    requires { length row.now ≡ length out.old }
    ensures { map T.value out.new ≡ map (K.formula kernel.now) (map A.value row.now) }
{
    let blocks = out.len() / 32;
    let (row, row_rest) = row.split_at(32 * blocks);
    let (out, out_rest) = out.split_at_mut(32 * blocks);
    for k in 0..blocks {
        let start = 32 * k;
        kernel.lanes(&row[start..start + 32], &mut out[start..start + 32]);
    }
    map_items(kernel, row_rest, out_rest);
}

/// Writes the kernel's result for each pair of items of two rows.
pub fn zip_rows<A: Item, B: Item, T: Item, K: OfPair<A, B, T>>(
    kernel: &K,
    first: &[A],
    second: &[B],
    out: &mut [T],
)
    requires first_len { length first.now ≡ length out.old }
    requires second_len { length second.now ≡ length out.old }
    ensures { map T.value out.new ≡ zip2 (K.formula kernel.now) (map A.value first.now)
        (map B.value second.now) }
{
    let blocks = out.len() / 32;
    let (first, first_rest) = first.split_at(32 * blocks);
    let (second, second_rest) = second.split_at(32 * blocks);
    let (out, out_rest) = out.split_at_mut(32 * blocks);
    for k in 0..blocks {
        let start = 32 * k;
        kernel.lanes(
            &first[start..start + 32],
            &second[start..start + 32],
            &mut out[start..start + 32],
        );
    }
    zip_items(kernel, first_rest, second_rest, out_rest);
}

/// Updates each sum with the row's item at the same index.
pub fn update_row<A: Item, T: Item, K: OfSum<A, T>>(kernel: &K, row: &[A], sums: &mut [T])
    requires { length row.now ≡ length sums.old }
    ensures { map T.value sums.new ≡ zip2 (K.formula kernel.now) (map A.value row.now)
        (map T.value sums.old) }
{
    let blocks = sums.len() / 16;
    let (row, row_rest) = row.split_at(16 * blocks);
    let (sums, sums_rest) = sums.split_at_mut(16 * blocks);
    for k in 0..blocks {
        let start = 16 * k;
        kernel.lanes(&row[start..start + 16], &mut sums[start..start + 16]);
    }
    update_items(kernel, row_rest, sums_rest);
}
