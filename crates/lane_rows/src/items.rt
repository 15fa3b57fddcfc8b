//! Writes, updates or folds rows item by item, for example the items after the last complete block.
ghost use Rattle.std.specs.Prelude.{◌≡◌, map, length};
ghost use Rattle.std.specs.List.{fold};
ghost use Rattle.std.specs.Simd.Lanes.{zip2};

use crate::item::Item;
use crate::kernel::{OfItem, OfPair, OfSum};

/// Writes the kernel's result for each item of a row.
pub fn map_items<A: Item, T: Item, K: OfItem<A, T>>(kernel: &K, row: &[A], out: &mut [T])
    requires { length row.now ≡ length out.old }
    ensures { map T.value out.new ≡ map (K.formula kernel.now) (map A.value row.now) }
{
    for (i, item) in out.iter_mut().enumerate() {
        *item = kernel.item(row[i]);
    }
}

/// Writes the kernel's result for each pair of items of two rows.
#[tactic(auto, using(crate::proofs::BlockLaws::items))]
pub fn zip_items<A: Item, B: Item, T: Item, K: OfPair<A, B, T>>(
    kernel: &K,
    first: &[A],
    second: &[B],
    out: &mut [T],
)
    requires first_len { length first.now ≡ length out.old }
    requires second_len { length second.now ≡ length out.old }
    ensures { map T.value out.new ≡ zip2 (K.formula kernel.now) (map A.value first.now)
        (map B.value second.now) }
{
    for (i, item) in out.iter_mut().enumerate() {
        *item = kernel.item(first[i], second[i]);
    }
}

/// Updates each sum with the row's item at the same index.
#[tactic(auto, using(crate::proofs::BlockLaws::items))]
pub fn update_items<A: Item, T: Item, K: OfSum<A, T>>(kernel: &K, row: &[A], sums: &mut [T])
    requires { length row.now ≡ length sums.old }
    ensures { map T.value sums.new ≡ zip2 (K.formula kernel.now) (map A.value row.now)
        (map T.value sums.old) }
{
    for (i, sum) in sums.iter_mut().enumerate() {
        *sum = kernel.item(row[i], *sum);
    }
}

/// Folds a row: the kernel's result for `start` and the first item, then for that result and the
/// second item, and so on.
pub fn fold_items<T: Item, K: OfPair<T, T, T>>(kernel: &K, start: T, row: &[T]) -> T
    ensures { T.value result ≡ fold (K.formula kernel.now) (T.value start) (map T.value row.now) }
{
    let mut total = start;
    for item in row {
        total = kernel.item(total, *item);
    }
    total
}

/// Folds two rows, one after the other.
pub fn fold_rows<T: Item, K: OfPair<T, T, T>>(kernel: &K, start: T, row: &[T], next: &[T]) -> T
    ensures { T.value result ≡ fold (K.formula kernel.now)
        (fold (K.formula kernel.now) (T.value start) (map T.value row.now)) (map T.value next.now) }
{
    fold_items(kernel, fold_items(kernel, start, row), next)
}
