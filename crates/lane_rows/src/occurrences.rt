//! How often an item occurs in a row, and the index of its first occurrence. `Compared::count_in`
//! compares blocks in lanes (`std::simd`).
#![tactic(auto, using(crate::proofs::CountLaws::counts))]

ghost use Rattle.std.specs.Prelude.{◌≡◌, ◌*◌, ◌<◌, ◌≤◌, ◌^◌, pos, map, length, slice_range};
ghost use Rattle.std.specs.Prelude.{slice_index_or};
ghost use Rattle.vx_base.specs.Statistics.{count_of};

use crate::compared::Compared;

/// Returns the number of items of a row that equal `item`.
pub fn count_of<T: Compared>(row: &[T], item: T) -> u32
    requires { length row.now < 2 ^ 32 }
    ensures { result ≡ count_of (T.value item) (map T.value row.now) }
{
    let blocks = row.len() / 32;
    let mut count = 0;
    for k in 0..blocks {
        count += item.count_in(&row[32 * k..32 * k + 32]);
    }
    for i in 32 * blocks..row.len() {
        if row[i].is(item) {
            count += 1;
        }
    }
    count
}

/// Returns an index from which a search for `item` may start. `item` doesn't occur before that
/// index.
fn without<T: Compared>(row: &[T], item: T) -> usize
    ensures room { result ≤ length row.now }
    ensures none { count_of (T.value item) (slice_range (map T.value row.now) 0 result) ≡ 0 }
{
    let blocks = row.len() / 32;
    for k in 0..blocks {
        if item.count_in(&row[32 * k..32 * k + 32]) != 0 {
            return 32 * k;
        }
    }
    32 * blocks
}

/// Returns the index of the first occurrence of `item`. The caller must pass an item that occurs in
/// the row.
pub fn first_of<T: Compared>(row: &[T], item: T) -> usize
    requires { 0 < count_of (T.value item) (map T.value row.now) }
    ensures below { result < length row.now }
    ensures here { slice_index_or (map T.value row.now) result (pos 0) ≡ T.value item }
    ensures none_before { count_of (T.value item)
        (slice_range (map T.value row.now) 0 result) ≡ 0 }
{
    for i in without(row, item)..row.len() {
        if row[i].is(item) {
            return i;
        }
    }
    0
}
