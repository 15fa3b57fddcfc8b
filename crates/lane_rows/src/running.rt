//! Running sums of rows modulo 2^32, in blocks of 16 items.
ghost use Rattle.std.specs.Prelude.{◌≡◌, ◌*◌, ◌≤◌, ◌%◌, ◌^◌, map, take, length};
ghost use Rattle.std.specs.List.{sum, range_with_len};
ghost use Rattle.lane_rows.specs.Running.{sum_below, sums_below};

use std::simd::prelude::*;

/// Returns the running sums of 16 items.
///
/// Each of eight lanes starts as the sum of a pair of neighbours. The first two steps work within
/// each half of the lanes. The first step adds to each lane the lane before it, and the second step
/// adds the lane two before it. The third step adds the last lane of the first half to each lane of
/// the second half. Now each lane is the sum up to the end of a pair. The sum up to the middle of a
/// pair is the sum up to the pair's end minus the pair's second item.
fn running(items: u8x16) -> u32x16
    ensures { result ≡ map (λ k. sum (take k items)) (range_with_len 1 16) }
{
    let zero = u16x8::splat(0);
    let evens = items.swizzle([0, 2, 4, 6, 8, 10, 12, 14]).cast::<u16>();
    let odds = items.swizzle([1, 3, 5, 7, 9, 11, 13, 15]).cast::<u16>();
    let one = evens + odds;
    let two = one + zero.shuffle(one, [0, 8, 9, 10, 0, 12, 13, 14]);
    let four = two + zero.shuffle(two, [0, 0, 8, 9, 0, 0, 12, 13]);
    let eight = four + zero.shuffle(four, [0, 0, 0, 0, 11, 11, 11, 11]);
    let within = eight - odds;
    within
        .shuffle(
            eight,
            [0, 8, 1, 9, 2, 10, 3, 11, 4, 12, 5, 13, 6, 14, 7, 15],
        )
        .cast::<u32>()
}

/// Indices that repeat eight lanes in both halves of 16 lanes. A swizzle with these indices takes
/// no instruction.
const TWICE: [usize; 16] = [0, 1, 2, 3, 4, 5, 6, 7, 0, 1, 2, 3, 4, 5, 6, 7];

/// Writes the sums that `running_sums` writes, but only in the first `blocks` blocks. Returns the
/// total of the row's items in these blocks, modulo 2^32.
///
/// The total stays in lanes, so that the next block doesn't wait for the sums to be stored.
fn write_block_sums(row: &[u8], above: &[u32], blocks: usize, out: &mut [u32]) -> u32
    requires above_len { length above.now ≡ length row.now }
    requires out_len { length out.old ≡ length row.now }
    requires inside { 16 * blocks ≤ length row.now }
    ensures written { take (16 * blocks) out.new
        ≡ map (sum_below above.now row.now) (range_with_len 0 (16 * blocks)) }
    ensures total { result ≡ sum (take (16 * blocks) row.now) % 2 ^ 32 }
{
    let mut total = u32x8::splat(0);
    for block in 0..blocks {
        let start = 16 * block;
        let sums = running(u8x16::from_slice(&row[start..start + 16]));
        let before = u32x16::from_slice(&above[start..start + 16]);
        (before + (sums + total.swizzle(TWICE))).copy_to_slice(&mut out[start..start + 16]);
        total = sums.swizzle([15; 8]) + total;
    }
    total.to_array()[0]
}

/// Writes, for each index, the item of `above` plus the row's items up to and including that index,
/// modulo 2^32.
pub fn running_sums(row: &[u8], above: &[u32], out: &mut [u32])
    requires above_len { length above.now ≡ length row.now }
    requires out_len { length out.old ≡ length row.now }
    ensures { out.new ≡ sums_below above.now row.now }
{
    let blocks = row.len() / 16;
    let mut total = write_block_sums(row, above, blocks, out);
    for k in 16 * blocks..row.len() {
        total = total.wrapping_add(u32::from(row[k]));
        out[k] = above[k].wrapping_add(total);
    }
}
