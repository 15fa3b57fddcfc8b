//! Kernels over rows: functions of slices. The input rows of a call must be as long as the output
//! row; only `MatrixRows` needs longer input rows. The length need not be a multiple of a block's
//! length. Arguments come in this order: the kernel (if any), the inputs, the parameters, the
//! output.
//!
//! Most kernels compute each output item from the input items at its index. A kernel that updates a
//! row also reads the output item that it replaces. Most kernels are small types that compute one
//! item, or a block of items in lanes (`std::simd`). The functions in `rows` are proved once, for
//! all kernels of a trait in `kernel`. These functions write every item of a row: first block by
//! block, and then the remaining items one by one.
//!
//! - `item`: the number types of items
//! - `kernel`: the traits of kernels, for one row, for two rows, and for updates
//! - `rows`, `items`: write whole rows: blocks in lanes, then the remaining items one by one. Fold
//!   rows item by item
//! - `stores`: stores of lanes, and stores for kernels without vector instructions
//! - `overflow`: policies as types, so that no loop tests the policy
//! - `arithmetic`: kernels of two U8 or S16 items
//! - `bits`, `sums`, `products`, `distances`, `extremes`, `thresholds`, `depths`, `accumulation`:
//!   the kernels
//! - `compared`, `extent`, `occurrences`: the least and the greatest item of a row, how often an
//!   item occurs, and its first index
//! - `tallies`: a histogram of the bytes of a row
//! - `running`: running sums of a row, added to the sums of the row above
//! - `indexed`: rows that are written in blocks of 32 items; the last block may overlap the block
//!   before
//! - `nine_rows`, `nine`: windows of 3 x 3 samples as nine rows, and the trait of their kernels
//! - `ranks`, `gradients`: the kernels of 3 x 3 windows, and minima and maxima of three rows
//! - `threes`: sums and means of three rows of non-negative numbers
//! - `columns`: kernels of three rows, with weighted sums and differences for gradients
//! - `axpy`: adds a coefficient times a row of bytes to a row of sums
//! - `matrix_rows`, `pairs`: sums of samples times the coefficients of a matrix, computed for pairs
//!   of coefficients
//! - `scales`: numbers divided by a power of two, rounded toward zero and clamped
//! - `shorts`: S16 numbers in lanes
//!
//! The table lists the kernels and their formulas. The input items are a and b, and c is the old
//! output item. The function p narrows a number to the output's format by the policy. The items of
//! three rows are x, y and z. A window has 3 x 3 samples. Times are in picoseconds per item, for
//! rows of 1920 items in the cache, on x86-64-v2 (registers of 16 bytes) and x86-64-v3 (32 bytes).
//! On v2, a block of 32 bytes takes two registers, and a block of 32 S16 items takes four. On v3,
//! they take half as many. A kernel that updates a row has blocks of 16 items. Kernels without a
//! time were not measured on their own.
//!
//! The vision functions pass kernels to `map_row`, `zip_rows` and `update_row`, and to traits of
//! their own for windows. Of the functions in the table they call only `running_sums`, `tally_row`,
//! `Compared::extent_of`, `count_of`, `first_of` and `median9`. The other functions are for other
//! programs in Rattle; `image_tests` calls each of them.
//!
//! | Kernel | Formula | Conditions | v2 | v3 |
//! |---|---|---|---|---|
//! | `and_u8`, `or_u8`, `xor_u8` | a AND b, a OR b, a XOR b | | 31 | 18 |
//! | `not_u8` | 255 - a | | 25 | 13 |
//! | `add_u8`, `sub_u8` | p(a + b), p(a - b) | | 31 | 18 |
//! | `add_s16`, `sub_s16` | p(a + b), p(a - b) | U8 or S16 rows | 61 | 39 |
//! | `mul_u8` | p(a * b / 2^n), rounded toward zero | n up to 15 | 108 | 66 |
//! | `mul_s16` | p(a * b / 2^n), rounded toward zero | U8 or S16 rows, n up to 15 | 191 | 98 |
//! | `absdiff_u8` | abs(a - b) | | 40 | 21 |
//! | `absdiff_s16` | abs(a - b), at most 32,767 | U8 or S16 rows | 82 | 40 |
//! | `min_u8`, `max_u8` | min(a, b), max(a, b) | | 31 | 16 |
//! | `min_s16`, `max_s16` | min(a, b), max(a, b) | U8 or S16 rows | 61 | 38 |
//! | `threshold_u8` | by a limit; by a range | a rule for U8 | 29; 51 | 19; 29 |
//! | `threshold_s16` | by a limit; by a range | a rule for S16 | 50; 86 | 38; 56 |
//! | `widen`, `shift_up` | a, a * 2^n | n up to 7 | 46 | 23 |
//! | `narrow` | p(a / 2^n), rounded down: by Wrap; by Saturate | n up to 7 | 52; 39 | 29; 24 |
//! | `scale_u8`, `scale_s16` | a / 2^n, rounded toward zero, clamped | S32 rows, n up to 31 | | |
//! | `accumulate` | c + a, at most 32,767 | updates S16 | 90 | 44 |
//! | `accumulate_square` | c + a * a / 2^n, rounded down, at most 32,767 | n up to 15 | 122 | 62 |
//! | `axpy_i32` | c + k * a | U8 row, updates S32, abs(c) up to 2,139,127,807 | | |
//! | `running_sums` | b plus the sum of a and the items before it, modulo 2^32 | U8, U32 rows | | |
//! | `tally_row` | c plus the count of each byte | updates four histograms | | |
//! | `extremes_u8`, `extremes_s16` | least and greatest item, with their counts | not empty | | |
//! | `Compared::extent_of` | least and greatest item | U8 or S16 row, not empty | | |
//! | `count_of`, `first_of` | count of an item, its first index | U8 or S16 row | | |
//! | `Rise` | z - x | U8 rows, or rows of weighted sums | | |
//! | `Weighted` | x + 2y + z | U8 rows, or rows of differences | | |
//! | `sum3`, `weighted3` | x + y + z, x + 2y + z | U8 or S16 rows, from 0 to 8,191 | | |
//! | `Ninth` | (x + y + z) / 9, rounded down | rows of sums, up to 765 | | |
//! | `Sixteenth` | (x + 2y + z) / 16, rounded down | rows of weighted sums, up to 1,020 | | |
//! | `ByChoice` | min(x, y, z), max(x, y, z) | U8 rows | | |
//! | `min9`, `max9`, `median9` | least, greatest, median sample of a window | U8 rows | | |
//! | `sobel_x` | right column minus left column, with weights 1, 2, 1 | U8 windows | | |
//! | `sobel_y` | lower row minus upper row, with weights 1, 2, 1 | U8 windows | | |
//! | `MatrixRows` | s / 2^n, rounded toward zero, clamped | s: sum of products, n up to 31 | | |
#![tactic(auto)]

mod accumulation;
mod arithmetic;
mod axpy;
mod bits;
mod columns;
mod compared;
mod depths;
mod distances;
mod extent;
mod extremes;
mod gradients;
mod indexed;
mod item;
mod items;
mod kernel;
mod matrix_rows;
mod nine;
mod nine_rows;
mod occurrences;
mod overflow;
mod pairs;
mod products;
mod ranks;
mod rows;
mod running;
mod scales;
mod shorts;
mod stores;
mod sums;
mod tallies;
mod threes;
mod thresholds;

pub use accumulation::{Accumulated, Squared, accumulate, accumulate_square};
pub use arithmetic::{Arithmetic, OfSamples};
pub use axpy::axpy_i32;
pub use bits::{And, Not, Or, Xor, and_u8, not_u8, or_u8, xor_u8};
pub use columns::{Change, OfColumn, Rise, Weighted, WeightedSum};
pub use compared::Compared;
pub use depths::{Narrowed, ShiftedUp, narrow, shift_up, widen};
pub use distances::{Distance, absdiff_s16, absdiff_u8};
pub use extent::{RowExtremes, extremes_s16, extremes_u8};
pub use extremes::{Greater, Smaller, max_s16, max_u8, min_s16, min_u8};
pub use gradients::{GradientX, GradientY, sobel_x, sobel_y};
pub use item::{Item, Short};
pub use items::map_items;
pub use kernel::{LanesOfItem, OfItem, OfPair, OfSum};
pub use matrix_rows::MatrixRows;
pub use nine::{OfNine, ThreeItems, write_nine};
pub use nine_rows::{Nine, Three};
pub use occurrences::{count_of, first_of};
pub use overflow::{Overflow, Saturated, Wrapped};
pub use products::{Product, mul_s16, mul_u8};
pub use ranks::{ByChoice, Greatest, Least, Median, max9, median9, min9};
pub use rows::{map_row, update_row, zip_rows};
pub use running::running_sums;
pub use scales::{Clamped, Scale, scale_s16, scale_u8};
pub use stores::store_bytes;
pub use sums::{Difference, Sum, add_s16, add_u8, sub_s16, sub_u8};
pub use tallies::tally_row;
pub use threes::{Addend, Ninth, Sixteenth, SumOfThree, WeightedSumOfThree, sum3, weighted3};
pub use thresholds::{Above, Between, Tested, threshold_s16, threshold_u8};
