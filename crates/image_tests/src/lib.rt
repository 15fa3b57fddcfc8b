//! Tests of the public functions on images. They cover images that are only partly valid, PGM
//! texts, and rows of lengths around that of a block of SIMD lanes. `tools/check_functions` tests
//! the vision functions on the program.
//!
//! - `values`: rectangles, codes and tables
//! - `images`: images that are only partly valid
//! - `borders`: rows with the samples that a border mode adds
//! - `rows`: kernels of one row, of two rows, and of a row that is updated
//! - `texts`: PGM texts
//! - `statistics`: extremes, counts and running sums of rows
//! - `sums`: sums of rows by kernels that no vision function calls
//! - `windows`: kernels of nine rows
#![tactic(auto)]

#[cfg(test)]
mod borders;
#[cfg(test)]
mod images;
#[cfg(test)]
mod rows;
#[cfg(test)]
mod statistics;
#[cfg(test)]
mod sums;
#[cfg(test)]
mod texts;
#[cfg(test)]
mod values;
#[cfg(test)]
mod windows;
