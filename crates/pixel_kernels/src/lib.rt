//! Pixel-wise functions: each output sample depends on the input samples at the same pixel.
//!
//! Each function writes all samples of its output, which is an image or a band of an image. It
//! writes the results of OpenVX 1.3's formula where all inputs are valid, and 0 elsewhere. The
//! output's valid rectangle is the intersection of the inputs' valid rectangles. A function chooses
//! a lane kernel (see lane_rows) by formats and policy, so the loop over a row tests neither.
//! `write_one` and `write_two` prove once, for any such kernel, that all samples of the output are
//! correct. The accumulating functions also read their output and update it in place. These
//! functions apply their formula where both the input and the earlier output are valid, and write 0
//! elsewhere.
#![tactic(auto)]

mod accumulation;
mod arithmetic;
mod bitwise;
mod depth;
mod one;
mod pixel;
mod tables;
mod thresholds;
mod two;

pub use accumulation::{accumulate, accumulate_square};
pub use arithmetic::{absolute_difference, add, maximum, minimum, multiply, subtract};
pub use bitwise::{bit_and, bit_not, bit_or, bit_xor};
pub use depth::convert_depth;
pub use tables::lookup;
pub use thresholds::threshold;
