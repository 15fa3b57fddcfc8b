//! Window functions: each output sample depends on the input samples around the same pixel.
//!
//! Each function writes all samples of its output: the results of OpenVX 1.3's formula where the
//! border mode makes the output valid, 0 elsewhere.
//!
//! A 3x3 window function is an `OfWindow`. `write_windows` applies any `OfWindow` to a whole image.
//! The windows in the middle of a row lie in valid columns, so lane kernels of lane_rows read the
//! three rows without a copy. The median reads nine shifted slices of these rows. The other
//! functions combine the three samples of each column, and then three neighbouring results
//! (`columns`). The first and the last sample of a row, whose windows may reach beyond the valid
//! columns, are computed one by one.
//!
//! `convolve` works on pieces of rows. It loads the samples that a piece's windows read, border
//! included, for the lane kernel `MatrixRows`. The width of a piece is limited, and so is the
//! scratch memory.
//!
//! No function allocates memory. `examples` evaluates the definitions on numbers, and `laws` states
//! facts about the definitions.
#![tactic(auto)]

mod columns;
mod convolution;
pub mod examples;
mod gradients;
pub mod laws;
mod means;
mod ranks;
mod windows;

pub use convolution::convolve;
pub use gradients::sobel3;
pub use means::{box3, gaussian3};
pub use ranks::{dilate3, erode3, median3};
