//! Statistics of an image's valid samples.
//!
//! - `histogram` counts the samples in bins.
//! - `min_max` finds the least and the greatest sample, and the first pixel of each.
//! - `integral` gives each pixel the sum of the samples up to its column and row.
//!
//! Each function processes the valid rows from top to bottom. Each row extends the result for the
//! rows above it. Therefore `add_histogram`, `add_min_max` and `integral_on` can process an image
//! band by band. No function allocates memory. The loops over samples are kernels of `lane_rows`.
//! `laws` states facts about the extremes and about bands; `examples` evaluates the definitions.
#![tactic(auto)]

mod counts;
pub mod examples;
mod extreme;
mod extremes;
pub mod laws;
mod sums;
mod valid;

pub use counts::{add_histogram, histogram};
pub use extremes::{add_min_max, min_max};
pub use sums::{integral, integral_on, row_above};
