//! The input rows that a node reads for one output row.
//!
//! An output row depends only on the input rows within the vertical radius, `window_radius`. Given
//! only a band of the input, the output can be computed for the band except for `window_radius`
//! rows at each end. Integral has no radius: an output row depends on the same input row and on all
//! rows above it.
//!
//! - `functions`: the vertical radius of each function
//! - `laws`: an output row is decided by the input rows within the radius
//! - `examples`: the results for columns of four pixels
#![tactic(auto)]

pub mod examples;
mod functions;
pub mod laws;

pub use functions::window_radius;
