//! Facts about the definitions. Each `fn` has an empty body, and its contract states the fact.

pub mod formats;
pub mod images;
pub mod pixels;
pub mod rectangles;
pub mod samples;
pub mod tables;
pub mod thresholds;
