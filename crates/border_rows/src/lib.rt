//! Rows of U8 images as window functions read them, border included.
//!
//! - `row_in_place` borrows a row's samples at valid columns without a copy; `border_value` gives
//!   the border's sample next to a valid edge sample.
//! - `seen_around` returns the sample at a valid column with its left and right neighbours.
//! - `load_row` writes part of a row, border included, as U8 or S16 numbers; a `RowWindow` holds
//!   one whole row, border included, as U8. Both copy the valid samples and fill in the border's
//!   samples on both sides, so kernels need no special case for the border.
//! - `window_valid` returns the valid rectangle of a window function's output.
#![tactic(auto)]

mod row_window;
mod seen;
mod valid;

pub use row_window::RowWindow;
pub use seen::{Loaded, border_value, load_row, row_in_place, seen_around};
pub use valid::window_valid;
