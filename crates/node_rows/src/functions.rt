//! The vertical radius of each function.
ghost use Rattle.std.specs.Prelude.{◌≡◌};
ghost use Rattle.std.specs.Option.{option_copied};
ghost use Rattle.node_rows.specs.Radius.{window_radius};

use vx_base::{Convolution, Function};

/// Returns a function's vertical radius (OpenVX 1.3, "Vision Functions"). For each output row, a
/// function of radius r reads the same row of its first input, r rows above it and r rows below it.
/// In a second image or an accumulator, the function reads only the same row. With a matrix, the
/// radius is half the number of matrix rows, rounded down. Without a matrix, the result is 1 for a
/// 3x3 window, 0 for a pixel-wise function, and `None` for a function that writes no image. It is
/// also `None` for Integral, which reads all rows above.
pub fn window_radius(function: Function, matrix: Option<&Convolution>) -> Option<u16>
    ensures { result ≡ window_radius function (option_copied matrix.entry) }
{
    match (matrix, function) {
        (Some(matrix), _) => Some(u16::from(matrix.rows() / 2)),
        (
            None,
            Function::Box
            | Function::Gaussian
            | Function::Median
            | Function::Erode
            | Function::Dilate
            | Function::Sobel,
        ) => Some(1),
        (None, Function::Histogram | Function::Integral | Function::MinMaxLoc) => None,
        (None, _) => Some(0),
    }
}
