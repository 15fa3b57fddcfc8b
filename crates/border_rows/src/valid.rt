//! Valid rectangles of outputs.
ghost use Rattle.std.specs.Prelude.{◌≡◌, ◌<◌, ◌≤◌};
ghost use Rattle.vx_base.specs.Window.{window_valid};

use vx_base::{Border, Rect};

/// Returns the output's valid rectangle for a window of these radii, given the input's valid
/// rectangle. Under an undefined border the result has the pixels whose whole window is valid;
/// otherwise it is the input's valid rectangle.
pub fn window_valid(border: Border, rx: u16, ry: u16, valid: Rect) -> Rect
    ensures value { result ≡ window_valid border rx ry valid }
    ensures columns { (result.x1 ≤ valid.x1) × (result.x0 < result.x1 → valid.x0 < valid.x1) }
    ensures inside { result.x0 < result.x1 → valid.x0 ≤ result.x0 }
    ensures rows { (result.y1 ≤ valid.y1) × (result.y0 < result.y1 → valid.y0 < valid.y1) }
{
    match border {
        Border::Undefined => valid.shrink(rx, ry),
        _ => valid,
    }
}
