//! Sobel gradients of 3 x 3 windows. OpenVX 1.3, "Sobel 3x3".
ghost use Rattle.std.specs.Prelude.{◌≡◌, ◌+◌, ◌*◌, ◌≤◌, length};
ghost use Rattle.vx_base.specs.Image.{run};
ghost use Rattle.vx_base.specs.Window.{gradient_x, gradient_y};
ghost use Rattle.lane_rows.specs.Windows.{three_of, nine_at, window_count, change};

use crate::nine::{OfNine, ThreeItems, three_lanes, write_nine};
use crate::nine_rows::{Nine, Three};
use std::simd::prelude::*;

/// Returns the sum of three samples with weights 1, 2, 1.
fn weighted_sum(items: ThreeItems) -> u16
    ensures value { result ≡ items.0 + 2 * items.1 + items.2 }
    ensures limit { result ≤ 1020 }
{
    u16::from(items.0) + 2 * u16::from(items.1) + u16::from(items.2)
}

/// Returns the weighted sum of `to` minus the weighted sum of `from`, with weights 1, 2, 1.
fn change(from: ThreeItems, to: ThreeItems) -> i16
    ensures { result ≡ change from to }
{
    weighted_sum(to) as i16 - weighted_sum(from) as i16
}

/// Writes the weighted sum of `to` minus the weighted sum of `from`, for each of the 32 indices
/// from `index` on. The weights are 1, 2, 1.
fn write_changes(from: &Three<'_>, to: &Three<'_>, index: usize, out: &mut [i16])
    requires from_room { index + 32 ≤ length from.now.left.now }
    requires to_room { index + 32 ≤ length to.now.left.now }
    requires out_len { length out.old ≡ 32 }
    ensures { out.new ≡ run index 32 (λ i. change (three_of from.now i) (three_of to.now i)) }
{
    let (a, b, c) = three_lanes(from, index);
    let (d, e, f) = three_lanes(to, index);
    let first = d.cast::<i16>() - a.cast::<i16>();
    let second = e.cast::<i16>() - b.cast::<i16>();
    let third = f.cast::<i16>() - c.cast::<i16>();
    (first + (second + second) + third).copy_to_slice(out);
}

/// The horizontal gradient: the right column minus the left, with weights 1, 2, 1.
pub struct GradientX;

impl OfNine<i16> for GradientX {
    ghost formula = { λ _. gradient_x };

    fn item(&self, above: ThreeItems, here: ThreeItems, below: ThreeItems) -> i16 {
        change((above.0, here.0, below.0), (above.2, here.2, below.2))
    }

    fn lanes(&self, nine: &Nine<'_>, index: usize, out: &mut [i16]) {
        let (above, here, below) = (nine.above, nine.here, nine.below);
        let left = Three {
            left: above.left,
            middle: here.left,
            right: below.left,
        };
        let right = Three {
            left: above.right,
            middle: here.right,
            right: below.right,
        };
        write_changes(&left, &right, index, out);
    }
}

/// The vertical gradient: the lower row minus the upper, with weights 1, 2, 1.
pub struct GradientY;

impl OfNine<i16> for GradientY {
    ghost formula = { λ _. gradient_y };

    fn item(&self, above: ThreeItems, _here: ThreeItems, below: ThreeItems) -> i16 {
        change(above, below)
    }

    fn lanes(&self, nine: &Nine<'_>, index: usize, out: &mut [i16]) {
        write_changes(&nine.above, &nine.below, index, out);
    }
}

/// Writes the horizontal gradient of each window.
pub fn sobel_x(nine: &Nine<'_>, out: &mut [i16])
    requires { window_count nine.now ≡ length out.old }
    ensures { out.new ≡ run 0 (length out.old) (λ i. gradient_x (nine_at nine.now i)) }
{
    write_nine(&GradientX, nine, out);
}

/// Writes the vertical gradient of each window.
pub fn sobel_y(nine: &Nine<'_>, out: &mut [i16])
    requires { window_count nine.now ≡ length out.old }
    ensures { out.new ≡ run 0 (length out.old) (λ i. gradient_y (nine_at nine.now i)) }
{
    write_nine(&GradientY, nine, out);
}
