//! Horizontal and vertical gradients.
ghost use Rattle.std.specs.Prelude.{IfSome};
ghost use Rattle.vx_base.specs.declared.format.Format.TheVariants.{S16};
ghost use Rattle.vx_base.specs.Window.{gradient_x, gradient_y, from_nine};
ghost use Rattle.image_core.specs.Target.{Writes};
ghost use Rattle.window_kernels.specs.Fits.{WindowFits};
ghost use Rattle.window_kernels.specs.Given.{WritesGiven};
ghost use Rattle.window_kernels.specs.ByColumns.{all_taken, x_is_x, y_is_y};

use crate::columns::{Across, ByColumns};
use crate::windows::{SIDE, with_scratch, write_windows};
use image_core::{Image, ImageMut};
use lane_rows::{Change, Rise, Weighted, WeightedSum};
use vx_base::Border;

impl Across<WeightedSum, i16, Weighted> for Rise {
    ghost of_nine = { gradient_x };

    ghost is_of_nine = { x_is_x };

    ghost takes_bytes = { all_taken };
}

impl Across<Change, i16, Rise> for Weighted {
    ghost of_nine = { gradient_y };

    ghost is_of_nine = { y_is_y };

    ghost takes_bytes = { all_taken };
}

/// Writes the horizontal gradient (OpenVX 1.3, "Sobel 3x3") of a U8 image to an S16 image.
fn sobel_x3(image: &Image<'_>, output: &mut ImageMut<'_>, border: Border)
    requires { WindowFits S16 image.now output.old }
    ensures { Writes (from_nine S16 gradient_x border image.now) output.old output.new }
{
    let (kernel, _limits) = (ByColumns(Weighted, Rise), image.valid());
    with_scratch!(image.desc().width(), [WeightedSum::zero(); SIDE], columns => {
        write_windows::<i16, WeightedSum, _>(&kernel, image, output, border, columns)
    })
}

/// Writes the vertical gradient (OpenVX 1.3, "Sobel 3x3") of a U8 image to an S16 image.
fn sobel_y3(image: &Image<'_>, output: &mut ImageMut<'_>, border: Border)
    requires { WindowFits S16 image.now output.old }
    ensures { Writes (from_nine S16 gradient_y border image.now) output.old output.new }
{
    let (kernel, _limits) = (ByColumns(Rise, Weighted), image.valid());
    with_scratch!(image.desc().width(), [Change::zero(); SIDE], columns => {
        write_windows::<i16, Change, _>(&kernel, image, output, border, columns)
    })
}

/// Writes the horizontal and the vertical gradient of a U8 image (OpenVX 1.3, "Sobel 3x3"), each to
/// an S16 output of the image's size. An output that isn't given isn't computed.
pub fn sobel3(
    image: &Image<'_>,
    output_x: Option<&mut ImageMut<'_>>,
    output_y: Option<&mut ImageMut<'_>>,
    border: Border,
)
    requires x { IfSome output_x (λ out. WindowFits S16 image.now out.now) }
    requires y { IfSome output_y (λ out. WindowFits S16 image.now out.now) }
    ensures x { WritesGiven (from_nine S16 gradient_x border image.now) output_x.entry
        output_x.exit }
    ensures y { WritesGiven (from_nine S16 gradient_y border image.now) output_y.entry
        output_y.exit }
{
    if let Some(output) = output_x {
        sobel_x3(image, output, border);
    }
    if let Some(output) = output_y {
        sobel_y3(image, output, border);
    }
}
