//! Means of 3x3 windows. The sum of each column of three rows goes to scratch memory. Each mean is
//! computed from three of these sums.
ghost use Rattle.vx_base.specs.declared.format.Format.TheVariants.{U8};
ghost use Rattle.vx_base.specs.Window.{box_mean, gaussian_mean, from_nine};
ghost use Rattle.image_core.specs.Target.{Writes};
ghost use Rattle.window_kernels.specs.Fits.{WindowFits};
ghost use Rattle.window_kernels.specs.ByColumns.{box_is_box, gaussian_is_gaussian};
ghost use Rattle.window_kernels.specs.ByColumns.{sums_taken, weighted_sums_taken};

use crate::columns::{Across, ByColumns};
use crate::windows::{SIDE, with_scratch, write_windows};
use image_core::{Image, ImageMut};
use lane_rows::{Ninth, Sixteenth, SumOfThree, WeightedSumOfThree};
use vx_base::Border;

impl Across<i16, u8, SumOfThree> for Ninth {
    ghost of_nine = { box_mean };

    ghost is_of_nine = { box_is_box };

    ghost takes_bytes = { sums_taken };
}

impl Across<i16, u8, WeightedSumOfThree> for Sixteenth {
    ghost of_nine = { gaussian_mean };

    ghost is_of_nine = { gaussian_is_gaussian };

    ghost takes_bytes = { weighted_sums_taken };
}

/// Writes the mean of each 3x3 window, rounded down (OpenVX 1.3, "Box Filter"). Both images must be
/// U8 and of the same size.
pub fn box3(image: &Image<'_>, output: &mut ImageMut<'_>, border: Border)
    requires { WindowFits U8 image.now output.old }
    ensures { Writes (from_nine U8 box_mean border image.now) output.old output.new }
{
    let (kernel, _limits) = (ByColumns(SumOfThree, Ninth), image.valid());
    with_scratch!(image.desc().width(), [0; SIDE], sums => {
        write_windows::<u8, i16, _>(&kernel, image, output, border, sums)
    })
}

/// Writes the weighted mean of each 3x3 window, rounded down (OpenVX 1.3, "Gaussian Filter"). The
/// weights are 1 2 1, 2 4 2 and 1 2 1. Both images must be U8 and of the same size.
pub fn gaussian3(image: &Image<'_>, output: &mut ImageMut<'_>, border: Border)
    requires { WindowFits U8 image.now output.old }
    ensures { Writes (from_nine U8 gaussian_mean border image.now) output.old output.new }
{
    let (kernel, _limits) = (ByColumns(WeightedSumOfThree, Sixteenth), image.valid());
    with_scratch!(image.desc().width(), [0; SIDE], sums => {
        write_windows::<u8, i16, _>(&kernel, image, output, border, sums)
    })
}
