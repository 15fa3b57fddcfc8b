//! The least, the greatest and the median sample of 3x3 windows.
ghost use Rattle.vx_base.specs.declared.format.Format.TheVariants.{U8};
ghost use Rattle.vx_base.specs.Window.{least_of, greatest_of, median, from_nine};
ghost use Rattle.image_core.specs.Target.{Writes};
ghost use Rattle.window_kernels.specs.Fits.{WindowFits};
ghost use Rattle.window_kernels.specs.ByColumns.{all_taken, column_least_is_least};
ghost use Rattle.window_kernels.specs.ByColumns.{column_greatest_is_greatest};

use crate::columns::{Across, ByColumns};
use crate::windows::{OfWindow, SIDE, with_scratch, write_windows};
use image_core::{Image, ImageMut};
use lane_rows::{ByChoice, Greatest, Least, Median, Nine, OfNine, ThreeItems, median9};
use vx_base::Border;

impl Across<u8, u8, ByChoice<Least>> for ByChoice<Least> {
    ghost of_nine = { least_of };

    ghost is_of_nine = { column_least_is_least };

    ghost takes_bytes = { all_taken };
}

impl Across<u8, u8, ByChoice<Greatest>> for ByChoice<Greatest> {
    ghost of_nine = { greatest_of };

    ghost is_of_nine = { column_greatest_is_greatest };

    ghost takes_bytes = { all_taken };
}

impl OfWindow<u8, u8> for Median {
    ghost formula = { λ _. median };

    ghost scratch_rows = { 0 };

    fn item(&self, above: ThreeItems, here: ThreeItems, below: ThreeItems) -> u8 {
        OfNine::item(self, above, here, below)
    }

    fn write_row(
        &self,
        above: &[u8],
        here: &[u8],
        below: &[u8],
        _scratch: &mut [u8],
        out: &mut [u8],
    ) {
        median9(&Nine::around(above, here, below), out);
    }
}

/// Writes the least sample of each 3x3 window (OpenVX 1.3, "Erode Image"). Both images must be U8
/// and of the same size.
pub fn erode3(image: &Image<'_>, output: &mut ImageMut<'_>, border: Border)
    requires { WindowFits U8 image.now output.old }
    ensures { Writes (from_nine U8 least_of border image.now) output.old output.new }
{
    let (kernel, _limits) = (ByColumns(ByChoice(Least), ByChoice(Least)), image.valid());
    with_scratch!(image.desc().width(), [0; SIDE], columns => {
        write_windows::<u8, u8, _>(&kernel, image, output, border, columns)
    })
}

/// Writes the greatest sample of each 3x3 window (OpenVX 1.3, "Dilate Image"). Both images must be
/// U8 and of the same size.
pub fn dilate3(image: &Image<'_>, output: &mut ImageMut<'_>, border: Border)
    requires { WindowFits U8 image.now output.old }
    ensures { Writes (from_nine U8 greatest_of border image.now) output.old output.new }
{
    let kernel = ByColumns(ByChoice(Greatest), ByChoice(Greatest));
    let _limits = image.valid();
    with_scratch!(image.desc().width(), [0; SIDE], columns => {
        write_windows::<u8, u8, _>(&kernel, image, output, border, columns)
    })
}

/// Writes the median of each 3x3 window (OpenVX 1.3, "Median Filter"). Both images must be U8 and
/// of the same size.
pub fn median3(image: &Image<'_>, output: &mut ImageMut<'_>, border: Border)
    requires { WindowFits U8 image.now output.old }
    ensures { Writes (from_nine U8 median border image.now) output.old output.new }
{
    write_windows::<u8, u8, _>(&Median, image, output, border, &mut []);
}
