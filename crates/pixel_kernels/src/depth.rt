//! Bit depths.
ghost use Rattle.std.specs.Prelude.{◌≡◌, ◌≤◌, None};
ghost use Rattle.vx_base.specs.declared.format.Format.TheVariants.{U8, S16};
ghost use Rattle.vx_base.specs.declared.function.Function.TheVariants.{ConvertDepth};
ghost use Rattle.vx_base.specs.Pixelwise.{depth_conversion, from_one};
ghost use Rattle.image_core.specs.Fits.{Fits, HaveSameSize};
ghost use Rattle.image_core.specs.Target.{target_image, IsTarget, Writes};

use crate::one::write_one;
use image_core::{Image, ImageMut};
use lane_rows::{Narrowed, Saturated, ShiftedUp, Wrapped};
use vx_base::{Format, Policy};

/// Writes the samples of an S16 image, divided by 2^amount, rounded down and narrowed to U8 by the
/// policy.
fn narrow_depth(image: &Image<'_>, output: &mut ImageMut<'_>, policy: Policy, amount: u8)
    requires target { IsTarget output.old }
    requires size { HaveSameSize (target_image output.old) image.now }
    requires input_format { image.now.format ≡ S16 }
    requires format { (target_image output.old).format ≡ U8 }
    requires amount { amount ≤ 7 }
    ensures { Writes (from_one U8 (depth_conversion U8 policy amount) image.now) output.old
        output.new }
{
    match policy {
        Policy::Wrap => {
            let overflow = Wrapped;
            write_one::<i16, u8, _>(&Narrowed { overflow, amount }, image, output);
        }
        Policy::Saturate => {
            let overflow = Saturated;
            write_one::<i16, u8, _>(&Narrowed { overflow, amount }, image, output);
        }
    }
}

/// Writes the samples in another format (OpenVX 1.3, "Convert Bit Depth"): U8 to S16, multiplied by
/// 2^amount; S16 to U8, divided by 2^amount, rounded down and narrowed by the policy.
pub fn convert_depth(image: &Image<'_>, output: &mut ImageMut<'_>, policy: Policy, amount: u8)
    requires fits { Fits ConvertDepth image.now None output.old }
    requires amount { amount ≤ 7 }
    ensures { Writes (from_one (target_image output.old).format
        (depth_conversion (target_image output.old).format policy amount) image.now) output.old
        output.new }
{
    match image.desc().format() {
        Format::U8 => write_one::<u8, i16, _>(&ShiftedUp { amount }, image, output),
        _ => narrow_depth(image, output, policy, amount),
    }
}
