//! Thresholds.
ghost use Rattle.std.specs.Prelude.{◌≡◌, Some};
ghost use Rattle.vx_base.specs.declared.format.Format.TheVariants.{U8};
ghost use Rattle.vx_base.specs.declared.function.Function.TheVariants.{Threshold};
ghost use Rattle.vx_base.specs.Object.{ThresholdObject};
ghost use Rattle.vx_base.specs.Pixelwise.{threshold_result, from_one};
ghost use Rattle.image_core.specs.Fits.{Fits, HaveSameSize};
ghost use Rattle.image_core.specs.Target.{target_image, IsTarget, Writes};

use crate::one::write_one;
use crate::pixel::Pixel;
use image_core::{Image, ImageMut};
use lane_rows::{Above, Between, Tested};
use vx_base::{Format, ThresholdKind, ThresholdRule};

/// Writes the rule's true value where a valid sample passes the rule's test, and the false value
/// where it doesn't. The input and the rule must have the format of `A`; the output must be U8.
fn write_threshold<A: Pixel + Tested>(
    image: &Image<'_>,
    output: &mut ImageMut<'_>,
    rule: ThresholdRule,
)
    requires target { IsTarget output.old }
    requires size { HaveSameSize (target_image output.old) image.now }
    requires input_format { image.now.format ≡ A.Sample.format }
    requires format { (target_image output.old).format ≡ U8 }
    requires tested { rule.format ≡ A.Tested.format }
    ensures { Writes (from_one U8 (threshold_result rule) image.now) output.old output.new }
{
    let (true_value, false_value) = (rule.true_value(), rule.false_value());
    match rule.kind() {
        ThresholdKind::Binary(limit) => {
            let kernel = Above {
                limit: A::from_short(limit),
                true_value,
                false_value,
            };
            write_one::<A, u8, _>(&kernel, image, output);
        }
        ThresholdKind::Range(lower, upper) => {
            let kernel = Between {
                lower: A::from_short(lower),
                upper: A::from_short(upper),
                true_value,
                false_value,
            };
            write_one::<A, u8, _>(&kernel, image, output);
        }
    }
}

/// Writes the rule's true value where a valid sample passes the rule's test, and the false value
/// where it doesn't (OpenVX 1.3, "Thresholding"). The input must have the rule's format, U8 or S16;
/// the output must be U8.
pub fn threshold(image: &Image<'_>, output: &mut ImageMut<'_>, rule: ThresholdRule)
    requires { Fits Threshold image.now (Some (ThresholdObject rule)) output.old }
    ensures { Writes (from_one U8 (threshold_result rule) image.now) output.old output.new }
{
    match image.desc().format() {
        Format::U8 => write_threshold::<u8>(image, output, rule),
        _ => write_threshold::<i16>(image, output, rule),
    }
}
