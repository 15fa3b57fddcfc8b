//! Arithmetic functions of two U8 or S16 images, for each permitted combination of formats.
ghost use Rattle.std.specs.Prelude.{◌≡◌, ◌≤◌, IsTrue, Some};
ghost use Rattle.vx_base.specs.declared.format.Format.TheVariants.{S16};
ghost use Rattle.vx_base.specs.declared.function.Function.TheVariants.{AbsoluteDifference};
ghost use Rattle.vx_base.specs.declared.function.Function.TheVariants.{MinPixel, MaxPixel};
ghost use Rattle.vx_base.specs.declared.function.Function.TheVariants.{Add, Subtract, Multiply};
ghost use Rattle.vx_base.specs.Formats.{are_arithmetic};
ghost use Rattle.vx_base.specs.Object.{ImageObject};
ghost use Rattle.vx_base.specs.Pixelwise.{absolute_difference, smaller, greater, sum, difference};
ghost use Rattle.vx_base.specs.Pixelwise.{product, from_two};
ghost use Rattle.image_core.specs.Fits.{Fits, HaveSameSize};
ghost use Rattle.image_core.specs.Target.{target_image, IsTarget, Writes};

use crate::two::write_two;
use image_core::{Image, ImageMut};
use lane_rows::{
    Arithmetic, Difference, Distance, Greater, OfSamples, Product, Saturated, Smaller, Sum, Wrapped,
};
use vx_base::{Format, Policy};

/// Writes the results of a lane kernel for two images to a third image of the same size. All images
/// must be U8, or the output must be S16 and each input U8 or S16.
fn write_arithmetic<K: Arithmetic>(
    kernel: &K,
    first: &Image<'_>,
    second: &Image<'_>,
    output: &mut ImageMut<'_>,
)
    requires target { IsTarget output.old }
    requires size { HaveSameSize (target_image output.old) first.now }
    requires second_size { HaveSameSize second.now first.now }
    requires formats { IsTrue (are_arithmetic first.now.format second.now.format
        (target_image output.old).format) }
    ensures { Writes (from_two (target_image output.old).format
        (K.formula kernel.now (target_image output.old).format) first.now second.now)
        output.old output.new }
{
    match output.desc().format() {
        Format::U8 => write_two::<u8, u8, u8, _>(&OfSamples(kernel), first, second, output),
        _ => write_from_shorts(&OfSamples(kernel), first, second, output),
    }
}

/// Writes the results of a lane kernel for two images, each U8 or S16, to an S16 image of the same
/// size.
fn write_from_shorts<K: Arithmetic>(
    kernel: &OfSamples<'_, K>,
    first: &Image<'_>,
    second: &Image<'_>,
    output: &mut ImageMut<'_>,
)
    requires target { IsTarget output.old }
    requires size { HaveSameSize (target_image output.old) first.now }
    requires second_size { HaveSameSize second.now first.now }
    requires formats { IsTrue (are_arithmetic first.now.format second.now.format S16) }
    requires format { (target_image output.old).format ≡ S16 }
    ensures { Writes (from_two S16 (K.formula kernel.now.0.now S16) first.now second.now)
        output.old output.new }
{
    match (first.desc().format(), second.desc().format()) {
        (Format::U8, Format::U8) => write_two::<u8, u8, i16, _>(kernel, first, second, output),
        (Format::U8, _) => write_two::<u8, i16, i16, _>(kernel, first, second, output),
        (_, Format::U8) => write_two::<i16, u8, i16, _>(kernel, first, second, output),
        _ => write_two::<i16, i16, i16, _>(kernel, first, second, output),
    }
}

/// Writes the absolute differences of the samples (OpenVX 1.3, "Absolute Difference"). In S16,
/// differences above 32,767 become 32,767. All images must be U8, or all S16.
pub fn absolute_difference(first: &Image<'_>, second: &Image<'_>, output: &mut ImageMut<'_>)
    requires { Fits AbsoluteDifference first.now (Some (ImageObject second.now)) output.old }
    ensures { Writes (from_two (target_image output.old).format
        (absolute_difference (target_image output.old).format) first.now second.now)
        output.old output.new }
{
    write_arithmetic(&Distance, first, second, output);
}

/// Writes the smaller of the two samples (OpenVX 1.3, "Min"); all images must be U8, or all S16.
pub fn minimum(first: &Image<'_>, second: &Image<'_>, output: &mut ImageMut<'_>)
    requires { Fits MinPixel first.now (Some (ImageObject second.now)) output.old }
    ensures { Writes (from_two (target_image output.old).format smaller first.now second.now)
        output.old output.new }
{
    write_arithmetic(&Smaller, first, second, output);
}

/// Writes the greater of the two samples (OpenVX 1.3, "Max"); all images must be U8, or all S16.
pub fn maximum(first: &Image<'_>, second: &Image<'_>, output: &mut ImageMut<'_>)
    requires { Fits MaxPixel first.now (Some (ImageObject second.now)) output.old }
    ensures { Writes (from_two (target_image output.old).format greater first.now second.now)
        output.old output.new }
{
    write_arithmetic(&Greater, first, second, output);
}

/// Writes the sums of the samples, narrowed by the policy (OpenVX 1.3, "Arithmetic Addition").
/// All images must be U8, or the output must be S16 and each input U8 or S16.
pub fn add(first: &Image<'_>, second: &Image<'_>, output: &mut ImageMut<'_>, policy: Policy)
    requires { Fits Add first.now (Some (ImageObject second.now)) output.old }
    ensures { Writes (from_two (target_image output.old).format
        (sum (target_image output.old).format policy) first.now second.now) output.old output.new }
{
    match policy {
        Policy::Wrap => write_arithmetic(&Sum(Wrapped), first, second, output),
        Policy::Saturate => write_arithmetic(&Sum(Saturated), first, second, output),
    }
}

/// Writes the first image's samples minus the second's, narrowed by the policy (OpenVX 1.3,
/// "Arithmetic Subtraction"). All images must be U8, or the output must be S16 and each input U8 or
/// S16.
pub fn subtract(first: &Image<'_>, second: &Image<'_>, output: &mut ImageMut<'_>, policy: Policy)
    requires { Fits Subtract first.now (Some (ImageObject second.now)) output.old }
    ensures { Writes (from_two (target_image output.old).format
        (difference (target_image output.old).format policy) first.now second.now)
        output.old output.new }
{
    match policy {
        Policy::Wrap => write_arithmetic(&Difference(Wrapped), first, second, output),
        Policy::Saturate => write_arithmetic(&Difference(Saturated), first, second, output),
    }
}

/// Writes the products of the samples, divided by 2^amount, rounded toward zero and narrowed by the
/// policy (OpenVX 1.3, "Pixel-wise Multiplication"). All images must be U8, or the output must be
/// S16 and each input U8 or S16.
pub fn multiply(
    first: &Image<'_>,
    second: &Image<'_>,
    output: &mut ImageMut<'_>,
    policy: Policy,
    amount: u8,
)
    requires fits { Fits Multiply first.now (Some (ImageObject second.now)) output.old }
    requires amount { amount ≤ 15 }
    ensures { Writes (from_two (target_image output.old).format
        (product (target_image output.old).format policy amount) first.now second.now)
        output.old output.new }
{
    match policy {
        Policy::Wrap => {
            let overflow = Wrapped;
            write_arithmetic(&Product { overflow, amount }, first, second, output);
        }
        Policy::Saturate => {
            let overflow = Saturated;
            write_arithmetic(&Product { overflow, amount }, first, second, output);
        }
    }
}
