//! Bitwise functions of U8 images.
ghost use Rattle.std.specs.Prelude.{◌≡◌, Some, None};
ghost use Rattle.vx_base.specs.declared.format.Format.TheVariants.{U8};
ghost use Rattle.vx_base.specs.declared.function.Function.TheVariants.{AndBits, OrBits, XorBits};
ghost use Rattle.vx_base.specs.declared.function.Function.TheVariants.{NotBits};
ghost use Rattle.vx_base.specs.Object.{ImageObject};
ghost use Rattle.vx_base.specs.Pixelwise.{and_bits, or_bits, xor_bits, not_bits, from_one};
ghost use Rattle.vx_base.specs.Pixelwise.{from_two};
ghost use Rattle.image_core.specs.Fits.{Fits};
ghost use Rattle.image_core.specs.Target.{Writes};

use crate::one::write_one;
use crate::two::write_two;
use image_core::{Image, ImageMut};
use lane_rows::{And, Not, Or, Xor};

/// Writes the bits that are set in both samples (OpenVX 1.3, "Bitwise AND"); all images must be U8.
pub fn bit_and(first: &Image<'_>, second: &Image<'_>, output: &mut ImageMut<'_>)
    requires { Fits AndBits first.now (Some (ImageObject second.now)) output.old }
    ensures { Writes (from_two U8 and_bits first.now second.now) output.old output.new }
{
    write_two::<u8, u8, u8, _>(&And, first, second, output);
}

/// Writes the bits that are set in one or both samples (OpenVX 1.3, "Bitwise INCLUSIVE OR"); all
/// images must be U8.
pub fn bit_or(first: &Image<'_>, second: &Image<'_>, output: &mut ImageMut<'_>)
    requires { Fits OrBits first.now (Some (ImageObject second.now)) output.old }
    ensures { Writes (from_two U8 or_bits first.now second.now) output.old output.new }
{
    write_two::<u8, u8, u8, _>(&Or, first, second, output);
}

/// Writes the bits that are set in exactly one of the samples (OpenVX 1.3, "Bitwise EXCLUSIVE OR");
/// all images must be U8.
pub fn bit_xor(first: &Image<'_>, second: &Image<'_>, output: &mut ImageMut<'_>)
    requires { Fits XorBits first.now (Some (ImageObject second.now)) output.old }
    ensures { Writes (from_two U8 xor_bits first.now second.now) output.old output.new }
{
    write_two::<u8, u8, u8, _>(&Xor, first, second, output);
}

/// Writes the samples with each of the eight bits inverted (OpenVX 1.3, "Bitwise NOT"); both images
/// must be U8.
pub fn bit_not(image: &Image<'_>, output: &mut ImageMut<'_>)
    requires { Fits NotBits image.now None output.old }
    ensures { Writes (from_one U8 not_bits image.now) output.old output.new }
{
    write_one::<u8, u8, _>(&Not, image, output);
}
