//! Images that are only partly valid: clearing outside the valid rectangle, and functions of two
//! images.
ghost use Rattle.std.specs.Prelude.{◌≡◌, ◌<◌, ℕ, map, pos, length, get_or};
ghost use Rattle.vx_base.specs.declared.format.Format.TheVariants.{U8};
ghost use Rattle.vx_base.specs.Description.{sample_count};
ghost use Rattle.vx_base.specs.Rectangle.{IsWithin};
ghost use Rattle.vx_base.specs.Image.{IsImage, image_from, image_over, description_of};
ghost use Rattle.image_core.specs.Bands.{all_rows};
ghost use Rattle.image_core.specs.Rows.{sample_from};
ghost use Rattle.image_core.specs.Target.{target_image, IsTarget, SameSlices};

use image_core::{Image, ImageMut};
use pixel_kernels::{bit_and, bit_xor};
use std::test::Fail;
use vx_base::{Desc, Format, Rect};

/// Sets an image's samples outside the rectangle `valid` to 0.
fn clear(desc: Desc, valid: Rect, samples: &mut [u8])
    requires format { desc.format ≡ U8 }
    requires size { length samples.old ≡ sample_count desc }
    requires room { IsWithin valid desc.width desc.height }
    ensures { image_over desc valid (map pos samples.new)
        ≡ image_from desc.width desc.height U8 valid
        (sample_from desc.width 0 (map pos samples.old)) }
{
    let mut image = ImageMut::new(desc, samples);
    clear_to(&mut image, valid);
}

/// Sets an image's valid rectangle, and sets the samples outside the rectangle to 0.
fn clear_to(image: &mut ImageMut<'_>, valid: Rect)
    requires target { IsTarget image.old }
    requires rows { image.old.rows ≡ all_rows image.old.desc.height }
    requires room { IsWithin valid image.old.desc.width image.old.desc.height }
    ensures value { target_image image.new
        ≡ image_from image.old.desc.width image.old.desc.height image.old.desc.format valid
        (sample_from image.old.desc.width 0 (target_image image.old).samples) }
    ensures slices { SameSlices image.old image.new }
{
    image.set_valid(valid);
    image.clear_outside();
}

/// States for the prover that each sample is a byte.
fn prove_bytes(samples: &[u8])
    ensures { (k : ℕ) → get_or samples.now k 0 < 256 }
{}

/// Returns the image of these samples, after setting the samples outside the valid rectangle to 0.
pub fn lend(desc: Desc, valid: Rect, samples: &mut [u8]) -> Image<'_>
    requires format { desc.format ≡ U8 }
    requires size { length samples.old ≡ sample_count desc }
    requires room { IsWithin valid desc.width desc.height }
    ensures desc { description_of result ≡ desc }
    ensures image { IsImage result }
{
    valid.prove_bounds();
    desc.prove_sides();
    clear(desc, valid, samples);
    prove_bytes(samples);
    Image::new(desc, valid, samples)
}

/// Returns the Xor of two 3 by 2 images, and its valid rectangle. One image is made from the
/// samples 1 to 6 and is valid in `left`. The other is valid in `right`, where its samples are 16.
fn xor(left: Rect, right: Rect) -> ([u8; 6], Rect)
    requires left { IsWithin left 3 2 }
    requires right { IsWithin right 3 2 }
{
    let mut output = [77; 6];
    let mut valid = Rect::empty();
    if let Some(desc) = Desc::new(3, 2, Format::U8) {
        let (mut first, mut second) = ([1, 2, 3, 4, 5, 6], [16; 6]);
        let image = lend(desc, left, &mut first);
        let other = lend(desc, right, &mut second);
        let mut target = ImageMut::new(desc, &mut output);
        bit_xor(&image, &other, &mut target);
        valid = target.valid();
    }
    (output, valid)
}

#[test]
fn valid_where_both_are(rt: HostRuntime) -> Result<(), Fail> {
    let whole = Rect::new(0, 0, 3, 2).ok_or("a rectangle")?;
    let middle = Rect::new(1, 0, 2, 2).ok_or("a rectangle")?;
    let below = Rect::new(1, 1, 3, 2).ok_or("a rectangle")?;
    let left = Rect::new(0, 0, 1, 1).ok_or("a rectangle")?;
    let rect = Rect::new(1, 1, 2, 2).ok_or("a rectangle")?;
    for (first, second, samples, valid) in [
        (whole, whole, [17, 18, 19, 20, 21, 22], whole),
        (whole, middle, [0, 18, 0, 0, 21, 0], middle),
        (below, whole, [0, 0, 0, 0, 21, 22], below),
        (middle, below, [0, 0, 0, 0, 21, 0], rect),
        (left, middle, [0; 6], Rect::empty()),
        (Rect::empty(), whole, [0; 6], Rect::empty()),
    ] {
        assert!(rt; xor(first, second) == (samples, valid));
    }
    Ok(())
}

/// Returns the And of two 4 by 1 images, and its valid rectangle. One image is valid in its left
/// half, the other in its right half. The valid samples of both images are 255.
fn and_of_halves() -> Option<([u8; 4], Rect)> {
    let desc = Desc::new(4, 1, Format::U8)?;
    let (mut first, mut second, mut output) = ([255; 4], [255; 4], [77; 4]);
    let image = lend(desc, Rect::new(0, 0, 2, 1)?, &mut first);
    let other = lend(desc, Rect::new(2, 0, 4, 1)?, &mut second);
    let mut target = ImageMut::new(desc, &mut output);
    bit_and(&image, &other, &mut target);
    let valid = target.valid();
    Some((output, valid))
}

#[test]
fn valid_nowhere(rt: HostRuntime) {
    assert!(rt; and_of_halves() == Some(([0; 4], Rect::empty())));
}
