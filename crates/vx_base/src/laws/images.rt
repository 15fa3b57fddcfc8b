//! Laws of image values.
ghost use Rattle.std.specs.Prelude.{◌≡◌, ◌<◌, ◌*◌, ◌+◌, ◌++◌, ℕ, ℤ, pos, true, false, length};
ghost use Rattle.std.specs.Prelude.{IsTrue};
ghost use Rattle.vx_base.specs.Sample.{IsSample};
ghost use Rattle.vx_base.specs.declared.format.Format.{Format};
ghost use Rattle.vx_base.specs.Rectangle.{Rectangle, has_pixel, IsCanonical, IsWithin};
ghost use Rattle.vx_base.specs.Description.{is_side};
ghost use Rattle.vx_base.specs.Image.{ImageValue, IsImage, band, table, pixel_at, image_from};
ghost use Rattle.vx_base.specs.Image.{new_image};
ghost use Rattle.vx_base.specs.Picture.{PictureValue, IsPicture, picture_of, picture_image};

/// The list `table` has one value for each pixel of an image of this width and height.
pub fn table_size()
    ensures { (width height : ℕ) (f : ℕ → ℕ → ℤ) → length (table width height f) ≡ height * width }
{}

/// A well-formed image's samples are the band of all its rows. Two adjacent bands, concatenated,
/// are the band that covers both.
pub fn bands()
    ensures whole { (a : ImageValue) → IsImage a → band a.width 0 a.height (pixel_at a)
        ≡ a.samples }
    ensures joined { (width start above below : ℕ) (f : ℕ → ℕ → ℤ) →
        band width start (above + below) f
        ≡ band width start above f ++ band width (start + above) below f }
{}

/// An image made from a function of column and row has the function's values in the valid rectangle
/// and 0 elsewhere. The image is well-formed if its sides are permitted, its valid rectangle is
/// canonical and within the image, and the values are samples of its format.
pub fn formula_samples()
    ensures image { (width height : ℕ) (format : Format) (valid : Rectangle) (f : ℕ → ℕ → ℤ) →
        IsTrue (is_side width) → IsTrue (is_side height) → IsCanonical valid →
        IsWithin valid width height →
        ((x y : ℕ) → has_pixel valid x y ≡ true → IsSample format (f x y)) →
        IsImage (image_from width height format valid f) }
    ensures valid { (width height : ℕ) (format : Format) (valid : Rectangle)
        (f : ℕ → ℕ → ℤ) (x y : ℕ) →
        x < width → y < height → has_pixel valid x y ≡ true →
        pixel_at (image_from width height format valid f) x y ≡ f x y }
    ensures outside { (width height : ℕ) (format : Format) (valid : Rectangle)
        (f : ℕ → ℕ → ℤ) (x y : ℕ) →
        x < width → y < height → has_pixel valid x y ≡ false →
        pixel_at (image_from width height format valid f) x y ≡ pos 0 }
{}

/// A well-formed picture, taken as a wholly valid image, is a well-formed image. The samples of a
/// well-formed image are a well-formed picture.
pub fn pictures()
    ensures image { (p : PictureValue) → IsPicture p → IsImage (picture_image p) }
    ensures picture { (a : ImageValue) → IsImage a → IsPicture (picture_of a) }
{}

/// Two well-formed images of the same description and valid rectangle are equal if they agree at
/// each pixel.
pub fn pixels_decide_image()
    ensures { (a b : ImageValue) → IsImage a → IsImage b →
        a.width ≡ b.width → a.height ≡ b.height → a.format ≡ b.format → a.valid ≡ b.valid →
        ((x y : ℕ) → x < a.width → y < a.height → pixel_at a x y ≡ pixel_at b x y) → a ≡ b }
{}

/// A well-formed image equals the image made from its samples.
pub fn image_of_own_samples()
    ensures { (a : ImageValue) → IsImage a →
        image_from a.width a.height a.format a.valid (pixel_at a) ≡ a }
{}

/// A new image is 0 at each pixel. It is well-formed if its sides are permitted.
pub fn new_is_zero()
    ensures image { (width height : ℕ) (format : Format) → IsTrue (is_side width) →
        IsTrue (is_side height) → IsImage (new_image width height format) }
    ensures zero { (width height : ℕ) (format : Format) (x y : ℕ) → x < width → y < height →
        pixel_at (new_image width height format) x y ≡ pos 0 }
{}
