//! Input images.
ghost use Rattle.std.specs.Prelude.{◌≡◌, ◌+◌, ◌*◌, ◌<◌, ◌≤◌, map, length};
ghost use Rattle.vx_base.specs.Image.{IsImage, image_over, description_of, run, pixel_at};
ghost use Rattle.image_core.specs.Bands.{IsInRows, image_over_rows};
ghost use Rattle.image_core.specs.Rows.{row_of};

use crate::band::Band;
use crate::sample::Sample;
use crate::slice::Slice;
use std::marker::Model;
use vx_base::{Desc, Rect};

/// An input image: the borrowed samples of an image or of a band of its rows. The description and
/// the valid rectangle are those of the whole image. All samples outside the band count as 0.
#[derive(Drop)]
pub struct Image<'a> {
    desc: Desc,
    valid: Rect,
    /// The band whose samples are in `samples`.
    rows: Band,
    samples: Slice<'a>,
}

impl<'a> Model for Image<'a> {
    ghost use Rattle.std.specs.Prelude.{◌≡◌, ◌*◌, length};
    ghost use Rattle.vx_base.specs.Image.{ImageValue, IsImage};
    ghost use Rattle.image_core.specs.Bands.{IsInRows, image_over_rows};
    ghost use Rattle.image_core.specs.Slices.{slice_format, slice_values};

    ghost Value = { ImageValue };

    ghost view = { λ i. image_over_rows i.desc i.valid i.rows (slice_values i.samples) };

    ghost invariant = { λ i.
        IsImage (image_over_rows i.desc i.valid i.rows (slice_values i.samples)) ×
        (slice_format i.samples ≡ i.desc.format) ×
        IsInRows i.desc.height i.rows ×
        (length (slice_values i.samples) ≡ i.rows.count * i.desc.width) };
}

impl<'a> Image<'a> {
    /// Returns the image over these samples, in row-major order, one for each pixel. The samples
    /// outside the valid rectangle must be 0.
    pub fn new<T: Sample>(desc: Desc, valid: Rect, samples: &'a [T]) -> Image<'a>
        requires format { desc.format ≡ T.format }
        requires image { IsImage (image_over desc valid (map T.value samples.now)) }
        ensures { result ≡ image_over desc valid (map T.value samples.now) }
    {
        Image::of_rows(desc, valid, Band::whole(desc), samples)
    }

    /// Returns the image over the samples of a band, one for each of the band's pixels. The
    /// description and the valid rectangle are those of the whole image. The samples outside the
    /// valid rectangle must be 0. All samples outside the band count as 0.
    pub fn of_rows<T: Sample>(desc: Desc, valid: Rect, rows: Band, samples: &'a [T]) -> Image<'a>
        requires format { desc.format ≡ T.format }
        requires rows { IsInRows desc.height rows }
        requires size { length samples.now ≡ rows.count * desc.width }
        requires image { IsImage (image_over_rows desc valid rows (map T.value samples.now)) }
        ensures { result ≡ image_over_rows desc valid rows (map T.value samples.now) }
    {
        Image {
            desc,
            valid,
            rows,
            samples: T::lend(samples),
        }
    }

    /// Returns the description of the whole image.
    pub fn desc(&self) -> Desc
        ensures { result ≡ description_of self.now }
    {
        self.desc
    }

    /// Returns the valid rectangle; samples outside it are 0.
    pub fn valid(&self) -> Rect
        ensures value { result ≡ self.now.valid }
        ensures image { IsImage self.now }
    {
        self.valid
    }

    /// Returns row `y`: `width` samples in the number type of the image's format.
    pub fn row<T: Sample>(&self, y: u16) -> &[T]
        requires format { self.now.format ≡ T.format }
        requires below { y < self.now.height }
        ensures value { map T.value result.now ≡ row_of self.now y }
        ensures len { length result.now ≡ self.now.width }
    {
        let width = usize::from(self.desc.width());
        if !self.rows.has_row(y) {
            return T::zeros(width);
        }
        let start = usize::from(y - self.rows.start) * width;
        &T::lent(self.samples)[start..start + width]
    }

    /// Returns `count` samples of row `y`, from column `x` on.
    pub fn part_of_row<T: Sample>(&self, x: u16, y: u16, count: usize) -> &[T]
        requires format { self.now.format ≡ T.format }
        requires below { y < self.now.height }
        requires room { x + count ≤ self.now.width }
        ensures value { map T.value result.now ≡ run x count (λ k. pixel_at self.now k y) }
        ensures len { length result.now ≡ count }
    {
        let row = self.row::<T>(y);
        &row[usize::from(x)..][..count]
    }
}
