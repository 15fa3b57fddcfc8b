//! Output images.
ghost use Rattle.std.specs.Prelude.{◌≡◌, ◌*◌, ◌≤◌, pos, map, length};
ghost use Rattle.vx_base.specs.declared.format.Format.TheVariants.{U8, U32};
ghost use Rattle.vx_base.specs.Rectangle.{empty_rectangle, IsWithin};
ghost use Rattle.vx_base.specs.Description.{sample_count};
ghost use Rattle.vx_base.specs.Image.{image_from, image_over};
ghost use Rattle.image_core.specs.Bands.{IsInRows, all_rows};
ghost use Rattle.image_core.specs.Rows.{sample_from};

use crate::band::Band;
use crate::formula::{Formula, RowFormula, Unaided};
use crate::row_update::{RowUpdate, Unchanged, Updated, Written};
use crate::sample::Sample;
use crate::whole::Whole;
use vx_base::{Desc, Format, Rect};

/// An output image: the mutably borrowed samples of an image or of a band of its rows, in row-major
/// order. The output has a slice for each of the three formats. Only the slice of the image's
/// format is used; the other two are empty.
#[derive(Drop)]
pub struct ImageMut<'a> {
    pub(crate) desc: Desc,
    pub(crate) valid: Rect,
    pub(crate) rows: Band,
    pub(crate) bytes: &'a mut [u8],
    pub(crate) shorts: &'a mut [i16],
    pub(crate) words: &'a mut [u32],
}

impl<'a> ImageMut<'a> {
    ghost use Rattle.image_core.specs.Target.{target_image, IsTarget, SameSlices, Writes};

    /// Returns an output over these samples, one for each pixel. The output's valid rectangle is
    /// empty. The clause `same_slice` tells the prover that the output's slice is `samples`. So the
    /// prover knows the contents of `samples` when the borrow ends.
    pub fn new<T: Sample>(desc: Desc, samples: &'a mut [T]) -> ImageMut<'a>
        requires format { desc.format ≡ T.format }
        requires size { length samples.old ≡ sample_count desc }
        ensures target { IsTarget result }
        ensures value { target_image result ≡ image_over desc empty_rectangle
            (map T.value samples.old) }
        ensures same_slice { T.slice_name result ≡ samples.entry.ghost_name }
        ensures rows { result.rows ≡ all_rows desc.height }
    {
        T::lend_mut(desc, Band::whole(desc), samples)
    }

    /// Returns an output over the samples of a band, one for each of the band's pixels. The
    /// output's valid rectangle is empty. `desc` describes the whole image. A kernel writes only
    /// the band's rows.
    pub fn of_rows<T: Sample>(desc: Desc, rows: Band, samples: &'a mut [T]) -> ImageMut<'a>
        requires format { desc.format ≡ T.format }
        requires rows { IsInRows desc.height rows }
        requires size { length samples.old ≡ rows.count * desc.width }
        ensures target { IsTarget result }
        ensures value { target_image result ≡ image_over desc empty_rectangle
            (map T.value samples.old) }
        ensures same_slice { T.slice_name result ≡ samples.entry.ghost_name }
        ensures rows { result.rows ≡ rows }
    {
        T::lend_mut(desc, rows, samples)
    }

    /// Returns the description of the whole image.
    pub fn desc(&self) -> Desc
        ensures { result ≡ self.now.desc }
    {
        self.desc
    }

    /// Returns the valid rectangle.
    pub fn valid(&self) -> Rect
        ensures { result ≡ self.now.valid }
    {
        self.valid
    }

    /// Returns the band of rows that kernels write.
    pub fn rows(&self) -> Band
        ensures { result ≡ self.now.rows }
    {
        self.rows
    }

    /// Sets the valid rectangle, which must lie within the image. The samples stay as they are.
    pub fn set_valid(&mut self, valid: Rect)
        requires target { IsTarget self.old }
        requires room { IsWithin valid (target_image self.old).width
            (target_image self.old).height }
        ensures value { target_image self.new
            ≡ image_over self.old.desc valid (target_image self.old).samples }
        ensures target { IsTarget self.new }
        ensures slices { SameSlices self.old self.new }
    {
        self.valid = valid;
    }

    /// Sets each sample outside the valid rectangle to 0; the samples inside stay as they are.
    pub fn clear_outside(&mut self)
        requires target { IsTarget self.old }
        requires room { IsWithin (target_image self.old).valid (target_image self.old).width
            (target_image self.old).height }
        ensures { Writes (image_from (target_image self.old).width (target_image self.old).height
            (target_image self.old).format (target_image self.old).valid
            (sample_from self.old.desc.width self.old.rows.start (target_image self.old).samples))
            self.old self.new }
    {
        let kept = Unchanged { area: self.valid };
        match self.desc.format() {
            Format::U8 => self.update::<u8, _>(&kept),
            Format::S16 => self.update::<i16, _>(&kept),
            Format::U32 => self.update::<u32, _>(&kept),
        }
    }

    /// Updates each sample in the update's area in place, and sets all other samples to 0. The area
    /// becomes the valid rectangle.
    pub fn update<T: Sample, U: RowUpdate<T>>(&mut self, update: &U)
        requires target { IsTarget self.old }
        requires format { (target_image self.old).format ≡ T.format }
        requires room { IsWithin (U.area update.now) (target_image self.old).width
            (target_image self.old).height }
        ensures { Writes (image_from (target_image self.old).width (target_image self.old).height
            T.format (U.area update.now) (λ x y. U.next update.now x y
            (sample_from self.old.desc.width self.old.rows.start (target_image self.old).samples x
            y))) self.old self.new }
    {
        self.valid = update.area();
        T::apply(self, &Updated { update }, &mut []);
    }

    /// Writes the formula's samples inside the formula's area, and 0 elsewhere. Only the rows of
    /// the output's band are written. The area becomes the valid rectangle.
    pub fn write<T: Sample, F: Formula<T>>(&mut self, formula: &F)
        requires target { IsTarget self.old }
        requires format { (target_image self.old).format ≡ T.format }
        requires room { IsWithin (F.area formula.now) (target_image self.old).width
            (target_image self.old).height }
        ensures { Writes (image_from (target_image self.old).width (target_image self.old).height
            T.format (F.area formula.now) (F.at formula.now)) self.old self.new }
    {
        self.write_by_rows::<T, u8, _>(&Unaided { formula }, &mut []);
    }

    /// Writes the samples of a formula that needs scratch memory, and 0 outside the formula's area.
    /// Only the rows of the output's band are written. The area becomes the valid rectangle.
    pub fn write_by_rows<T: Sample, S, F: RowFormula<T, S>>(
        &mut self,
        formula: &F,
        scratch: &mut [S],
    )
        requires target { IsTarget self.old }
        requires format { (target_image self.old).format ≡ T.format }
        requires room { IsWithin (F.area formula.now) (target_image self.old).width
            (target_image self.old).height }
        requires scratch { F.scratch_len formula.now ≤ length scratch.old }
        ensures { Writes (image_from (target_image self.old).width (target_image self.old).height
            T.format (F.area formula.now) (F.at formula.now)) self.old self.new }
    {
        self.valid = formula.area();
        T::apply(self, &Written { formula }, scratch);
    }

    /// Writes the samples of `whole` inside its area, and 0 elsewhere. The output must be U32, and
    /// as wide and as high as `whole`. Only the rows of the output's band are written. The area
    /// becomes the valid rectangle.
    pub fn write_whole<W: Whole>(&mut self, whole: &W)
        requires target { IsTarget self.old }
        requires format { (target_image self.old).format ≡ U32 }
        requires width { (target_image self.old).width ≡ W.width whole.now }
        requires height { (target_image self.old).height ≡ W.height whole.now }
        ensures { Writes (image_from (W.width whole.now) (W.height whole.now) U32 (W.area whole.now)
            (W.at whole.now)) self.old self.new }
    {
        self.valid = whole.area();
        whole.fill(self.rows, self.words);
    }
}
