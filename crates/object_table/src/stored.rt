//! Images that a context holds.
ghost use Rattle.std.specs.Prelude.{◌≡◌, ◌+◌, ◌*◌, ◌<◌, ◌≤◌, ◌^◌, [], length, IfOk, OnErr};
ghost use Rattle.vx_base.specs.Rectangle.{IsWithin, whole_rectangle};
ghost use Rattle.vx_base.specs.Description.{sample_count};
ghost use Rattle.vx_base.specs.Image.{IsImage, new_image, image_over, description_of, with_valid};
ghost use Rattle.vx_base.specs.Image.{band, zero_outside};
ghost use Rattle.image_core.specs.Rows.{sample_from};
ghost use Rattle.vx_base.specs.Picture.{values, samples_format, picture_of, picture_image};
ghost use Rattle.pixel_pool.specs.Block.{IsAllOrNone};
ghost use Rattle.object_table.specs.Blocks.{image_blocks, LendsAtLeast, LendsMore, LendsLess};

use image_core::{Band, Image, clear_rows};
use pixel_pool::{Block, Pool};
use std::alloc::{AllocError, Global};
use std::marker::Model;
use vx_base::{Desc, Picture, Rect, Samples};

/// An image whose samples are in a block of a pool. The samples may be taken out while nodes run.
#[derive(Drop)]
pub struct Stored {
    desc: Desc,
    valid: Rect,
    block: Block,
}

impl Model for Stored {
    ghost use Rattle.vx_base.specs.Image.{ImageValue, image_over};
    ghost use Rattle.std.specs.Prelude.{◌≡◌};
    ghost use Rattle.vx_base.specs.Description.{sample_count};
    ghost use Rattle.vx_base.specs.Picture.{values, samples_format};

    ghost Value = { ImageValue };

    ghost view = { λ i. image_over i.desc i.valid (values i.block.samples) };

    ghost invariant = { λ i. (samples_format i.block.samples ≡ i.desc.format)
        × (i.block.count ≡ sample_count i.desc) };
}

impl Stored {
    /// Returns a new image: each sample is 0, and the whole image is valid.
    pub fn new(pool: &mut Pool, desc: Desc) -> Result<Stored, AllocError>
        ensures value { IfOk result (λ image. image
            ≡ new_image desc.width desc.height desc.format) }
        ensures image { IfOk result IsImage }
        ensures lends { IfOk result (λ image. LendsMore pool.old pool.new (image_blocks image)) }
        ensures err { OnErr result (pool.new ≡ pool.old) }
    {
        desc.prove_sides();
        let block = pool.take_zeros(desc.format(), desc.sample_count())?;
        Ok(Stored {
            desc,
            valid: desc.whole(),
            block,
        })
    }

    /// Gives the image's block back to the pool. Allocates nothing.
    pub fn end(self, pool: &mut Pool)
        requires { LendsAtLeast pool.old (image_blocks self) }
        ensures { LendsLess pool.old pool.new (image_blocks self) }
    {
        pool.give_back(self.block);
    }

    /// Returns the size and format of the image, which never change.
    pub fn desc(&self) -> Desc
        ensures { result ≡ description_of self.now }
    {
        self.desc
    }

    /// Returns the valid rectangle.
    pub fn valid(&self) -> Rect
        ensures { result ≡ self.now.valid }
    {
        self.valid
    }

    /// Returns the samples of all pixels, row by row from the top. There are none between `take`
    /// and `put`.
    pub fn samples(&self) -> &Samples
        ensures value { values result.now ≡ self.now.samples }
        ensures format { samples_format result.now ≡ self.now.format }
    {
        self.block.samples()
    }

    /// Returns a copy of the samples of all pixels.
    pub fn picture(&self, alloc: Global) -> Result<Picture, AllocError>
        requires { IsImage self.now }
        ensures { IfOk result (λ picture. picture ≡ picture_of self.now) }
    {
        Ok(Picture::new(self.desc, self.block.samples().copy(alloc)?))
    }

    /// Returns a borrowed view of the image.
    pub fn image(&self) -> Image<'_>
        requires { IsImage self.now }
        ensures { result ≡ self.now }
    {
        match self.block.samples() {
            Samples::U8(samples) => Image::new(self.desc, self.valid, samples),
            Samples::S16(samples) => Image::new(self.desc, self.valid, samples),
            Samples::U32(samples) => Image::new(self.desc, self.valid, samples),
        }
    }

    /// Copies the samples of a picture into the image. The picture must have the image's size and
    /// format. The whole image is then valid.
    pub fn write(&mut self, picture: &Picture)
        requires image { IsImage self.old }
        requires same { description_of self.old ≡ picture.now.description }
        ensures value { self.new ≡ picture_image picture.now }
        ensures image { IsImage self.new }
    {
        self.valid = self.desc.whole();
        let mut samples = self.block.lift();
        samples.copy_from(picture.samples());
        self.block.put(samples);
    }

    /// Sets the valid rectangle. Each sample outside the rectangle becomes 0.
    pub fn set_valid(&mut self, valid: Rect)
        requires image { IsImage self.old }
        requires inside { IsWithin valid self.old.width self.old.height }
        ensures { self.new ≡ with_valid valid self.old }
    {
        let _limits = self.desc.height();
        let (width, rows) = (self.desc.width(), Band::whole(self.desc));
        let mut samples = self.block.lift();
        clear_outside(&mut samples, valid, width, rows);
        self.block.put(samples);
        self.valid = valid;
    }

    /// Takes the samples out, and returns them with the image's size and format. The samples can
    /// then be written while other images are read. `put` brings the samples back.
    pub fn take(&mut self) -> (Desc, Samples)
        ensures desc { result.0 ≡ description_of self.old }
        ensures value { values result.1 ≡ self.old.samples }
        ensures format { samples_format result.1 ≡ self.old.format }
        ensures size { IsAllOrNone (sample_count (description_of self.old))
            (length (values result.1)) }
        ensures left { self.new ≡ image_over (description_of self.old) self.old.valid [] }
    {
        (self.desc, self.block.lift())
    }

    /// Puts a sample for each pixel into the image, or none, and sets the valid rectangle.
    pub fn put(&mut self, samples: Samples, valid: Rect)
        requires format { samples_format samples ≡ self.old.format }
        requires size { IsAllOrNone (sample_count (description_of self.old))
            (length (values samples)) }
        ensures { self.new ≡ image_over (description_of self.old) valid (values samples) }
    {
        self.block.put(samples);
        self.valid = valid;
    }
}

/// Sets a band's samples outside the valid rectangle to 0.
fn clear_outside(samples: &mut Samples, valid: Rect, width: u16, rows: Band)
    requires rows { rows.start + rows.count < 2 ^ 16 }
    requires size { length (values samples.old) ≡ rows.count * width }
    requires inside { valid.x1 ≤ width }
    ensures format { samples_format samples.new ≡ samples_format samples.old }
    ensures value { values samples.new ≡ band width rows.start rows.count
        (zero_outside valid (sample_from width rows.start (values samples.old))) }
{
    match samples {
        Samples::U8(samples) => clear_rows(valid, width, rows, samples),
        Samples::S16(samples) => clear_rows(valid, width, rows, samples),
        Samples::U32(samples) => clear_rows(valid, width, rows, samples),
    }
}
