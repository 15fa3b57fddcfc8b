//! Delays: images in slots.
ghost use Rattle.std.specs.Prelude.{◌≡◌, ◌<◌, ◌≤◌, ◌*◌, [], length, slice_get, slice_index_or};
ghost use Rattle.std.specs.Prelude.{slice_set, sum_by, Some, None, IfOk, IfErr, OnErr};
ghost use Rattle.vx_base.specs.declared.format.Format.TheVariants.{U8};
ghost use Rattle.vx_base.specs.Description.{sample_count};
ghost use Rattle.vx_base.specs.Rectangle.{IsWithin};
ghost use Rattle.vx_base.specs.Image.{ImageValue, IsImage, new_image, image_over, description_of};
ghost use Rattle.vx_base.specs.Image.{with_valid};
ghost use Rattle.vx_base.specs.Object.{IsDelay, image_bytes};
ghost use Rattle.vx_base.specs.Picture.{values, samples_format, picture_image};
ghost use Rattle.object_table.specs.declared.fault.TableFault.TheVariants.{InvalidValue};
ghost use Rattle.pixel_pool.specs.Pool.{KeepsLent};
ghost use Rattle.pixel_pool.specs.Block.{IsAllOrNone};
ghost use Rattle.object_table.specs.Blocks.{delay_blocks, LendsAtLeast, LendsMore, LendsLess};
ghost use Rattle.object_table.specs.Delay.{new_delay, aged_images, image_in};
ghost use Rattle.vx_base.specs.declared.desc.TheConstants.{GREATEST_BYTES};
ghost use Rattle.vx_base.specs.declared.slots.TheConstants.{GREATEST_SLOTS};

use crate::fault::TableFault;
use crate::stored::Stored;
use pixel_pool::Pool;
use std::alloc::{AllocError, Global};
use std::marker::Model;
use vx_base::{Desc, Picture, Rect, Samples, SlotCount};

/// 1 to 16 images of one description. Slot 0 has the newest image, slot 1 the image before it, and
/// so on.
#[derive(Drop)]
pub struct Delay {
    desc: Desc,
    images: Vec<Stored>,
}

impl Model for Delay {
    ghost use Rattle.std.specs.Prelude.{List};
    ghost use Rattle.vx_base.specs.Image.{ImageValue};
    ghost use Rattle.object_table.specs.Delay.{AreSlots};

    ghost Value = { List ImageValue };

    ghost view = { λ d. d.images.items };

    ghost invariant = { λ d. AreSlots d.desc d.images.items };
}

impl Delay {
    /// Returns a delay with a new image of this description in each slot.
    pub fn new(
        alloc: Global,
        pool: &mut Pool,
        desc: Desc,
        slots: SlotCount,
    ) -> Result<Delay, AllocError>
        ensures value { IfOk result (λ delay. delay ≡ new_delay desc slots) }
        ensures delay { IfOk result IsDelay }
        ensures lends { IfOk result (λ delay. LendsMore pool.old pool.new (delay_blocks delay)) }
        ensures err { OnErr result (KeepsLent pool.old pool.new) }
    {
        desc.prove_sides();
        let count = usize::from(slots.get());
        let images = new_images(alloc, pool, desc, count)?;
        Ok(Delay { desc, images })
    }

    /// Gives the blocks of all images back to the pool. Allocates nothing.
    pub fn end(self, pool: &mut Pool)
        requires { LendsAtLeast pool.old (delay_blocks self) }
        ensures { LendsLess pool.old pool.new (delay_blocks self) }
    {
        end_images(self.images, pool);
    }

    /// Returns the image in a slot; slot 0 has the newest image. `InvalidValue`: the delay has no
    /// such slot.
    pub fn slot(&self, k: u8) -> Result<&Stored, TableFault>
        ensures ok { IfOk result (λ image. slice_get self.now k ≡ Some image.now) }
        ensures err { IfErr result (λ fault. (fault ≡ InvalidValue) ×
            (slice_get self.now k ≡ None)) }
    {
        match self.images.get(usize::from(k)) {
            Some(image) => Ok(image),
            None => Err(TableFault::InvalidValue),
        }
    }

    /// Returns the number of bytes of all images' samples.
    pub fn bytes(&self) -> usize
        ensures value { result ≡ sum_by image_bytes self.now }
        ensures limit { result ≤ GREATEST_SLOTS * GREATEST_BYTES }
    {
        self.images.len() * self.desc.byte_count()
    }

    /// Moves each image to the next slot, and the image in the last slot to slot 0. Allocates
    /// nothing.
    pub fn age(&mut self)
        ensures value { self.new ≡ aged_images self.old }
        ensures bytes { sum_by image_bytes self.new ≡ sum_by image_bytes self.old }
    {
        self.images.rotate_right(1);
    }

    /// Writes a picture to the image in a slot. The picture and the image must have the same
    /// description.
    pub fn write(&mut self, k: u8, picture: &Picture)
        requires within { k < length self.old }
        requires image { IsImage (image_in self.old k) }
        requires same { description_of (image_in self.old k) ≡ picture.now.description }
        ensures value { self.new ≡ slice_set self.old k (picture_image picture.now) }
        ensures bytes { sum_by image_bytes self.new ≡ sum_by image_bytes self.old }
        ensures image { IsImage (picture_image picture.now) }
    {
        let image = &mut self.images[usize::from(k)];
        image.write(picture);
    }

    /// Sets the valid rectangle of the image in a slot, and sets each sample outside the rectangle
    /// to 0.
    pub fn set_valid(&mut self, k: u8, valid: Rect)
        requires within { k < length self.old }
        requires image { IsImage (image_in self.old k) }
        requires inside { IsWithin valid (image_in self.old k).width (image_in self.old k).height }
        ensures value { self.new ≡ slice_set self.old k (with_valid valid (image_in self.old k)) }
        ensures bytes { sum_by image_bytes self.new ≡ sum_by image_bytes self.old }
    {
        let image = &mut self.images[usize::from(k)];
        image.set_valid(valid);
    }

    /// Takes the samples out of the image in a slot, and returns them with the image's size and
    /// format. `put` brings the samples back.
    pub fn take(&mut self, k: u8) -> (Desc, Samples)
        requires within { k < length self.old }
        ensures desc { result.0 ≡ description_of (image_in self.old k) }
        ensures value { values result.1 ≡ (image_in self.old k).samples }
        ensures format { samples_format result.1 ≡ (image_in self.old k).format }
        ensures size { IsAllOrNone (sample_count (description_of (image_in self.old k)))
            (length (values result.1)) }
        ensures left { self.new ≡ slice_set self.old k
            (image_over (description_of (image_in self.old k)) (image_in self.old k).valid []) }
        ensures bytes { sum_by image_bytes self.new ≡ sum_by image_bytes self.old }
    {
        let image = &mut self.images[usize::from(k)];
        image.take()
    }

    /// Puts a sample for each pixel into the image in a slot, or none, and sets the image's valid
    /// rectangle.
    pub fn put(&mut self, k: u8, samples: Samples, valid: Rect)
        requires within { k < length self.old }
        requires format { samples_format samples ≡ (image_in self.old k).format }
        requires size { IsAllOrNone (sample_count (description_of (image_in self.old k)))
            (length (values samples)) }
        ensures value { self.new ≡ slice_set self.old k
            (image_over (description_of (image_in self.old k)) valid (values samples)) }
        ensures bytes { sum_by image_bytes self.new ≡ sum_by image_bytes self.old }
    {
        let image = &mut self.images[usize::from(k)];
        image.put(samples, valid);
    }
}

/// Returns `count` new images of a description. After an error, the blocks taken so far have gone
/// back to the pool.
fn new_images(
    alloc: Global,
    pool: &mut Pool,
    desc: Desc,
    count: usize,
) -> Result<Vec<Stored>, AllocError>
    ensures value { IfOk result (λ images. images.items ≡ new_delay desc count) }
    ensures lends { IfOk result (λ images.
        LendsMore pool.old pool.new (delay_blocks images.items)) }
    ensures err { OnErr result (KeepsLent pool.old pool.new) }
{
    let mut images = Vec::with_capacity(alloc, count)?;
    while images.len() < count {
        match Stored::new(pool, desc) {
            Ok(image) => images.push_reserved(image),
            Err(fault) => {
                end_images(images, pool);
                return Err(fault);
            }
        }
    }
    Ok(images)
}

/// Gives the blocks of images back to the pool.
fn end_images(images: Vec<Stored>, pool: &mut Pool)
    requires { LendsAtLeast pool.old (delay_blocks images.items) }
    ensures { LendsLess pool.old pool.new (delay_blocks images.items) }
{
    for image in images {
        image.end(pool);
    }
}
