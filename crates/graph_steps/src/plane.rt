//! Planes: images while a graph runs.
ghost use Rattle.std.specs.Prelude.{◌≡◌, ◌+◌, ◌-◌, ◌*◌, ◌≤◌, ◌<◌, ◌^◌, length};
ghost use Rattle.vx_base.specs.declared.format.Format.TheVariants.{U8, U32};
ghost use Rattle.vx_base.specs.Picture.{values, samples_format};
ghost use Rattle.vx_base.specs.Rectangle.{IsWithin};
ghost use Rattle.image_core.specs.Bands.{IsInRows};
ghost use Rattle.image_core.specs.Second.{second_object};
ghost use Rattle.graph_steps.specs.Planes.{plane_image, with_read_rows, with_rows, whole_plane};
ghost use Rattle.graph_steps.specs.Planes.{slot_plane, with_description, without_block, with_halo};
ghost use Rattle.graph_steps.specs.Planes.{IsReadable};
ghost use Rattle.graph_steps.specs.Steps.{CanMake, kernel_image, scan_image};

use crate::kernel::Kernel;
use crate::rows::{RowSample, read_rows, write_sums};
use image_core::{Band, Image};
use std::marker::Model;
use vx_base::{Desc, Format, Rect, Samples};

/// An image while a graph runs: the description and the valid rectangle of the whole image, and a
/// block that holds some or all of its rows.
#[derive(Debug, Drop)]
pub struct Plane {
    desc: Desc,
    valid: Rect,
    /// The image row with which the block begins.
    top: u16,
    /// The rows that a step may read.
    rows: Band,
    samples: Samples,
}

impl Model for Plane {
    ghost use Rattle.vx_base.specs.Picture.{values, samples_format};
    ghost use Rattle.graph_steps.specs.Planes.{PlaneValue};

    ghost Value = { PlaneValue };

    ghost view = { λ p. record {
      desc = p.desc;
      valid = p.valid;
      top = p.top;
      rows = p.rows;
      format = samples_format p.samples;
      samples = values p.samples;
    } };
}

impl Plane {
    /// Returns the plane of a client's image. `samples` has all samples of the image, row by row.
    pub fn of_image(desc: Desc, valid: Rect, samples: Samples) -> Plane
        ensures { result ≡ whole_plane desc valid samples }
    {
        Plane {
            desc,
            valid,
            top: 0,
            rows: Band::whole(desc),
            samples,
        }
    }

    /// Returns the plane of a slot with this block, which holds no virtual image yet.
    pub fn of_block(samples: Samples) -> Plane
        ensures { result ≡ slot_plane samples }
    {
        Plane {
            desc: Desc::with_sides(1, 1, Format::U8),
            valid: Rect::empty(),
            top: 0,
            rows: Band { start: 0, count: 0 },
            samples,
        }
    }

    /// Returns the image's description.
    pub fn desc(&self) -> Desc
        ensures { result ≡ self.now.desc }
    {
        self.desc
    }

    /// Returns the image's valid rectangle.
    pub fn valid(&self) -> Rect
        ensures { result ≡ self.now.valid }
    {
        self.valid
    }

    /// Takes the block out of the plane, which then has no samples.
    pub fn give(&mut self) -> Samples
        ensures format { samples_format result ≡ self.old.format }
        ensures value { values result ≡ self.old.samples }
        ensures left { self.new ≡ without_block self.old }
    {
        self.samples.take()
    }

    /// Has the plane hold a virtual image with this description, in a block that begins with row
    /// `top`. The valid rectangle becomes empty.
    pub fn describe(&mut self, desc: Desc, top: u16)
        ensures { self.new ≡ with_description desc top self.old }
    {
        self.desc = desc;
        self.valid = Rect::empty();
        self.top = top;
    }

    /// Returns a copy of the plane, and moves the block to the copy. The copy can then be written
    /// while the list of planes is read. The plane in the list has no samples left.
    pub fn take_out(&mut self) -> Plane
        ensures value { result ≡ self.old }
        ensures left { self.new ≡ without_block self.old }
    {
        Plane {
            desc: self.desc,
            valid: self.valid,
            top: self.top,
            rows: self.rows,
            samples: self.samples.take(),
        }
    }

    /// Returns the image that a step reads. Samples outside the plane's readable rows are 0.
    pub fn image(&self) -> Image<'_>
        requires { IsReadable self.now }
        ensures { result ≡ plane_image self.now }
    {
        let (desc, valid, top, rows) = (self.desc, self.valid, self.top, self.rows);
        match &self.samples {
            Samples::U8(samples) => read_rows(desc, valid, top, rows, samples),
            Samples::S16(samples) => read_rows(desc, valid, top, rows, samples),
            Samples::U32(samples) => read_rows(desc, valid, top, rows, samples),
        }
    }

    /// Writes these rows of the image that a kernel computes, and sets the plane's valid rectangle
    /// to the image's. Afterwards a step may read these rows, and no others.
    pub fn write(&mut self, kernel: &Kernel<'_, '_, '_>, rows: Band)
        requires format { self.old.format ≡ self.old.desc.format }
        requires can { CanMake kernel.now.step.now kernel.now.first.now
            (second_object kernel.now.second.now) self.old.desc }
        requires rows { IsInRows self.old.desc.height rows }
        requires within { IsWithin self.old.valid self.old.desc.width self.old.desc.height }
        requires top { self.old.top ≤ rows.start }
        requires room { (rows.start - self.old.top + rows.count) * self.old.desc.width
            ≤ length self.old.samples }
        ensures { self.new ≡ with_rows rows
            (kernel_image kernel.now (plane_image (with_read_rows rows self.old))) self.old }
    {
        let (desc, valid) = (self.desc, self.valid);
        let width = usize::from(desc.width());
        let start = usize::from(rows.start - self.top) * width;
        let end = start + usize::from(rows.count) * width;
        self.rows = rows;
        match &mut self.samples {
            Samples::U8(block) => {
                self.valid = u8::make_rows(desc, rows, valid, &mut block[start..end], kernel);
            }
            Samples::S16(block) => {
                self.valid = i16::make_rows(desc, rows, valid, &mut block[start..end], kernel);
            }
            Samples::U32(block) => {
                self.valid = u32::make_rows(desc, rows, valid, &mut block[start..end], kernel);
            }
        }
    }

    /// Writes these rows of the integral image of `image`, and sets the plane's valid rectangle to
    /// that of `image`. The first row continues from the row above it, or from zeros if the block
    /// doesn't have that row.
    pub fn write_sums(&mut self, image: &Image<'_>, band: Band)
        requires input { image.now.format ≡ U8 }
        requires format { self.old.format ≡ U32 }
        requires width { image.now.width ≡ self.old.desc.width }
        requires rows { IsInRows image.now.height band }
        requires top { self.old.top ≤ band.start }
        requires room { (band.start - self.old.top + band.count) * self.old.desc.width
            ≤ length self.old.samples }
        ensures { self.new ≡ with_rows band (scan_image band.start image.now self.old) self.old }
    {
        let (width, top) = (self.desc.width(), self.top);
        self.rows = band;
        self.valid = image.valid();
        match &mut self.samples {
            Samples::U32(samples) => write_sums(width, top, band, image, samples.as_mut_slice()),
            _ => unreachable!(),
        }
    }
}

/// Returns the band with a halo above and below, clipped to an image of this height.
pub fn with_halo(height: u16, band: Band, halo: u16) -> Band
    requires { band.start + band.count < 2 ^ 16 }
    ensures { result ≡ with_halo halo height band }
{
    let start = band.start.saturating_sub(halo).min(height);
    let end = (band.start + band.count).saturating_add(halo).min(height);
    Band {
        start,
        count: end - start,
    }
}
