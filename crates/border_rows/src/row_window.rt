//! Rows of whole images, border included.
ghost use Rattle.std.specs.Prelude.{◌≡◌, ◌+◌, ◌*◌, ◌<◌, pos, ◌-ℤ◌, IfOk, length, map, replicate};
ghost use Rattle.vx_base.specs.declared.format.Format.TheVariants.{U8};
ghost use Rattle.vx_base.specs.Image.{run};
ghost use Rattle.vx_base.specs.Window.{sample_or_border};

use crate::seen::load_row;
use image_core::Image;
use std::alloc::{AllocError, Global};
use std::marker::Model;
use vx_base::Border;

/// A row of a U8 image, extended by `radius` samples on each side. It is for kernels that need
/// whole rows, border included. The kernels of window_kernels don't use it: they read rows without
/// a copy, except that convolution loads pieces of several rows with `load_row`.
#[derive(Drop)]
pub struct RowWindow {
    width: u16,
    radius: u16,
    samples: Vec<u8>,
}

impl Model for RowWindow {
    ghost use Rattle.std.specs.Prelude.{◌≡◌, ◌+◌, ◌*◌, pos, map, length};
    ghost use Rattle.border_rows.specs.RowWindow.{RowWindowValue};

    ghost Value = { RowWindowValue };

    ghost view = { λ w. record {
      width = w.width;
      radius = w.radius;
      samples = map pos
          w.samples.items;
    } };

    ghost invariant = { λ w. length w.samples.items ≡ w.width + 2 * w.radius };
}

impl RowWindow {
    /// Returns a row of this width and radius, or an error if there is no memory for the row. The
    /// samples are 0 until `load` is called.
    pub fn new(alloc: Global, width: u16, radius: u16) -> Result<RowWindow, AllocError>
        ensures width { IfOk result (λ made. made.width ≡ width) }
        ensures radius { IfOk result (λ made. made.radius ≡ radius) }
        ensures samples { IfOk result (λ made. made.samples
            ≡ replicate (width + 2 * radius) (pos 0)) }
    {
        let count = usize::from(width) + 2 * usize::from(radius);
        Ok(RowWindow {
            width,
            radius,
            samples: vec![in alloc; 0; count]?,
        })
    }

    /// Loads row `y` of a U8 image, border included. Allocates nothing. The caller must pass an
    /// image of this `RowWindow`'s width, with at least one valid pixel.
    pub fn load(&mut self, image: &Image<'_>, y: i32, border: Border)
        requires format { image.now.format ≡ U8 }
        requires width { self.old.width ≡ image.now.width }
        requires columns { image.now.valid.x0 < image.now.valid.x1 }
        requires rows { image.now.valid.y0 < image.now.valid.y1 }
        ensures width { self.new.width ≡ self.old.width }
        ensures radius { self.new.radius ≡ self.old.radius }
        ensures samples { self.new.samples
            ≡ run 0 (self.old.width + 2 * self.old.radius)
            (λ i. sample_or_border image.now border (pos i -ℤ pos self.old.radius) y) }
    {
        let samples = self.samples.as_mut_slice();
        load_row(image, 0, self.radius, y, border, samples);
    }

    /// Returns the samples. The first one is `radius` columns to the left of the image.
    pub fn row(&self) -> &[u8]
        ensures value { map pos result.now ≡ self.now.samples }
        ensures len { length result.now ≡ self.now.width + 2 * self.now.radius }
    {
        &self.samples
    }
}
