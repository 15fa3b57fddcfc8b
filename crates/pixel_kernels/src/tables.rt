//! Lookup tables.
ghost use Rattle.std.specs.Prelude.{◌≡◌, pos, map, length, Some};
ghost use Rattle.vx_base.specs.declared.format.Format.TheVariants.{U8, S16};
ghost use Rattle.vx_base.specs.declared.function.Function.TheVariants.{TableLookup};
ghost use Rattle.vx_base.specs.Object.{LutObject};
ghost use Rattle.vx_base.specs.Pixelwise.{lookup_result, from_one};
ghost use Rattle.image_core.specs.Fits.{Fits};
ghost use Rattle.image_core.specs.Target.{target_image, Writes};

use crate::one::write_one;
use image_core::{Image, ImageMut};
use lane_rows::{LanesOfItem, OfItem, map_items, store_bytes};
use vx_base::{Lut, Samples};

/// A lookup table of U8 samples, as a lane kernel.
#[derive(Drop)]
struct ByteTable<'a> {
    entries: &'a [u8],
    ghost full: { length entries.now ≡ 256 },
}

impl OfItem<u8, u8> for ByteTable<'_> {
    ghost formula = { λ s.
        lookup_result (record { format = U8; entries = map pos s.entries.now }) };

    fn item(&self, a: u8) -> u8 {
        self.entries[usize::from(a)]
    }
}

impl LanesOfItem<u8, u8> for ByteTable<'_> {
    fn lanes(&self, row: &[u8], out: &mut [u8]) {
        store_bytes(self, row, out);
    }
}

/// A lookup table of S16 samples, as a lane kernel.
#[derive(Drop)]
struct ShortTable<'a> {
    entries: &'a [i16],
    ghost full: { length entries.now ≡ 65536 },
}

impl OfItem<i16, i16> for ShortTable<'_> {
    ghost formula = { λ s. lookup_result (record { format = S16; entries = s.entries.now }) };

    fn item(&self, a: i16) -> i16 {
        self.entries[(i32::from(a) + 32_768) as usize]
    }
}

impl LanesOfItem<i16, i16> for ShortTable<'_> {
    fn lanes(&self, row: &[i16], out: &mut [i16]) {
        map_items(self, row, out);
    }
}

/// Writes the table's entries for the samples (OpenVX 1.3, "TableLookup"); the images must have the
/// table's format, U8 or S16.
pub fn lookup(image: &Image<'_>, output: &mut ImageMut<'_>, lut: &Lut)
    requires { Fits TableLookup image.now (Some (LutObject lut.now)) output.old }
    ensures { Writes (from_one (target_image output.old).format (lookup_result lut.now) image.now)
        output.old output.new }
{
    match lut.entries() {
        Samples::U8(entries) => {
            let kernel = ByteTable {
                entries: entries.as_slice(),
            };
            write_one::<u8, u8, _>(&kernel, image, output);
        }
        Samples::S16(entries) => {
            let kernel = ShortTable {
                entries: entries.as_slice(),
            };
            write_one::<i16, i16, _>(&kernel, image, output);
        }
        Samples::U32(_) => unreachable!(),
    }
}
