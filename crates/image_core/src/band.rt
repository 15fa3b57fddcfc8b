//! Bands of rows.
ghost use Rattle.std.specs.Prelude.{◌≡◌};
ghost use Rattle.image_core.specs.Bands.{all_rows, has_row};

use vx_base::Desc;

/// A band of an image: `count` rows from row `start` on.
#[derive(Clone, Copy, Debug, PartialEq, Eq)]
pub struct Band {
    pub start: u16,
    pub count: u16,
}

impl Band {
    /// Returns the band of all rows of an image.
    pub fn whole(desc: Desc) -> Band
        ensures { result ≡ all_rows desc.height }
    {
        Band {
            start: 0,
            count: desc.height(),
        }
    }

    /// Checks whether row `y` is in the band.
    pub fn has_row(self, y: u16) -> bool
        ensures { result ≡ has_row self y }
    {
        self.start <= y && y - self.start < self.count
    }
}
