//! Images in which each row depends on the rows above it.
ghost use Rattle.std.specs.Prelude.{◌≡◌, ◌*◌, ℕ, ℤ, pos, length, map};
ghost use Rattle.vx_base.specs.Rectangle.{Rectangle};
ghost use Rattle.vx_base.specs.Image.{band, zero_outside};
ghost use Rattle.image_core.specs.Bands.{IsInRows};

use crate::band::Band;
use vx_base::Rect;

/// A U32 image that is written row after row, because each row is computed from the row above.
pub trait Whole {
    /// The sample in a column of a row.
    ghost at: { Self → ℕ → ℕ → ℤ };

    /// The valid rectangle; outside it the samples are 0.
    ghost area: { Self → Rectangle };

    ghost width: { Self → ℕ };

    ghost height: { Self → ℕ };

    /// Returns the valid rectangle.
    fn area(&self) -> Rect
        ensures { result ≡ area self.now };

    /// Writes the samples of a band in row-major order.
    fn fill(&self, rows: Band, out: &mut [u32])
        requires rows { IsInRows (height self.now) rows }
        requires size { length out.old ≡ rows.count * width self.now }
        ensures { map pos out.new ≡ band (width self.now) rows.start rows.count
            (zero_outside (area self.now) (at self.now)) };
}
