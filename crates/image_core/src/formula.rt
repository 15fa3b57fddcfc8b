//! Formulas for samples: without scratch memory, or with scratch memory for a piece of a row.
ghost use Rattle.std.specs.Prelude.{◌≡◌, ◌+◌, ◌<◌, ◌≤◌, ℕ, ℤ, length, map};
ghost use Rattle.vx_base.specs.Rectangle.{Rectangle};
ghost use Rattle.vx_base.specs.Image.{run};

use crate::number::Number;
use vx_base::Rect;

/// A formula that gives a sample for each pixel of a rectangle.
pub trait Formula<T: Number> {
    /// The sample in a column of a row.
    ghost at: { Self → ℕ → ℕ → ℤ };

    /// The rectangle in which the formula is defined.
    ghost area: { Self → Rectangle };

    /// Returns the rectangle in which the formula is defined.
    fn area(&self) -> Rect
        ensures { result ≡ area self.now };

    /// Fills `out` with the samples of row `y`, from column `x` on.
    fn fill(&self, x: u16, y: u16, out: &mut [T])
        requires in_rows { ((area self.now).y0 ≤ y) × (y < (area self.now).y1) }
        requires in_columns { ((area self.now).x0 ≤ x) × (x + length out.old ≤ (area self.now).x1) }
        ensures { map T.value out.new ≡ run x (length out.old) (λ k. at self.now k y) };
}

/// A formula that gives a sample for each pixel of a rectangle, and needs scratch memory to compute
/// a piece of a row. The scratch memory carries nothing from one piece to the next, so pieces can
/// be computed in any order. A piece has at most `most` columns, so the scratch memory needn't grow
/// with the image's width.
pub trait RowFormula<T: Number, S> {
    /// The sample in a column of a row.
    ghost at: { Self → ℕ → ℕ → ℤ };

    /// The rectangle in which the formula is defined.
    ghost area: { Self → Rectangle };

    /// The greatest number of columns in one piece.
    ghost most: { Self → ℕ };

    /// The number of scratch items that a piece needs.
    ghost scratch_len: { Self → ℕ };

    /// Returns the rectangle in which the formula is defined.
    fn area(&self) -> Rect
        ensures { result ≡ area self.now };

    /// Returns the greatest number of columns in one piece, at least 1.
    fn most(&self) -> u16
        ensures value { result ≡ most self.now }
        ensures some { 1 ≤ result };

    /// Fills `out` with the samples of row `y`, from column `x` on. `out` must have at least one
    /// item, and at most `most` items.
    fn fill(&self, x: u16, y: u16, scratch: &mut [S], out: &mut [T])
        requires in_rows { ((area self.now).y0 ≤ y) × (y < (area self.now).y1) }
        requires in_columns { ((area self.now).x0 ≤ x) ×
            (x + length out.old ≤ (area self.now).x1) }
        requires some { 1 ≤ length out.old }
        requires few { length out.old ≤ most self.now }
        requires scratch { scratch_len self.now ≤ length scratch.old }
        ensures { map T.value out.new ≡ run x (length out.old) (λ k. at self.now k y) };
}

/// A `Formula` as a `RowFormula` that needs no scratch memory. A piece can be a whole row.
#[derive(Drop)]
pub struct Unaided<'a, F> {
    pub formula: &'a F,
}

impl<T: Number, F: Formula<T>> RowFormula<T, u8> for Unaided<'_, F> {
    ghost at = { λ u. F.at u.formula.now };

    ghost area = { λ u. F.area u.formula.now };

    ghost most = { λ _. 65535 };

    ghost scratch_len = { λ _. 0 };

    fn area(&self) -> Rect {
        self.formula.area()
    }

    fn most(&self) -> u16 {
        u16::MAX
    }

    fn fill(&self, x: u16, y: u16, _scratch: &mut [u8], out: &mut [T]) {
        self.formula.fill(x, y, out);
    }
}
