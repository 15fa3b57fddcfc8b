//! Updates of samples in place, and `RowChange`, the common form of formulas and updates. One
//! function, `change_rows`, applies any `RowChange` to the rows of a band.
ghost use Rattle.std.specs.Prelude.{◌≡◌, ◌+◌, ◌<◌, ◌≤◌, ℕ, ℤ, length, map};
ghost use Rattle.vx_base.specs.Rectangle.{Rectangle};
ghost use Rattle.vx_base.specs.Image.{run};

use crate::formula::RowFormula;
use crate::number::Number;
use vx_base::Rect;

/// A new value for each sample of a rectangle, computed from the sample's old value.
pub trait RowUpdate<T: Number> {
    /// The new sample in a column of a row, given the old sample.
    ghost next: { Self → ℕ → ℕ → ℤ → ℤ };

    /// The rectangle whose samples can be updated.
    ghost area: { Self → Rectangle };

    /// Returns the rectangle whose samples can be updated.
    fn area(&self) -> Rect
        ensures { result ≡ area self.now };

    /// Updates `row`, a part of row `y` that begins at column `x`.
    fn update(&self, x: u16, y: u16, row: &mut [T])
        requires in_rows { ((area self.now).y0 ≤ y) × (y < (area self.now).y1) }
        requires in_columns { ((area self.now).x0 ≤ x) ×
            (x + length row.old ≤ (area self.now).x1) }
        ensures { (before : ℕ → ℤ) → map T.value row.old ≡ run x (length row.old) before →
            map T.value row.new ≡ run x (length row.old) (λ k. next self.now k y (before k)) };
}

/// An update that leaves the samples of a rectangle unchanged.
#[derive(Drop)]
pub struct Unchanged {
    pub area: Rect,
}

impl<T: Number> RowUpdate<T> for Unchanged {
    ghost next = { λ _ _ _ z. z };

    ghost area = { λ s. s.area };

    fn area(&self) -> Rect {
        self.area
    }

    fn update(&self, _x: u16, _y: u16, _row: &mut [T]) {}
}

/// A change of samples in place, which computes each sample of a rectangle from the sample's old
/// value. The change gets scratch memory for one row.
pub trait RowChange<T: Number, S> {
    /// The new sample in a column of a row, given the old sample.
    ghost next: { Self → ℕ → ℕ → ℤ → ℤ };

    /// The rectangle whose samples can be changed.
    ghost area: { Self → Rectangle };

    /// The number of scratch items that a row needs.
    ghost scratch_len: { Self → ℕ };

    /// Returns the rectangle whose samples can be changed.
    fn area(&self) -> Rect
        ensures { result ≡ area self.now };

    /// Changes `row`, a part of row `y` that begins at column `x`.
    fn change(&self, x: u16, y: u16, scratch: &mut [S], row: &mut [T])
        requires in_rows { ((area self.now).y0 ≤ y) × (y < (area self.now).y1) }
        requires in_columns { ((area self.now).x0 ≤ x) ×
            (x + length row.old ≤ (area self.now).x1) }
        requires scratch { scratch_len self.now ≤ length scratch.old }
        ensures { (before : ℕ → ℤ) → map T.value row.old ≡ run x (length row.old) before →
            map T.value row.new ≡ run x (length row.old) (λ k. next self.now k y (before k)) };
}

/// A `RowFormula` as a `RowChange` that ignores the old samples.
#[derive(Drop)]
pub struct Written<'a, F> {
    pub formula: &'a F,
}

impl<T: Number, S, F: RowFormula<T, S>> RowChange<T, S> for Written<'_, F> {
    ghost next = { λ w x y _. F.at w.formula.now x y };

    ghost area = { λ w. F.area w.formula.now };

    ghost scratch_len = { λ w. F.scratch_len w.formula.now };

    fn area(&self) -> Rect {
        self.formula.area()
    }

    /// Writes `row` piece by piece, from left to right. Each piece is at most as wide as the
    /// formula allows.
    fn change(&self, x: u16, y: u16, scratch: &mut [S], row: &mut [T]) {
        self.formula.area().prove_bounds();
        let most = usize::from(self.formula.most());
        let count = row.len();
        for k in 0..count.div_ceil(most) {
            let first = most * k;
            let end = (first + most).min(count);
            let piece = &mut row[first..end];
            self.formula.fill(x + first as u16, y, scratch, piece);
        }
    }
}

/// A `RowUpdate` as a `RowChange` that needs no scratch memory.
#[derive(Drop)]
pub struct Updated<'a, U> {
    pub update: &'a U,
}

impl<T: Number, U: RowUpdate<T>> RowChange<T, u8> for Updated<'_, U> {
    ghost next = { λ u. U.next u.update.now };

    ghost area = { λ u. U.area u.update.now };

    ghost scratch_len = { λ _. 0 };

    fn area(&self) -> Rect {
        self.update.area()
    }

    fn change(&self, x: u16, y: u16, _scratch: &mut [u8], row: &mut [T]) {
        self.update.update(x, y, row);
    }
}
