//! The least and the greatest of samples, with their first pixels.
ghost use Rattle.std.specs.Prelude.{◌≡◌, ◌+◌, ◌<◌, ◌^◌, ℕ, ℤ, map, length};
ghost use Rattle.vx_base.specs.Image.{run};
ghost use Rattle.vx_base.specs.Statistics.{row_pixels, count_of, first_of};

use lane_rows::{Compared, count_of, first_of};
use vx_base::Extremes;

/// The least or the greatest of some samples, the number of pixels that have it, and the column and
/// row of the first such pixel. All numbers are 0 if there are no samples.
#[derive(Clone, Copy)]
pub struct Extreme {
    pub value: i16,
    pub count: u32,
    pub at: (u16, u16),
}

impl Extreme {
    ghost use Rattle.stat_kernels.specs.Extreme.{merge};

    /// Merges a row of later pixels into this extreme. `sample` is the row's own extreme.
    /// `is_beyond` says whether `sample` is below `self.value` (for the least sample) or above it
    /// (for the greatest).
    fn include_row<T: Compared>(
        self,
        is_beyond: bool,
        sample: T,
        x: u16,
        y: u16,
        row: &[T],
    ) -> Extreme
        requires among { 0 < count_of (T.value sample) (map T.value row.now) }
        requires columns { x + length row.now < 2 ^ 16 }
        requires room { self.count + length row.now < 2 ^ 32 }
        ensures { (f : ℕ → ℕ → ℤ) (n : ℕ) → map T.value row.now ≡ run x n (λ k. f k y) →
            result ≡ merge (λ _ _. is_beyond) self (record {
              value = T.value sample;
              count = count_of (T.value sample) (map T.value row.now);
              at = first_of f (T.value sample) (row_pixels x n y);
            }) }
    {
        if self.count == 0 || is_beyond {
            Extreme {
                value: sample.short(),
                count: count_of(row, sample),
                at: (x + first_of(row, sample) as u16, y),
            }
        } else if sample.short().is(self.value) {
            Extreme {
                count: self.count + count_of(row, sample),
                ..self
            }
        } else {
            self
        }
    }

    /// Merges the extreme of later pixels into this extreme. `is_beyond` says whether `other.value`
    /// is below `self.value` (for the least sample) or above it (for the greatest).
    fn merge(self, is_beyond: bool, other: Extreme) -> Extreme
        requires { self.count + other.count < 2 ^ 32 }
        ensures { result ≡ merge (λ _ _. is_beyond) self other }
    {
        if other.count == 0 {
            self
        } else if self.count == 0 || is_beyond {
            other
        } else if other.value.is(self.value) {
            Extreme {
                count: self.count + other.count,
                ..self
            }
        } else {
            self
        }
    }
}

/// The least and the greatest of some samples.
#[derive(Clone, Copy)]
pub struct Found {
    pub least: Extreme,
    pub greatest: Extreme,
}

impl Found {
    ghost use Rattle.vx_base.specs.Object.{no_extremes};
    ghost use Rattle.stat_kernels.specs.Extreme.{found_in, found_of, merge_found};

    /// Returns the extremes of no samples.
    pub fn nowhere() -> Found
        ensures { result ≡ found_of no_extremes }
    {
        let nowhere = Extreme {
            value: 0,
            count: 0,
            at: (0, 0),
        };
        Found {
            least: nowhere,
            greatest: nowhere,
        }
    }

    /// Merges a row of later pixels into these extremes.
    #[tactic(auto, using(crate::proofs::MergeLaws::among))]
    pub fn include_row<T: Compared>(self, x: u16, y: u16, row: &[T]) -> Found
        requires columns { x + length row.now < 2 ^ 16 }
        requires least_room { self.least.count + length row.now < 2 ^ 32 }
        requires greatest_room { self.greatest.count + length row.now < 2 ^ 32 }
        ensures { (f : ℕ → ℕ → ℤ) (n : ℕ) → map T.value row.now ≡ run x n (λ k. f k y) →
            result ≡ merge_found self (found_in f (row_pixels x n y)) }
    {
        if row.is_empty() {
            return self;
        }
        let (low, high) = T::extent_of(row);
        let is_below = low.short() < self.least.value;
        let is_above = high.short() > self.greatest.value;
        Found {
            least: self.least.include_row(is_below, low, x, y, row),
            greatest: self.greatest.include_row(is_above, high, x, y, row),
        }
    }

    /// Returns the numbers of `extremes` as a `Found`.
    pub fn of(extremes: Extremes) -> Found
        ensures { result ≡ found_of extremes }
    {
        Found {
            least: Extreme {
                value: extremes.min,
                count: extremes.min_count,
                at: extremes.min_at,
            },
            greatest: Extreme {
                value: extremes.max,
                count: extremes.max_count,
                at: extremes.max_at,
            },
        }
    }

    /// Merges the extremes of later pixels into these extremes.
    #[tactic(auto, using(crate::proofs::MergeLaws::same_order))]
    pub fn merge(self, other: Found) -> Found
        requires least_room { self.least.count + other.least.count < 2 ^ 32 }
        requires greatest_room { self.greatest.count + other.greatest.count < 2 ^ 32 }
        ensures { result ≡ merge_found self other }
    {
        let is_below = other.least.value < self.least.value;
        let is_above = other.greatest.value > self.greatest.value;
        Found {
            least: self.least.merge(is_below, other.least),
            greatest: self.greatest.merge(is_above, other.greatest),
        }
    }
}
