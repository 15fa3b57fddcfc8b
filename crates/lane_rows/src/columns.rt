//! Kernels of three rows for the separable windows of gradients. One kernel computes a weighted sum
//! or a difference for each column of three rows of bytes. Another then computes a gradient from
//! three neighbouring columns.
//!
//! The kernels are plain loops, which the compiler vectorizes for the processor. Blocks of 32
//! numbers of 16 bits in `std::simd` take 1.1 to 1.2 times as long on processors with registers of
//! 16 bytes.
ghost use Rattle.std.specs.Prelude.{◌≡◌, ◌≤◌, ◌+ℤ◌, ◌-ℤ◌, ◌*ℤ◌, ℤ, pos, map, length, unsigned_abs};
ghost use Rattle.vx_base.specs.Image.{run};
ghost use Rattle.lane_rows.specs.Threes.{AreTaken, number_at};

use crate::item::Item;

/// The sum of three bytes with weights 1, 2, 1.
#[derive(Clone, Copy)]
pub struct WeightedSum {
    sum: u16,
    ghost limit: { sum ≤ 1020 },
}

impl Item for WeightedSum {
    ghost value = { λ s. pos s.sum };
}

impl WeightedSum {
    /// Returns the sum of three zeros.
    pub fn zero() -> WeightedSum
        ensures { result.sum ≡ 0 }
    {
        WeightedSum { sum: 0 }
    }
}

/// The difference of two bytes.
#[derive(Clone, Copy)]
pub struct Change {
    change: i16,
    ghost limit: { unsigned_abs change ≤ 255 },
}

impl Item for Change {
    ghost value = { λ s. s.change };
}

impl Change {
    /// Returns a difference of 0.
    pub fn zero() -> Change
        ensures { result.change ≡ pos 0 }
    {
        Change { change: 0 }
    }
}

/// A kernel that computes each item from the three items at its index in three rows.
pub trait OfColumn<A: Item, T: Item> {
    ghost formula: { ℤ → ℤ → ℤ → ℤ };

    /// The numbers that the kernel accepts.
    ghost takes: { ℤ → Type 0 };

    /// Returns the result for three items.
    fn item(first: A, second: A, third: A) -> T
        requires { takes (A.value first) × takes (A.value second) × takes (A.value third) }
        ensures { T.value result ≡ formula (A.value first) (A.value second) (A.value third) };

    /// Writes the result for each index of three rows. The default body works item by item.
    fn write(first: &[A], second: &[A], third: &[A], out: &mut [T])
        requires first_len { length first.now ≡ length out.old }
        requires second_len { length second.now ≡ length out.old }
        requires third_len { length third.now ≡ length out.old }
        requires taken { AreTaken takes (map A.value first.now)
            × AreTaken takes (map A.value second.now) × AreTaken takes (map A.value third.now) }
        ensures { map T.value out.new ≡ run 0 (length out.old)
            (λ i. formula (number_at (map A.value first.now) i)
            (number_at (map A.value second.now) i) (number_at (map A.value third.now) i)) }
    {
        for (i, item) in out.iter_mut().enumerate() {
            *item = Self::item(first[i], second[i], third[i]);
        }
    }
}

/// The sum of three numbers with weights 1, 2, 1.
#[derive(Drop)]
pub struct Weighted;

impl OfColumn<u8, WeightedSum> for Weighted {
    ghost formula = { λ a b c. a +ℤ pos 2 *ℤ b +ℤ c };

    ghost takes = { λ _. Unit {0} };

    fn item(first: u8, second: u8, third: u8) -> WeightedSum {
        let sum = u16::from(first) + 2 * u16::from(second) + u16::from(third);
        WeightedSum { sum }
    }
}

impl OfColumn<Change, i16> for Weighted {
    ghost formula = { λ a b c. a +ℤ pos 2 *ℤ b +ℤ c };

    ghost takes = { λ _. Unit {0} };

    fn item(first: Change, second: Change, third: Change) -> i16 {
        first.change + 2 * second.change + third.change
    }
}

/// The last of three numbers minus the first.
#[derive(Drop)]
pub struct Rise;

impl OfColumn<u8, Change> for Rise {
    ghost formula = { λ a _ c. c -ℤ a };

    ghost takes = { λ _. Unit {0} };

    fn item(first: u8, _second: u8, third: u8) -> Change {
        let change = i16::from(third) - i16::from(first);
        Change { change }
    }
}

impl OfColumn<WeightedSum, i16> for Rise {
    ghost formula = { λ a _ c. c -ℤ a };

    ghost takes = { λ _. Unit {0} };

    fn item(first: WeightedSum, _second: WeightedSum, third: WeightedSum) -> i16 {
        third.sum as i16 - first.sum as i16
    }
}
