//! The traits of kernels. A kernel computes one item, or a block of items in lanes.
ghost use Rattle.std.specs.Prelude.{◌≡◌, ℤ, map, length};
ghost use Rattle.std.specs.Simd.Lanes.{zip2};

use crate::item::Item;

/// A function of one item.
pub trait OfItem<A: Item, T: Item> {
    /// The result's value, from the item's value.
    ghost formula: { Self → ℤ → ℤ };

    /// Returns the result for an item.
    fn item(&self, a: A) -> T
        ensures { T.value result ≡ formula self.now (A.value a) };
}

/// A kernel of one row. A kernel without vector instructions may write the items of a block one by
/// one.
pub trait LanesOfItem<A: Item, T: Item>: OfItem<A, T> {
    /// Writes the results for 32 items.
    fn lanes(&self, row: &[A], out: &mut [T])
        requires row_len { length row.now ≡ 32 }
        requires out_len { length out.old ≡ 32 }
        ensures { map T.value out.new ≡ map (Self.formula self.now) (map A.value row.now) };
}

/// A kernel of two rows.
pub trait OfPair<A: Item, B: Item, T: Item> {
    /// The result's value, from the values of the two items.
    ghost formula: { Self → ℤ → ℤ → ℤ };

    /// Returns the result for the two items at an index.
    fn item(&self, a: A, b: B) -> T
        ensures { T.value result ≡ formula self.now (A.value a) (B.value b) };

    /// Writes the results for 32 items of each row.
    fn lanes(&self, first: &[A], second: &[B], out: &mut [T])
        requires first_len { length first.now ≡ 32 }
        requires second_len { length second.now ≡ 32 }
        requires out_len { length out.old ≡ 32 }
        ensures { map T.value out.new ≡ zip2 (formula self.now) (map A.value first.now)
            (map B.value second.now) };
}

/// A kernel that updates a row of sums from a row of items.
pub trait OfSum<A: Item, T: Item> {
    /// The new sum, from the value of the row's item and the old sum at its index.
    ghost formula: { Self → ℤ → ℤ → ℤ };

    /// Returns the new sum, from an item and the old sum.
    fn item(&self, a: A, sum: T) -> T
        ensures { T.value result ≡ formula self.now (A.value a) (T.value sum) };

    /// Updates 16 sums with 16 items of the row.
    fn lanes(&self, row: &[A], sums: &mut [T])
        requires row_len { length row.now ≡ 16 }
        requires sums_len { length sums.old ≡ 16 }
        ensures { map T.value sums.new ≡ zip2 (formula self.now) (map A.value row.now)
            (map T.value sums.old) };
}
