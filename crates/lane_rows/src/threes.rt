//! Sums and means of three rows of non-negative numbers, for separable windows: first a sum for
//! each column of three rows of samples, then a mean from three neighbouring sums.
ghost use Rattle.std.specs.Prelude.{◌≡◌, ◌+◌, ◌≤◌, ◌+ℤ◌, ◌*ℤ◌, ℕ, ℤ, pos, map, length};
ghost use Rattle.std.specs.Prelude.{nat_le, true, refl};
ghost use Rattle.std.specs.Int.{int_div_euclid};
ghost use Rattle.std.specs.List.{range_with_len};
ghost use Rattle.std.specs.Simd.Lanes.{Each1};
ghost use Rattle.vx_base.specs.Image.{run};
ghost use Rattle.lane_rows.specs.Threes.{IsUpTo, AreUpTo, number_at, zip3};

use crate::columns::OfColumn;
use crate::indexed::{Indexed, write_indexed};
use crate::item::Item;
use std::marker::PhantomData;
use std::simd::prelude::*;

/// A number type that can be summed: `u8` or `i16`.
pub trait Addend: Item {
    fn number(self) -> u16
        requires { IsUpTo 8191 (Self.value self) }
        ensures { pos result ≡ Self.value self };

    /// Returns the 32 numbers of a row from `index` on.
    fn numbers(row: &[Self], index: usize) -> u16x32
        requires room { index + 32 ≤ length row.now }
        requires limit { AreUpTo 8191 (map Self.value row.now) }
        ensures { map pos result
            ≡ map (number_at (map Self.value row.now)) (range_with_len index 32) };
}

impl Addend for u8 {
    fn number(self) -> u16 {
        u16::from(self)
    }

    fn numbers(row: &[u8], index: usize) -> u16x32 {
        u8x32::from_slice(&row[index..index + 32]).cast::<u16>()
    }
}

impl Addend for i16 {
    fn number(self) -> u16 {
        self as u16
    }

    fn numbers(row: &[i16], index: usize) -> u16x32 {
        i16x32::from_slice(&row[index..index + 32]).cast::<u16>()
    }
}

/// A number type in which sums and means are stored: `u8` or `i16`.
pub trait SumItem: Item {
    /// The greatest number that can be stored.
    ghost most: { ℕ };

    /// Writes 32 numbers.
    fn store(numbers: u16x32, out: &mut [Self])
        requires len { length numbers ≡ 32 }
        requires limit { Each1 (λ n. n ≤ most) numbers }
        requires out_len { length out.old ≡ 32 }
        ensures { map Self.value out.new ≡ map pos numbers };
}

impl SumItem for u8 {
    ghost most = { 255 };

    fn store(numbers: u16x32, out: &mut [u8]) {
        numbers.cast::<u8>().copy_to_slice(out);
    }
}

impl SumItem for i16 {
    ghost most = { 32767 };

    fn store(numbers: u16x32, out: &mut [i16]) {
        numbers.cast::<i16>().copy_to_slice(out);
    }
}

/// A kernel of three numbers.
trait OfThree<T: SumItem> {
    /// The greatest number that the kernel accepts; the least is 0.
    ghost limit: { ℕ };

    ghost formula: { ℤ → ℤ → ℤ → ℤ };

    fn of_three(a: u16, b: u16, c: u16) -> T
        requires limit { (a ≤ limit) × (b ≤ limit) × (c ≤ limit) }
        ensures { T.value result ≡ formula (pos a) (pos b) (pos c) };

    /// Returns, for each of 32 lanes, the result for its three numbers.
    fn of_three_lanes(a: u16x32, b: u16x32, c: u16x32) -> u16x32
        requires len { (length a ≡ 32) × (length b ≡ 32) × (length c ≡ 32) }
        requires limit { Each1 (λ n. n ≤ limit) a × Each1 (λ n. n ≤ limit) b
            × Each1 (λ n. n ≤ limit) c }
        ensures value { map pos result ≡ zip3 formula (map pos a) (map pos b) (map pos c) }
        ensures most { Each1 (λ n. n ≤ T.most) result };

    ghost small: { nat_le limit 8191 ≡ true };
}

/// A kernel's result for each index of three rows.
#[derive(Drop)]
struct ThreeAt<'a, A: Addend, T: SumItem, K: OfThree<T>> {
    kernel: PhantomData<(T, K)>,
    first: &'a [A],
    second: &'a [A],
    third: &'a [A],
    ghost second_len: { length second.now ≡ length first.now },
    ghost third_len: { length third.now ≡ length first.now },
    ghost limit: { AreUpTo K.limit (map A.value first.now)
        × AreUpTo K.limit (map A.value second.now) × AreUpTo K.limit (map A.value third.now) },
}

impl<A: Addend, T: SumItem, K: OfThree<T>> Indexed<T> for ThreeAt<'_, A, T, K> {
    ghost count = { λ s. length s.first.now };

    ghost at = { λ s i. K.formula (number_at (map A.value s.first.now) i)
        (number_at (map A.value s.second.now) i) (number_at (map A.value s.third.now) i) };

    fn item(&self, index: usize) -> T {
        <K as OfColumn<A, T>>::item(self.first[index], self.second[index], self.third[index])
    }

    fn lanes(&self, index: usize, out: &mut [T]) {
        let numbers = K::of_three_lanes(
            A::numbers(self.first, index),
            A::numbers(self.second, index),
            A::numbers(self.third, index),
        );
        T::store(numbers, out);
    }
}

impl<A: Addend, T: SumItem, K: OfThree<T>> OfColumn<A, T> for K {
    ghost formula = { K.OfThree.formula };

    ghost takes = { IsUpTo K.limit };

    fn item(first: A, second: A, third: A) -> T {
        K::of_three(first.number(), second.number(), third.number())
    }

    fn write(first: &[A], second: &[A], third: &[A], out: &mut [T]) {
        let row = ThreeAt::<A, T, K> {
            kernel: PhantomData,
            first,
            second,
            third,
        };
        write_indexed(&row, out);
    }
}

/// The sum of three numbers.
#[derive(Drop)]
pub struct SumOfThree;

impl OfThree<i16> for SumOfThree {
    ghost limit = { 8191 };

    ghost formula = { λ a b c. a +ℤ b +ℤ c };

    fn of_three(a: u16, b: u16, c: u16) -> i16 {
        (a + b + c) as i16
    }

    fn of_three_lanes(a: u16x32, b: u16x32, c: u16x32) -> u16x32 {
        a + b + c
    }

    ghost small = { refl };
}

/// The sum of three numbers with weights 1, 2, 1.
#[derive(Drop)]
pub struct WeightedSumOfThree;

impl OfThree<i16> for WeightedSumOfThree {
    ghost limit = { 8191 };

    ghost formula = { λ a b c. a +ℤ pos 2 *ℤ b +ℤ c };

    fn of_three(a: u16, b: u16, c: u16) -> i16 {
        (a + 2 * b + c) as i16
    }

    fn of_three_lanes(a: u16x32, b: u16x32, c: u16x32) -> u16x32 {
        a + (b + b) + c
    }

    ghost small = { refl };
}

/// A ninth of the sum of three numbers, rounded down.
#[derive(Drop)]
pub struct Ninth;

impl OfThree<u8> for Ninth {
    ghost limit = { 765 };

    ghost formula = { λ a b c. int_div_euclid (a +ℤ b +ℤ c) (pos 9) };

    fn of_three(a: u16, b: u16, c: u16) -> u8 {
        ((a + b + c) / 9) as u8
    }

    fn of_three_lanes(a: u16x32, b: u16x32, c: u16x32) -> u16x32 {
        (a + b + c) / u16x32::splat(9)
    }

    ghost small = { refl };
}

/// A sixteenth of the sum of three numbers with weights 1, 2, 1, rounded down.
#[derive(Drop)]
pub struct Sixteenth;

impl OfThree<u8> for Sixteenth {
    ghost limit = { 1020 };

    ghost formula = { λ a b c. int_div_euclid (a +ℤ pos 2 *ℤ b +ℤ c) (pos 16) };

    fn of_three(a: u16, b: u16, c: u16) -> u8 {
        ((a + 2 * b + c) / 16) as u8
    }

    fn of_three_lanes(a: u16x32, b: u16x32, c: u16x32) -> u16x32 {
        (a + (b + b) + c) >> 4
    }

    ghost small = { refl };
}

/// Writes the sum of the three numbers at each index. The caller must pass numbers from 0 to 8,191.
pub fn sum3<A: Addend>(first: &[A], second: &[A], third: &[A], out: &mut [i16])
    requires first_len { length first.now ≡ length out.old }
    requires second_len { length second.now ≡ length out.old }
    requires third_len { length third.now ≡ length out.old }
    requires first { AreUpTo 8191 (map A.value first.now) }
    requires second { AreUpTo 8191 (map A.value second.now) }
    requires third { AreUpTo 8191 (map A.value third.now) }
    ensures { out.new ≡ run 0 (length out.old) (λ i. number_at (map A.value first.now) i
        +ℤ number_at (map A.value second.now) i +ℤ number_at (map A.value third.now) i) }
{
    SumOfThree::write(first, second, third, out);
}

/// Writes the sum of the three numbers at each index, with weights 1, 2, 1. The caller must pass
/// numbers from 0 to 8,191.
pub fn weighted3<A: Addend>(first: &[A], second: &[A], third: &[A], out: &mut [i16])
    requires first_len { length first.now ≡ length out.old }
    requires second_len { length second.now ≡ length out.old }
    requires third_len { length third.now ≡ length out.old }
    requires first { AreUpTo 8191 (map A.value first.now) }
    requires second { AreUpTo 8191 (map A.value second.now) }
    requires third { AreUpTo 8191 (map A.value third.now) }
    ensures { out.new ≡ run 0 (length out.old) (λ i. number_at (map A.value first.now) i
        +ℤ pos 2 *ℤ number_at (map A.value second.now) i +ℤ number_at (map A.value third.now) i) }
{
    WeightedSumOfThree::write(first, second, third, out);
}
