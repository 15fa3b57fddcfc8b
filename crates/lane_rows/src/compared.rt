//! Comparisons of items, one by one and in lanes.
ghost use Rattle.std.specs.Prelude.{◌≡◌, ◌<◌, map, length};
ghost use Rattle.std.specs.Int.{int_min, int_max};
ghost use Rattle.std.specs.Ordering.{int_eq};
ghost use Rattle.vx_base.specs.Statistics.{best_of, count_of};

use crate::extent::{extent_of_bytes, extent_of_shorts};
use crate::item::{Short, bytes_of, shorts_of};
use std::simd::prelude::*;

/// An item type with an order: `u8` or `i16`.
pub trait Compared: Short {
    /// Returns the least and the greatest item of a non-empty row.
    fn extent_of(row: &[Self]) -> (Self, Self)
        requires { 0 < length row.now }
        ensures least { Self.value result.0 ≡ best_of int_min (map Self.value row.now) }
        ensures greatest { Self.value result.1 ≡ best_of int_max (map Self.value row.now) };

    /// Returns whether the items are equal.
    fn is(self, other: Self) -> bool
        ensures { result ≡ int_eq (Self.value self) (Self.value other) };

    /// Returns how many of the 32 items of a block equal this item.
    fn count_in(self, block: &[Self]) -> u32
        requires { length block.now ≡ 32 }
        ensures { result ≡ count_of (Self.value self) (map Self.value block.now) };
}

impl Compared for u8 {
    fn extent_of(row: &[u8]) -> (u8, u8) {
        extent_of_bytes(row)
    }

    fn is(self, other: u8) -> bool {
        self == other
    }

    fn count_in(self, block: &[u8]) -> u32 {
        let matches = bytes_of(block).simd_eq(u8x32::splat(self));
        matches.to_bitmask().count_ones()
    }
}

impl Compared for i16 {
    fn extent_of(row: &[i16]) -> (i16, i16) {
        extent_of_shorts(row)
    }

    fn is(self, other: i16) -> bool {
        self == other
    }

    fn count_in(self, block: &[i16]) -> u32 {
        let matches = shorts_of(block).simd_eq(i16x32::splat(self));
        matches.to_bitmask().count_ones()
    }
}
