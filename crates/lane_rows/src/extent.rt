//! The least and the greatest item of a row, in lanes (`std::simd`).
//!
//! Each lane keeps the least and the greatest of its items up to the row's end. Then the lanes and
//! the items after the last complete block are compared one by one.
#![tactic(auto)]

ghost use Rattle.std.specs.Prelude.{◌≡◌, ◌<◌, ◌^◌, pos, map, length};
ghost use Rattle.std.specs.Int.{int_min, int_max};
ghost use Rattle.std.specs.List.{flat_map, fold};
ghost use Rattle.vx_base.specs.Statistics.{best_of, count_of};

use crate::arithmetic::{Arithmetic, OfSamples};
use crate::compared::Compared;
use crate::extremes::{Greater, Smaller};
use crate::item::Short;
use crate::items::fold_rows;
use crate::occurrences::count_of;
use std::simd::prelude::*;

/// Returns, for each of 32 lanes, the least and the greatest of `first` and of the lane's items.
fn extents_of_byte_lanes(first: u8, blocks: &[[u8; 32]]) -> ([u8; 32], [u8; 32])
    ensures least { fold int_min (pos first) (map pos result.0)
        ≡ fold int_min (pos first) (map pos (flat_map (λ block. block) blocks.now)) }
    ensures greatest { fold int_max (pos first) (map pos result.1)
        ≡ fold int_max (pos first) (map pos (flat_map (λ block. block) blocks.now)) }
{
    let (mut least, mut greatest) = (u8x32::splat(first), u8x32::splat(first));
    for block in blocks {
        let items = u8x32::from_array(*block);
        least = Smaller.bytes(least, items);
        greatest = Greater.bytes(greatest, items);
    }
    (least.to_array(), greatest.to_array())
}

/// Returns the least and the greatest item of a non-empty row.
pub fn extent_of_bytes(row: &[u8]) -> (u8, u8)
    requires { 0 < length row.now }
    ensures least { pos result.0 ≡ best_of int_min (map pos row.now) }
    ensures greatest { pos result.1 ≡ best_of int_max (map pos row.now) }
{
    let (blocks, rest) = row.as_chunks::<32>();
    let (least, greatest) = extents_of_byte_lanes(row[0], blocks);
    (
        fold_rows(&OfSamples(&Smaller), row[0], &least, rest),
        fold_rows(&OfSamples(&Greater), row[0], &greatest, rest),
    )
}

/// Returns, for each of 16 lanes, the least and the greatest of `first` and of the lane's items.
#[tactic(auto, using(crate::proofs::ShortLaws::read_bits))]
fn extents_of_short_lanes(first: i16, blocks: &[[i16; 16]]) -> ([i16; 16], [i16; 16])
    ensures least { fold int_min first result.0
        ≡ fold int_min first (flat_map (λ block. block) blocks.now) }
    ensures greatest { fold int_max first result.1
        ≡ fold int_max first (flat_map (λ block. block) blocks.now) }
{
    let (mut least, mut greatest) = (i16x16::splat(first), i16x16::splat(first));
    for block in blocks {
        let items = i16::shorts(block);
        least = Smaller.shorts(least, items);
        greatest = Greater.shorts(greatest, items);
    }
    (least.to_array(), greatest.to_array())
}

/// Returns the least and the greatest item of a non-empty row.
pub fn extent_of_shorts(row: &[i16]) -> (i16, i16)
    requires { 0 < length row.now }
    ensures least { result.0 ≡ best_of int_min row.now }
    ensures greatest { result.1 ≡ best_of int_max row.now }
{
    let (blocks, rest) = row.as_chunks::<16>();
    let (least, greatest) = extents_of_short_lanes(row[0], blocks);
    (
        fold_rows(&OfSamples(&Smaller), row[0], &least, rest),
        fold_rows(&OfSamples(&Greater), row[0], &greatest, rest),
    )
}

/// The least and the greatest item of a row, and the number of items equal to each.
#[derive(Clone, Copy)]
pub struct RowExtremes<T: Copy> {
    pub least: T,
    pub least_count: u32,
    pub greatest: T,
    pub greatest_count: u32,
}

fn extremes_of<T: Compared>(row: &[T]) -> RowExtremes<T>
    requires some { 0 < length row.now }
    requires room { length row.now < 2 ^ 32 }
    ensures least { T.value result.least ≡ best_of int_min (map T.value row.now) }
    ensures greatest { T.value result.greatest ≡ best_of int_max (map T.value row.now) }
    ensures least_count { result.least_count
        ≡ count_of (T.value result.least) (map T.value row.now) }
    ensures greatest_count { result.greatest_count
        ≡ count_of (T.value result.greatest) (map T.value row.now) }
{
    let (least, greatest) = T::extent_of(row);
    RowExtremes {
        least,
        least_count: count_of(row, least),
        greatest,
        greatest_count: count_of(row, greatest),
    }
}

/// Returns the least and the greatest item of a non-empty row, and the number of items equal to
/// each.
pub fn extremes_u8(row: &[u8]) -> RowExtremes<u8>
    requires some { 0 < length row.now }
    requires room { length row.now < 2 ^ 32 }
    ensures least { pos result.least ≡ best_of int_min (map pos row.now) }
    ensures greatest { pos result.greatest ≡ best_of int_max (map pos row.now) }
    ensures least_count { result.least_count ≡ count_of (pos result.least) (map pos row.now) }
    ensures greatest_count { result.greatest_count ≡ count_of (pos result.greatest)
        (map pos row.now) }
{
    extremes_of(row)
}

/// Returns the least and the greatest item of a non-empty row, and the number of items equal to
/// each.
pub fn extremes_s16(row: &[i16]) -> RowExtremes<i16>
    requires some { 0 < length row.now }
    requires room { length row.now < 2 ^ 32 }
    ensures least { result.least ≡ best_of int_min row.now }
    ensures greatest { result.greatest ≡ best_of int_max row.now }
    ensures least_count { result.least_count ≡ count_of result.least row.now }
    ensures greatest_count { result.greatest_count ≡ count_of result.greatest row.now }
{
    extremes_of(row)
}
