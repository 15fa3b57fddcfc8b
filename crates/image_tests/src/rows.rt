//! Kernels of one row, of two rows, and of a row that is updated, at lengths around that of a block
//! of SIMD lanes. Each written item is the value of the kernel's formula for the items at the same
//! index, and no other item changes.
ghost use Rattle.std.specs.Prelude.{◌≡◌};
ghost use Rattle.vx_base.specs.declared.format.Format.TheVariants.{U8, S16};

use lane_rows::{accumulate, min_s16, threshold_s16, threshold_u8};
use std::test::Fail;
use vx_base::{Format, ThresholdKind, ThresholdRule};

const LENGTHS: [usize; 9] = [0, 1, 15, 16, 17, 31, 33, 64, 65];

/// The greatest of `LENGTHS`.
const LONGEST: usize = 65;

/// The extremes of U8 and numbers between them.
const BYTES: [u8; 8] = [0, 255, 1, 254, 128, 127, 3, 77];

/// The extremes of S16 and numbers between them.
const SHORTS: [i16; 8] = [0, 32_767, -32_768, -1, 1, 255, -3, 100];

/// Returns 65 items: eight numbers over and over, in turn.
fn in_turn<T: Copy>(numbers: &[T; 8]) -> [T; LONGEST] {
    let mut items = [numbers[0]; LONGEST];
    for (i, item) in items.iter_mut().enumerate() {
        *item = numbers[i % 8];
    }
    items
}

/// Returns 65 items: each of eight numbers eight times, and the first number once more. For every
/// pair of the numbers, there is an index at which `in_turn` has the first and `in_runs` has the
/// second.
fn in_runs<T: Copy>(numbers: &[T; 8]) -> [T; LONGEST] {
    let mut items = [numbers[0]; LONGEST];
    for (i, item) in items.iter_mut().enumerate() {
        *item = numbers[i / 8 % 8];
    }
    items
}

/// Returns whether the first `count` items are `values` over and over, in turn, and all other items
/// are still 77.
fn are_in_turn(written: &[u8; LONGEST], count: usize, values: &[u8; 8]) -> bool {
    for (i, item) in written.iter().enumerate() {
        let expected = if i < count { values[i % 8] } else { 77 };
        if *item != expected {
            return false;
        }
    }
    true
}

/// Returns whether a rule gives each of `BYTES` its value, at each length.
fn bytes_give(rule: ThresholdRule, values: &[u8; 8]) -> bool
    requires { rule.format ≡ U8 }
{
    let row = in_turn(&BYTES);
    for length in LENGTHS {
        let (count, mut written) = (length.min(LONGEST), [77; LONGEST]);
        threshold_u8(&row[..count], rule, &mut written[..count]);
        if !are_in_turn(&written, count, values) {
            return false;
        }
    }
    true
}

/// Returns whether a rule gives each of `SHORTS` its value, at each length.
fn shorts_give(rule: ThresholdRule, values: &[u8; 8]) -> bool
    requires { rule.format ≡ S16 }
{
    let row = in_turn(&SHORTS);
    for length in LENGTHS {
        let (count, mut written) = (length.min(LONGEST), [77; LONGEST]);
        threshold_s16(&row[..count], rule, &mut written[..count]);
        if !are_in_turn(&written, count, values) {
            return false;
        }
    }
    true
}

#[test]
fn thresholds_of_bytes(rt: HostRuntime) -> Result<(), Fail> {
    let (binary, range) = (ThresholdKind::Binary(127), ThresholdKind::Range(3, 254));
    let above = ThresholdRule::new(Format::U8, binary, 200, 9).ok_or("a rule")?;
    let between = ThresholdRule::new(Format::U8, range, 200, 9).ok_or("a rule")?;
    assert!(rt; bytes_give(above, &[9, 200, 9, 200, 200, 9, 9, 9]));
    assert!(rt; bytes_give(between, &[9, 9, 9, 200, 200, 200, 200, 200]));
    Ok(())
}

#[test]
fn thresholds_of_shorts(rt: HostRuntime) -> Result<(), Fail> {
    let (binary, range) = (ThresholdKind::Binary(-1), ThresholdKind::Range(-3, 255));
    let above = ThresholdRule::new(Format::S16, binary, 200, 9).ok_or("a rule")?;
    let between = ThresholdRule::new(Format::S16, range, 200, 9).ok_or("a rule")?;
    assert!(rt; shorts_give(above, &[200, 200, 9, 9, 200, 200, 9, 200]));
    assert!(rt; shorts_give(between, &[200, 9, 9, 200, 200, 200, 200, 200]));
    Ok(())
}

/// Returns whether the first `count` minima of two rows are written, and nothing more.
fn minima_agree(count: usize) -> bool {
    let (count, mut written) = (count.min(LONGEST), [77; LONGEST]);
    let (firsts, seconds) = (in_turn(&SHORTS), in_runs(&SHORTS));
    min_s16(&firsts[..count], &seconds[..count], &mut written[..count]);
    for i in 0..LONGEST {
        let expected = if i < count {
            firsts[i].min(seconds[i])
        } else {
            77
        };
        if written[i] != expected {
            return false;
        }
    }
    true
}

/// Returns whether bytes are added to the first `count` sums, and to no more.
fn sums_agree(count: usize) -> bool {
    let count = count.min(LONGEST);
    let (items, before) = (in_turn(&BYTES), in_runs(&SHORTS));
    let mut after = before;
    accumulate(&items[..count], &mut after[..count]);
    for i in 0..LONGEST {
        let added = if i < count { i16::from(items[i]) } else { 0 };
        if after[i] != before[i].saturating_add(added) {
            return false;
        }
    }
    true
}

#[test]
fn two_rows(rt: HostRuntime) {
    for length in LENGTHS {
        assert!(rt; minima_agree(length), "{length}");
        assert!(rt; sums_agree(length), "{length}");
    }
}
