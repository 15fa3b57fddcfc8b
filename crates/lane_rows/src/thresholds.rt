//! Thresholds. OpenVX 1.3, "Thresholding".
#![tactic(auto, using(crate::proofs::ShortLaws::fit_as_bits))]

ghost use Rattle.std.specs.Prelude.{◌≡◌, IsTrue, pos, map, length};
ghost use Rattle.vx_base.specs.declared.format.Format.{Format};
ghost use Rattle.vx_base.specs.declared.format.Format.TheVariants.{U8, S16};
ghost use Rattle.vx_base.specs.declared.threshold.ThresholdKind.TheVariants.{Binary, Range};
ghost use Rattle.vx_base.specs.Threshold.{is_sample};
ghost use Rattle.vx_base.specs.Pixelwise.{threshold_result};
ghost use Rattle.lane_rows.specs.Chosen.{threshold_choice};

use crate::item::{Short, bytes_of, shorts_of};
use crate::kernel::{LanesOfItem, OfItem};
use crate::rows::map_row;
use crate::stores::store_32_bytes;
use std::simd::prelude::*;
use vx_base::{ThresholdKind, ThresholdRule};

/// An item type that a threshold can test: `u8` or `i16`.
pub trait Tested: Short {
    /// The format of the samples.
    ghost format: { Format };

    /// Returns the item with the value `number`. The caller must pass a sample of the format.
    fn from_short(number: i16) -> Self
        requires { IsTrue (is_sample format number) }
        ensures { Self.value result ≡ number };

    /// Returns, for each of 32 items, `true_value` if the item is above the limit, else
    /// `false_value`.
    fn above(row: &[Self], limit: Self, true_value: u8, false_value: u8) -> u8x32
        requires { length row.now ≡ 32 }
        ensures { map pos result
            ≡ map (threshold_choice (Binary (Self.value limit)) true_value false_value)
            (map Self.value row.now) };

    /// Returns, for each of 32 items, `true_value` if the item is from `lower` to `upper`, both
    /// included, else `false_value`.
    fn between(row: &[Self], lower: Self, upper: Self, true_value: u8, false_value: u8) -> u8x32
        requires { length row.now ≡ 32 }
        ensures { map pos result ≡ map
            (threshold_choice (Range (Self.value lower) (Self.value upper)) true_value false_value)
            (map Self.value row.now) };
}

impl Tested for u8 {
    ghost format = { U8 };

    fn from_short(number: i16) -> u8 {
        number as u8
    }

    #[tactic(auto, using(crate::proofs::ThresholdLaws::byte_thresholds))]
    fn above(row: &[u8], limit: u8, true_value: u8, false_value: u8) -> u8x32 {
        let row = bytes_of(row);
        row.simd_gt(u8x32::splat(limit))
            .select(u8x32::splat(true_value), u8x32::splat(false_value))
    }

    #[tactic(auto, using(crate::proofs::ThresholdLaws::byte_thresholds))]
    fn between(row: &[u8], lower: u8, upper: u8, true_value: u8, false_value: u8) -> u8x32 {
        let row = bytes_of(row);
        let up_to = row
            .simd_gt(u8x32::splat(upper))
            .select(u8x32::splat(false_value), u8x32::splat(true_value));
        row.simd_lt(u8x32::splat(lower))
            .select(u8x32::splat(false_value), up_to)
    }
}

impl Tested for i16 {
    ghost format = { S16 };

    fn from_short(number: i16) -> i16 {
        number
    }

    #[tactic(auto, using(crate::proofs::ThresholdLaws::short_thresholds))]
    fn above(row: &[i16], limit: i16, true_value: u8, false_value: u8) -> u8x32 {
        let row = shorts_of(row);
        row.simd_gt(i16x32::splat(limit))
            .cast::<i8>()
            .select(u8x32::splat(true_value), u8x32::splat(false_value))
    }

    #[tactic(auto, using(crate::proofs::ThresholdLaws::short_thresholds))]
    fn between(row: &[i16], lower: i16, upper: i16, true_value: u8, false_value: u8) -> u8x32 {
        let row = shorts_of(row);
        let up_to = row
            .simd_gt(i16x32::splat(upper))
            .cast::<i8>()
            .select(u8x32::splat(false_value), u8x32::splat(true_value));
        row.simd_lt(i16x32::splat(lower))
            .cast::<i8>()
            .select(u8x32::splat(false_value), up_to)
    }
}

/// `true_value` if an item is above the limit, else `false_value`.
#[derive(Drop)]
pub struct Above<A> {
    pub limit: A,
    pub true_value: u8,
    pub false_value: u8,
}

impl<A: Tested> OfItem<A, u8> for Above<A> {
    ghost formula = { λ s. threshold_result (record {
      format = A.format;
      kind = Binary
          (A.value s.limit);
      true_value = s.true_value;
      false_value = s.false_value;
    }) };

    fn item(&self, a: A) -> u8 {
        if self.limit.short() < a.short() {
            self.true_value
        } else {
            self.false_value
        }
    }
}

impl<A: Tested> LanesOfItem<A, u8> for Above<A> {
    fn lanes(&self, row: &[A], out: &mut [u8]) {
        let values = A::above(row, self.limit, self.true_value, self.false_value);
        store_32_bytes(values.to_array(), out);
    }
}

/// `true_value` if an item is from `lower` to `upper`, both included, else `false_value`.
#[derive(Drop)]
pub struct Between<A> {
    pub lower: A,
    pub upper: A,
    pub true_value: u8,
    pub false_value: u8,
}

impl<A: Tested> OfItem<A, u8> for Between<A> {
    ghost formula = { λ s. threshold_result (record {
      format = A.format;
      kind = Range (A.value s.lower)
          (A.value s.upper);
      true_value = s.true_value;
      false_value = s.false_value;
    }) };

    fn item(&self, a: A) -> u8 {
        let number = a.short();
        if self.lower.short() <= number && number <= self.upper.short() {
            self.true_value
        } else {
            self.false_value
        }
    }
}

impl<A: Tested> LanesOfItem<A, u8> for Between<A> {
    #[tactic(auto, using(crate::proofs::ThresholdLaws::stores))]
    fn lanes(&self, row: &[A], out: &mut [u8]) {
        A::between(
            row,
            self.lower,
            self.upper,
            self.true_value,
            self.false_value,
        )
        .copy_to_slice(out);
    }
}

/// Writes the rule's true value where an item passes, and the rule's false value elsewhere. The
/// rule must be for items of type `A`.
fn write_tested<A: Tested>(row: &[A], rule: ThresholdRule, out: &mut [u8])
    requires len { length row.now ≡ length out.old }
    requires format { rule.format ≡ A.format }
    ensures { map pos out.new ≡ map (threshold_result rule) (map A.value row.now) }
{
    let (true_value, false_value) = (rule.true_value(), rule.false_value());
    match rule.kind() {
        ThresholdKind::Binary(limit) => {
            let kernel = Above {
                limit: A::from_short(limit),
                true_value,
                false_value,
            };
            map_row(&kernel, row, out);
        }
        ThresholdKind::Range(lower, upper) => {
            let kernel = Between {
                lower: A::from_short(lower),
                upper: A::from_short(upper),
                true_value,
                false_value,
            };
            map_row(&kernel, row, out);
        }
    }
}

/// Writes the rule's true value where an item passes, and the rule's false value elsewhere. The
/// rule must be for U8 samples.
pub fn threshold_u8(row: &[u8], rule: ThresholdRule, out: &mut [u8])
    requires len { length row.now ≡ length out.old }
    requires format { rule.format ≡ U8 }
    ensures { map pos out.new ≡ map (threshold_result rule) (map pos row.now) }
{
    write_tested(row, rule, out);
}

/// Writes the rule's true value where an item passes, and the rule's false value elsewhere. The
/// rule must be for S16 samples.
pub fn threshold_s16(row: &[i16], rule: ThresholdRule, out: &mut [u8])
    requires len { length row.now ≡ length out.old }
    requires format { rule.format ≡ S16 }
    ensures { map pos out.new ≡ map (threshold_result rule) row.now }
{
    write_tested(row, rule, out);
}
