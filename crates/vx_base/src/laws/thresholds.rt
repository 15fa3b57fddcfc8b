//! Laws of thresholds.
ghost use Rattle.std.specs.Prelude.{◌≡◌, ◌<ℤ◌, ◌≤ℤ◌, ◌+ℤ◌, ◌↔◌, ℤ, pos, IsTrue};
ghost use Rattle.vx_base.specs.declared.format.Format.{Format};
ghost use Rattle.vx_base.specs.declared.threshold.ThresholdKind.TheVariants.{Binary, Range};
ghost use Rattle.vx_base.specs.Sample.{IsSample, max_sample};
ghost use Rattle.vx_base.specs.Threshold.{passes};

/// A sample passes a binary threshold if it is above the limit, and a range threshold if it is in
/// the range.
pub fn passing()
    ensures binary { (limit a : ℤ) → IsTrue (passes (Binary limit) a) ↔ (limit <ℤ a) }
    ensures range { (lower upper a : ℤ) →
        IsTrue (passes (Range lower upper) a) ↔ ((lower ≤ℤ a) × (a ≤ℤ upper)) }
    ensures binary_as_range { (format : Format) (limit a : ℤ) → IsSample format a →
        passes (Binary limit) a ≡ passes (Range (limit +ℤ pos 1) (max_sample format)) a }
{}
