//! Thresholds.
ghost use Rattle.std.specs.Prelude.{◌≡◌, ◌<◌, IsTrue};
ghost use Rattle.vx_base.specs.Threshold.{IsThreshold, threshold, has_limits};

use crate::format::Format;
use std::marker::Model;

/// The comparison that a threshold makes (OpenVX 1.3, `vx_threshold_type_e`).
#[derive(Clone, Copy, PartialEq, Eq, Debug)]
pub enum ThresholdKind {
    /// A sample passes if it is above this limit.
    Binary(i16),
    /// A sample passes if it is from the lower to the upper limit, both included.
    Range(i16, i16),
}

/// A threshold for U8 or S16 samples: the comparison, the output for samples that pass, and the
/// output for samples that don't (OpenVX 1.3, `vx_threshold`).
#[derive(Clone, Copy, PartialEq, Eq, Debug)]
pub struct ThresholdRule {
    format: Format,
    kind: ThresholdKind,
    true_value: u8,
    false_value: u8,
}

impl Model for ThresholdRule {
    ghost use Rattle.std.specs.Prelude.{IsTrue};
    ghost use Rattle.vx_base.specs.Threshold.{ThresholdValue, has_limits};

    ghost Value = { ThresholdValue };

    ghost view = { λ t. record {
      format = t.format;
      kind = t.kind;
      true_value = t.true_value;
      false_value = t.false_value;
    } };

    ghost invariant = { λ t. IsTrue (has_limits t.format t.kind) };

    ghost inverse = { λ t. record {
      format = t.format;
      kind = t.kind;
      true_value = t.true_value;
      false_value = t.false_value;
    } };
}

impl ThresholdRule {
    /// Returns the threshold for samples of this format. Returns `None` if the format is U32, if a
    /// limit isn't a sample of the format, or if the upper limit is below the lower.
    pub fn new(
        format: Format,
        kind: ThresholdKind,
        true_value: u8,
        false_value: u8,
    ) -> Option<ThresholdRule>
        ensures { result ≡ threshold format kind true_value false_value }
    {
        if has_limits(format, kind) {
            Some(ThresholdRule::with_limits(format, kind, true_value, false_value))
        } else {
            None
        }
    }

    /// Returns the threshold with these limits. The caller must ensure that the limits are
    /// permitted.
    pub fn with_limits(
        format: Format,
        kind: ThresholdKind,
        true_value: u8,
        false_value: u8,
    ) -> ThresholdRule
        requires { IsTrue (has_limits format kind) }
        ensures { result ≡ record {
          format = format;
          kind = kind;
          true_value = true_value;
          false_value = false_value;
        } }
    {
        ThresholdRule {
            format,
            kind,
            true_value,
            false_value,
        }
    }

    /// Returns the format of the samples that the threshold tests.
    pub fn format(self) -> Format
        ensures value { result ≡ self.format }
        ensures threshold { IsThreshold self }
    {
        let _values = (self.true_value, self.false_value);
        self.format
    }

    /// Returns the comparison.
    pub fn kind(self) -> ThresholdKind
        ensures value { result ≡ self.kind }
        ensures limits { IsTrue (has_limits self.format result) }
    {
        self.kind
    }

    /// Returns the output for a sample that passes.
    pub fn true_value(self) -> u8
        ensures value { result ≡ self.true_value }
        ensures limit { self.true_value < 256 }
    {
        self.true_value
    }

    /// Returns the output for a sample that doesn't pass.
    pub fn false_value(self) -> u8
        ensures value { result ≡ self.false_value }
        ensures limit { self.false_value < 256 }
    {
        self.false_value
    }
}

/// Checks whether a threshold of this format may have these limits.
fn has_limits(format: Format, kind: ThresholdKind) -> bool
    ensures { result ≡ has_limits format kind }
{
    if format == Format::U32 {
        return false;
    }
    match kind {
        ThresholdKind::Binary(limit) => format.has_sample(limit),
        ThresholdKind::Range(lower, upper) => {
            format.has_sample(lower) && format.has_sample(upper) && lower <= upper
        }
    }
}
