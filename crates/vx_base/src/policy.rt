//! Overflow policies.

/// How a number outside a format's range is converted to a sample (OpenVX 1.3,
/// `vx_convert_policy_e`).
#[derive(Clone, Copy, PartialEq, Eq, Debug)]
pub enum Policy {
    /// To the sample that agrees with the number modulo the size of the range.
    Wrap,
    /// To the sample nearest to the number.
    Saturate,
}
