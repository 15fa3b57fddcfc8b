//! Narrowing of numbers to samples.
ghost use Rattle.std.specs.Prelude.{◌≡◌, ◌≤ℤ◌, ◌<ℤ◌, pos};
ghost use Rattle.vx_base.specs.declared.format.Format.TheVariants.{U8, S16};
ghost use Rattle.vx_base.specs.Sample.{narrow, signed_of};

use crate::policy::Policy;

/// Narrows a number to a U8 sample under the overflow policy.
pub fn narrow_u8(number: i32, policy: Policy) -> u8
    ensures { pos result ≡ narrow U8 policy number }
{
    match policy {
        Policy::Wrap => number.rem_euclid(256) as u8,
        Policy::Saturate => number.clamp(0, 255) as u8,
    }
}

/// Narrows a number to an S16 sample under the overflow policy.
pub fn narrow_s16(number: i32, policy: Policy) -> i16
    ensures { result ≡ narrow S16 policy number }
{
    match policy {
        Policy::Wrap => signed_of(number.rem_euclid(65_536)),
        Policy::Saturate => number.clamp(-32_768, 32_767) as i16,
    }
}

/// Returns the S16 sample that agrees with `number` modulo 65,536. `number` must be 0 to 65,535.
fn signed_of(number: i32) -> i16
    requires { (pos 0 ≤ℤ number) × (number <ℤ pos 65536) }
    ensures { result ≡ signed_of number }
{
    if number < 32_768 {
        number as i16
    } else {
        (number - 65_536) as i16
    }
}
