//! Overflow policies as types.
ghost use Rattle.std.specs.Prelude.{◌≡◌};
ghost use Rattle.vx_base.specs.declared.policy.Policy.{Policy as Value};
ghost use Rattle.vx_base.specs.declared.policy.Policy.TheVariants.{Wrap, Saturate};

use vx_base::Policy;

/// An overflow policy as a type. The policy is known when a kernel is compiled, so the kernel's
/// loop doesn't test it.
pub trait Overflow {
    ghost policy: { Self → Value };

    fn policy(&self) -> Policy
        ensures { result ≡ policy self.now };
}

/// The policy `Policy::Wrap`.
#[derive(Drop)]
pub struct Wrapped;

impl Overflow for Wrapped {
    ghost policy = { λ _. Wrap };

    fn policy(&self) -> Policy {
        Policy::Wrap
    }
}

/// The policy `Policy::Saturate`.
#[derive(Drop)]
pub struct Saturated;

impl Overflow for Saturated {
    ghost policy = { λ _. Saturate };

    fn policy(&self) -> Policy {
        Policy::Saturate
    }
}

/// Makes the call in `with_overflow!(policy, overflow => call)`. In the call, `overflow` is
/// `Wrapped` or `Saturated`, according to the policy. The code of the call is compiled once for
/// each policy.
macro_rules! with_overflow {
    ($policy:expr, $overflow:ident => $call:expr) => {
        match $policy {
            Policy::Wrap => {
                let $overflow = Wrapped;
                $call
            }
            Policy::Saturate => {
                let $overflow = Saturated;
                $call
            }
        }
    };
}

pub(crate) use with_overflow;
