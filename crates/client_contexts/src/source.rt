//! Sources of samples for pictures that are written to images.
use client_model::Refusal;
use std::alloc::AllocError;
use vx_base::{Code, Samples};

/// A source of the samples of a picture.
pub trait FillsSamples {
    ghost use Rattle.std.specs.Prelude.{◌≡◌, ⊤, List, ℤ, Result, length};
    ghost use Rattle.vx_base.specs.declared.format.Format.{Format};
    ghost use Rattle.vx_base.specs.Picture.{values, samples_format};

    /// The fault of a source that doesn't give all samples.
    type Fault: Drop;

    /// The source can be read.
    ghost can_fill: { Self → Type 0 };

    /// The effect of a call of `fill`. The arguments of `fills` are the source before and after,
    /// the format of the samples, the samples after, and the result.
    ghost fills: { Self → Self → Format → List ℤ → Result ⊤ Self.Fault → Type 0 };

    /// Replaces all samples with samples from the source. After a fault the samples may have any
    /// values.
    fn fill(&mut self, samples: &mut Samples) -> Result<(), Self::Fault>
        requires { can_fill self.old }
        ensures fills { fills self.old self.new
            (samples_format samples.old) (values samples.new) result }
        ensures format { samples_format samples.new ≡ samples_format samples.old }
        ensures size { length (values samples.new) ≡ length (values samples.old) };
}

/// The reason why a picture wasn't written. The image is unchanged.
#[derive(Drop)]
pub enum WriteFault<E> {
    /// The picture is refused with this code, or there is no memory for it (`NoMemory`). Nothing
    /// was read.
    Refused(Code),
    /// The source failed.
    Source(E),
}

impl<E> From<Refusal> for WriteFault<E> {
    ghost use Rattle.std.specs.Prelude.{◌≡◌};
    ghost use Rattle.client_model.specs.Refusal.{refusal_code};
    ghost use Rattle.client_contexts.specs.declared.source.WriteFault.TheVariants.{Refused};

    ghost from_gives = { λ refusal fault. fault ≡ Refused (refusal_code refusal) };

    fn from(refusal: Refusal) -> WriteFault<E> {
        WriteFault::Refused(refusal.code())
    }
}

impl<E> From<AllocError> for WriteFault<E> {
    ghost use Rattle.std.specs.Prelude.{◌≡◌};
    ghost use Rattle.vx_base.specs.declared.code.Code.TheVariants.{NoMemory};
    ghost use Rattle.client_contexts.specs.declared.source.WriteFault.TheVariants.{Refused};

    ghost from_gives = { λ _ fault. fault ≡ Refused NoMemory };

    fn from(_error: AllocError) -> WriteFault<E> {
        WriteFault::Refused(Code::NoMemory)
    }
}
