//! Samples of whole images.
ghost use Rattle.std.specs.Prelude.{◌≡◌, ◌<◌, ◌^◌, [], length, map, pos, replicate, IfOk, All};
ghost use Rattle.vx_base.specs.declared.format.Format.TheVariants.{U8, S16, U32};
ghost use Rattle.vx_base.specs.Sample.{IsSample};
ghost use Rattle.vx_base.specs.Picture.{values, samples_format};

use crate::format::Format;
use std::alloc::{AllocError, Global};
use std::mem;

/// Samples of one format, such as an image's samples in row-major order, or the entries of a lookup
/// table.
#[derive(PartialEq, Eq, Debug, Drop)]
pub enum Samples {
    U8(Vec<u8>),
    S16(Vec<i16>),
    U32(Vec<u32>),
}

impl Samples {
    /// Returns `count` samples of a format, each 0, or an error if there is no memory for them.
    pub fn zeros(alloc: Global, format: Format, count: usize) -> Result<Samples, AllocError>
        ensures format { IfOk result (λ made. samples_format made ≡ format) }
        ensures zero { IfOk result (λ made. values made ≡ replicate count (pos 0)) }
    {
        match format {
            Format::U8 => Ok(Samples::U8(vec![in alloc; 0; count]?)),
            Format::S16 => Ok(Samples::S16(vec![in alloc; 0; count]?)),
            Format::U32 => Ok(Samples::U32(vec![in alloc; 0; count]?)),
        }
    }

    /// Returns a copy of the samples, or an error if there is no memory for it.
    pub fn copy(&self, alloc: Global) -> Result<Samples, AllocError>
        ensures format { IfOk result (λ made. samples_format made ≡ samples_format self.now) }
        ensures value { IfOk result (λ made. values made ≡ values self.now) }
    {
        match self {
            Samples::U8(samples) => Ok(Samples::U8(Vec::from_slice(alloc, samples)?)),
            Samples::S16(samples) => Ok(Samples::S16(Vec::from_slice(alloc, samples)?)),
            Samples::U32(samples) => Ok(Samples::U32(Vec::from_slice(alloc, samples)?)),
        }
    }

    /// Overwrites the samples with the samples of `other`. The caller must ensure that both have
    /// the same format and the same number of samples.
    pub fn copy_from(&mut self, other: &Samples)
        requires format { samples_format self.old ≡ samples_format other.now }
        requires len { length (values self.old) ≡ length (values other.now) }
        ensures format { samples_format self.new ≡ samples_format other.now }
        ensures value { values self.new ≡ values other.now }
    {
        match (self, other) {
            (Samples::U8(samples), Samples::U8(others)) => samples.copy_from_slice(others),
            (Samples::S16(samples), Samples::S16(others)) => samples.copy_from_slice(others),
            (Samples::U32(samples), Samples::U32(others)) => samples.copy_from_slice(others),
            _ => unreachable!(),
        }
    }

    /// Moves all samples out. Afterwards `self` has the same format and no samples. Allocates
    /// nothing.
    pub fn take(&mut self) -> Samples
        ensures format { samples_format result ≡ samples_format self.old }
        ensures value { values result ≡ values self.old }
        ensures left_format { samples_format self.new ≡ samples_format self.old }
        ensures left { values self.new ≡ [] }
    {
        match self {
            Samples::U8(samples) => Samples::U8(take_all(samples)),
            Samples::S16(samples) => Samples::S16(take_all(samples)),
            Samples::U32(samples) => Samples::U32(take_all(samples)),
        }
    }

    /// Returns the format of the samples.
    pub fn format(&self) -> Format
        ensures { result ≡ samples_format self.now }
    {
        match self {
            Samples::U8(_) => Format::U8,
            Samples::S16(_) => Format::S16,
            Samples::U32(_) => Format::U32,
        }
    }

    /// Returns the number of samples.
    pub fn len(&self) -> usize
        ensures { result ≡ length (values self.now) }
    {
        match self {
            Samples::U8(samples) => samples.len(),
            Samples::S16(samples) => samples.len(),
            Samples::U32(samples) => samples.len(),
        }
    }

    /// Proves that each item is a sample of the format. The prover learns a signed number's range
    /// only where the number is read. At run time this function does nothing.
    pub fn prove_samples(&self)
        ensures { All (IsSample (samples_format self.now)) (values self.now) }
    {
        match self {
            Samples::U8(samples) => prove_bytes(samples),
            Samples::S16(samples) => prove_shorts(samples),
            Samples::U32(samples) => prove_words(samples),
        }
    }
}

/// Takes all items out of a vector, which is then empty.
fn take_all<T: Drop>(samples: &mut Vec<T>) -> Vec<T>
    ensures value { result.items ≡ samples.old.items }
    ensures left { samples.new.items ≡ [] }
{
    let empty = Vec::new(*samples.allocator());
    mem::replace(samples, empty)
}

/// Proves that each item is a byte, and so a U8 sample. At run time this function does nothing.
pub fn prove_bytes(samples: &[u8])
    ensures bytes { All (λ byte. byte < 2 ^ 8) samples.now }
    ensures samples { All (IsSample U8) (map pos samples.now) }
{}

fn prove_words(samples: &[u32])
    ensures { All (IsSample U32) (map pos samples.now) }
{}

/// Proves that each item is an S16 sample. The prover learns a signed number's range only where the
/// number is read. A loop reads each item and does nothing else; the compiler removes the loop.
pub fn prove_shorts(samples: &[i16])
    ensures { All (IsSample S16) samples.now }
{
    for sample in samples {
        let _number = *sample;
    }
}
