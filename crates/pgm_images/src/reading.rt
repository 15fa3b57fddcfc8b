//! Reads whole texts.
ghost use Rattle.std.specs.Prelude.{◌≡◌, length, Ok, Err, IfOk, OnOk, IfErr};
ghost use Rattle.vx_base.specs.Description.{Description};
ghost use Rattle.vx_base.specs.Picture.{PictureValue, values, samples_format};
ghost use Rattle.pgm_images.specs.Grammar.{Encodes};
ghost use Rattle.pgm_images.specs.Reading.{FailsFor, SamplesFitHeader, description_in, read_result};

use crate::fault::PgmFault;
use crate::header::take_header;
use crate::raster::read_samples;
use std::alloc::Global;
use vx_base::{Desc, Picture, Samples};

/// Returns the description that a text's header gives. Only the header is read, so `Ok` doesn't
/// mean that the whole text is valid.
///
/// The fault is the first of these:
///
/// 1. `InvalidFormat`: the text has no header.
/// 2. `InvalidDimension`: a side isn't 1 to 8192.
/// 3. `InvalidFormat`: the maxval isn't 1 to 32767.
pub fn read_description(text: &[u8]) -> Result<Desc, PgmFault>
    ensures description { result ≡ description_in text.now }
    ensures ok { IfOk result (λ d. (p : PictureValue) →
        read_result text.now ≡ Ok p → p.description ≡ d) }
    ensures err { IfErr result (λ fault. read_result text.now ≡ Err fault) }
{
    let Some((header, _)) = take_header(text) else {
        return Err(PgmFault::InvalidFormat);
    };
    header.read_description()
}

/// Writes the samples of a text over existing samples. The caller must give a text with a valid
/// header, and samples of the format and count that the header states. Allocates nothing.
///
/// After a fault the samples may have any value. `InvalidFormat`: the header isn't followed by
/// exactly the number of samples that it states. `InvalidValue`: a sample is above the maxval, and
/// there is no other fault.
pub fn read_into(text: &[u8], samples: &mut Samples) -> Result<(), PgmFault>
    requires { SamplesFitHeader text.now samples.old }
    ensures format { samples_format samples.new ≡ samples_format samples.old }
    ensures count { length (values samples.new) ≡ length (values samples.old) }
    ensures ok { OnOk result ((d : Description) → description_in text.now ≡ Ok d →
        read_result text.now ≡ Ok (record { description = d; samples = values samples.new })) }
    ensures err { IfErr result (λ fault. read_result text.now ≡ Err fault) }
{
    let Some((header, rest)) = take_header(text) else {
        unreachable!()
    };
    read_samples(header, rest, samples)
}

/// Returns the picture that a PGM text encodes (Netpbm, pgm(5)). The text is P2 or P5. The samples
/// are U8 if the maxval is below 256, else S16. They aren't rescaled.
///
/// The fault is the first of these:
///
/// 1. `InvalidFormat`: the text has no header.
/// 2. `InvalidDimension`: a side isn't 1 to 8192.
/// 3. `InvalidFormat`: the maxval isn't 1 to 32767, or the header isn't followed by exactly the
///    number of samples that it states.
/// 4. `InvalidValue`: a sample is above the maxval.
///
/// `NoMemory`: the samples could not be allocated. Memory is allocated only for the samples, and
/// only after the header is accepted.
#[tactic(auto, using(crate::proofs::StandsLemmas::stands_read))]
pub fn read(alloc: Global, text: &[u8]) -> Result<Picture, PgmFault>
    ensures stands { IfOk result (λ picture. Encodes text.now picture) }
    ensures ok { IfOk result (λ picture. read_result text.now ≡ Ok picture) }
    ensures err { IfErr result (FailsFor text.now) }
{
    let desc = read_description(text)?;
    let mut samples = Samples::zeros(alloc, desc.format(), desc.sample_count())?;
    read_into(text, &mut samples)?;
    Ok(Picture::new(desc, samples))
}
