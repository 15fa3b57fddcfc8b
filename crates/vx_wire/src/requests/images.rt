//! The bodies of WriteImage and WriteImagePgm.
ghost use Rattle.std.specs.Prelude.{◌≡◌, ℕ, List, ◌++◌, length, Ok, Err, IfOk, IfErr};
ghost use Rattle.client_model.specs.declared.request.Request.TheVariants.{WriteImagePgm};
ghost use Rattle.vx_base.specs.Description.{byte_count};
ghost use Rattle.vx_wire.specs.Faults.{MayFailWith};
ghost use Rattle.vx_wire.specs.Images.{write_image_of, write_image_in, write_image_pgm_in};

use crate::body_fault::BodyFault;
use crate::fields::samples::{decode, take_samples};
use crate::fields::{Field, Fields};
use crate::parse_fault::ParseFault;
use client_model::{Request, Text};
use std::alloc::Global;
use vx_base::{Desc, ObjRef, Picture};

/// Parses the body of WriteImage: a reference and a picture.
pub fn write_image(alloc: Global, body: &[u8]) -> Result<Request, ParseFault>
    ensures ok { IfOk result (λ request. write_image_in body.now ≡ Ok request) }
    ensures err { IfErr result (MayFailWith (write_image_in body.now)) }
{
    let mut fields = Fields::new(body);
    let image = ObjRef::take(&mut fields)?;
    let desc = Desc::take(&mut fields)?;
    let (format, count) = (desc.format(), desc.sample_count());
    let bytes = take_samples(&mut fields, format, count)?;
    fields.end()?;
    let samples = decode(alloc, format, count, bytes)?;
    Ok(Request::WriteImage(image, Picture::new(desc, samples)))
}

/// Parses the first ten bytes of the body of WriteImage: a reference, and the description of the
/// picture. `rest` is the number of bytes that follow. `InvalidParameters`: `rest` isn't the number
/// of sample bytes that the description requires. The sample bytes themselves aren't checked, since
/// any bytes encode valid samples.
pub fn take_image_head(head: &[u8; 10], rest: usize) -> Result<(ObjRef, Desc), BodyFault>
    ensures ok { IfOk result (λ found. (samples : List ℕ) → length samples ≡ rest →
        write_image_in (head.now ++ samples) ≡ Ok (write_image_of found.0 found.1 samples)) }
    ensures size { IfOk result (λ found. rest ≡ byte_count found.1) }
    ensures err { IfErr result (λ e. (samples : List ℕ) → length samples ≡ rest →
        write_image_in (head.now ++ samples) ≡ Err e) }
{
    let mut fields = Fields::new(head);
    let image = ObjRef::take(&mut fields)?;
    let desc = Desc::take(&mut fields)?;
    if rest == desc.byte_count() {
        Ok((image, desc))
    } else {
        Err(BodyFault::InvalidParameters)
    }
}

/// Splits the body of WriteImagePgm into its reference and its text. The text is all remaining
/// bytes. The text isn't parsed, and nothing is allocated.
pub fn take_image_pgm_fields(body: &[u8]) -> Result<(ObjRef, &[u8]), BodyFault>
    ensures ok { IfOk result (λ found.
        write_image_pgm_in body.now ≡ Ok (WriteImagePgm found.0 found.1.now)) }
    ensures err { IfErr result (λ e. write_image_pgm_in body.now ≡ Err e) }
{
    let mut fields = Fields::new(body);
    let image = ObjRef::take(&mut fields)?;
    Ok((image, fields.rest()))
}

/// Parses the body of WriteImagePgm: a reference and a text.
pub fn write_image_pgm(alloc: Global, body: &[u8]) -> Result<Request, ParseFault>
    ensures ok { IfOk result (λ request. write_image_pgm_in body.now ≡ Ok request) }
    ensures err { IfErr result (MayFailWith (write_image_pgm_in body.now)) }
{
    match take_image_pgm_fields(body) {
        Ok((image, text)) => Ok(Request::WriteImagePgm(image, Text::new(text.to_vec(alloc)?))),
        Err(fault) => Err(ParseFault::from(fault)),
    }
}
