//! The body of CreateLut.
ghost use Rattle.std.specs.Prelude.{◌≡◌, Ok, IfOk, IfErr};
ghost use Rattle.vx_wire.specs.Faults.{MayFailWith};
ghost use Rattle.vx_wire.specs.Tables.{create_lut_in};

use crate::fields::Fields;
use crate::fields::format::take_input_format;
use crate::fields::samples::{decode, take_samples};
use crate::parse_fault::ParseFault;
use client_model::Request;
use std::alloc::Global;
use vx_base::Lut;

/// Parses the body of CreateLut: a format, and the entries of a lookup table of this format.
pub fn create_lut(alloc: Global, body: &[u8]) -> Result<Request, ParseFault>
    ensures ok { IfOk result (λ request. create_lut_in body.now ≡ Ok request) }
    ensures err { IfErr result (MayFailWith (create_lut_in body.now)) }
{
    let mut fields = Fields::new(body);
    let format = take_input_format(&mut fields)?;
    let count = Lut::entry_count(format);
    let bytes = take_samples(&mut fields, format, count)?;
    fields.end()?;
    let entries = decode(alloc, format, count, bytes)?;
    Ok(Request::CreateLut(Lut::of(entries)))
}
