//! Parses the body of any request.
ghost use Rattle.std.specs.Prelude.{◌≡◌, Ok, IfOk, IfErr};
ghost use Rattle.vx_wire.specs.Faults.{MayFailWith};
ghost use Rattle.vx_wire.specs.Requests.{request_of};

use crate::op::Op;
use crate::parse_fault::ParseFault;
use crate::requests::images::{write_image, write_image_pgm};
use crate::requests::tables::create_lut;
use crate::requests::{no_field, one_field, two_fields};
use client_model::Request;
use std::alloc::Global;

/// Returns the request that an op's number and a body encode.
///
/// The fault is that of the first field that is cut short or whose value isn't allowed.
/// `InvalidParameters`: no op has the number, or bytes follow the last field. `NoMemory`: an
/// allocation failed. Memory is allocated only for a picture's samples, a lookup table's entries or
/// a text. The body is checked before the allocation.
pub fn parse(alloc: Global, op: u8, body: &[u8]) -> Result<Request, ParseFault>
    ensures ok { IfOk result (λ request. request_of op body.now ≡ Ok request) }
    ensures err { IfErr result (MayFailWith (request_of op body.now)) }
{
    match Op::from_number(op) {
        None => Err(ParseFault::InvalidParameters),
        Some(Op::OpenContext) => Ok(no_field(body, Request::OpenContext)?),
        Some(Op::ReleaseContext) => Ok(no_field(body, Request::ReleaseContext)?),
        Some(Op::CreateImage) => Ok(one_field(body, Request::CreateImage)?),
        Some(Op::QueryImage) => Ok(one_field(body, Request::QueryImage)?),
        Some(Op::WriteImage) => write_image(alloc, body),
        Some(Op::WriteImagePgm) => write_image_pgm(alloc, body),
        Some(Op::ReadImage) => Ok(one_field(body, Request::ReadImage)?),
        Some(Op::ReadImagePgm) => Ok(one_field(body, Request::ReadImagePgm)?),
        Some(Op::SetValid) => Ok(two_fields(body, Request::SetValid)?),
        Some(Op::Release) => Ok(one_field(body, Request::Release)?),
        Some(Op::CreateLut) => create_lut(alloc, body),
        Some(Op::CreateThreshold) => Ok(one_field(body, Request::CreateThreshold)?),
        Some(Op::CreateConvolution) => Ok(one_field(body, Request::CreateConvolution)?),
        Some(Op::CreateDistribution) => Ok(one_field(body, Request::CreateDistribution)?),
        Some(Op::ReadDistribution) => Ok(one_field(body, Request::ReadDistribution)?),
        Some(Op::CreateMinMax) => Ok(no_field(body, Request::CreateMinMax)?),
        Some(Op::ReadMinMax) => Ok(one_field(body, Request::ReadMinMax)?),
        Some(Op::CreateGraph) => Ok(no_field(body, Request::CreateGraph)?),
        Some(Op::CreateVirtualImage) => Ok(two_fields(body, Request::CreateVirtualImage)?),
        Some(Op::AddNode) => Ok(two_fields(body, Request::AddNode)?),
        Some(Op::RemoveNode) => Ok(two_fields(body, Request::RemoveNode)?),
        Some(Op::VerifyGraph) => Ok(one_field(body, Request::VerifyGraph)?),
        Some(Op::ProcessGraph) => Ok(one_field(body, Request::ProcessGraph)?),
        Some(Op::Immediate) => Ok(one_field(body, Request::Immediate)?),
        Some(Op::CreateDelay) => Ok(two_fields(body, Request::CreateDelay)?),
        Some(Op::AgeDelay) => Ok(one_field(body, Request::AgeDelay)?),
        Some(Op::RegisterAutoAging) => Ok(two_fields(body, Request::RegisterAutoAging)?),
    }
}
