//! `apply`: applies one function to the picture of a PGM text, from a reader to a writer.
ghost use Rattle.std.specs.Prelude.{◌≡◌, Ok, IfOk, IfErr, OnOk};
ghost use Rattle.vx_base.specs.declared.format.Format.TheVariants.{U8 as FormatU8};
ghost use Rattle.client_model.specs.Answer.{answer_to};
ghost use Rattle.client_contexts.specs.World.{state_of};
ghost use Rattle.vx_programs.specs.Apply.{job_result, pgm_fault_code, text_made, EndsFor};

use crate::ended::Ended;
use crate::job::{Job, RESULT, SOURCE};
use crate::output::write_to_end;
use client_contexts::{NoMemory, Runtime};
use client_model::{Limits, Reply, Request, Text};
use std::alloc::Global;
use std::io::{ErrorKind, Read, Write};
use vx_base::{Code, Format, ObjRef, Picture};
use vx_requests::StreamFault;

/// The greatest length of a text in bytes: 2^29.
const LONGEST_TEXT: usize = 536_870_912;

/// The only client, which makes all requests.
const CLIENT: u16 = 1;

/// Reads a PGM text to its end, applies the job to its picture, and writes the resulting text.
///
/// A failing reader or a text that is too long is reported instead of the text's own faults. At
/// most 2^29 + 1 bytes are read, one more than a text may have.
pub fn apply<R: Read + Drop, W: Write>(
    alloc: Global,
    job: Job,
    reader: R,
    writer: &mut W,
) -> Result<(), Ended> {
    let text = read_all(alloc, reader)?;
    let made = job_result(alloc, job, text.as_slice())?;
    write_to_end(writer, made.bytes())
}

/// Returns all bytes of a reader. `NoResources`: there are more bytes than a text may have.
fn read_all<R: Read + Drop>(alloc: Global, reader: R) -> Result<Vec<u8>, Ended> {
    let mut text = Vec::new(alloc);
    let mut limited = reader.take(LONGEST_TEXT as u64 + 1);
    match limited.read_to_end(&mut text) {
        Ok(count) if count <= LONGEST_TEXT => Ok(text),
        Ok(_) => Err(Ended::Refused(Code::NoResources)),
        Err(error) if error.kind() == ErrorKind::OutOfMemory => {
            Err(Ended::Refused(Code::NoMemory))
        }
        Err(_) => Err(Ended::Stream(StreamFault::ReadFailed)),
    }
}

/// Applies the job to the U8 picture that `text` encodes, and returns the resulting text. The error
/// says why the job fails.
fn job_result(alloc: Global, job: Job, text: &[u8]) -> Result<Text, Ended>
    ensures ok { IfOk result (λ made. job_result job text.now ≡ Ok made) }
    ensures err { IfErr result (EndsFor (job_result job text.now)) }
{
    let picture = pgm_images::read(alloc, text)?;
    if picture.desc().format() != Format::U8 {
        return Err(Ended::Refused(Code::InvalidFormat));
    }
    Ok(made(alloc, job, picture)?)
}

/// Returns the text that the job gives for a U8 picture. Makes requests to a runtime with the
/// default limits, as its only client. Unless memory runs out, no request is refused: two U8 images
/// of the greatest size are within the quota.
fn made(alloc: Global, job: Job, picture: Picture) -> Result<Text, NoMemory>
    requires { picture.description.format ≡ FormatU8 }
    ensures { IfOk result (λ text. text ≡ text_made job picture) }
{
    let desc = picture.desc();
    let (source, output) = (ObjRef::new(SOURCE, None), ObjRef::new(RESULT, None));
    let mut runtime = Runtime::new(alloc, Limits::default());
    ask(&mut runtime, alloc, Request::OpenContext)?;
    ask(&mut runtime, alloc, Request::CreateImage(desc))?;
    ask(&mut runtime, alloc, Request::CreateImage(desc))?;
    ask(&mut runtime, alloc, Request::WriteImage(source, picture))?;
    ask(&mut runtime, alloc, Request::Immediate(job.node()))?;
    match runtime.apply(alloc, CLIENT, &Request::ReadImagePgm(output))? {
        Reply::Text(text) => Ok(text),
        _ => unreachable!(),
    }
}

/// Makes a request, and ignores its reply.
fn ask(runtime: &mut Runtime, alloc: Global, request: Request) -> Result<(), NoMemory>
    ensures limits { runtime.new.limits ≡ runtime.old.limits }
    ensures state { OnOk result (state_of 1 runtime.new
        ≡ (answer_to runtime.old.limits (state_of 1 runtime.old) request).1) }
{
    runtime.apply(alloc, CLIENT, &request)?;
    Ok(())
}
