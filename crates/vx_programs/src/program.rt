//! The program over any reader and writer.
use crate::apply::apply;
use crate::command_line::{Asked, read_words};
use crate::ended::Ended;
use crate::output::write_to_end;
use clap::Error;
use clap::error::ErrorKind;
use client_contexts::Runtime;
use client_model::Limits;
use std::alloc::Global;
use std::io::{Read, Write};
use vx_base::Code;
use vx_requests::{FromRead, FromWrite, serve};

/// Runs the program. `words` is the command line without the program's name.
///
/// For help and the version, writes the text to the writer, and returns `Ok`.
pub fn run<R: Read + Drop, W: Write + Drop>(
    alloc: Global,
    words: &[&str],
    reader: R,
    mut writer: W,
) -> Result<(), Ended> {
    match read_words(alloc, words) {
        Ok(asked) => perform(alloc, asked, reader, writer),
        Err(error) => refuse_words(alloc, &error, &mut writer),
    }
}

/// Does what the command line says.
fn perform<R: Read + Drop, W: Write + Drop>(
    alloc: Global,
    asked: Asked,
    reader: R,
    mut writer: W,
) -> Result<(), Ended> {
    match asked {
        Asked::Serve(limits) => serve_stream(alloc, limits, reader, writer),
        Asked::Apply(job) => apply(alloc, job, reader, &mut writer),
    }
}

/// Handles a command line that starts no work: help and the version go to the writer, anything else
/// is refused.
fn refuse_words<W: Write>(alloc: Global, error: &Error, writer: &mut W) -> Result<(), Ended> {
    if error.kind() == ErrorKind::OutOfMemory {
        return Err(Ended::Refused(Code::NoMemory));
    }
    let text = format!(in alloc; "{error}")?;
    if error.use_stderr() {
        return Err(Ended::CommandLine(text.trim_end().to_string(alloc)?));
    }
    write_to_end(writer, text.as_bytes())
}

/// Serves the frames of the reader, with these limits for each client.
fn serve_stream<R: Read + Drop, W: Write + Drop>(
    alloc: Global,
    limits: Limits,
    reader: R,
    writer: W,
) -> Result<(), Ended> {
    let mut runtime = Runtime::new(alloc, limits);
    let mut source = FromRead::new(reader);
    let mut sink = FromWrite::new(writer);
    match serve(alloc, &mut source, &mut sink, &mut runtime) {
        Ok(_) => Ok(()),
        Err(fault) => Err(Ended::Stream(fault)),
    }
}
