//! The server's program: `vx_programs::run` over standard input and standard output.
//!
//! After a failure, `main` prints a message to standard error, and exits with the failure's status.
#![tactic(auto)]

use std::io::{BufWriter, Print};
use std::process::ExitCode;
use std::{env, io};
use vx_base::Code;
use vx_programs::{Ended, run};

/// The size in bytes of the buffer for replies.
const REPLY_BUFFER: usize = 65_536;

/// The size in bytes of the stack that the program gets at its start. Requests take less.
const STACK: usize = 196_608;

/// Lets the system provide the stack. Later, images may have taken all address space that the
/// program may have (`ulimit -v`), and the system would end it when a function needs more stack.
#[inline(never)]
fn provide_stack(rt: &HostRuntime) {
    let room = [0u8; STACK];
    // Writes nothing. The array has to be in memory, since the system gets its address.
    let _ = rt.stdout().write_some(&room[..0]);
}

/// Returns the words of the command line without the program's name.
fn words(rt: &HostRuntime) -> Result<Vec<String>, Ended> {
    match env::args(rt) {
        Ok(args) => Ok(args.skip(1).collect(rt.alloc())?),
        Err(error) if error.kind() == io::ErrorKind::InvalidData => Err(Ended::CommandLine(
            "error: the command line has a word that isn't UTF-8".to_string(rt.alloc())?,
        )),
        Err(_) => Err(Ended::Refused(Code::NoMemory)),
    }
}

fn run_process(rt: &HostRuntime) -> Result<(), Ended> {
    let alloc = rt.alloc();
    let args = words(rt)?;
    let words: Vec<&str> = args.iter().map(|word| word.as_str()).collect(alloc)?;
    match BufWriter::with_capacity(alloc, REPLY_BUFFER, io::writer(rt)) {
        Ok(writer) => run(alloc, words.as_slice(), rt.reader(), writer),
        Err(_) => Err(Ended::Refused(Code::NoMemory)),
    }
}

fn main(rt: HostRuntime) -> ExitCode {
    provide_stack(&rt);
    match run_process(&rt) {
        Ok(()) => ExitCode::SUCCESS,
        Err(ended) => {
            let _ = eprintln!(rt; "{}", ended.line());
            ExitCode::from(ended.status())
        }
    }
}
