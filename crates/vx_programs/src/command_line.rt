//! The program's command line.
ghost use Rattle.std.specs.Prelude.{◌≡◌};

use crate::job::{Job, parse_border, parse_operation};
use clap::error::ErrorKind;
use clap::{Arg, ArgAction, ArgMatches, Command, Error};
use client_model::{GREATEST_LIMIT, Limits};
use std::alloc::{AllocError, Global};

/// The server's version.
const VERSION: &str = "0.1.0";

/// The default of each limit in bytes, as a word of the command line.
const DEFAULT_BYTES: &str = "268435456";

/// The values of `<FUNCTION>`, as the help and the errors list them.
const FUNCTIONS: &str = "not, box, gaussian, median, erode or dilate";

/// The values of `--border`, as the errors list them.
const BORDERS: &str = "undefined or replicate";

/// The help text on memory that the options do not limit.
const MEMORY_TAKEN: &str = "\
Images may take up to twice their quota, and a graph that runs up to twice its work bytes. No client
is charged for:
  free blocks     memory of released images, kept for reuse: of each format at most 16384 blocks
                  and 67108864 samples, 469762048 bytes in all
  kept graphs     each graph that was verified or has run, until its nodes change or it is
                  released: up to 150000 bytes with its nodes
  lists of a run  kept for the next run of any graph: up to 450000 bytes in all
  next picture    the picture that is being read: up to 268435456 bytes
  frames          the request and the reply in progress
If memory is refused, the server gives up its free blocks and tries again. A request that still gets
none is answered NO_MEMORY.";

/// What a command line tells the program to do.
#[derive(Clone, Copy, PartialEq, Eq, Debug)]
pub enum Asked {
    /// Serve a stream, with these limits for each client.
    Serve(Limits),
    /// Apply one function to a picture.
    Apply(Job),
}

/// Returns what the words tell the program to do: `serve` with an optional quota and optional work
/// bytes; or `apply` with a function and an optional border. The error holds the text of a refusal,
/// of the help or of the version, or says that memory was refused.
pub fn read_words(alloc: Global, words: &[&str]) -> Result<Asked, Error> {
    let program = Command::new(alloc, "vx_main")
        .version(VERSION)
        .about("An OpenVX server for many clients over one stream")
        .bin_name("vx_main")?
        .no_binary_name(true)
        .subcommand_required(true)
        .subcommand(serve_command(alloc)?)?
        .subcommand(apply_command(alloc)?)?;
    let matches = program.try_get_matches_from(words)?;
    if let Some(apply) = matches.subcommand_matches("apply") {
        return Ok(Asked::Apply(read_job(alloc, apply)?));
    }
    match matches.subcommand_matches("serve") {
        Some(serve) => Ok(Asked::Serve(read_limits(alloc, serve)?)),
        None => Ok(Asked::Serve(Limits::default())),
    }
}

/// Returns the subcommand `serve`.
fn serve_command<'a>(alloc: Global) -> Result<Command<'a>, AllocError> {
    let quota = bytes_option(
        alloc,
        "quota",
        "Most sample bytes of each client's images, 1 to 1099511627776 [default: 268435456]",
    );
    let work = bytes_option(
        alloc,
        "work",
        "Most sample bytes of each graph's virtual images, 1 to 1099511627776 [default: 268435456]",
    );
    Command::new(alloc, "serve")
        .about("Reads request frames from standard input and writes a reply frame for each")
        .after_help(MEMORY_TAKEN)
        .arg(quota)?
        .arg(work)
}

/// Returns an option whose value is a number of bytes.
fn bytes_option<'a>(alloc: Global, name: &'static str, help: &'static str) -> Arg<'a> {
    Arg::new(alloc, name)
        .long(name)
        .value_name("BYTES")
        .action(ArgAction::Set)
        .help(help)
}

/// Returns the limits that the words after `serve` give.
fn read_limits(alloc: Global, serve: &ArgMatches<'_>) -> Result<Limits, Error> {
    let quota = serve.get_str("quota").unwrap_or(DEFAULT_BYTES);
    let work = serve.get_str("work").unwrap_or(DEFAULT_BYTES);
    if let Some(limits) = parse_limits(quota, work) {
        return Ok(limits);
    }
    let (option, word) = if parse_bytes(quota).is_none() {
        ("--quota", quota)
    } else {
        ("--work", work)
    };
    let text = format!(in alloc;
        "invalid value '{word}' for '{option} <BYTES>': it must be a number from 1 to 1099511627776"
    )?;
    let mut serve = serve_command(alloc)?.bin_name("vx_main serve")?;
    Err(serve.error(ErrorKind::ValueValidation, text.as_str())?)
}

/// Returns the subcommand `apply`.
fn apply_command<'a>(alloc: Global) -> Result<Command<'a>, AllocError> {
    let function = Arg::new(alloc, "function")
        .value_name("FUNCTION")
        .required(true)
        .action(ArgAction::Set)
        .help(FUNCTIONS);
    let border = Arg::new(alloc, "border")
        .long("border")
        .value_name("BORDER")
        .action(ArgAction::Set)
        .help("Pixels past the edges, undefined or replicate [default: undefined]");
    Command::new(alloc, "apply")
        .about("Applies a function to one PGM picture, from standard input to standard output")
        .arg(function)?
        .arg(border)
}

/// Returns the job that the words after `apply` give.
fn read_job(alloc: Global, apply: &ArgMatches<'_>) -> Result<Job, Error> {
    let function = apply.get_str("function").unwrap_or("");
    let Some(operation) = parse_operation(function) else {
        let text = format!(in alloc;
            "invalid value '{function}' for '<FUNCTION>': it must be {FUNCTIONS}"
        )?;
        return Err(no_word(alloc, text.as_str())?);
    };
    let border = apply.get_str("border").unwrap_or("undefined");
    match parse_border(border) {
        Some(border) => Ok(Job { operation, border }),
        None => {
            let text = format!(in alloc;
                "invalid value '{border}' for '--border <BORDER>': it must be {BORDERS}"
            )?;
            Err(no_word(alloc, text.as_str())?)
        }
    }
}

/// Returns the refusal of a word after `apply`, with this text.
fn no_word(alloc: Global, text: &str) -> Result<Error, AllocError> {
    let mut apply = apply_command(alloc)?.bin_name("vx_main apply")?;
    apply.error(ErrorKind::ValueValidation, text)
}

ghost use Rattle.client_model.specs.Limits.{is_limit};
ghost use Rattle.vx_programs.specs.CommandLine.{parse_bytes, parse_limits};

/// Returns the number of bytes that a word spells, if the word has only decimal digits and the
/// number is from 1 to 2^40. Returns `None` for any other word.
pub fn parse_bytes(word: &str) -> Option<u64>
    ensures { result ≡ parse_bytes word.now }
{
    // `parse` would accept a plus sign.
    if word.starts_with('+') {
        return None;
    }
    match word.parse::<u64>() {
        Ok(bytes) => is_limit(bytes).then_some(bytes),
        Err(_) => None,
    }
}

/// Returns whether a limit may be this number of bytes.
fn is_limit(bytes: u64) -> bool
    ensures { result ≡ is_limit bytes }
{
    (1..=GREATEST_LIMIT).contains(&bytes)
}

/// Returns the limits that two words spell: the quota and the work bytes. Returns `None` if one of
/// the words doesn't spell a number from 1 to 2^40.
pub fn parse_limits(quota: &str, work: &str) -> Option<Limits>
    ensures { result ≡ parse_limits quota.now work.now }
{
    match (parse_bytes(quota), parse_bytes(work)) {
        (Some(quota), Some(work)) => Limits::new(quota, work),
        _ => None,
    }
}
