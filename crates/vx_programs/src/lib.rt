//! The server's program as a call, over any reader and writer.
//!
//! `run` does what a command line says. `serve` reads request frames, and writes a reply frame for
//! each. `apply` reads one PGM text, applies one function, and writes the resulting text. `Ended`
//! says why a run failed: its exit status, and its text for standard error.
#![tactic(auto)]

mod apply;
mod command_line;
mod ended;
mod job;
mod output;
mod program;

pub use ended::Ended;
pub use program::run;
