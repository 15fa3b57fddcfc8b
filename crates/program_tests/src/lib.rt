//! Tests of the program as a call: its two commands, and its command line. `tools/check_program`
//! tests the program itself.
//!
//! - `serve`: streams of requests
//! - `apply`: PGM texts
//! - `command_line`: words that are refused, and help
#![tactic(auto)]

#[cfg(test)]
mod apply;
#[cfg(test)]
mod command_line;
#[cfg(test)]
mod serve;
