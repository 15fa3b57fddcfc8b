//! Tests of the public functions that read, write and answer frames. The tests cover the order of
//! reads and flushes, devices that fail, and pictures and texts in long bodies.
//! `tools/check_program` tests the whole program.
//!
//! - `devices`: a source and a sink in memory that move a few bytes in each call, and can fail
//! - `streams`: streams in pieces, failures of each read and write, and how far a stream is read
//! - `turns`: a reply is flushed before a byte of the next frame is read
//! - `adapters`: std's readers and writers, through `FromRead` and `FromWrite`
//! - `bodies`: a request that is parsed; the texts of faults
//! - `pictures`: pictures (in bodies of more than 64 bytes) in pieces, cut short and refused
//! - `texts`: PGM texts in pieces, cut short and refused
#![tactic(auto)]

#[cfg(test)]
mod adapters;
#[cfg(test)]
mod bodies;
#[cfg(test)]
mod devices;
#[cfg(test)]
mod pictures;
#[cfg(test)]
mod streams;
#[cfg(test)]
mod texts;
#[cfg(test)]
mod turns;
