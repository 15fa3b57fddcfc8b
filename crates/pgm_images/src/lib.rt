//! PGM texts as pictures, and images as PGM texts (Netpbm, pgm(5)).
//!
//! `read` returns the picture that a plain (P2) or raw (P5) text encodes, or the text's first
//! fault. `read_description` returns the size and format alone, and `read_into` writes the samples
//! over existing samples. `write` returns a U8 image as a raw text, from which `read` returns the
//! same picture. `WrittenHeader` is the header alone, for callers that write the samples
//! themselves.
//!
//! There are two definitions of the encoding. `Grammar` relates texts to pictures. `Reading` parses
//! a text from front to back, and computes the picture or the fault. `laws` proves that the two
//! definitions agree.
//!
//! - `fault`: why a text could not be read
//! - `marks`: whitespace, comments and numbers
//! - `header`: the encoding, the width, the height and the maxval
//! - `text_sample`: number types of samples
//! - `block`: parses many numbers at a time
//! - `raster`: all samples of a text
//! - `reading`, `writing`: whole texts
//! - `laws`, `examples`: what the definitions mean
#![tactic(auto)]

mod block;
pub mod examples;
mod fault;
mod header;
pub mod laws;
mod marks;
mod raster;
mod reading;
mod text_sample;
mod writing;

pub use fault::PgmFault;
pub use reading::{read, read_description, read_into};
pub use writing::{WrittenHeader, write};
