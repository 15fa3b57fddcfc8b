//! The bodies of requests and replies, as bytes.
//!
//! `parse` returns the request that a body encodes. Functions with names like `description_bytes`
//! return the bytes of a field. Parsing a field and encoding it again gives the same bytes; the
//! laws state this for whole requests. Streams, frames and clients are outside this crate.
//!
//! - `op`: the kinds of requests, and their numbers
//! - `body_fault`, `parse_fault`: why a body encodes no request, and why parsing failed
//! - `fields`: reads fields from the front of a body. Each module is for one field or a group of
//!   fields: `format`, `description`, `partial_desc` (a partial description), `reference`,
//!   `rectangle`, `samples`, `threshold`, `convolution`, `bins` (of a distribution), `operand`,
//!   `node`, `slots` (of a delay). `described` and `extremes` encode the replies to QueryImage and
//!   ReadMinMax.
//! - `requests`: the bodies of requests. The modules `images` and `tables` parse those with
//!   samples, entries or a text.
//! - `parsing`: parses the body of any request
//! - `take_image_head`: the fields before the samples in the body of WriteImage
//! - `take_image_pgm_fields`: the reference and the text in the body of WriteImagePgm
//! - `laws`, `examples`: what the definitions mean
#![tactic(auto)]

mod body_fault;
pub mod examples;
mod fields;
pub mod laws;
mod op;
mod parse_fault;
mod parsing;
mod requests;

pub use body_fault::BodyFault;
pub use fields::bins::bins_bytes;
pub use fields::described::described_bytes;
pub use fields::description::description_bytes;
pub use fields::extremes::extremes_bytes;
pub use fields::format::format_number;
pub use fields::node::node_bytes;
pub use fields::partial_desc::partial_desc_bytes;
pub use fields::rectangle::rectangle_bytes;
pub use fields::reference::reference_bytes;
pub use fields::samples::{WideSample, decode_wide, encode};
pub use fields::threshold::{binary_bytes, range_bytes};
pub use op::Op;
pub use parse_fault::ParseFault;
pub use parsing::parse;
pub use requests::images::{take_image_head, take_image_pgm_fields};
