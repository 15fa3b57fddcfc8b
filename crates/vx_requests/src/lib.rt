//! Requests and replies as streams of bytes.
//!
//! - `stream`: a `Source` gives bytes and a `Sink` takes them. Both count their failed calls.
//!   If the bytes of a source or a sink are known, the contracts state which bytes each call moves.
//!   `FromRead` and `FromWrite` wrap the readers and writers of std. `fill` and `write_all` move
//!   whole buffers.
//! - `frame`: reads the length, the client, the op and the body of a request frame; writes frames
//!   of replies (`write_reply`) and, for clients written in Rattle, of requests (`write_request`);
//!   reads and writes samples.
//! - `serving`: `serve` answers a stream of requests frame by frame, and returns a `Summary`.
//! - `laws::frames`, `laws::replies`, `laws::streams`: laws about the definitions of `specs/Frame`
//!   and `specs/Serving`.
//!
//! The headline theorem is `Session` (`specs/Serving/Session.antt`), the clause `session` of
//! `serve`.
#![tactic(auto)]

pub mod examples;
mod frame;
pub mod laws;
mod serving;
mod stream;

pub use frame::{Reader, fits_a_frame, is_one_frame, said_length, write_reply, write_request};
pub use serving::{
    FRAME_READS, ReplyContent, Summary, answer_body, serve, serve_frame, write_content,
};
pub use stream::{Failed, FromRead, FromWrite, Sink, Source, StreamFault, fill, write_all};
pub use vx_wire::{ParseFault, parse};
