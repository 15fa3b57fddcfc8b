//! Streams of bytes: sources and sinks, wrappers of std's readers and writers, and transfers of
//! whole buffers. A call that fails ends the stream with a `StreamFault`: nothing is retried.

mod fault;
mod from_read;
mod from_write;
mod sink;
mod source;
mod transfer;

pub use fault::{Failed, StreamFault};
pub use from_read::FromRead;
pub use from_write::FromWrite;
pub use sink::Sink;
pub use source::Source;
pub use transfer::{fill, write_all};
