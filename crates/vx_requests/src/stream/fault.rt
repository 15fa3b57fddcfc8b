//! Faults of streams.

use thiserror::Error;

/// The fault of a read, a write or a flush. A read or a write that failed took no bytes.
#[derive(Clone, Copy, Debug, PartialEq, Eq, Error)]
#[error("a read, a write or a flush failed")]
pub struct Failed;

/// Why reading or writing a stream stopped early.
#[derive(Clone, Copy, Debug, PartialEq, Eq, Error)]
pub enum StreamFault {
    /// The bytes ended within a frame.
    #[error("truncated")]
    Truncated,
    /// A frame's length is out of range.
    #[error("bad length")]
    BadLength,
    /// A read returned an error.
    #[error("read failed")]
    ReadFailed,
    /// A write or a flush returned an error, or a write took none of the remaining bytes.
    #[error("write failed")]
    WriteFailed,
    /// The budget of reads is used up, and no read has found the end of the stream.
    #[error("reader would not end")]
    ReaderWouldNotEnd,
}
