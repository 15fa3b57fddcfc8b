//! Sources that read from a reader of the standard library.
ghost use Rattle.std.specs.Prelude.{◌≡◌};
ghost use Rattle.vx_requests.specs.Stream.FromRead.{reader_of};

use crate::stream::{Failed, Source};
use std::io::Read;

/// A source that reads from a reader, and counts the reads.
#[derive(Drop)]
pub struct FromRead<R> {
    reader: R,
    reads: u64,
    failures: u64,
}

impl<R: Read> FromRead<R> {
    /// Returns a source over a reader, with no reads or failures counted yet.
    pub fn new(reader: R) -> Self
        ensures reader { reader_of result ≡ reader }
        ensures reads { ⟦<FromRead<R> as Source>⟧.reads result ≡ 0 }
        ensures failures { ⟦<FromRead<R> as Source>⟧.failures result ≡ 0 }
    {
        FromRead {
            reader,
            reads: 0,
            failures: 0,
        }
    }

    /// Returns the wrapped reader, which still has the bytes that weren't read.
    pub fn into_inner(self) -> R
        ensures { result ≡ reader_of self }
    {
        self.reader
    }
}

impl<R: Read> Source for FromRead<R> {
    ghost left = { λ s. R.remaining s.reader };

    ghost reads = { λ s. s.reads };

    ghost failures = { λ s. s.failures };

    fn read(&mut self, buf: &mut [u8]) -> Result<usize, Failed> {
        self.reads += 1;
        match self.reader.read(buf) {
            Ok(count) => Ok(count),
            Err(_) => {
                self.failures += 1;
                Err(Failed)
            }
        }
    }
}
