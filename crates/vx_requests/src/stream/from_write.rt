//! Sinks that write to a writer of the standard library.
ghost use Rattle.std.specs.Prelude.{◌≡◌};
ghost use Rattle.vx_requests.specs.Stream.FromWrite.{writer_of};

use crate::stream::{Failed, Sink};
use std::io::Write;

/// A sink that writes to a writer, and counts the failed calls.
#[derive(Drop)]
pub struct FromWrite<W> {
    writer: W,
    failures: u64,
}

impl<W: Write> FromWrite<W> {
    /// Returns a sink over a writer, with no failures counted yet.
    pub fn new(writer: W) -> Self
        ensures writer { writer_of result ≡ writer }
        ensures failures { ⟦<FromWrite<W> as Sink>⟧.failures result ≡ 0 }
    {
        FromWrite {
            writer,
            failures: 0,
        }
    }

    /// Returns the wrapped writer.
    pub fn into_inner(self) -> W
        ensures { result ≡ writer_of self }
    {
        self.writer
    }
}

impl<W: Write> Sink for FromWrite<W> {
    ghost taken = { λ s. W.contents s.writer };

    ghost failures = { λ s. s.failures };

    fn write(&mut self, bytes: &[u8]) -> Result<usize, Failed> {
        match self.writer.write(bytes) {
            Ok(count) => {
                if count == 0 && !bytes.is_empty() {
                    self.failures += 1;
                }
                Ok(count)
            }
            Err(_) => {
                self.failures += 1;
                Err(Failed)
            }
        }
    }

    fn flush(&mut self) -> Result<(), Failed> {
        if self.writer.flush().is_err() {
            self.failures += 1;
            return Err(Failed);
        }
        Ok(())
    }
}
