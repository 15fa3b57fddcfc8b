//! Sinks of bytes.
ghost use Rattle.std.specs.Prelude.{◌≡◌, ℕ, ◌+◌, ◌<◌, ◌^◌, List, Option};
ghost use Rattle.std.specs.Io.{WritesAtMost};
ghost use Rattle.std.specs.Io.KnownBytes.{Keeps, WriteAppends};
ghost use Rattle.vx_requests.specs.Stream.Calls.{failed_calls, failed_writes};

use crate::stream::Failed;

/// A sink takes the bytes of a stream, and counts its failed calls.
pub trait Sink {
    /// The bytes that were taken, if they are known.
    ghost taken: { Self → Option (List ℕ) };

    /// The number of writes and flushes that failed. A write that was given bytes and took none
    /// counts as failed.
    ghost failures: { Self → ℕ };

    /// Takes bytes from the front of `bytes`, and returns how many. A write that fails takes none.
    fn write(&mut self, bytes: &[u8]) -> Result<usize, Failed>
        requires { failures self.old < 2 ^ 63 }
        ensures bound { WritesAtMost result bytes.now }
        ensures bytes { WriteAppends (taken self.old) (taken self.new) result bytes.now }
        ensures failed { failures self.new ≡ failures self.old + failed_writes result bytes.now };

    /// Writes out the bytes that are still buffered.
    fn flush(&mut self) -> Result<(), Failed>
        requires { failures self.old < 2 ^ 63 }
        ensures bytes { Keeps (taken self.old) (taken self.new) }
        ensures failed { failures self.new ≡ failures self.old + failed_calls result };
}
