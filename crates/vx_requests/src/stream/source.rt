//! Sources of bytes.
ghost use Rattle.std.specs.Prelude.{◌≡◌, ℕ, ◌+◌, ◌<◌, ◌^◌, List, Option};
ghost use Rattle.std.specs.Io.{ReadsAtMost};
ghost use Rattle.std.specs.Io.KnownBytes.{ReadConsumes};
ghost use Rattle.vx_requests.specs.Stream.Calls.{failed_calls};

use crate::stream::Failed;

/// A source gives the bytes of a stream, and counts its reads.
pub trait Source {
    /// The bytes that are left, if they are known.
    ghost left: { Self → Option (List ℕ) };

    /// The number of reads.
    ghost reads: { Self → ℕ };

    /// The number of reads that failed.
    ghost failures: { Self → ℕ };

    /// Reads bytes into the front of the buffer, and returns their number. The number is 0 only if
    /// no byte is left or the buffer is empty. A failed read takes no bytes.
    fn read(&mut self, buf: &mut [u8]) -> Result<usize, Failed>
        requires reads_fit { reads self.old < 2 ^ 63 }
        requires failures_fit { failures self.old < 2 ^ 63 }
        ensures bound { ReadsAtMost result buf.new }
        ensures bytes { ReadConsumes (left self.old) (left self.new) result buf.new }
        ensures counted { reads self.new ≡ reads self.old + 1 }
        ensures failed { failures self.new ≡ failures self.old + failed_calls result };
}
