//! Transfers of whole buffers, from a source and to a sink.
ghost use Rattle.std.specs.Prelude.{◌≡◌, ◌+◌, ◌<◌, ◌≤◌, ◌^◌, length, IfOk, IfErr, OnErr};
ghost use Rattle.vx_requests.specs.Stream.Transfer.{read_failures, IsReadFault, CountsReads, Fills};
ghost use Rattle.vx_requests.specs.Stream.Transfer.{FillsPart, WritesAll};

use crate::stream::{Failed, Sink, Source, StreamFault};

/// Fills the buffer, unless the stream ends first. Returns how many bytes were read.
///
/// `budget` is the number of reads that are still allowed; each read lowers it by one.
/// `ReadFailed`: a read failed. `ReaderWouldNotEnd`: no read is left in the budget. The bytes that
/// were read before a fault are at the front of the buffer.
pub fn fill<S: Source>(
    source: &mut S,
    budget: &mut u64,
    buf: &mut [u8],
) -> Result<usize, StreamFault>
    requires reads_fit { S.reads source.old + budget.old < 2 ^ 63 }
    requires failures_fit { S.failures source.old < 2 ^ 62 }
    ensures ok { IfOk result (Fills (S.left source.old) (S.left source.new) buf.new) }
    ensures err { OnErr result (FillsPart (S.left source.old) (S.left source.new) buf.new) }
    ensures fault { IfErr result IsReadFault }

    // Filling a buffer that isn't empty takes at least one read, and at most one for each byte.
    ensures counted { CountsReads (S.reads source.old) (S.reads source.new)
        budget.old budget.new result }
    ensures once { IfOk result (λ count. 0 < length buf.new → budget.new < budget.old) }
    ensures sparing { S.reads source.new ≤ S.reads source.old + length buf.new }
    ensures failed { S.failures source.new ≡ S.failures source.old + read_failures result }
{
    let mut count = 0;
    while count < buf.len() {
        if *budget == 0 {
            return Err(StreamFault::ReaderWouldNotEnd);
        }
        *budget -= 1;
        match source.read(&mut buf[count..]) {
            Ok(0) => return Ok(count),
            Ok(more) => count += more,
            Err(Failed) => return Err(StreamFault::ReadFailed),
        }
    }
    Ok(count)
}

/// Writes all of the bytes. The only fault is `WriteFailed`: a write failed, or took none of the
/// remaining bytes. Some bytes from the front may then have been written.
pub fn write_all<K: Sink>(sink: &mut K, bytes: &[u8]) -> Result<(), StreamFault>
    requires { K.failures sink.old < 2 ^ 62 }
    ensures { WritesAll K.taken K.failures sink.old sink.new bytes.now result }
{
    let mut rest = bytes;
    while !rest.is_empty() {
        match sink.write(rest) {
            Ok(0) => return Err(StreamFault::WriteFailed),
            Ok(count) => rest = &rest[count..],
            Err(Failed) => return Err(StreamFault::WriteFailed),
        }
    }
    Ok(())
}
