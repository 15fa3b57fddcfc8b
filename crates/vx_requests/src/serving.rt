//! Reads request frames, and writes reply frames.
ghost use Rattle.std.specs.Prelude.{◌≡◌, ◌≢◌, ◌+◌, ◌<◌, ◌≤◌, ◌^◌, Err, IfOk};
ghost use Rattle.vx_requests.specs.Stream.Transfer.{read_failures, write_failures};
ghost use Rattle.vx_requests.specs.Serving.Clients.{states_of};
ghost use Rattle.vx_requests.specs.Frame.Reading.{CanRead, KeepsCount};
ghost use Rattle.vx_requests.specs.Serving.Turn.{Turn};
ghost use Rattle.vx_requests.specs.Serving.Session.{Session};

mod answered;
mod answering;
mod images;
mod summary;
mod texts;

use crate::frame::Reader;
use crate::stream::{Sink, Source, StreamFault};
use answered::write_answered;
pub use answered::{ReplyContent, write_content};
pub use answering::answer_body;
use answering::answer_payload;
use client_contexts::Runtime;
use std::alloc::Global;
pub use summary::Summary;

/// The most reads of the source in one call of `serve`: 2^40.
const MOST_READS: u64 = 1_099_511_627_776;

/// One more than the most reads of the source for one frame: 2^29 + 5.
pub const FRAME_READS: u64 = 536_870_917;

/// Serves the frames of the source, from the first to the last.
///
/// Each frame gets one reply, which is written and flushed before any byte of the next frame is
/// read. Reading a frame with a body of at most 64 bytes allocates nothing. If no memory can be
/// allocated for a longer body, the body is skipped, the reply is NO_MEMORY, and nothing changes.
///
/// The samples of images are copied only for a WriteImage with a body of at most 64 bytes. The
/// samples of a longer WriteImage are read straight into the image's new samples. The samples of a
/// WriteImagePgm are parsed straight into the image's new samples. A refused request changes no
/// samples. ReadImage and ReadImagePgm write their replies straight from the image.
///
/// Returns `Ok` if the stream ended after a whole frame, or was empty. Faults:
///
/// - `Truncated`: the stream ended within a frame
/// - `BadLength`: a frame's length is below 3 or above 2^29; this fault is reported as soon as the
///   four bytes of the length are read
/// - `ReadFailed`: a read failed
/// - `WriteFailed`: a write or a flush failed
/// - `ReaderWouldNotEnd`: 2^40 reads were made
///
/// However the call ends, the runtime is in the state after the frames that were read whole.
pub fn serve<S: Source, K: Sink>(
    alloc: Global,
    source: &mut S,
    sink: &mut K,
    runtime: &mut Runtime,
) -> Result<Summary, StreamFault>
    requires reads_fit { S.reads source.old < 2 ^ 62 }
    requires read_failures_fit { S.failures source.old < 2 ^ 62 }
    requires write_failures_fit { K.failures sink.old < 2 ^ 62 }
    ensures session { Session runtime.old.limits (S.left source.old) (S.left source.new)
        (K.taken sink.old) (K.taken sink.new)
        (states_of runtime.old) (states_of runtime.new) result }
    ensures limits { runtime.new.limits ≡ runtime.old.limits }
    ensures read_failed { S.failures source.new ≡ S.failures source.old + read_failures result }
    ensures write_failed { K.failures sink.new ≡ K.failures sink.old + write_failures result }
    ensures reads { S.reads source.new ≤ S.reads source.old + 2 ^ 40 }
    ensures would_not_end { result ≡ Err StreamFault.ReaderWouldNotEnd →
        S.reads source.new ≡ S.reads source.old + 2 ^ 40 }
{
    let mut reader = Reader {
        source,
        budget: MOST_READS,
    };
    let mut summary = Summary {
        requests: 0,
        refused: 0,
    };
    'frames: while let Some(code) = serve_one(alloc, &mut reader, sink, runtime)? {
        summary.count(code);
    }
    Ok(summary)
}

/// Serves one frame: reads it, answers it, and writes and flushes its reply. No byte after the
/// frame is read. Returns the code of the reply, or `None` if the stream has ended.
///
/// The faults are those of `serve`, except `ReaderWouldNotEnd`: a frame takes at most one read for
/// each byte.
pub fn serve_frame<S: Source, K: Sink>(
    alloc: Global,
    source: &mut S,
    sink: &mut K,
    runtime: &mut Runtime,
) -> Result<Option<u8>, StreamFault>
    requires reads_fit { S.reads source.old < 2 ^ 62 }
    requires read_failures_fit { S.failures source.old < 2 ^ 62 }
    requires write_failures_fit { K.failures sink.old < 2 ^ 62 }
    ensures turn { Turn runtime.old.limits (S.left source.old) (S.left source.new)
        (K.taken sink.old) (K.taken sink.new)
        (states_of runtime.old) (states_of runtime.new) result }
    ensures limits { runtime.new.limits ≡ runtime.old.limits }
    ensures read_failed { S.failures source.new ≡ S.failures source.old + read_failures result }
    ensures write_failed { K.failures sink.new ≡ K.failures sink.old + write_failures result }
    ensures sparing { S.reads source.new ≤ S.reads source.old + (2 ^ 29 + 4) }
    ensures ends { result ≢ Err StreamFault.ReaderWouldNotEnd }
{
    let mut reader = Reader {
        source,
        budget: FRAME_READS,
    };
    serve_one(alloc, &mut reader, sink, runtime)
}

/// Serves one frame, as `serve_frame` does, within the reader's budget.
fn serve_one<S: Source, K: Sink>(
    alloc: Global,
    reader: &mut Reader<S>,
    sink: &mut K,
    runtime: &mut Runtime,
) -> Result<Option<u8>, StreamFault>
    requires can_read { CanRead S.reads S.failures reader.old }
    requires write_failures_fit { K.failures sink.old < 2 ^ 62 }
    ensures turn { Turn runtime.old.limits
        (S.left reader.old.source.now) (S.left reader.new.source.now)
        (K.taken sink.old) (K.taken sink.new)
        (states_of runtime.old) (states_of runtime.new) result }
    ensures limits { runtime.new.limits ≡ runtime.old.limits }
    ensures counted { KeepsCount S.reads S.failures reader.old reader.new result }
    ensures once { IfOk result (λ code. reader.new.budget < reader.old.budget) }
    ensures sparing { S.reads reader.new.source.now
        ≤ S.reads reader.old.source.now + (2 ^ 29 + 4) }
    ensures write_failed { K.failures sink.new ≡ K.failures sink.old + write_failures result }
{
    let Some(length) = reader.read_length()? else {
        return Ok(None);
    };
    let answered = answer_payload(alloc, reader, runtime, length)?;
    Ok(Some(write_answered(sink, runtime, &answered)?))
}
