//! Streams over devices that move them in pieces or fail; and how far a stream with a fault is
//! read.
use crate::devices::{NEVER, PiecewiseSink, PiecewiseSource};
use client_contexts::Runtime;
use client_model::Limits;
use std::alloc::Global;
use std::process::Abort;
use vx_requests::{StreamFault, Summary, serve};

/// Clients 1 and 2 in turn: each opens a context, creates an image of one U8 sample, writes 10 or
/// 20 to the image, and reads the image.
pub const TURNS: &[u8] = b"\x00\x00\x00\x03\x00\x01\x01\
\x00\x00\x00\x03\x00\x02\x01\
\x00\x00\x00\x08\x00\x01\x03\x01\x00\x01\x00\x01\
\x00\x00\x00\x08\x00\x02\x03\x01\x00\x01\x00\x01\
\x00\x00\x00\x0e\x00\x01\x05\x00\x00\x00\x01\xff\x01\x00\x01\x00\x01\x0a\
\x00\x00\x00\x0e\x00\x02\x05\x00\x00\x00\x01\xff\x01\x00\x01\x00\x01\x14\
\x00\x00\x00\x08\x00\x01\x07\x00\x00\x00\x01\xff\
\x00\x00\x00\x08\x00\x02\x07\x00\x00\x00\x01\xff";

/// The replies to `TURNS`.
pub const REPLIES: &[u8] = b"\x00\x00\x00\x04\x00\x01\x01\x00\
\x00\x00\x00\x04\x00\x02\x01\x00\
\x00\x00\x00\x08\x00\x01\x03\x00\x00\x00\x00\x01\
\x00\x00\x00\x08\x00\x02\x03\x00\x00\x00\x00\x01\
\x00\x00\x00\x04\x00\x01\x05\x00\
\x00\x00\x00\x04\x00\x02\x05\x00\
\x00\x00\x00\x0a\x00\x01\x07\x00\x01\x00\x01\x00\x01\x0a\
\x00\x00\x00\x0a\x00\x02\x07\x00\x01\x00\x01\x00\x01\x14";

/// Client 7 opens a context and creates two images of one U8 sample each. The client then writes 10
/// to the first image, runs Not from the first image to the second, and reads the second.
const STORED: &[u8] = b"\x00\x00\x00\x03\x00\x07\x01\
\x00\x00\x00\x08\x00\x07\x03\x01\x00\x01\x00\x01\
\x00\x00\x00\x08\x00\x07\x03\x01\x00\x01\x00\x01\
\x00\x00\x00\x0e\x00\x07\x05\x00\x00\x00\x01\xff\x01\x00\x01\x00\x01\x0a\
\x00\x00\x00\x1c\x00\x07\x18\x04\x00\x00\x00\x00\x00\x00\x00\x01\xff\
\x00\x00\x00\x00\xff\x00\x00\x00\x02\xff\x00\x00\x00\x00\xff\
\x00\x00\x00\x08\x00\x07\x07\x00\x00\x00\x02\xff";

/// The replies to `STORED`.
const STORED_REPLIES: &[u8] = b"\x00\x00\x00\x04\x00\x07\x01\x00\
\x00\x00\x00\x08\x00\x07\x03\x00\x00\x00\x00\x01\
\x00\x00\x00\x08\x00\x07\x03\x00\x00\x00\x00\x02\
\x00\x00\x00\x04\x00\x07\x05\x00\
\x00\x00\x00\x04\x00\x07\x18\x00\
\x00\x00\x00\x0a\x00\x07\x07\x00\x01\x00\x01\x00\x01\xf5";

/// 0, and the offsets at which the replies in `REPLIES` end.
const REPLY_ENDS: [usize; 9] = [0, 8, 16, 28, 40, 48, 56, 70, 84];

/// 0, and the offsets at which the replies in `STORED_REPLIES` end.
const STORED_ENDS: [usize; 7] = [0, 8, 20, 32, 40, 48, 62];

/// The devices of a stream: for each, the size of its pieces and the number of good calls before
/// one fails.
#[derive(Clone, Copy)]
pub struct Devices {
    pub source_piece: usize,
    pub good_reads: u64,
    pub sink_piece: usize,
    pub good_writes: u64,
}

/// The result of serving a stream.
#[derive(Drop)]
pub struct Served {
    pub result: Result<Summary, StreamFault>,
    pub written: Vec<u8>,
    /// The number of bytes of the stream that weren't read, and the number of reads.
    left: (usize, u64),
}

/// Serves a stream to a runtime, over devices that move it in pieces or fail.
pub fn serve_bytes(
    alloc: Global,
    runtime: &mut Runtime,
    stream: &[u8],
    devices: Devices,
) -> Served {
    let mut source = PiecewiseSource {
        bytes: stream,
        piece: devices.source_piece.max(1),
        until_failure: devices.good_reads,
        reads: 0,
        failures: 0,
    };
    let mut sink = PiecewiseSink {
        bytes: Vec::new(alloc),
        piece: devices.sink_piece,
        until_failure: devices.good_writes,
        failures: 0,
    };
    let result = serve(alloc, &mut source, &mut sink, runtime);
    Served {
        result,
        written: sink.bytes,
        left: (source.bytes.len(), source.reads),
    }
}

/// Serves a stream to a new runtime.
fn serve_new(alloc: Global, stream: &[u8], devices: Devices) -> Served {
    let mut runtime = Runtime::new(alloc, Limits::default());
    serve_bytes(alloc, &mut runtime, stream, devices)
}

/// Devices that move everything in one piece, and never fail.
pub const ALL_AT_ONCE: Devices = Devices {
    source_piece: 1_000_000,
    good_reads: NEVER,
    sink_piece: 1_000_000,
    good_writes: NEVER,
};

/// Devices that move this many bytes at a time, and never fail.
pub fn in_pieces(source_piece: usize, sink_piece: usize) -> Devices {
    Devices {
        source_piece,
        sink_piece,
        ..ALL_AT_ONCE
    }
}

#[test]
fn streams_in_pieces(rt: HostRuntime) {
    for (source_piece, sink_piece) in [(1000, 1000), (1, 1), (5, 3)] {
        let served = serve_new(rt.alloc(), TURNS, in_pieces(source_piece, sink_piece));
        assert!(rt; served.written.as_slice() == REPLIES);
        assert!(rt;
            served.result
                == Ok(Summary {
                    requests: 8,
                    refused: 0
                })
        );
    }
}

/// Serves a stream, and returns whether serving succeeded. One of the devices may fail with this
/// fault. Checks that the bytes written are whole replies, which end at the offsets `ends`. The
/// last reply may be cut short only if the fault is `WriteFailed`.
fn ends_well(
    rt: &impl Abort,
    alloc: Global,
    stream: &[u8],
    replies: &[u8],
    ends: &[usize],
    devices: Devices,
    fault: StreamFault,
) -> bool {
    let served = serve_new(alloc, stream, devices);
    assert!(rt; replies.starts_with(served.written.as_slice()));
    let is_whole = ends.contains(&served.written.len());
    assert!(rt; is_whole || fault == StreamFault::WriteFailed);
    let is_ok = served.result.is_ok();
    assert!(rt; is_ok || served.result == Err(fault));
    assert!(rt; !is_ok || served.written.len() == replies.len());
    is_ok
}

/// Serves a stream twice for each number of good calls from 0 to 119. The first time, a read of one
/// byte fails after this number of good reads. The second time, a write of one byte or a flush
/// fails after this number of good writes and flushes. Checks that serving succeeds exactly if the
/// number is above `most_reads` or `most_writes`, respectively.
fn fails_at_each_call(
    rt: &impl Abort,
    alloc: Global,
    stream: &[u8],
    replies: &[u8],
    ends: &[usize],
    most_reads: u64,
    most_writes: u64,
) {
    for good in 0..120 {
        let reads = Devices {
            source_piece: 1,
            good_reads: good,
            ..ALL_AT_ONCE
        };
        let fault = StreamFault::ReadFailed;
        assert!(rt;
            ends_well(rt, alloc, stream, replies, ends, reads, fault) == (good > most_reads),
            "{good} reads"
        );
        let writes = Devices {
            sink_piece: 1,
            good_writes: good,
            ..ALL_AT_ONCE
        };
        let fault = StreamFault::WriteFailed;
        assert!(rt;
            ends_well(rt, alloc, stream, replies, ends, writes, fault) == (good > most_writes),
            "{good} writes"
        );
    }
}

/// Each byte takes one call: `TURNS` has 98 bytes and its replies 84, `STORED` 93 and its replies
/// 62. The other calls are a flush for each reply, and the read that finds the end.
#[test]
fn each_read_and_each_write_failing(rt: HostRuntime) {
    fails_at_each_call(&rt, rt.alloc(), TURNS, REPLIES, &REPLY_ENDS, 98, 91);
    fails_at_each_call(
        &rt,
        rt.alloc(),
        STORED,
        STORED_REPLIES,
        &STORED_ENDS,
        93,
        67,
    );
}

#[test]
fn a_write_that_takes_nothing(rt: HostRuntime) {
    let devices = Devices {
        sink_piece: 0,
        ..ALL_AT_ONCE
    };
    for stream in [TURNS, STORED] {
        let served = serve_new(rt.alloc(), stream, devices);
        assert!(rt; served.result == Err(StreamFault::WriteFailed));
        assert!(rt; served.written.is_empty());
    }
}

/// Serves streams with a fault, one after the other, to the same runtime. Each entry has the
/// stream, the fault, the bytes written, and then the number of bytes left and the number of reads.
#[test]
fn how_far_it_reads(rt: HostRuntime) {
    let mut runtime = Runtime::new(rt.alloc(), Limits::default());
    for (stream, fault, written, left) in [
        (
            &b"\x00\x00\x00"[..],
            StreamFault::Truncated,
            &b""[..],
            (0, 2),
        ),
        (
            b"\x00\x00\x00\x04\x00\x07\x01",
            StreamFault::Truncated,
            b"",
            (0, 3),
        ),
        // No byte is read after a length out of range.
        (
            b"\x00\x00\x00\x02\x00\x07",
            StreamFault::BadLength,
            b"",
            (2, 1),
        ),
        (
            b"\x20\x00\x00\x01\x00\x07\x01",
            StreamFault::BadLength,
            b"",
            (3, 1),
        ),
        // A whole frame, in two reads, and one byte.
        (
            b"\x00\x00\x00\x03\x00\x07\x01\xff",
            StreamFault::Truncated,
            b"\x00\x00\x00\x04\x00\x07\x01\x00",
            (0, 4),
        ),
        // The context that the previous stream opened is still open.
        (
            b"\x00\x00\x00\x03\x00\x07\x01\xff",
            StreamFault::Truncated,
            b"\x00\x00\x00\x04\x00\x07\x01\x07",
            (0, 4),
        ),
    ] {
        let served = serve_bytes(rt.alloc(), &mut runtime, stream, ALL_AT_ONCE);
        assert!(rt; served.result == Err(fault), "{stream:?}");
        assert!(rt; served.written.as_slice() == written, "{stream:?}");
        assert!(rt; served.left == left, "{stream:?}");
    }
}

/// Serves streams without a fault, one after the other, to the same runtime. The first stream is
/// empty. In the second stream a client opens a context, which is still open in the third.
#[test]
fn goes_on_after_a_good_end(rt: HostRuntime) {
    let mut runtime = Runtime::new(rt.alloc(), Limits::default());
    let open = b"\x00\x00\x00\x03\x00\x07\x01";
    for (stream, written, requests, refused) in [
        (&b""[..], &b""[..], 0, 0),
        (STORED, STORED_REPLIES, 6, 0),
        (open, b"\x00\x00\x00\x04\x00\x07\x01\x07", 1, 1),
    ] {
        let served = serve_bytes(rt.alloc(), &mut runtime, stream, ALL_AT_ONCE);
        assert!(rt;
            served.result == Ok(Summary { requests, refused }),
            "{stream:?}"
        );
        assert!(rt; served.written.as_slice() == written, "{stream:?}");
    }
}

/// Serves a stream that ends within its second frame, and then another stream. The context that the
/// first stream opened is still open in the second.
#[test]
fn goes_on_after_a_stream_cut_short(rt: HostRuntime) {
    let mut runtime = Runtime::new(rt.alloc(), Limits::default());
    for (stream, result, written) in [
        (
            &b"\x00\x00\x00\x03\x00\x07\x01\x00\x00\x00\x03\x00"[..],
            Err(StreamFault::Truncated),
            &b"\x00\x00\x00\x04\x00\x07\x01\x00"[..],
        ),
        (
            b"\x00\x00\x00\x03\x00\x07\x01",
            Ok(Summary {
                requests: 1,
                refused: 1,
            }),
            b"\x00\x00\x00\x04\x00\x07\x01\x07",
        ),
    ] {
        let served = serve_bytes(rt.alloc(), &mut runtime, stream, ALL_AT_ONCE);
        assert!(rt; served.result == result, "{stream:?}");
        assert!(rt; served.written.as_slice() == written, "{stream:?}");
    }
}
