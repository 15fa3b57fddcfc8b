//! The command `serve`: its replies, its limits, and the status and line with which it ends.
use std::test::Fail;
use vx_base::Code;
use vx_programs::{Ended, run};
use vx_requests::StreamFault;

/// Client 7 opens a context and creates two U8 images of size 1x1. The client writes 10 to the
/// first, runs Not from the first to the second, and reads the second.
pub const REQUESTS: &[u8] = b"\x00\x00\x00\x03\x00\x07\x01\
\x00\x00\x00\x08\x00\x07\x03\x01\x00\x01\x00\x01\
\x00\x00\x00\x08\x00\x07\x03\x01\x00\x01\x00\x01\
\x00\x00\x00\x0e\x00\x07\x05\x00\x00\x00\x01\xff\x01\x00\x01\x00\x01\x0a\
\x00\x00\x00\x1c\x00\x07\x18\x04\x00\x00\x00\x00\x00\x00\x00\x01\xff\
\x00\x00\x00\x00\xff\x00\x00\x00\x02\xff\x00\x00\x00\x00\xff\
\x00\x00\x00\x08\x00\x07\x07\x00\x00\x00\x02\xff";

const REPLIES: &[u8] = b"\x00\x00\x00\x04\x00\x07\x01\x00\
\x00\x00\x00\x08\x00\x07\x03\x00\x00\x00\x00\x01\
\x00\x00\x00\x08\x00\x07\x03\x00\x00\x00\x00\x02\
\x00\x00\x00\x04\x00\x07\x05\x00\
\x00\x00\x00\x04\x00\x07\x18\x00\
\x00\x00\x00\x0a\x00\x07\x07\x00\x01\x00\x01\x00\x01\xf5";

#[test]
fn serves_streams(rt: HostRuntime) {
    for (input, output) in [
        (&b""[..], &b""[..]),
        (REQUESTS, REPLIES),
        // OpenContext with a body that isn't empty, and an unknown op. The stream goes on after
        // both frames.
        (
            b"\x00\x00\x00\x04\x00\x07\x01\x00\
\x00\x00\x00\x03\x00\x07\xc8\
\x00\x00\x00\x03\x00\x07\x01",
            b"\x00\x00\x00\x04\x00\x07\x01\x02\
\x00\x00\x00\x04\x00\x07\xc8\x02\
\x00\x00\x00\x04\x00\x07\x01\x00",
        ),
    ] {
        let mut written = Vec::new(rt.alloc());
        let ended = run(rt.alloc(), &["serve"], input, &mut written);
        assert!(rt; ended.is_ok());
        assert!(rt; written.as_slice() == output);
    }
}

#[test]
fn ends_with_a_status_and_a_line(rt: HostRuntime) {
    for (input, output, status, line) in [
        (
            &b"\x00\x00\x00\x03\x00\x07\x01\x00\x00\x00\x03\x00"[..],
            &b"\x00\x00\x00\x04\x00\x07\x01\x00"[..],
            3,
            "truncated",
        ),
        (b"\x00\x00\x00\x02", b"", 3, "bad length"),
        (b"\xff\xff\xff", b"", 3, "truncated"),
    ] {
        let mut written = Vec::new(rt.alloc());
        match run(rt.alloc(), &["serve"], input, &mut written) {
            Ok(()) => assert!(rt; false, "ended well"),
            Err(ended) => {
                assert!(rt; ended.status() == status);
                assert!(rt; ended.line() == line);
            }
        }
        assert!(rt; written.as_slice() == output);
    }
}

#[test]
fn tells_why_it_ended(rt: HostRuntime) -> Result<(), Fail> {
    for (ended, status, line) in [
        (Ended::Stream(StreamFault::Truncated), 3, "truncated"),
        (Ended::Stream(StreamFault::BadLength), 3, "bad length"),
        (Ended::Stream(StreamFault::ReadFailed), 4, "read failed"),
        (Ended::Stream(StreamFault::WriteFailed), 4, "write failed"),
        (
            Ended::Stream(StreamFault::ReaderWouldNotEnd),
            3,
            "reader would not end",
        ),
        (Ended::Refused(Code::NoMemory), 5, "NO_MEMORY"),
        (Ended::Refused(Code::NoResources), 5, "NO_RESOURCES"),
    ] {
        assert!(rt; ended.status() == status);
        assert!(rt; ended.line() == line);
    }
    let text = "error: unknown word".to_string(rt.alloc())?;
    let ended = Ended::CommandLine(text);
    assert!(rt; ended.status() == 2);
    assert!(rt; ended.line() == "error: unknown word");
    Ok(())
}

/// Clients 7 and 8 open contexts. Client 7 creates two images of four bytes and an image of one
/// byte. Client 8 creates an image of four bytes.
const CREATES: &[u8] = b"\x00\x00\x00\x03\x00\x07\x01\
\x00\x00\x00\x03\x00\x08\x01\
\x00\x00\x00\x08\x00\x07\x03\x01\x00\x02\x00\x02\
\x00\x00\x00\x08\x00\x07\x03\x01\x00\x02\x00\x02\
\x00\x00\x00\x08\x00\x07\x03\x01\x00\x01\x00\x01\
\x00\x00\x00\x08\x00\x08\x03\x01\x00\x02\x00\x02";

/// The replies to `CREATES` with a quota of eight bytes.
const THIRD_REFUSED: &[u8] = b"\x00\x00\x00\x04\x00\x07\x01\x00\
\x00\x00\x00\x04\x00\x08\x01\x00\
\x00\x00\x00\x08\x00\x07\x03\x00\x00\x00\x00\x01\
\x00\x00\x00\x08\x00\x07\x03\x00\x00\x00\x00\x02\
\x00\x00\x00\x04\x00\x07\x03\x0d\
\x00\x00\x00\x08\x00\x08\x03\x00\x00\x00\x00\x01";

/// The replies to `CREATES` with a quota of nine bytes or more.
const THIRD_MADE: &[u8] = b"\x00\x00\x00\x04\x00\x07\x01\x00\
\x00\x00\x00\x04\x00\x08\x01\x00\
\x00\x00\x00\x08\x00\x07\x03\x00\x00\x00\x00\x01\
\x00\x00\x00\x08\x00\x07\x03\x00\x00\x00\x00\x02\
\x00\x00\x00\x08\x00\x07\x03\x00\x00\x00\x00\x03\
\x00\x00\x00\x08\x00\x08\x03\x00\x00\x00\x00\x01";

/// The replies to `CREATES` with a quota of seven bytes. Client 7's second image is refused, and
/// its third gets name 2 instead.
const SECOND_REFUSED: &[u8] = b"\x00\x00\x00\x04\x00\x07\x01\x00\
\x00\x00\x00\x04\x00\x08\x01\x00\
\x00\x00\x00\x08\x00\x07\x03\x00\x00\x00\x00\x01\
\x00\x00\x00\x04\x00\x07\x03\x0d\
\x00\x00\x00\x08\x00\x07\x03\x00\x00\x00\x00\x02\
\x00\x00\x00\x08\x00\x08\x03\x00\x00\x00\x00\x01";

#[test]
fn allows_each_client_its_quota(rt: HostRuntime) {
    for (words, output) in [
        (&["serve", "--quota", "8"][..], THIRD_REFUSED),
        (&["serve", "--quota=8"], THIRD_REFUSED),
        (&["serve", "--quota", "008"], THIRD_REFUSED),
        (&["serve", "--quota", "7"], SECOND_REFUSED),
        (&["serve", "--quota", "9"], THIRD_MADE),
        (&["serve", "--quota", "1099511627776"], THIRD_MADE),
        (
            &["serve", "--quota=00000000000000000000000000009"],
            THIRD_MADE,
        ),
        (&["serve", "--quota", "8", "--work", "1"], THIRD_REFUSED),
        (&["serve", "--work=1", "--quota=7"], SECOND_REFUSED),
        (&["serve", "--work", "1099511627776"], THIRD_MADE),
        (&["serve"], THIRD_MADE),
    ] {
        let mut written = Vec::new(rt.alloc());
        let ended = run(rt.alloc(), words, CREATES, &mut written);
        assert!(rt; ended.is_ok(), "{words:?}");
        assert!(rt; written.as_slice() == output, "{words:?}");
    }
}
