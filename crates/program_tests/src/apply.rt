//! The command `apply`: its pictures, and the status and line with which it ends.
use std::alloc::Global;
use std::io;
use std::io::{ErrorKind, Read, Write};
use std::process::Abort;
use vx_programs::run;

/// A 2 by 2 picture of the samples 10, 20, 30 and 40.
const SQUARE: &[u8] = b"P5\n2 2\n255\n\x0a\x14\x1e\x28";

/// The result of the box filter on `SQUARE`, under the border mode `replicate`.
const BOXED: &[u8] = b"P5\n2 2\n255\n\x14\x17\x1a\x1e";

/// A 3 by 3 picture of the samples 1 to 9.
const NINE: &[u8] = b"P2 3 3 9 1 2 3 4 5 6 7 8 9";

#[test]
fn applies_functions(rt: HostRuntime) {
    for (words, input, output) in [
        (
            &["apply", "box", "--border", "replicate"][..],
            SQUARE,
            BOXED,
        ),
        (&["apply", "--border=replicate", "box"], SQUARE, BOXED),
        (&["apply", "box"], SQUARE, b"P5\n2 2\n255\n\0\0\0\0"),
        (
            &["apply", "not"],
            b"P5\n2 1\n255\n\x0a\x14",
            b"P5\n2 1\n255\n\xf5\xeb",
        ),
        (
            &["apply", "not", "--border", "replicate"],
            b"P2 2 1 20 10 20",
            b"P5\n2 1\n255\n\xf5\xeb",
        ),
        (
            &["apply", "gaussian"],
            NINE,
            b"P5\n3 3\n255\n\0\0\0\0\x05\0\0\0\0",
        ),
        (
            &["apply", "median", "--border", "undefined"],
            NINE,
            b"P5\n3 3\n255\n\0\0\0\0\x05\0\0\0\0",
        ),
        (
            &["apply", "erode", "--border", "replicate"],
            NINE,
            b"P5\n3 3\n255\n\x01\x01\x02\x01\x01\x02\x04\x04\x05",
        ),
        (
            &["apply", "dilate", "--border", "replicate"],
            NINE,
            b"P5\n3 3\n255\n\x05\x06\x06\x08\x09\x09\x08\x09\x09",
        ),
    ] {
        let mut written = Vec::new(rt.alloc());
        let ended = run(rt.alloc(), words, input, &mut written);
        assert!(rt; ended.is_ok(), "{words:?}");
        assert!(rt; written.as_slice() == output, "{words:?}");
    }
}

/// Checks that `apply` fails with this status and line, and writes nothing.
fn ends<R: Read + Drop>(rt: &impl Abort, alloc: Global, reader: R, status: u8, line: &str) {
    let mut written = Vec::new(alloc);
    let ended = run(
        alloc,
        &["apply", "box", "--border", "replicate"],
        reader,
        &mut written,
    );
    match ended {
        Ok(()) => assert!(rt; false, "ended well, not {line}"),
        Err(ended) => {
            assert!(rt; ended.status() == status);
            assert!(rt; ended.line() == line);
        }
    }
    assert!(rt; written.is_empty());
}

#[test]
fn refuses_texts(rt: HostRuntime) {
    for (text, line) in [
        (&b""[..], "INVALID_FORMAT"),
        (b"P5", "INVALID_FORMAT"),
        (b"P5 1 1 255\n\x0a\x14", "INVALID_FORMAT"),
        (b"P2 1 1 300 5", "INVALID_FORMAT"),
        (b"P5 1 1 300\n\x01\x2c", "INVALID_FORMAT"),
        (b"P5 0 1 255\n", "INVALID_DIMENSION"),
        (b"P2 1 8193 300 5", "INVALID_DIMENSION"),
        (b"P2 1 1 300 301", "INVALID_VALUE"),
        (b"P5 1 1 100\n\x65", "INVALID_VALUE"),
    ] {
        ends(&rt, rt.alloc(), text, 5, line);
    }
}

/// A reader that gives `bytes`, and then fails.
#[derive(Drop)]
struct FailingReader<'a> {
    bytes: &'a [u8],
}

impl Read for FailingReader<'_> {
    fn read(&mut self, buf: &mut [u8]) -> io::Result<usize> {
        if self.bytes.is_empty() {
            return Err(io::Error::from(ErrorKind::Other));
        }
        self.bytes.read(buf)
    }
}

#[test]
fn tells_a_reader_that_fails(rt: HostRuntime) {
    // The read fault is reported whatever bytes came before it, even a whole text or a faulty text.
    for bytes in [&b""[..], SQUARE, b"P5 0 1 255\n"] {
        ends(&rt, rt.alloc(), FailingReader { bytes }, 4, "read failed");
    }
}

#[test]
fn tells_a_text_that_is_too_long(rt: HostRuntime) {
    // The text is one byte too long. The reader would fail after that byte.
    let endless = io::repeat(b' ').take(536_870_913);
    let failing = endless.chain(FailingReader { bytes: b"" });
    ends(&rt, rt.alloc(), failing, 5, "NO_RESOURCES");
}

/// A writer that takes at most `room` bytes. Further writes fail, and so does each flush.
#[derive(Drop)]
struct FailingWriter {
    room: usize,
}

impl Write for FailingWriter {
    fn write(&mut self, bytes: &[u8]) -> io::Result<usize> {
        if self.room == 0 {
            return Err(io::Error::from(ErrorKind::Other));
        }
        let count = bytes.len().min(self.room);
        self.room -= count;
        Ok(count)
    }

    fn flush(&mut self) -> io::Result<()> {
        Err(io::Error::from(ErrorKind::Other))
    }
}

#[test]
fn tells_a_writer_that_fails(rt: HostRuntime) {
    for (text, room, status, line) in [
        (SQUARE, 0, 4, "write failed"),
        (SQUARE, 5, 4, "write failed"),
        (SQUARE, 100, 4, "write failed"),
        (b"P5", 0, 5, "INVALID_FORMAT"),
        (b"P2 1 1 300 5", 0, 5, "INVALID_FORMAT"),
    ] {
        match run(rt.alloc(), &["apply", "not"], text, FailingWriter { room }) {
            Ok(()) => assert!(rt; false, "ended well, not {line}"),
            Err(ended) => {
                assert!(rt; ended.status() == status);
                assert!(rt; ended.line() == line);
            }
        }
    }
}
