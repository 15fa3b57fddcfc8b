//! Std's readers and writers, through `FromRead` and `FromWrite`. Std's own loops retry some
//! errors; here every error ends the stream, and nothing is retried.
ghost use Rattle.std.specs.Prelude.{◌<◌, ◌^◌};

use std::io;
use std::io::{ErrorKind, Read, Write};
use vx_requests::{Failed, FromRead, FromWrite, Sink, Source, StreamFault, fill, write_all};

/// A reader that answers each read from a script: with a byte, or with an error that std's own
/// loops would retry.
#[derive(Drop)]
struct ScriptedReader<'a> {
    answers: &'a [Option<u8>],
    asked: usize,
}

impl Read for ScriptedReader<'_> {
    fn read(&mut self, buf: &mut [u8]) -> io::Result<usize> {
        let answer = self.answers.get(self.asked);
        if answer.is_some() {
            self.asked += 1;
        }
        match answer {
            Some(Some(byte)) if !buf.is_empty() => {
                buf[0] = *byte;
                Ok(1)
            }
            Some(None) => Err(io::Error::from(ErrorKind::Interrupted)),
            _ => Ok(0),
        }
    }
}

/// Fills three bytes from a script. Returns the result, the bytes, and the number of answers that
/// were used.
fn fill_three(
    answers: &[Option<u8>],
    mut budget: u64,
) -> (Result<usize, StreamFault>, [u8; 3], usize)
    requires { budget < 2 ^ 62 }
{
    let mut source = FromRead::new(ScriptedReader { answers, asked: 0 });
    let mut buf = [b'.'; 3];
    let filled = fill(&mut source, &mut budget, &mut buf);
    (filled, buf, source.into_inner().asked)
}

#[test]
fn reads_no_more_after_an_error(rt: HostRuntime) {
    let failed = Err(StreamFault::ReadFailed);
    let bytes = [Some(b'a'), Some(b'b'), Some(b'c')];
    assert!(rt; fill_three(&bytes, 3) == (Ok(3), *b"abc", 3));
    assert!(rt; fill_three(&bytes, 2) == (Err(StreamFault::ReaderWouldNotEnd), *b"ab.", 2));
    assert!(rt; fill_three(&bytes[..1], 9) == (Ok(1), *b"a..", 1));
    assert!(rt; fill_three(&[Some(b'a'), None, Some(b'b')], 9) == (failed, *b"a..", 2));
    assert!(rt; fill_three(&[None, Some(b'a')], 9) == (failed, *b"...", 1));
}

/// A writer that takes a limited number of bytes in each write, or fails.
#[derive(Drop)]
struct ScriptedWriter {
    taken: Vec<u8>,
    piece: Option<usize>,
    is_flushed: bool,
}

impl Write for ScriptedWriter {
    fn write(&mut self, bytes: &[u8]) -> io::Result<usize> {
        match self.piece {
            Some(piece) => {
                let count = bytes.len().min(piece);
                self.taken.extend_from_slice(&bytes[..count])?;
                Ok(count)
            }
            None => Err(io::Error::from(ErrorKind::Interrupted)),
        }
    }

    fn flush(&mut self) -> io::Result<()> {
        self.is_flushed = true;
        match self.piece {
            Some(_) => Ok(()),
            None => Err(io::Error::from(ErrorKind::Interrupted)),
        }
    }
}

#[test]
fn passes_on_what_a_writer_answers(rt: HostRuntime) {
    let failed = Err(StreamFault::WriteFailed);
    for (piece, written, flushed, taken) in [
        (Some(2), Ok(()), Ok(()), &b"abc"[..]),
        (Some(0), failed, Ok(()), b""),
        (None, failed, Err(Failed), b""),
    ] {
        let mut sink = FromWrite::new(ScriptedWriter {
            taken: Vec::new(rt.alloc()),
            piece,
            is_flushed: false,
        });
        assert!(rt; write_all(&mut sink, b"abc") == written);
        assert!(rt; sink.flush() == flushed);
        let writer = sink.into_inner();
        assert!(rt; writer.taken.as_slice() == taken);
        assert!(rt; writer.is_flushed);
    }
}
