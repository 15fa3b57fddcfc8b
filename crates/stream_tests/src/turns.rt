//! Checks that a reply is written and flushed before a byte of the next frame is read. To find out,
//! the source watches the sink.
ghost use Rattle.std.specs.Prelude.{None};

use crate::devices::NEVER;
use crate::streams::{REPLIES, TURNS};
use client_contexts::Runtime;
use client_model::Limits;
use std::cell::Cell;
use vx_requests::{Failed, Sink, Source, Summary, serve};

/// A source of frames. It fails if a byte of the next frame is read too early: before the reply to
/// the current frame was flushed, or while the sink holds bytes written after the flush.
#[derive(Drop)]
struct InTurns<'a> {
    stream: &'a [u8],
    /// The number of bytes of the current frame that are left.
    frame: usize,
    begun: u64,
    flushed: &'a Cell<u64>,
    holds: &'a Cell<bool>,
    reads: u64,
    failures: u64,
}

impl InTurns<'_> {
    /// Returns the number of bytes of the next frame, or 0 while that frame must not be read.
    fn next_frame(&self) -> usize {
        match self.stream {
            [a, b, c, d, ..] if self.flushed.get() == self.begun && !self.holds.get() => {
                4 + u32::from_be_bytes([*a, *b, *c, *d]) as usize
            }
            _ => 0,
        }
    }
}

impl Source for InTurns<'_> {
    ghost left = { λ s. None };

    ghost reads = { λ s. s.reads };

    ghost failures = { λ s. s.failures };

    fn read(&mut self, buf: &mut [u8]) -> Result<usize, Failed> {
        self.reads += 1;
        if self.stream.is_empty() {
            return Ok(0);
        }
        if self.frame == 0 {
            self.frame = self.next_frame();
            if self.begun < NEVER {
                self.begun += 1;
            }
        }
        let count = buf.len();
        if count > self.frame || count > self.stream.len() {
            self.failures += 1;
            return Err(Failed);
        }
        buf.copy_from_slice(&self.stream[..count]);
        self.stream = &self.stream[count..];
        self.frame -= count;
        Ok(count)
    }
}

/// A sink that counts its flushes, and shows the source whether any bytes were written after the
/// last flush.
#[derive(Drop)]
struct Flushed<'a> {
    bytes: Vec<u8>,
    flushed: &'a Cell<u64>,
    holds: &'a Cell<bool>,
    failures: u64,
}

impl Sink for Flushed<'_> {
    ghost taken = { λ s. None };

    ghost failures = { λ s. s.failures };

    fn write(&mut self, bytes: &[u8]) -> Result<usize, Failed> {
        self.holds.set(true);
        match self.bytes.extend_from_slice(bytes) {
            Ok(()) => Ok(bytes.len()),
            Err(_) => {
                self.failures += 1;
                Err(Failed)
            }
        }
    }

    fn flush(&mut self) -> Result<(), Failed> {
        self.flushed.set(self.flushed.get().wrapping_add(1));
        self.holds.set(false);
        Ok(())
    }
}

#[test]
fn replies_before_it_reads_on(rt: HostRuntime) {
    let flushed = Cell::new(0);
    let holds = Cell::new(false);
    let mut source = InTurns {
        stream: TURNS,
        frame: 0,
        begun: 0,
        flushed: &flushed,
        holds: &holds,
        reads: 0,
        failures: 0,
    };
    let mut sink = Flushed {
        bytes: Vec::new(rt.alloc()),
        flushed: &flushed,
        holds: &holds,
        failures: 0,
    };
    let mut runtime = Runtime::new(rt.alloc(), Limits::default());
    let result = serve(rt.alloc(), &mut source, &mut sink, &mut runtime);
    assert!(rt;
        result
            == Ok(Summary {
                requests: 8,
                refused: 0
            })
    );
    assert!(rt; sink.bytes.as_slice() == REPLIES);
    assert!(rt; flushed.get() == 8);
    assert!(rt; !holds.get());
}
