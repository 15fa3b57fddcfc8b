//! A source and a sink in memory that move a few bytes in each call, and can fail.
ghost use Rattle.std.specs.Prelude.{◌<◌, Some};

use vx_requests::{Failed, Sink, Source};

/// More calls than a test makes.
pub const NEVER: u64 = 1 << 40;

/// A source that gives at most `piece` bytes in each read.
#[derive(Drop)]
pub struct PiecewiseSource<'a> {
    pub bytes: &'a [u8],
    pub piece: usize,
    /// The number of reads before one fails.
    pub until_failure: u64,
    pub reads: u64,
    pub failures: u64,
    ghost gives_some: { 0 < piece },
}

impl Source for PiecewiseSource<'_> {
    ghost left = { λ s. Some s.bytes.now };

    ghost reads = { λ s. s.reads };

    ghost failures = { λ s. s.failures };

    fn read(&mut self, buf: &mut [u8]) -> Result<usize, Failed> {
        self.reads += 1;
        if self.until_failure == 0 {
            self.failures += 1;
            return Err(Failed);
        }
        self.until_failure -= 1;
        let count = buf.len().min(self.piece).min(self.bytes.len());
        buf[..count].copy_from_slice(&self.bytes[..count]);
        self.bytes = &self.bytes[count..];
        Ok(count)
    }
}

/// A sink that takes at most `piece` bytes in each write.
#[derive(Drop)]
pub struct PiecewiseSink {
    pub bytes: Vec<u8>,
    pub piece: usize,
    /// The number of writes and flushes before one fails.
    pub until_failure: u64,
    pub failures: u64,
}

impl Sink for PiecewiseSink {
    ghost taken = { λ s. Some s.bytes.items };

    ghost failures = { λ s. s.failures };

    fn write(&mut self, bytes: &[u8]) -> Result<usize, Failed> {
        let count = bytes.len().min(self.piece);
        if self.until_failure == 0 || self.bytes.extend_from_slice(&bytes[..count]).is_err() {
            self.failures += 1;
            return Err(Failed);
        }
        self.until_failure -= 1;
        if count == 0 && !bytes.is_empty() {
            self.failures += 1;
        }
        Ok(count)
    }

    fn flush(&mut self) -> Result<(), Failed> {
        if self.until_failure == 0 {
            self.failures += 1;
            return Err(Failed);
        }
        self.until_failure -= 1;
        Ok(())
    }
}
