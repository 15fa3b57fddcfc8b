//! The caller's bytes as a source, and the caller's buffers as a sink.
ghost use Rattle.std.specs.Prelude.{◌≡◌, ◌+◌, ◌<◌, ◌≤◌, ◌++◌, length, take, get_or};

use vx_requests::{Failed, Sink, Source};

/// Two slices, one after the other.
#[derive(Drop)]
pub struct Slices<'a> {
    pub front: &'a [u8],
    pub back: &'a [u8],
    pub reads: u64,
}

impl Source for Slices<'_> {
    ghost use Rattle.std.specs.Prelude.{Some};

    ghost left = { λ s. Some (s.front.now ++ s.back.now) };

    ghost reads = { λ s. s.reads };

    ghost failures = { λ _. 0 };

    fn read(&mut self, buf: &mut [u8]) -> Result<usize, Failed> {
        self.reads += 1;
        if self.front.is_empty() {
            let count = buf.len().min(self.back.len());
            buf[..count].copy_from_slice(&self.back[..count]);
            self.back = &self.back[count..];
            return Ok(count);
        }
        let count = buf.len().min(self.front.len());
        buf[..count].copy_from_slice(&self.front[..count]);
        self.front = &self.front[count..];
        Ok(count)
    }
}

/// Two buffers, one after the other, and the number of bytes that they have taken together. Writes
/// fail only when both are full.
#[derive(Drop)]
pub struct ReplyBuffer<'a> {
    pub bytes: &'a mut [u8],
    pub rest: &'a mut [u8],
    pub count: usize,
    pub failures: u64,
    ghost within: { count ≤ length bytes.now + length rest.now },
    ghost full: { 0 < failures → count ≡ length bytes.now + length rest.now },
}

impl Sink for ReplyBuffer<'_> {
    ghost use Rattle.std.specs.Prelude.{Some, ◌∷◌};

    // The ghost names of the buffers come before the bytes. They are kept like them, so whoever
    // made the sink knows that the bytes are still in the same buffers.
    ghost taken = { λ s. Some (s.bytes.ghost_name ∷ s.rest.ghost_name
        ∷ take s.count (s.bytes.now ++ s.rest.now)) };

    ghost failures = { λ s. s.failures };

    fn write(&mut self, bytes: &[u8]) -> Result<usize, Failed> {
        let count = fill(self.bytes, self.rest, self.count, bytes);
        if count == 0 && !bytes.is_empty() {
            self.failures += 1;
        }
        self.count += count;
        Ok(count)
    }

    fn flush(&mut self) -> Result<(), Failed> {
        Ok(())
    }
}

/// Copies the front of `bytes` to two slices, one after the other, from `at` on. Stops at the end
/// of a slice. Returns the number of bytes copied.
fn fill(front: &mut [u8], back: &mut [u8], at: usize, bytes: &[u8]) -> usize
    requires { at ≤ length front.old + length back.old }
    ensures count { (at + result ≤ length front.old + length back.old)
        × (result ≤ length bytes.now) }
    ensures full { result ≡ 0 → 0 < length bytes.now → at ≡ length front.old + length back.old }
    ensures sizes { (length front.new ≡ length front.old) × (length back.new ≡ length back.old) }
    ensures copied { take (at + result) (front.new ++ back.new)
        ≡ take at (front.old ++ back.old) ++ take result bytes.now }
{
    if at < front.len() {
        return copy_at(front, at, bytes);
    }
    copy_at(back, at - front.len(), bytes)
}

/// Copies the front of `bytes` to `to`, from `at` on, as far as there is room. Returns the number
/// of bytes copied.
fn copy_at(to: &mut [u8], at: usize, bytes: &[u8]) -> usize
    requires { at ≤ length to.old }
    ensures count { (at + result ≤ length to.old) × (result ≤ length bytes.now) }
    ensures full { result ≡ 0 → 0 < length bytes.now → at ≡ length to.old }
    ensures size { length to.new ≡ length to.old }
    ensures copied { take (at + result) to.new ≡ take at to.old ++ take result bytes.now }
{
    let count = bytes.len().min(to.len() - at);
    to[at..at + count].copy_from_slice(&bytes[..count]);
    count
}

/// Returns the byte at a place of two slices, one after the other.
pub fn byte_at(front: &[u8], back: &[u8], at: usize) -> u8
    requires { at < length front.now + length back.now }
    ensures { result ≡ get_or (front.now ++ back.now) at 0 }
{
    if at < front.len() {
        front[at]
    } else {
        back[at - front.len()]
    }
}
