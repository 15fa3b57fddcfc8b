//! The parts of a frame, read from a source.
ghost use Rattle.std.specs.Prelude.{◌≡◌, ◌+◌, ◌<◌, ◌≤◌, ◌^◌, [], ◌∷◌, ◌++◌, length, All};
ghost use Rattle.std.specs.Prelude.{OnOk, IfOk, IfErr};
ghost use Rattle.std.specs.Int.{w16, w32, to_be_bytes};
ghost use Rattle.std.specs.Io.KnownBytes.{Consumes};
ghost use Rattle.vx_requests.specs.Frame.Reading.{ReadsPart, ReadsSome, ReadsLength, CanRead};
ghost use Rattle.vx_requests.specs.Frame.Reading.{KeepsCount};

use crate::frame::limits::{GREATEST_LENGTH, LEAST_LENGTH};
use crate::stream::{Source, StreamFault, fill};

/// The most bytes that are skipped at a time.
const PAST: usize = 4096;

/// A source, and its budget: the number of reads that are still allowed.
#[derive(Drop)]
pub struct Reader<'a, S> {
    pub source: &'a mut S,
    pub budget: u64,
}

impl<S: Source> Reader<'_, S> {
    /// Reads the length of the next frame, and no byte after the length. `None`: the stream has
    /// ended. `BadLength`: the length is out of range. `Truncated`: the stream ends within the four
    /// bytes of the length.
    pub fn read_length(&mut self) -> Result<Option<u32>, StreamFault>
        requires { CanRead S.reads S.failures self.old }
        ensures read { ReadsLength
            (S.left self.old.source.now) (S.left self.new.source.now) result }
        ensures counted { KeepsCount S.reads S.failures self.old self.new result }
        ensures once { IfOk result (λ length. self.new.budget < self.old.budget) }
        ensures sparing { S.reads self.new.source.now ≤ S.reads self.old.source.now + 4 }
    {
        let mut bytes = [0u8; 4];
        let count = fill(self.source, &mut self.budget, &mut bytes)?;
        if count == 0 {
            return Ok(None);
        }
        if count < 4 {
            return Err(StreamFault::Truncated);
        }
        let length = number_of_four(&bytes);
        if length < LEAST_LENGTH || length > GREATEST_LENGTH {
            return Err(StreamFault::BadLength);
        }
        Ok(Some(length))
    }

    /// Fills the buffer with bytes of a frame. `Truncated`: the stream ends before the buffer is
    /// full.
    pub fn read_exactly(&mut self, buf: &mut [u8]) -> Result<(), StreamFault>
        requires { CanRead S.reads S.failures self.old }
        ensures ok { OnOk result (Consumes
            (S.left self.old.source.now) (S.left self.new.source.now) buf.new) }
        ensures err { IfErr result (ReadsPart
            (S.left self.old.source.now) (S.left self.new.source.now) (length buf.new)) }
        ensures bytes { All (λ b. b < 2 ^ 8) buf.new }
        ensures counted { KeepsCount S.reads S.failures self.old self.new result }
        ensures sparing { S.reads self.new.source.now
            ≤ S.reads self.old.source.now + length buf.new }
    {
        let count = fill(self.source, &mut self.budget, buf)?;
        if count < buf.len() {
            return Err(StreamFault::Truncated);
        }
        Ok(())
    }

    /// Skips `count` bytes of a frame. `Truncated`: the stream ends within these bytes.
    pub fn skip(&mut self, count: usize) -> Result<(), StreamFault>
        requires { CanRead S.reads S.failures self.old }
        ensures ok { OnOk result (ReadsSome
            (S.left self.old.source.now) (S.left self.new.source.now) count) }
        ensures err { IfErr result (ReadsPart
            (S.left self.old.source.now) (S.left self.new.source.now) count) }
        ensures counted { KeepsCount S.reads S.failures self.old self.new result }
        ensures sparing { S.reads self.new.source.now ≤ S.reads self.old.source.now + count }
    {
        let mut buf = [0u8; PAST];
        let mut rest = count;
        while rest > 0 {
            let now = rest.min(PAST);
            self.read_exactly(&mut buf[..now])?;
            rest -= now;
        }
        Ok(())
    }

    /// Reads the client and the op of a frame.
    pub fn read_front(&mut self) -> Result<(u16, u8), StreamFault>
        requires { CanRead S.reads S.failures self.old }
        ensures ok { IfOk result (λ front. Consumes
            (S.left self.old.source.now) (S.left self.new.source.now)
            (to_be_bytes w16 front.0 ++ front.1 ∷ [])) }
        ensures err { IfErr result (ReadsPart
            (S.left self.old.source.now) (S.left self.new.source.now) 3) }
        ensures counted { KeepsCount S.reads S.failures self.old self.new result }
        ensures sparing { S.reads self.new.source.now ≤ S.reads self.old.source.now + 3 }
    {
        let mut bytes = [0u8; 3];
        self.read_exactly(&mut bytes)?;
        Ok((number_of_two(&bytes[..2]), bytes[2]))
    }
}

/// Returns the number that four bytes encode, the most significant first.
fn number_of_four(bytes: &[u8; 4]) -> u32
    ensures { to_be_bytes w32 result ≡ bytes.now }
{
    u32::from_be_bytes(*bytes)
}

/// Returns the number that two bytes encode, the most significant first.
pub fn number_of_two(bytes: &[u8]) -> u16
    requires { length bytes.now ≡ 2 }
    ensures { to_be_bytes w16 result ≡ bytes.now }
{
    u16::from_be_bytes([bytes[0], bytes[1]])
}
