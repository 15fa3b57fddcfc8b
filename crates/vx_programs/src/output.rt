//! Writes whole texts to a writer.
ghost use Rattle.std.specs.Prelude.{◌≡◌, OnOk, IfErr};
ghost use Rattle.std.specs.Io.KnownBytes.{Appends};
ghost use Rattle.vx_programs.specs.declared.ended.Ended.TheVariants.{Stream};
ghost use Rattle.vx_requests.specs.declared.stream.fault.StreamFault.TheVariants.{WriteFailed};

use crate::ended::Ended;
use std::io::Write;
use vx_requests::StreamFault;

/// Writes all of the bytes, and flushes the writer.
pub fn write_to_end<W: Write>(writer: &mut W, bytes: &[u8]) -> Result<(), Ended>
    ensures ok { OnOk result (Appends (W.contents writer.old) (W.contents writer.new) bytes.now) }
    ensures err { IfErr result (λ ended. ended ≡ Stream WriteFailed) }
{
    let written = writer.write_all(bytes);
    if written.is_err() || writer.flush().is_err() {
        return Err(Ended::Stream(StreamFault::WriteFailed));
    }
    Ok(())
}
