//! How the program ends without success.
ghost use Rattle.std.specs.Prelude.{◌≡◌};

use client_contexts::NoMemory;
use pgm_images::PgmFault;
use std::alloc::{AllocError, AllocFailed};
use vx_base::Code;
use vx_requests::StreamFault;

/// Why the program ended without success.
#[derive(Debug, Drop)]
pub enum Ended {
    /// The command line was refused, with this text.
    CommandLine(String),
    /// Reading the input or writing the output ended with this fault.
    Stream(StreamFault),
    /// `apply` failed with this code, or memory was refused while the program started.
    Refused(Code),
}

impl Ended {
    ghost use Rattle.vx_programs.specs.Ended.{ended_status, ended_line};

    /// Returns the program's exit status.
    pub fn status(&self) -> u8
        ensures { result ≡ ended_status self.now }
    {
        match self {
            Ended::CommandLine(_) => 2,
            Ended::Stream(StreamFault::ReadFailed | StreamFault::WriteFailed) => 4,
            Ended::Stream(_) => 3,
            Ended::Refused(_) => 5,
        }
    }

    /// Returns the text for standard error, without the final line feed. The text of a refused
    /// command line may have several lines.
    pub fn line(&self) -> &str
        ensures { result.now ≡ ended_line self.now }
    {
        match self {
            Ended::CommandLine(text) => text.as_str(),
            Ended::Stream(StreamFault::Truncated) => "truncated",
            Ended::Stream(StreamFault::BadLength) => "bad length",
            Ended::Stream(StreamFault::ReadFailed) => "read failed",
            Ended::Stream(StreamFault::WriteFailed) => "write failed",
            Ended::Stream(StreamFault::ReaderWouldNotEnd) => "reader would not end",
            Ended::Refused(code) => code.name(),
        }
    }
}

impl From<AllocError> for Ended {
    fn from(_error: AllocError) -> Ended {
        Ended::Refused(Code::NoMemory)
    }
}

impl<T: Drop> From<AllocFailed<T>> for Ended {
    fn from(_failed: AllocFailed<T>) -> Ended {
        Ended::Refused(Code::NoMemory)
    }
}

impl From<NoMemory> for Ended {
    ghost use Rattle.vx_base.specs.declared.code.Code.TheVariants as code;
    ghost use Rattle.vx_programs.specs.declared.ended.Ended.TheVariants.{Refused};

    ghost from_gives = { λ _ ended. ended ≡ Refused code.NoMemory };

    fn from(_error: NoMemory) -> Ended {
        Ended::Refused(Code::NoMemory)
    }
}

impl From<PgmFault> for Ended {
    ghost use Rattle.vx_programs.specs.Apply.{pgm_fault_code};
    ghost use Rattle.vx_programs.specs.declared.ended.Ended.TheVariants.{Refused};

    ghost from_gives = { λ fault ended. ended ≡ Refused (pgm_fault_code fault) };

    fn from(fault: PgmFault) -> Ended {
        Ended::Refused(match fault {
            PgmFault::NoMemory => Code::NoMemory,
            PgmFault::InvalidFormat => Code::InvalidFormat,
            PgmFault::InvalidDimension => Code::InvalidDimension,
            PgmFault::InvalidValue => Code::InvalidValue,
        })
    }
}
