//! Why parsing a body failed.
ghost use Rattle.std.specs.Prelude.{◌≡◌};

use crate::body_fault::BodyFault;
use std::alloc::AllocError;
use thiserror::Error;
use vx_base::Code;

/// Why parsing a body failed: the body encodes no request, or memory ran out.
#[derive(Clone, Copy, Debug, PartialEq, Eq, Error)]
pub enum ParseFault {
    /// No memory could be allocated for a picture's samples, a lookup table's entries or a text.
    #[error("no memory")]
    NoMemory,
    /// The op is unknown, a field is cut short, or bytes follow the last field. Or a field's value
    /// isn't allowed, and none of the faults below applies.
    #[error("invalid parameters")]
    InvalidParameters,
    /// A number isn't a format, or the format of a lookup table or a threshold is U32.
    #[error("invalid format")]
    InvalidFormat,
    /// A dimension is out of range, as `BodyFault::InvalidDimension` lists.
    #[error("invalid dimension")]
    InvalidDimension,
    /// A number is out of range, as `BodyFault::InvalidValue` lists.
    #[error("invalid value")]
    InvalidValue,
}

impl ParseFault {
    ghost use Rattle.vx_wire.specs.Faults.{fault_code};

    /// Returns the status code of the reply when parsing fails with this fault.
    pub fn code(self) -> Code
        ensures { result ≡ fault_code self }
    {
        match self {
            ParseFault::NoMemory => Code::NoMemory,
            ParseFault::InvalidParameters => Code::InvalidParameters,
            ParseFault::InvalidFormat => Code::InvalidFormat,
            ParseFault::InvalidDimension => Code::InvalidDimension,
            ParseFault::InvalidValue => Code::InvalidValue,
        }
    }
}

impl From<BodyFault> for ParseFault {
    ghost use Rattle.std.specs.Prelude.{◌≡◌};
    ghost use Rattle.vx_wire.specs.Faults.{parse_fault};

    ghost from_gives = { λ fault e. e ≡ parse_fault fault };

    fn from(fault: BodyFault) -> ParseFault {
        match fault {
            BodyFault::InvalidParameters => ParseFault::InvalidParameters,
            BodyFault::InvalidFormat => ParseFault::InvalidFormat,
            BodyFault::InvalidDimension => ParseFault::InvalidDimension,
            BodyFault::InvalidValue => ParseFault::InvalidValue,
        }
    }
}

impl From<AllocError> for ParseFault {
    ghost use Rattle.std.specs.Prelude.{◌≡◌};
    ghost use Rattle.vx_wire.specs.declared.parse_fault.ParseFault.TheVariants.{NoMemory};

    ghost from_gives = { λ _ e. e ≡ NoMemory };

    fn from(_refused: AllocError) -> ParseFault {
        ParseFault::NoMemory
    }
}
