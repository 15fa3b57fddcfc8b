//! Why a text could not be read.
ghost use Rattle.std.specs.Prelude.{◌≡◌};

use std::alloc::AllocError;
use thiserror::Error;

/// Why a text could not be read: it encodes no picture, or memory ran out.
#[derive(Clone, Copy, Debug, PartialEq, Eq, Error)]
pub enum PgmFault {
    /// No memory could be allocated for the samples of the picture.
    #[error("no memory")]
    NoMemory,
    /// The text has no PGM header, its maxval isn't 1 to 32767, or the header isn't followed by
    /// exactly the number of samples that it states.
    #[error("invalid format")]
    InvalidFormat,
    /// The width or the height isn't 1 to 8192.
    #[error("invalid dimension")]
    InvalidDimension,
    /// A sample is above the maxval.
    #[error("invalid value")]
    InvalidValue,
}

impl From<AllocError> for PgmFault {
    ghost use Rattle.std.specs.Prelude.{◌≡◌};
    ghost use Rattle.pgm_images.specs.declared.fault.PgmFault.TheVariants.{NoMemory};

    ghost from_gives = { λ _ e. e ≡ NoMemory };

    fn from(_refused: AllocError) -> PgmFault {
        PgmFault::NoMemory
    }
}
