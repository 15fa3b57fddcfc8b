//! The results of calls, as numbers for C.
ghost use Rattle.std.specs.Prelude.{◌≡◌};
ghost use Rattle.vx_embed.specs.Status.{status_number};

/// The result of a call.
#[derive(Clone, Copy, Debug, PartialEq, Eq)]
pub enum Status {
    /// The call did what was asked.
    Ok,
    /// The reply doesn't fit the buffer. No state has changed.
    TooShort,
    /// The bytes aren't exactly one request frame. Nothing has changed.
    NotAFrame,
    /// The handle holds no server.
    NotOpen,
    /// The handle already holds a server.
    AlreadyOpen,
    /// A limit is out of range.
    BadLimits,
    /// An allocation failed.
    NoMemory,
    /// No connection with this number is open. Nothing has changed.
    NotConnected,
}

impl Status {
    /// Returns the number of the status.
    pub fn number(self) -> u32
        ensures { result ≡ status_number self }
    {
        match self {
            Status::Ok => 0,
            Status::TooShort => 1,
            Status::NotAFrame => 2,
            Status::NotOpen => 3,
            Status::AlreadyOpen => 4,
            Status::BadLimits => 5,
            Status::NoMemory => 6,
            Status::NotConnected => 7,
        }
    }
}
