//! Status codes of requests.
ghost use Rattle.std.specs.Prelude.{◌≡◌};
ghost use Rattle.vx_base.specs.Code.{code_number, code_name};

/// The result of a request. The names are the names of OpenVX 1.3's `vx_status_e` without `VX_` and
/// `VX_ERROR_`; the numbers are this project's.
#[derive(Clone, Copy, PartialEq, Eq, Debug)]
pub enum Code {
    Success,
    NoMemory,
    InvalidParameters,
    InvalidReference,
    InvalidScope,
    InvalidFormat,
    InvalidDimension,
    InvalidValue,
    InvalidType,
    InvalidGraph,
    InvalidLink,
    MultipleWriters,
    OptimizedAway,
    NoResources,
}

impl Code {
    /// Returns the code's number, a byte in a reply.
    pub fn number(self) -> u8
        ensures { result ≡ code_number self }
    {
        self as u8
    }

    /// Returns the code's name in capitals, such as `INVALID_FORMAT`.
    pub fn name(self) -> &'static str
        ensures { result.now ≡ code_name self }
    {
        match self {
            Code::Success => "SUCCESS",
            Code::NoMemory => "NO_MEMORY",
            Code::InvalidParameters => "INVALID_PARAMETERS",
            Code::InvalidReference => "INVALID_REFERENCE",
            Code::InvalidScope => "INVALID_SCOPE",
            Code::InvalidFormat => "INVALID_FORMAT",
            Code::InvalidDimension => "INVALID_DIMENSION",
            Code::InvalidValue => "INVALID_VALUE",
            Code::InvalidType => "INVALID_TYPE",
            Code::InvalidGraph => "INVALID_GRAPH",
            Code::InvalidLink => "INVALID_LINK",
            Code::MultipleWriters => "MULTIPLE_WRITERS",
            Code::OptimizedAway => "OPTIMIZED_AWAY",
            Code::NoResources => "NO_RESOURCES",
        }
    }
}
