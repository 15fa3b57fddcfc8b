//! Why a request is refused.
ghost use Rattle.std.specs.Prelude.{◌≡◌};

use graph_verify::Verdict;
use vx_base::Code;

/// Why a request is refused. A refused request changes nothing.
#[derive(Clone, Copy, PartialEq, Eq, Debug)]
pub enum Refusal {
    /// A name isn't live, or the graph doesn't have the node that the request should remove.
    InvalidReference,
    /// An object isn't of the kind that the request needs, or a reference names a slot of an object
    /// that isn't a delay.
    InvalidType,
    /// One of these cases:
    ///
    /// - the request opens a context, but the client has one already
    /// - a reference names a slot that its delay doesn't have
    /// - a rectangle goes beyond the image
    /// - a PGM text has a sample above its maxval
    InvalidValue,
    /// One of these cases:
    ///
    /// - the format of a picture isn't the image's format
    /// - an image that is read as a PGM text isn't U8
    /// - a text that is written to an image has no PGM header
    /// - the maxval of a PGM text isn't 1 to 32767
    /// - a PGM header isn't followed by exactly the number of samples that it states
    InvalidFormat,
    /// The size of a picture isn't the image's size, or a PGM text states a side that isn't 1 to
    /// 8192.
    InvalidDimension,
    /// A node names a virtual image of another graph.
    InvalidScope,
    /// The request names a virtual image, but can't take one.
    OptimizedAway,
    /// All names are used up, 1,024 objects are held, a new object would raise the charge above the
    /// quota, or the graph can't take another node.
    NoResources,
    /// A graph, or the node of an Immediate, can't run. The verdict says why.
    Rejected(Verdict),
}

impl Refusal {
    ghost use Rattle.client_model.specs.Refusal.{refusal_code};

    /// Returns the status code of the refusal.
    pub fn code(self) -> Code
        ensures { result ≡ refusal_code self }
    {
        match self {
            Refusal::InvalidReference => Code::InvalidReference,
            Refusal::InvalidType => Code::InvalidType,
            Refusal::InvalidValue => Code::InvalidValue,
            Refusal::InvalidFormat => Code::InvalidFormat,
            Refusal::InvalidDimension => Code::InvalidDimension,
            Refusal::InvalidScope => Code::InvalidScope,
            Refusal::OptimizedAway => Code::OptimizedAway,
            Refusal::NoResources => Code::NoResources,
            Refusal::Rejected(verdict) => verdict.code(),
        }
    }
}
