//! Operands: the properties of objects on which a verdict depends.
ghost use Rattle.std.specs.Prelude.{◌≡◌};

use vx_base::{Desc, Format, Kind, PartialDesc};

/// An object that a node names: its kind, and the properties on which a verdict depends.
#[derive(Clone, Copy, PartialEq, Eq, Debug)]
pub enum Operand {
    /// An image of this size and format.
    Image(Desc),
    /// A lookup table of samples of this format.
    Lut(Format),
    /// A threshold for samples of this format.
    Threshold(Format),
    /// A delay itself, which no function takes. Each slot of a delay is an image.
    Delay,
    /// A convolution, whose coefficients are S16.
    Convolution,
    /// A distribution.
    Distribution,
    /// The extremes of an image.
    Extremes,
    /// A graph, which no function takes.
    Graph,
    /// A virtual image with this partial description.
    Virtual(PartialDesc),
    /// A reference that names no object. No function takes such an operand.
    Missing,
}

/// The operands of a node. An operand that the node doesn't have is `None`.
#[derive(Clone, Copy, PartialEq, Eq, Debug)]
pub struct Operands {
    pub in1: Operand,
    pub in2: Option<Operand>,
    pub out1: Option<Operand>,
    pub out2: Option<Operand>,
}

impl Operand {
    ghost use Rattle.graph_verify.specs.Operand.{operand_kind, operand_format, is_virtual};

    /// Returns the kind of the object, or `None` if there is no object.
    pub fn kind(self) -> Option<Kind>
        ensures { result ≡ operand_kind self }
    {
        match self {
            Operand::Image(_) => Some(Kind::Image),
            Operand::Lut(_) => Some(Kind::Lut),
            Operand::Threshold(_) => Some(Kind::Threshold),
            Operand::Delay => Some(Kind::Delay),
            Operand::Convolution => Some(Kind::Convolution),
            Operand::Distribution => Some(Kind::Distribution),
            Operand::Extremes => Some(Kind::Extremes),
            Operand::Graph => Some(Kind::Graph),
            Operand::Virtual(_) => Some(Kind::VirtualImage),
            Operand::Missing => None,
        }
    }

    /// Checks whether the operand is a virtual image.
    pub fn is_virtual(self) -> bool
        ensures { result ≡ is_virtual self }
    {
        matches!(self, Operand::Virtual(_))
    }

    /// Returns the format of an image's samples, of a lookup table's entries, of the samples that a
    /// threshold tests, or of a convolution's coefficients. `None` for a virtual image and for any
    /// other operand.
    pub fn format(self) -> Option<Format>
        ensures { result ≡ operand_format self }
    {
        match self {
            Operand::Image(desc) => Some(desc.format()),
            Operand::Lut(format) | Operand::Threshold(format) => Some(format),
            Operand::Convolution => Some(Format::S16),
            Operand::Delay
            | Operand::Distribution
            | Operand::Extremes
            | Operand::Graph
            | Operand::Virtual(_)
            | Operand::Missing => None,
        }
    }
}
