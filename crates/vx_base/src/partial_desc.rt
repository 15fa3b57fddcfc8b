//! Partial descriptions of images.
ghost use Rattle.std.specs.Prelude.{◌≡◌, IsTrue, ◌&&◌};
ghost use Rattle.vx_base.specs.PartialDescription.{partial_description, may_be_side};
ghost use Rattle.vx_base.specs.PartialDescription.{partial_desc_of, with_defaults};
ghost use Rattle.vx_base.specs.PartialDescription.{full_description};
ghost use Rattle.vx_base.specs.PartialDescription.{IsPartialDescription};

use crate::desc::{Desc, GREATEST_SIDE};
use crate::format::Format;
use std::marker::Model;

/// A partial description: an image's width, height and format, any of which may be open. A given
/// width or height is 1 to 8192.
#[derive(Clone, Copy, PartialEq, Eq, Debug)]
pub struct PartialDesc {
    width: Option<u16>,
    height: Option<u16>,
    format: Option<Format>,
}

impl Model for PartialDesc {
    ghost use Rattle.std.specs.Prelude.{IsTrue, ◌&&◌};
    ghost use Rattle.vx_base.specs.PartialDescription.{PartialDescription, may_be_side};

    ghost Value = { PartialDescription };

    ghost view = { λ o. record { width = o.width; height = o.height; format = o.format } };

    ghost invariant = { λ o. IsTrue (may_be_side o.width && may_be_side o.height) };

    ghost inverse = { λ o. record { width = o.width; height = o.height; format = o.format } };
}

impl PartialDesc {
    /// Returns the partial description with these parts; a part that is `None` is open. Returns
    /// `None` if a given width or height isn't 1 to 8192.
    pub fn new(
        width: Option<u16>,
        height: Option<u16>,
        format: Option<Format>,
    ) -> Option<PartialDesc>
        ensures { result ≡ partial_description width height format }
    {
        if may_be_side(width) && may_be_side(height) {
            Some(PartialDesc {
                width,
                height,
                format,
            })
        } else {
            None
        }
    }

    /// Returns a description as a partial description with no part open.
    pub fn of(desc: Desc) -> PartialDesc
        ensures { result ≡ partial_desc_of desc }
    {
        PartialDesc {
            width: Some(desc.width()),
            height: Some(desc.height()),
            format: Some(desc.format()),
        }
    }

    /// Returns the width, or `None` if it is open.
    pub fn width(self) -> Option<u16>
        ensures { result ≡ self.width }
    {
        self.width
    }

    /// Returns the height, or `None` if it is open.
    pub fn height(self) -> Option<u16>
        ensures { result ≡ self.height }
    {
        self.height
    }

    /// Returns the format, or `None` if it is open.
    pub fn format(self) -> Option<Format>
        ensures { result ≡ self.format }
    {
        self.format
    }

    /// Proves that the given sides are permitted. The prover learns a number's range only where the
    /// number is read. At run time this function does nothing.
    pub fn prove_sides(self)
        ensures { IsPartialDescription self }
    {
        let _sides = (self.width, self.height);
    }

    /// Returns this partial description with its open parts taken from another one.
    pub fn with_defaults(self, other: PartialDesc) -> PartialDesc
        ensures { result ≡ with_defaults self other }
    {
        PartialDesc {
            width: self.width.or(other.width),
            height: self.height.or(other.height),
            format: self.format.or(other.format),
        }
    }

    /// Returns the full description, or `None` if a part is open.
    pub fn full_desc(self) -> Option<Desc>
        ensures { result ≡ full_description self }
    {
        match (self.width, self.height, self.format) {
            (Some(width), Some(height), Some(format)) => {
                Some(Desc::with_sides(width, height, format))
            }
            _ => None,
        }
    }
}

/// Checks whether a width or height is open or permitted.
fn may_be_side(side: Option<u16>) -> bool
    ensures { result ≡ may_be_side side }
{
    match side {
        None => true,
        Some(side) => (1..=GREATEST_SIDE).contains(&side),
    }
}
