//! Descriptions of images.
ghost use Rattle.std.specs.Prelude.{◌≡◌, ◌≤◌, ◌*◌, IsTrue, ◌&&◌};
ghost use Rattle.vx_base.specs.Description.{description, is_side, IsDescription, same_size};
ghost use Rattle.vx_base.specs.Description.{sample_count, byte_count};
ghost use Rattle.vx_base.specs.Rectangle.{whole_rectangle};

use crate::format::Format;
use crate::rect::Rect;
use std::marker::Model;

/// The greatest width and height of an image, in pixels.
pub const GREATEST_SIDE: u16 = 8192;

/// The size of the largest image in bytes: the greatest width and height, at four bytes a sample.
pub const GREATEST_BYTES: usize = GREATEST_SIDE as usize * GREATEST_SIDE as usize * 4;

/// An image's description: its width and height, 1 to 8192 pixels each, and its format.
#[derive(Clone, Copy, PartialEq, Eq, Debug)]
pub struct Desc {
    width: u16,
    height: u16,
    format: Format,
}

impl Model for Desc {
    ghost use Rattle.std.specs.Prelude.{IsTrue, ◌&&◌};
    ghost use Rattle.vx_base.specs.Description.{Description, is_side};

    ghost Value = { Description };

    ghost view = { λ d. record { width = d.width; height = d.height; format = d.format } };

    ghost invariant = { λ d. IsTrue (is_side d.width && is_side d.height) };

    ghost inverse = { λ d. record { width = d.width; height = d.height; format = d.format } };
}

impl Desc {
    /// Returns the description of an image, or `None` if its width or height isn't 1 to 8192.
    pub fn new(width: u16, height: u16, format: Format) -> Option<Desc>
        ensures { result ≡ description width height format }
    {
        let sides = 1..=GREATEST_SIDE;
        if sides.contains(&width) && sides.contains(&height) {
            Some(Desc::with_sides(width, height, format))
        } else {
            None
        }
    }

    /// Returns the description of an image. The caller must give a width and a height from 1 to
    /// 8192.
    pub fn with_sides(width: u16, height: u16, format: Format) -> Desc
        requires { IsTrue (is_side width && is_side height) }
        ensures { result ≡ record { width = width; height = height; format = format } }
    {
        Desc {
            width,
            height,
            format,
        }
    }

    /// Proves that the sides are permitted. The prover learns a number's range only where the
    /// number is read. At run time this function does nothing.
    pub fn prove_sides(self)
        ensures { IsDescription self }
    {
        let _sides = (self.width, self.height);
    }

    /// Checks whether this description and `other` have the same width and height.
    pub fn has_size_of(self, other: Desc) -> bool
        ensures { result ≡ same_size self other }
    {
        self.width == other.width && self.height == other.height
    }

    /// Returns the width in pixels.
    pub fn width(self) -> u16
        ensures value { result ≡ self.width }
        ensures limits { (1 ≤ result) × (result ≤ GREATEST_SIDE) }
    {
        self.width
    }

    /// Returns the height in pixels.
    pub fn height(self) -> u16
        ensures value { result ≡ self.height }
        ensures limits { (1 ≤ result) × (result ≤ GREATEST_SIDE) }
    {
        self.height
    }

    /// Returns the format of the samples.
    pub fn format(self) -> Format
        ensures { result ≡ self.format }
    {
        self.format
    }

    /// Returns the rectangle of all pixels.
    pub fn whole(self) -> Rect
        ensures { result ≡ whole_rectangle self.width self.height }
    {
        Rect::new(0, 0, self.width, self.height).unwrap()
    }

    /// Returns the number of samples.
    pub fn sample_count(self) -> usize
        ensures value { result ≡ sample_count self }
        ensures limit { result ≤ GREATEST_SIDE * GREATEST_SIDE }
    {
        usize::from(self.height) * usize::from(self.width)
    }

    /// Returns the total size of the samples in bytes.
    pub fn byte_count(self) -> usize
        ensures value { result ≡ byte_count self }
        ensures limit { result ≤ GREATEST_BYTES }
    {
        self.sample_count() * self.format.sample_bytes()
    }
}
