//! Replies to clients.
use crate::counts::Counts;
use crate::text::Text;
use vx_base::{Code, Extremes, Format, Picture, Rect};

/// The result of QueryImage: an image's format, its width and height in pixels, and its valid
/// rectangle.
#[derive(Clone, Copy, PartialEq, Eq, Debug)]
pub struct Described {
    /// `None` if the format of a virtual image is open. An open width or height is 0.
    pub format: Option<Format>,
    pub width: u16,
    pub height: u16,
    pub valid: Rect,
}

/// The reply to a request.
#[derive(Debug, Drop)]
pub enum Reply {
    /// The request was refused with this code, and has changed nothing.
    Refused(Code),
    /// The request succeeded, and has no result.
    Empty,
    /// The name of the object that was created.
    Name(u32),
    /// The number of the node that was added.
    Node(u32),
    /// The size, the format and the valid rectangle of an image.
    Described(Described),
    /// The samples of an image.
    Picture(Picture),
    /// The samples of an image, as a PGM text.
    Text(Text),
    /// How many samples fell into each bin of a distribution.
    Counts(Counts),
    /// The least and the greatest sample of an image, with the count and the first pixel of each.
    Extremes(Extremes),
}
