//! The second operand of a node.
use crate::image::Image;
use vx_base::{Convolution, Lut, ThresholdRule};

/// A node's second operand, after its first input image.
#[derive(Drop)]
pub enum SecondInput<'a> {
    /// No operand: the function has one input.
    Nothing,
    /// An image of the first input's size.
    Image(Image<'a>),
    /// A table that maps samples.
    Lut(&'a Lut),
    /// A threshold that tests samples.
    Threshold(ThresholdRule),
    /// A convolution matrix.
    Convolution(&'a Convolution),
}
