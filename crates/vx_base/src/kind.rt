//! Kinds of objects.

/// The kind of an object (OpenVX 1.3, `vx_type_e`).
#[derive(Clone, Copy, PartialEq, Eq, Debug)]
pub enum Kind {
    /// An image, `VX_TYPE_IMAGE`.
    Image,
    /// A lookup table, `VX_TYPE_LUT`.
    Lut,
    /// A threshold, `VX_TYPE_THRESHOLD`.
    Threshold,
    /// A whole delay, `VX_TYPE_DELAY`. No function takes a delay; each slot of a delay is an image.
    Delay,
    /// A convolution, `VX_TYPE_CONVOLUTION`.
    Convolution,
    /// A distribution, `VX_TYPE_DISTRIBUTION`.
    Distribution,
    /// The extremes of an image; the standard returns them in scalars and arrays.
    Extremes,
    /// A graph, `VX_TYPE_GRAPH`, which no function takes.
    Graph,
    /// A virtual image, which nodes of its graph use as an image.
    VirtualImage,
}
