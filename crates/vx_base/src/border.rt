//! Border modes of window functions.

/// The border mode: which samples a window reads outside the input's valid rectangle (OpenVX 1.3,
/// `vx_border_e`).
#[derive(Clone, Copy, PartialEq, Eq, Debug)]
pub enum Border {
    /// No samples: the output is valid only where the whole window lies in the input's valid
    /// rectangle.
    Undefined,
    /// This sample.
    Constant(u8),
    /// The nearest valid sample.
    Replicate,
}
