//! Virtual images.
use crate::partial_desc::PartialDesc;

/// An image without samples of its own, which links nodes of one graph (OpenVX 1.3,
/// `vxCreateVirtualImage`).
#[derive(Clone, Copy, PartialEq, Eq, Debug)]
pub struct VirtualImage {
    /// The name of the image's graph. The graph may have been released.
    pub graph: u32,
    /// The declared part of the image's description.
    pub declared: PartialDesc,
}
