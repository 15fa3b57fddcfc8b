//! Numbered nodes.
use crate::node::NodeSpec;

/// A node and its number in its graph.
#[derive(Clone, Copy, PartialEq, Eq, Debug)]
pub struct Numbered {
    pub number: u32,
    pub node: NodeSpec,
}
