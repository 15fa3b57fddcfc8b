//! Faults of calls on a graph.
use thiserror::Error;

/// Why a call on a graph failed; the graph is unchanged.
#[derive(Clone, Copy, PartialEq, Eq, Debug, Error)]
pub enum GraphFault {
    /// There is no memory for the node.
    #[error("no memory")]
    NoMemory,
    /// The graph has 256 nodes, or all node numbers have been used.
    #[error("no more nodes can be added")]
    NoResources,
    /// No node of the graph has the given number.
    #[error("the graph has no such node")]
    InvalidReference,
}
