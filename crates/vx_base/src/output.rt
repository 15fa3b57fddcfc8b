//! The outputs of a node.

/// One of the two outputs that a node can have.
#[derive(Clone, Copy, PartialEq, Eq, Debug)]
pub enum Output {
    First,
    Second,
}
