//! Graphs and verdicts: whether a graph can run, and if not, why.
//!
//! A `Graph` is a list of numbered nodes. Nodes are linked by the objects that they read and write,
//! whatever the order in which the nodes were added. A node *feeds* another node if it writes an
//! object that the other node reads. A verdict depends on the kinds, sizes and formats of the
//! objects, never on samples. `verdict_on` gives the verdict on a node alone. `verify` gives the
//! verdict on a graph. For a graph that can run, `verify` also gives an order of the nodes, and the
//! description of each virtual image that they write.
//!
//! The verdict is the first of these faults that applies:
//!
//! - two writers of an object
//! - a cycle
//! - a virtual image that a node accumulates into, or that is read but not written
//! - a faulty node; if there are several, the one that was added first
//! - virtual images that take more bytes than the limit
//!
//! Modules:
//!
//! - `graph`, `fault`: numbered nodes, and the faults of calls on a graph
//! - `operand`: the properties of objects on which a verdict depends
//! - `linked`: nodes with their operands, and the links between nodes
//! - `order`: the nodes in an order in which each comes after all nodes that feed it
//! - `known`: the virtual images that nodes write; open sizes and formats are resolved node by node
//!   along an order
//! - `verdict`: verdicts, and the verdict on one node
//! - `verified`: the verdict on a graph, and an order of its nodes
//! - `laws`: facts about cycles, orders, rounds and verdicts
//! - `examples`: verdicts on small graphs
#![tactic(auto)]

pub mod examples;
mod fault;
mod graph;
mod known;
pub mod laws;
mod linked;
mod operand;
mod order;
mod verdict;
mod verified;

pub use fault::GraphFault;
pub use graph::Graph;
pub use known::VirtualOutput;
pub use linked::Linked;
pub use operand::{Operand, Operands};
pub use verdict::{Verdict, verdict_on};
pub use verified::{Verified, VerifyFault, verify};
