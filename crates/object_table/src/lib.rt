//! The objects of one client, by name.
//!
//! A `Table` names its objects 1, 2, 3 and so on, in the order of insertion. A name is never used
//! twice. A name is live until it is released. An object is held while its name is live or a node
//! uses the object. A table holds at most 1,024 objects, and counts the bytes that the client is
//! charged for them. Of a table's functions, only `insert`, `add_node` and `register` allocate
//! memory. The samples of an image are a block of a pool; the block is given back when the image is
//! no longer held.
//!
//! - `stored`: an image whose samples are a block of a pool
//! - `delay`: images in slots
//! - `distribution`: bins, and the counts of a histogram
//! - `object`: an image, a lookup table, a threshold, a delay, a convolution, a distribution,
//!   extremes, a graph or a virtual image
//! - `table`: objects by name, with their charge; calls that read and write objects by name or by
//!   reference
//! - `table::ageing`: delays that age with graphs
//! - `table::graphs`: the graphs of a table, and how often their nodes use each object
//! - `fault`: why a call fails
#![tactic(auto)]

mod delay;
mod distribution;
mod fault;
mod object;
mod stored;
mod table;

pub use delay::Delay;
pub use distribution::Distribution;
pub use fault::{InsertFault, TableFault};
pub use object::{Content, Object};
pub use stored::Stored;
pub use table::{GREATEST_OBJECTS, Table};
