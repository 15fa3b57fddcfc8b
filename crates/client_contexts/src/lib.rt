//! The clients of the server: their contexts, and the replies to their requests.
//!
//! `Runtime::apply` answers a request. The reply and the client's new state are those of the model
//! (`client_model`). A request that finds no memory changes no state. No request changes another
//! client's state, so no client can see or change another client's objects.
//!
//! Each client has a cache of verified graphs. A graph enters the cache when it is verified or
//! runs. The graph stays there until its nodes change, or its name or context is released. While a
//! graph is in the cache, VerifyGraph of this graph takes no memory.
//!
//! Four other methods of `Runtime` move samples without a copy: `write_from` reads a picture from a
//! source, `write_text` reads one from a PGM text, and `image` and `text_image` lend an image to
//! the caller. In this order, they answer WriteImage, WriteImagePgm, ReadImage and ReadImagePgm as
//! `apply` does.
//!
//! A client's objects are named 1, 2, .. in the order of their creation. A client holds at most
//! 1,024 objects, and its images are charged against its quota. Nodes read their input images
//! without copying them. An object that a node uses stays held after its name is released. A run of
//! a graph allocates all its memory before it changes anything.
//!
//! - `memory`, `fault`: the faults of requests
//! - `lookup`: finds objects by reference or by name, and the operands of nodes
//! - `new_objects`: checks the limits on new objects, and inserts the objects
//! - `images`: creates, queries, writes and reads images, and sets valid rectangles
//! - `objects`: releases objects of any kind
//! - `tables`: creates lookup tables, thresholds and convolutions
//! - `statistics`: creates and reads distributions and extremes
//! - `graphs`: creates graphs and their virtual images, adds and removes nodes, verifies and runs
//!   graphs
//! - `immediate`: runs single nodes
//! - `delays`: creates and ages delays
//! - `kept`: the cache of verified graphs
//! - `source`, `incoming`: pictures that are read from a source or a text, into a block of the pool
//! - `client`: a client's context, which answers all requests except those that open or release a
//!   context
//! - `runtime`: all clients, and the pool for the samples of their images; opens and releases
//!   contexts
//! - `laws`: VerifyGraph of a graph in the cache never fails for lack of memory
#![tactic(auto)]

mod client;
mod delays;
mod fault;
mod graphs;
mod images;
mod immediate;
mod incoming;
mod kept;
pub mod laws;
mod lookup;
mod memory;
mod new_objects;
mod objects;
mod runtime;
mod source;
mod statistics;
mod tables;

pub use client_model::{Limits, Reply, Request};
pub use kept::KeptGraph;
pub use memory::NoMemory;
pub use runtime::Runtime;
pub use source::{FillsSamples, WriteFault};
