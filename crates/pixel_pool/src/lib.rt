//! Recycled blocks of samples.
//!
//! A block is the memory of an image's samples. The `Pool` lends a `Block` with the requested
//! number of samples. A lent block has one owner, since it can't be copied. A block that is given
//! back becomes free; it keeps its memory, and its samples aren't cleared. The pool counts the lent
//! blocks of each format. The free blocks of a format are in a slab, linked by their keys into one
//! stack for each size class. Therefore `take` and `give_back` look at no more than one block of
//! each class.
//!
//! - `block`: lent blocks
//! - `pool`: the blocks of all formats
//! - `shelf`: the blocks of one format
//! - `stacks`: the stacks of free blocks, one for each class
//! - `classes`: the size classes of blocks
//! - `laws`: facts about sequences of calls on a pool
#![tactic(auto)]

mod block;
mod classes;
pub mod laws;
mod pool;
mod shelf;
mod stacks;

pub use block::Block;
pub use pool::Pool;
