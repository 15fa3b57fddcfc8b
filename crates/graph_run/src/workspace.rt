//! Lists that each run of a graph fills anew.
use graph_steps::{Plane, Tally};
use pixel_pool::Block;
use std::alloc::Global;

/// The lists of a run: its planes, the blocks of the slots, and its tallies. A run first empties
/// the lists but keeps their memory. A later run allocates memory for a list only if it needs a
/// longer one. Between runs the lists hold no samples, and no block of the pool.
#[derive(Drop)]
pub struct Workspace {
    pub(crate) planes: Vec<Plane>,
    pub(crate) blocks: Vec<Block>,
    pub(crate) tallies: Vec<Tally>,
}

impl Workspace {
    /// Returns empty lists. Allocates nothing.
    pub fn new(alloc: Global) -> Workspace {
        Workspace {
            planes: Vec::new(alloc),
            blocks: Vec::new(alloc),
            tallies: Vec::new(alloc),
        }
    }
}
