//! Runs nodes and graphs on a table of objects. OpenVX 1.3, "Graphs".
//!
//! - `run_once` runs a single node.
//! - `verify_in` verifies a graph.
//! - `run` runs a verified graph.
//! - `schedule_of` makes the schedule of a verified graph. `run_scheduled` runs the graph by its
//!   schedule, any number of times, with the lists of a `Workspace`.
//!
//! By definition, a run consists of rounds. In each round all nodes write at the same time. The
//! code instead runs a graph as tasks over planes (`graph_steps`).
//!
//! - `operand`: objects as operands
//! - `once`: runs a single node
//! - `verify`: the verdict on a graph, and an order in which its nodes can run
//! - `runs`: runs a graph
//! - `schedule`: the planes, slots, tasks and bands of a run
//! - `workspace`: lists of planes, blocks and tallies, for any number of runs
//! - `cells`: references to a graph's images, and the index of each reference
//! - `task_list`: the tasks of a graph
//! - `sizes`: the halos of the steps, and the number of rows of a band
//! - `blocks`: pool blocks that virtual images share
//! - `slot_planes`: planes of the slots, over these blocks
//! - `bind`: moves the client's images to planes and back
//! - `tables`: the lookup tables, thresholds and matrices that nodes read
//! - `tallies`: histograms and extremes
//! - `laws`: laws of runs
//! - `examples`: runs of small graphs
#![tactic(auto)]

mod bind;
mod blocks;
mod cells;
pub mod examples;
pub mod laws;
mod once;
mod operand;
mod runs;
mod schedule;
mod sizes;
mod slot_planes;
mod tables;
mod tallies;
mod task_list;
mod verify;
mod workspace;

pub use once::run_once;
pub use operand::{operand_in, operand_of};
pub use runs::{run, run_scheduled};
pub use schedule::{Schedule, schedule_of};
pub use verify::verify_in;
pub use workspace::Workspace;
