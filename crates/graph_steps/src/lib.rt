//! Graphs as steps over planes, run one band of rows after another.
//!
//! A *plane* is an image while a graph runs, with a block of samples. A client's image has a plane
//! of its own, whose block holds all rows. A virtual image is in the plane of a slot, which holds
//! one virtual image after another, and only the rows that a band needs. A *step* computes one
//! output image of a node. The step's images are planes, given by their indices. A *reduction* adds
//! the rows of a plane to a histogram or to extremes. A *program* is a list of *tasks*: the steps
//! and reductions of a graph, in an order in which they can run. All tasks run on the first band,
//! then all tasks on the next band. A run over whole images is a run of one band.
//!
//! To write a row, a step reads the input rows within its *radius* above and below that row.
//! Therefore a step writes more of an intermediate image than the band: it also writes a *halo* of
//! rows above and below the band. `find_halos` finds the halo of each step, from the last task back
//! to the first.
//!
//! Each row of an integral image is computed from one input row and from the output row above.
//! Therefore the radius of an integral image is 0. Unless the program runs in one band, the output
//! is a client's image and has no halo.
//!
//! - `step`: steps and reductions
//! - `plane`: planes
//! - `tables`: the lookup tables, thresholds and matrices that steps read
//! - `kernel`: runs the kernel of a step's function
//! - `rows`: reads and writes rows in a block of samples
//! - `one_step`: runs one step on some rows
//! - `tally`: histograms and extremes, band by band
//! - `halos`: finds the halos
//! - `bands`: runs a program band by band
//! - `examples`: programs in bands
#![tactic(auto)]

mod bands;
pub mod examples;
mod halos;
mod kernel;
mod one_step;
mod plane;
mod rows;
mod step;
mod tables;
mod tally;

pub use bands::run;
pub use halos::find_halos;
pub use kernel::Kernel;
pub use one_step::run_step;
pub use plane::Plane;
pub use step::{Reduction, SecondSource, Step, Task, step_radius};
pub use tables::Tables;
pub use tally::{Histogram, Tally};
