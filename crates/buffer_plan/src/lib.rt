//! Plans of buffers for the virtual images of a graph. Images that are never live together can
//! share a buffer.
//!
//! A virtual image is live from the step that writes it to the last step that reads or writes it.
//! Images of one format can share a buffer, called a *slot*, if no two of them are live at the same
//! step. A `Plan` gives a slot to each virtual image that a verified graph writes. For the verified
//! graph's order of nodes, no plan has fewer slots of any format.
//!
//! `slot_samples` and `peak_step` are for callers that ask how much memory a graph needs, and why.
//! `peak_step` returns the first step that needs all slots of a format. `slot_samples` returns the
//! size of a slot for whole images. A run calls neither: in bands, a slot needs fewer samples.
//!
//! - `lives`: the first and the last step at which each image is live
//! - `slots`: the assignment of the images of one format to slots
//! - `plan`: the plan of a verified graph
//! - `laws`: facts about plans
#![tactic(auto)]

pub mod laws;
mod lives;
mod plan;
mod slots;

pub use plan::Plan;
