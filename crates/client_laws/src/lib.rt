//! Laws about the definitions of `client_model`, for every state that requests can reach.
//!
//! - `states`: states keep the limits, refusals change nothing, and an object's fixed attributes
//!   (its skeleton) don't change while the object is held
//! - `runs`: the result of running a graph is the graph's only solution, in whatever order the
//!   nodes were added
#![tactic(auto)]

pub mod runs;
pub mod states;
