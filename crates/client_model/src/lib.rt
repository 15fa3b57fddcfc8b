//! Requests, replies and their meaning.
//!
//! A client's objects are named 1, 2, .. in the order of their creation. `specs/Answer.antt`
//! defines the reply to a request in any state of the client, and the client's new state. The
//! crate `client_contexts` is proved against this definition. Nothing in this crate depends on how
//! objects are stored.
//!
//! - `request`: what a client can ask for
//! - `reply`, `text`, `counts`: replies and their parts
//! - `refusal`: why a request is refused
//! - `limits`: limits on sample bytes
#![tactic(auto)]

mod counts;
mod limits;
mod refusal;
mod reply;
mod request;
mod text;

pub use counts::Counts;
pub use limits::{GREATEST_LIMIT, Limits};
pub use refusal::Refusal;
pub use reply::{Described, Reply};
pub use request::Request;
pub use text::Text;
