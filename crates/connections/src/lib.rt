//! Several connections over one runtime, each as if it had a server of its own.
//!
//! - `table`: `Connections` opens and closes connections, and answers their frames
//! - `numbers`: the numbers by which the runtime knows the clients of the connections
//! - `frames`: answers a frame of a connection's client under the client's number
//! - `laws`: each connection's replies are those of a server that gets its frames alone
#![tactic(auto)]

mod frames;
pub mod laws;
mod numbers;
mod table;

pub use table::Connections;
