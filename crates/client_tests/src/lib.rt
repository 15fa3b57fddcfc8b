//! Tests of the requests of clients, which a `Runtime` answers: small quotas, graphs, and the
//! blocks of images. `tools/check_program` tests all other requests on the program.
//!
//! - `clients`: clients with a small quota
//! - `pooled`: blocks of the pool that hold clients' images
#![tactic(auto)]

#[cfg(test)]
mod clients;
#[cfg(test)]
mod pooled;
