//! Tests of the public functions on a client's objects and graphs. They cover the blocks of a pool,
//! the faults of a table, the slots that virtual images need, and graphs that run in a table.
//! `tools/check_program` tests all other cases on the program.
//!
//! - `blocks`: blocks of a pool: their reuse, and their capacities
//! - `holdings`: a table and its pool, for these tests
//! - `tables`: the names of a table, the bytes that it charges, and objects whose values are set
//! - `cells`: images and slots of delays in a table, read and written
//! - `graphs`: graphs, the numbers of their nodes, and the objects that the nodes use in a table
//! - `ageing`: delays that age with a graph
//! - `radii`: the vertical radii of some functions
//! - `plans`: the slots of virtual images, and the first step that needs all slots
//! - `runs`: nodes and graphs that run in a table
#![tactic(auto)]

#[cfg(test)]
mod ageing;
#[cfg(test)]
mod blocks;
#[cfg(test)]
mod cells;
#[cfg(test)]
mod graphs;
#[cfg(test)]
mod holdings;
#[cfg(test)]
mod plans;
#[cfg(test)]
mod radii;
#[cfg(test)]
mod runs;
#[cfg(test)]
mod tables;
