//! Laws about the definitions, as contracts of functions that do nothing.

pub mod frames;
pub mod replies;
pub mod streams;
