//! Why a call fails.
use crate::object::Object;
use thiserror::Error;

/// Why a call on a table or a delay fails. A call that fails changes nothing.
#[derive(Clone, Copy, PartialEq, Eq, Debug, Error)]
pub enum TableFault {
    /// No memory could be allocated.
    #[error("no memory")]
    NoMemory,
    /// The name isn't live.
    #[error("the name isn't live")]
    InvalidReference,
    /// The table holds 1,024 objects, or has used every name.
    #[error("no more objects can be held")]
    NoResources,
    /// The delay has no such slot.
    #[error("the delay has no such slot")]
    InvalidValue,
}

/// An object that was not inserted, and why.
#[derive(Drop)]
pub struct InsertFault {
    pub fault: TableFault,
    pub object: Object,
}
