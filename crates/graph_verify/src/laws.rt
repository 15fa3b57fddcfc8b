//! Facts about the definitions. Each `fn` has an empty body, and its contract states the fact.

pub mod cycles;
pub mod rounds;
pub mod verdicts;
pub mod waiting;
