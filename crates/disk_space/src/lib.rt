//! The blocks of an aggregate: how many pointers name each, and which are free. A block that a crash could leave in use
//! is not free, so it is never written before the transaction that gave it up is durable.
#![tactic(auto)]

mod counts;
mod fault;
mod space;

pub use fault::SpaceFault;
pub use space::{count_of, give, share, take};
