//! Workers that take turns at one list, in threads of their own. Each worker's entries stand in the list in order,
//! each once. The tests and the benchmark of the cell stand on them.
#![tactic(auto)]

mod gathered;
mod log;
mod worker;

pub use gathered::{Gathered, run};
pub use log::{Add, Entry, Log};
pub use worker::{Done, Job, work};
