//! The generated workload: a script for any number of hosts, which follows from a seed. It is this project's own.
#![tactic(auto)]

mod calls;
mod lines;
mod script;
mod words;

pub use script::{CALLS_MAX, generate};
