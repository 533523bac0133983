//! The machine of a host: each of its calls answers a step, which meets all rules of hosts.
#![tactic(auto)]

mod closing;
mod learning;
mod machine;
mod manager;
mod taking;

pub use manager::Manager;
