//! A host as a node of a run: what its turns give it goes to its machine, its lines go in order, and at last it ends.
#![tactic(auto)]

mod between;
mod host;

pub use between::Spoken;
pub use host::HostNode;
