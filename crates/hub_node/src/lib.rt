//! What a node of a run is, host or server: it takes what its turn at the hub gives, does what can be done, and keeps
//! to its part by its own steps alone. Nodes of both kinds stand in one list.
#![tactic(auto)]

mod either;
mod lines;
mod node;

pub use either::AnyNode;
pub use lines::OwnLines;
pub use node::{Node, NodeFault};
