//! A server as a node of a run, with its store: what its turns give it goes to its machine, and its lines go in order.
#![tactic(auto)]

mod server;

pub use server::ServerNode;
