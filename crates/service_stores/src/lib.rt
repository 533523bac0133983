//! How a run starts on the stores of servers, and that they keep what it made of the tree. What an earlier run left
//! unfinished is settled or finished, each store begins the run, and the file tree is made of what they keep; behind
//! the run each store is given its acts of the history. Laws tie a run of the plain engine to the stores of servers.
#![tactic(auto)]

mod acts;
mod begin;
mod keeping;
mod played_laws;
mod start;
mod told;
mod tree;

pub use keeping::keep;
pub use played_laws::{generated_law, played_law, read_law, servers_law};
pub use start::start_on;
