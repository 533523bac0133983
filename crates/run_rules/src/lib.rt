//! What a host and a server may do, and what is due of them; the journal of a run and its history; what a run is.
//!
//! The steps of hosts and servers are plain data. Each meets rules on its own node's earlier steps alone. The
//! definitions are read from first to last, as docs/RULES.md lists their files; what follows from them stands in the
//! crates above. The protocol is this project's own, after Kazar et al., "DEcorum File System Architectural Overview",
//! 1990, and so is the grammar of plan and net lines.
#![tactic(auto)]

mod applied;
mod fate;
mod history;
mod journal;
mod route;
mod step;

pub use applied::{Admission, Answer, Applied, Head, Leave, Move, Request, Wanted, Why, Written};
pub use fate::{Fate, Left, Way, counts, fate_in_net, planned_fate};
pub use history::hist;
pub use journal::Journal;
pub use route::{kind_of, receiver, resender, says_down, sender};
pub use step::{Asked, Cause, Labelled, Step};
