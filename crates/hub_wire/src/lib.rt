//! The network of a run: which copies of each message are on their way, to whom, and when they may arrive, by the plan
//! and the net line of a script; and to whom lapses are due.
#![tactic(auto)]

mod laws;
mod packet;
mod plan;
mod wire;

pub use laws::copies_are_planned;
pub use packet::{DELAY_STEPS, Packet};
pub use wire::Wire;
