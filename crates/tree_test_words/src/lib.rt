//! Calls, replies and losses as the words of test tables.
#![tactic(auto)]

mod reading;
mod telling;

pub use reading::{Words, host, server, user};
pub use telling::{Text, push_list, push_losses, push_refusal, push_reply};
