//! Calls and replies as messages carry them.
#![tactic(auto)]

mod call;
mod reply;

pub use call::{call_at, ending_at, write_call, write_ending};
pub use reply::{reply_at, write_reply};
