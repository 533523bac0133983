//! How a server makes a step once its cause is known: it decides the Changes that wait, answers the requests that can
//! be answered, and asks back what is in the way of the others.
#![tactic(auto)]

mod deciding;
mod finishing;
mod sending;

pub use deciding::{Decision, Due};
pub use finishing::{GIVES_MAX, finish, store_all, take_and_finish, take_or_gather};
pub use sending::Sending;
pub use server_says::{Draft, ExporterFault, Keeper, bare, begin_epoch, hail_step, lapse_step};
