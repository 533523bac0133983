//! The hub of a run, where nodes on threads meet: the board in a cell under a ticket lock. There is one list of turns,
//! in which each node's steps stand once and in its order.
#![tactic(auto)]

mod closing;
mod hub;
mod meeting;
mod pass;

pub use closing::ClosingRoom;
pub use hub::Hub;
pub use hub_board::{Given, Pending, Turn, Turned, steps_of};
pub use pass::NodePass;
