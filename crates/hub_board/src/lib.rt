//! What lies in the hub of a run: the turns that nodes took, and what they have come to. In a turn a node hands in its
//! steps, and is given what there is for it.
#![tactic(auto)]

mod board;
mod follow;
mod follower;
mod given;
mod laws;
mod pending;
mod tie;

pub use board::{Board, nodes_of};
pub use follow::{Follow, Mark};
pub use given::{Gift, Given, Turn, Turned, steps_of};
pub use laws::a_turn_goes_on;
pub use pending::Pending;
pub use tie::Tie;
