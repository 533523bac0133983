//! Which records of a store a disk can have, by looking at them. A law says that a new store has one, and that each act
//! that fits leaves one.
#![tactic(auto)]

mod laws;
mod stands;
mod tree;

pub use laws::acts_law;
pub use stands::may_stand;
pub use tree::is_well_formed;
