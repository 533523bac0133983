//! What a run starts from: which disks fit one another, what their stores keep of moves that an earlier run left
//! unfinished, which of these are settled and which finished, and the file tree that is made of what all stores keep.
//! Of a disk whose bytes aren't told nothing is known of what is read, so a tree that is made of it is looked at before
//! a script runs on it. Laws: each store keeps its part of that tree.
#![tactic(auto)]

mod filesets;
mod finish_laws;
mod fitting;
mod laws;
mod records;
mod rooms;
mod start;
mod start_laws;
mod startable;
mod told;

pub use finish_laws::{begun_law, ended_law, finish_law, ship_law};
pub use fitting::{FitRefused, Settling, fit};
pub use laws::{once_law, settled_law, worked_law};
pub use start::start_tree;
pub use start_laws::{new_law, settle_law, start_law, tie_law};
pub use startable::may_start;
pub use told::Told;
