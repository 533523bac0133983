//! The reference machine of the file service: a tree of filesets with the locks and open files in use, what it answers
//! to each call, what becomes kept, and what is lost where a host goes down.
#![tactic(auto)]

mod answer;
mod down;
mod finding;
mod following;
mod founding;
mod laws;
mod locking;
mod losses;
mod moving;
mod opening;
mod storing;
mod tree;
mod uses;

pub use laws::{clone_law, move_law, refusal_law, well_formed_law, worked_law};
pub use tree::{Away, LockUse, OpenUse, ServerRoom, Tree};
