//! Acts in batches, tried twice; a fileset goes from one store to another; unfinished moves are finished.
//!
//! Many acts given to a store in batches, and a batch that fails tried once more.
//!
//! How a fileset goes from the store of one server to that of another.
#![tactic(auto)]

mod asking;
mod batches;
mod finishing;
mod laws;
mod moving;
mod sending;
mod ships;
mod single;
mod steps;
mod stopped;

pub use asking::{kept_by, slots_by};
pub use batches::apply_all;
pub use finishing::finish_moves;
pub use laws::{again_law, repeat_law};
pub use moving::{MoveRequest, keep_move};
pub use single::{apply_once, boot};
pub use stopped::{RunStopped, stopped_at};
