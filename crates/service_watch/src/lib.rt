//! Stores that are watched: whatever is done with one, it is known what acts it has done since then, and what a crash
//! at
//! any moment may have left of it.
#![tactic(auto)]

mod laws;
mod plain;
mod watched;
mod watching;

pub use laws::{doing_law, going_law};
pub use watched::{Origin, Watched};
pub use watching::{unwatch, watch};
