//! The give-backs of a host that it made and that aren't known as applied (Kazar et al., "DEcorum File System
//! Architectural Overview", 1990; their numbers are this project's own).
#![tactic(auto)]

mod counters;
mod gives;
mod laws;
mod leavings;
mod named;
mod slots;

pub use gives::Gives;
pub use laws::gives_law;
pub use leavings::{Leaving, Leavings};
