//! The Changes that servers decide: what servers keep of a tree, and the tokens that they want for a Change (Kazar et
//! al., "DEcorum File System Architectural Overview", 1990).
#![tactic(auto)]

mod laws;

pub use laws::{change_law, kept_law, use_law, want_law, worked_law};
