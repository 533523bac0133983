//! What a host has changed of files and not given back yet (Kazar et al., "DEcorum File System Architectural Overview",
//! 1990).
#![tactic(auto)]

mod dirty;
mod file;
mod laws;

pub use dirty::Dirty;
pub use laws::dirty_files_law;
