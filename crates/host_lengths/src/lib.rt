//! The lengths of files that a host gave back (Kazar et al., "DEcorum File System Architectural Overview", 1990; the
//! numbers of give-backs are this project's own).
#![tactic(auto)]

mod given;
mod lengths;

pub use given::Given;
pub use lengths::Lengths;
