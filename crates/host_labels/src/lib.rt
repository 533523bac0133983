//! The labels by which a host's user names its locks and its opens, and the tokens that are pinned because a label is
//! in use (Kazar et al., "DEcorum File System Architectural Overview", 1990; labels are this project's own).
#![tactic(auto)]

mod laws;
mod uses;

pub use laws::uses_law;
pub use uses::{Labelled, Uses};
