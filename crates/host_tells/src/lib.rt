//! How a host answers a call at once from what it sees, without memory (Kazar et al., "DEcorum File System
//! Architectural Overview", 1990; the spelling is this project's own).
#![tactic(auto)]

mod again;
mod at_once;
mod fitting;
mod last;
mod putting;
mod spelling;

pub use again::answer_again;
pub use last::{Known, Last};
