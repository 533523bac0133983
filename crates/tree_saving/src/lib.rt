//! What hosts have unsaved in the file tree: how it is stored, or lost, and what keeps it apart.
#![tactic(auto)]

mod laws;
mod saving;
mod stores;

pub use laws::{apart_law, rest_law, roster_law, saved_law};
pub use saving::{down_all, store_all};
