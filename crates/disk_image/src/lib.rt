//! What the bytes of a disk hold, and each of their faults: definitions, and laws on them. A disk is read as a
//! mount reads it: the used half of its log is redone and undone, and what its metadata pages then name is
//! followed. The rules are this project's own; that a salvager looks at the log's outcome alone is from S.
//! Chutani et al., "The Episode File System", 1992.
#![tactic(auto)]

mod fault;
mod found;
mod laws;
mod list;

pub use fault::{BLOCKS_MIN, Fault, Rule};
pub use found::{Link, Use};
pub use laws::{blank_law, image_law, place_law, superblock_law};
pub use list::list_in;
