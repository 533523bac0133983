//! What those share that stand for the outside or use it: numbered calls that are to fail, how runs of disk calls
//! compose when a crash may come at any moment, and the two plain steps of most users of a disk.
#![tactic(auto)]

mod calls;
mod disk;

pub use calls::Calls;
pub use disk::{read_byte, write_through};
