//! The record of a store that the image of a disk is: one definition, and the headers and facts that are made of such a
//! record. A law says what mounting begins with: a disk without faults has a record that a disk can have.
//!
//! The record is read back from the log of an aggregate: facts, call numbers, headers of slots and the anodes of
//! filesets; no byte is written. A mount begins with it, and all that is then told comes of memory. A log of format 1
//! is brought to format 2 before.
#![tactic(auto)]

mod laws;
mod mount_laws;
mod reforming;
mod saying;
mod server;
mod slot;
mod state;

pub use laws::{new_law, read_law, said_law};
pub use mount_laws::mount_law;
pub use reforming::reform;
pub use saying::{facts_of, header_of, stay_of};
pub use state::state_in;
