//! A directory's entries, found, listed, added, dropped and replaced; an access list, loaded and saved.
//!
//! Directories: anodes whose bytes are entries of 72 bytes in the order of their names, each with the anode that it
//! leads to.
//!
//! The access lists of anodes, each in a block of its own: an anode's own, and of a directory those for new files and
//! for new directories.
#![tactic(auto)]

mod acl;
mod acl_bytes;
mod bytes;
mod dir;
mod fault;

pub use acl::{load, save};
pub use dir::{add, drop_name, find, list, set_entries};
pub use fault::ListFault;
