//! The filesets of an aggregate. Each call changes what the anodes of one slot keep as a definition of the tree says,
//! in a transaction of the log that the caller has begun, and names the blocks that it needs. A layer above keeps one
//! fact, the anodes that each slot has, and needs no word of pages or pointers.
//!
//! After S. Chutani et al., "The Episode File System", 1992: filesets share an aggregate's blocks, their metadata is
//! logged, and their blocks are written anew.
#![tactic(auto)]

mod arriving;
mod bytes;
mod giving;
mod lists;
mod making;
mod names;
mod objects;
mod place;
mod reading;
mod whole;

pub use arriving::put_anode;
pub use bytes::truncate;
pub use giving::give;
pub use lists::set_list;
pub use making::{make, occupy};
pub use names::{enter, leave, rename};
pub use objects::{copy_anode, unmake, vacate};
pub use place::anode_page;
pub use reading::{kept_anode, kept_anodes};
pub use whole::{clear_slot, copy_slot};
