//! Anodes: the files and directories of an aggregate, with their bytes. An anode stands in a metadata page; the blocks
//! of its bytes and of its lists are named by its pointers and by those of its indirect block. A block that is in use
//! is never written: what changes goes to a fresh block, and the old one is given up.
#![tactic(auto)]

mod anode;
mod blocks;
mod copying;
mod fault;
mod lists;
mod making;
mod node;
mod owning;
mod parts;
mod writing;

pub use anode::{
    clone_of, create, create_as, cut, length_of, read_at, remove, write_at, write_end,
};
pub use fault::NodeFault;
pub use lists::{read_list, write_list};
pub use node::BLOCK;
