//! The check of a disk: each fault of its bytes, with its place and rule. Nothing is written to the disk. It is the
//! salvager of an aggregate, which looks at all metadata once (S. Chutani et al., "The Episode File System", 1992);
//! the rules are this project's own.
#![tactic(auto)]

mod anode;
mod checking;
mod fault;
mod found;
mod front;
mod look;
mod mountable;
mod parts;
mod shared;

pub use checking::{check, check_first};
pub use fault::CheckRefused;
pub use mountable::refusal;
pub use shared::check_shared;
