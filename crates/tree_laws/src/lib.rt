//! What each entry leaves of each part of each object; locks and open files of hosts agree; what a host that is down
//! loses.
//!
//! Laws of the tree: what each entry of a history leaves of each part of each object, what hosts store, how often
//! anodes are used, and the blocks and limits of the service as numbers.
//!
//! Laws of what hosts hold of the tree: their locks and open files, and what they lose when they are down.
#![tactic(auto)]

mod hold_laws;
mod laws;

pub use hold_laws::{label_law, loss_law};
pub use laws::{limit_law, part_law, promise_law, store_law, unique_law, write_law};
