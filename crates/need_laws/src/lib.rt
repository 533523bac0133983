//! The answer to a call hangs on what its server knows, so a server's Changes are the tree's; which entries leave
//! what others keep.
//!
//! What the answer to a call hangs on: what its server knows of the tree, and what is in use.
//!
//! What entries of a history leave of what servers keep, and of what a server doesn't know.
#![tactic(auto)]

mod entry_laws;
mod laws;

pub use entry_laws::{keep_law, stay_law};
pub use laws::{kept_law, server_law, use_law};
