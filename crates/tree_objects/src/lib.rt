//! One object of a fileset, a file or a directory, and each change of it.
#![tactic(auto)]

mod bytes;
mod content;
mod entries;
mod laws;
mod losses;
mod object;
mod parts;
mod splits;
mod storing;
mod stretch;
mod unsaved;
mod writing;

pub use content::{Anode, Content, Object, Unsaved, UnsavedLength};
pub use entries::{entry_named, names_of};
pub use laws::{clone_law, forget_law, loss_law, store_law, truncate_law, write_law};
pub use losses::span_between;
pub use unsaved::UnsavedBytes;
