//! The acts of a file server's store, and what each of them makes of what it keeps.
#![tactic(auto)]

mod act;
mod acts;
mod arriving;
mod laws;
mod leaving;
mod parts;

pub use act::Act;
pub use acts::apply_act;
pub use laws::part_law;
pub use parts::{entries_in, free_part, names_rise, part_of, status_of, told_object};
