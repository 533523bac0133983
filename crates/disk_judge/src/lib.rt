//! What is judged of an aggregate by its metadata pages: headers, call numbers and anodes in their slots, which
//! objects of a slot are reached from its root, the counts of blocks, and promises. Each test answers as the
//! definition of faults does.
#![tactic(auto)]

mod anode;
mod counts;
mod judged;
mod metadata;
mod promise;
mod push;
mod reach;
mod slot;

pub use anode::is_slot_anode;
pub use counts::{Mark, is_count_page, marks_of};
pub use judged::{anodes_judged, counts_judged};
pub use metadata::{Metadata, page_place};
pub use promise::are_kept;
pub use push::{push_unless, push_unless_block};
pub use reach::push_reach_faults;
pub use slot::{is_slot_header, is_slot_numbers};
