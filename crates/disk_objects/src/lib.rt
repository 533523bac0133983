//! Which anode each page has, and which objects the anodes of all slots keep; room by promises.
//!
//! All anodes of an aggregate at once: what its pages and blocks hold, what each call on one anode leaves of all, and
//! what a call may ask. A layer above keeps one fact, which anode each page has, and needs no word of pointers, counts
//! or blocks.
//!
//! The anodes that keep the objects of filesets. What the pages of an aggregate's slots hold is one function from what
//! the tree has to what its anodes are: a call that changes an anode changes one object, and nothing else.
#![tactic(auto)]

mod laws;
mod object_laws;

pub use laws::{
    asked_holds, changed_holds, copied_holds, crashed_holds, ended_holds, forced_holds, kept_holds,
    left_holds, made_holds, new_holds, room_holds, staged_holds,
};
pub use object_laws::{
    changed_keeps, copied_keeps, empty_keeps, made_keeps, places_keep, room_keeps,
};
