//! What a server's machine asks of its store and gives to it, what a Change finds there, and what a Fetch is told.
#![tactic(auto)]

mod acting;
mod fault;
mod keeper;
mod looking;
mod needing;
mod refusing;
mod telling;

pub use acting::{act_of_give, begin_epoch, do_call, give_all, note_host, refuse_call};
pub use fault::ExporterFault;
pub use keeper::Keeper;
pub use looking::{Found, fileset_entered, found_by};
pub use telling::{entries_told, pieces_told};
