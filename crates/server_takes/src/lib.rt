//! What a message that comes to a server makes of its tables and its store, and what is said to it at once.
#![tactic(auto)]

mod asking;
mod claiming;
mod draft;
mod giving;
mod greeting;
mod taking;

pub use asking::enqueue;
pub use draft::{Draft, bare};
pub use server_looks::{
    ExporterFault, Found, Keeper, begin_epoch, do_call, entries_told, fileset_entered, found_by,
    give_all, pieces_told, refuse_call,
};
pub use taking::{gather_message, is_request, take_message};
