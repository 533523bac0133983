//! What a server says in a step on its own account: that it has restarted, that a claim is granted, what became of a
//! Change that is written down, and which tokens it asks back.
#![tactic(auto)]

mod claiming;
mod hailing;
mod lapsing;
mod laws;
mod revoking;
mod stepping;
mod writing;

pub use claiming::admit_all;
pub use hailing::hail_step;
pub use lapsing::lapse_step;
pub use laws::claim_law;
pub use revoking::revoke_all;
pub use server_takes::{
    Draft, ExporterFault, Found, Keeper, bare, begin_epoch, do_call, enqueue, entries_told,
    fileset_entered, found_by, gather_message, give_all, is_request, pieces_told, refuse_call,
    take_message,
};
pub use writing::write_down;
