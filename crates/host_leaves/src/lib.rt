//! What leaves a host, and what it says: tokens go back with what is dirty under them, and messages to servers (Kazar
//! et al., "DEcorum File System Architectural Overview", 1990; the protocol is this project's own).
#![tactic(auto)]

mod dirtying;
mod giving;
mod owning;
mod revoking;
mod sending;

pub use dirtying::is_clean;
pub use giving::{bytes_of, drop_all, leave, leave_dirty, leave_ended};
pub use owning::{
    gives_label, has_label, is_length_update, is_lock, is_own_locked, is_use, is_used, label_count,
    length_seen,
};
pub use revoking::take_revoke;
pub use sending::{
    asked_server, given_filesets, push_once, say, send_due, send_give, send_request,
};
