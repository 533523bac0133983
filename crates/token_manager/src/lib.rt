//! Which tokens a file server grants, and which wants have to wait (Kazar et al., "DEcorum File System Architectural
//! Overview", 1990). That a want never passes an earlier one that conflicts, and that a token in use is pinned and
//! then refuses wants, are this project's own rules.
#![tactic(auto)]

mod grants;
mod laws;
mod manager;
mod want;
mod wanted;

pub use laws::{admit_law, peace_law, ready_law, revoke_law, wait_law, wanted_law};
pub use manager::TokenManager;
pub use want::{Asked, Outlook, Ready, Want, Wanted};
