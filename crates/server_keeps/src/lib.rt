//! What a server's store tells, and what its acts keep, is what the rules say of the server.
#![tactic(auto)]

mod laws;

pub use laws::{act_law, ask_law, grant_law, steady_law};
