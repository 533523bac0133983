//! The plain service: a whole script on the reference tree, its lines in one order that its awaits allow, and what is
//! stored and lost in between. It has no messages and no caches; it says what the service must answer in that order.
#![tactic(auto)]

mod laws;
mod order;
mod past;
mod play;
mod played;
mod service;
mod uses;

pub use laws::{calls_law, down_law};
pub use played::Played;
pub use service::serve;
pub use uses::Use;
