//! The messages between hosts and file servers, and between file servers, as plain data (Kazar et al., "DEcorum File
//! System Architectural Overview", 1990). The kinds and their fields are this project's own.
#![tactic(auto)]

mod asking;
mod giving;
mod laws;
mod message;
mod moving;
mod telling;
mod tokens;

pub use asking::{Change, Fetch};
pub use giving::{AppliedGive, Ends, Give, Outstanding, Reclaim, Reclaimed};
pub use laws::sound_by_example;
pub use message::{Body, Direction, Message};
pub use moving::{NotHere, Ship, Shipped};
pub use telling::{Bring, Done, DoneIs, Grant};
pub use tokens::{Named, Revoke};
