//! What is asked of the file service and what it replies, as plain data: calls, replies, the entries of a history,
//! the parts of a file that travel, and who takes part.
#![tactic(auto)]

mod call;
mod entry;
mod part;
mod place;
mod reply;
mod roster;
mod ship;

pub use call::Call;
pub use entry::{Entry, Loss};
pub use part::{DirEntry, Piece, Status};
pub use place::{Place, Which};
pub use reply::{Facts, Refusal, Reply};
pub use roster::{HostLine, Roster};
pub use ship::{Mover, Record, ShipPart};
