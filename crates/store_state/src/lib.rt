//! What a file server keeps: its filesets, what it knows of hosts and of their requests, and what calls and give-backs
//! make of it.
#![tactic(auto)]

mod done;
mod finding;
mod founding;
mod giving;
mod laws;
mod new_state;
mod numbers;
mod replies;
mod rows;
mod state;

pub use done::Done;
pub use finding::{Coming, Sought, free_slot, has_some, held, held_at, slot_of};
pub use giving::{put_pieces, unique_at};
pub use laws::reply_law;
pub use new_state::NO_SHIP;
pub use numbers::{NO_RECORD, Noted, fill, note_in, record_of};
pub use replies::{reply_code, reply_of};
pub use state::{Holding, HostState, Stay, StoreState, TakenShip};
