//! Where a file server keeps its filesets: acts that are done in their order, each number of a host at most once, and
//! what is told of what is kept.
#![tactic(auto)]

mod map_store;
mod reading;
mod store;
mod told;
mod walking;

pub use map_store::MapStore;
pub use reading::tells_part;
pub use store::{Store, StoreFault};
pub use store_acts::Act;
pub use store_state::{Done, Holding, HostState, Stay, StoreState, TakenShip};
pub use told::{Kept, Looked, Slot};
