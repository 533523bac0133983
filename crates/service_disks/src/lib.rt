//! The stores of a service: that of each server is on the server's disk, or in memory. A disk is opened as it is
//! found: one that is blank is formatted, any other is mounted, and what fails is tried once more.
#![tactic(auto)]

mod disks;
mod formatting;
mod opening;
mod seating;
mod seats;
mod stores;

pub use disks::{StoresRefused, close_stores, open_stores};
pub use opening::open_disk;
pub use seating::{close_seats, seat_stores};
pub use seats::{Count, DiskSeat, MemorySeat, Seat};
pub use stores::ServerStore;
