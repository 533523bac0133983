//! Drives the nodes of a run: each takes turns at the hub until all are done, and the journal of the hub is then an
//! ended run of the script, which keeps to its plan.
#![tactic(auto)]

mod dealing;
mod driver;
mod gate;
mod rounds;
mod seat;

pub use driver::{DriveFault, Driven, Waiting, drive};
pub use gate::{Gate, OpenGate};
pub use seat::Seat;
