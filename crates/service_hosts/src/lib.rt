//! A script is run by hosts and servers: each node is made from the script and the stores, the driver takes their
//! turns, and the journal and the stores come back.
#![tactic(auto)]

mod homes;
mod nodes;
mod running;

pub use homes::{may_host, unmoved_law};
pub use hub_drive::{Gate, OpenGate};
pub use running::{Hosted, HostsStopped, run_hosts};
