//! The top call: what the command words ask for, from the bytes of a source to the bytes of a sink. It runs in stages:
//! the words, the script, the stores, the engine, the stores again, the output.
#![tactic(auto)]

mod check;
mod disks;
mod engine;
mod laws;
mod lines;
mod outcome;
mod output;
mod script;
mod top;

pub use laws::{complete_law, losses_law, replies_law};
pub use outcome::{Course, Outcome, Status};
pub use output::refuse_disk;
pub use service_hosts::{Gate, OpenGate};
pub use top::run;
