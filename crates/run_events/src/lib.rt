//! What can be seen of a run: the text of its journal, read. Of each step where it is, what caused it and which calls it
//! begins and answers; of each message which steps took it; of each token how long it was held. Nothing of the theorem
//! stands on it: it tells what a picture shows.
#![tactic(auto)]

mod asking;
mod files;
mod holds;
mod labels;
mod reader;
mod reading;
mod refused;
mod run;
mod steps;
mod ways;

pub use asking::Wait;
pub use files::Files;
pub use holds::{Hold, HoldKind};
pub use reading::read_run;
pub use refused::{Refused, Why};
pub use run::{Event, How, Lane, Run, Said, Sign};
pub use ways::Arrow;
