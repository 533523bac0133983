//! The output of a run: each reply, loss and fileset, as text and as one line of JSON.
#![tactic(auto)]

mod access;
mod dump;
mod print;
mod replies;
mod report;
mod summary;
mod texts;

pub use print::{text_of, text_of_report};
pub use report::{Answer, Report, by_host, losses_in};
pub use summary::{json_of, json_of_report};
