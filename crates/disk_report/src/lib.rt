//! What a check of disks tells: a report of each disk, and the lines in which it is printed.
#![tactic(auto)]

mod disks;
mod laws;
mod lines;
mod report;

pub use disks::{Stopped, reports_of};
pub use laws::{example_law, line_law};
pub use lines::{failed_line, report_text};
pub use report::{Report, have_faults, report_of};
