//! A file server's machine: each call answers the step that it makes (after the file exporter of Kazar et al.,
//! "DEcorum File System Architectural Overview", 1990).
#![tactic(auto)]

mod exporter;
mod stepping;

pub use exporter::Exporter;
pub use server_decides::{ExporterFault, GIVES_MAX, Keeper, store_all};
