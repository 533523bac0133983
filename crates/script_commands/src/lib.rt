//! The words of the command line of the file service's program. The grammar is this project's own.
#![tactic(auto)]

mod command;
mod parts;
mod plain;

pub use command::{Command, DISKS_MAX, Play, command_of, disk_names};
