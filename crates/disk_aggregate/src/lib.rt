//! The aggregate of a server: its filesets, the numbers of its hosts' requests and its facts, on a disk behind a
//! write-ahead log, with a copy in memory of which all that is told comes. It is formatted or mounted, and then it is
//! a `Store`: a batch of acts is durable after `Ok`, and after a fault it is opened again. A disk is judged as it is
//! found, before a byte of it is written.
//!
//! After S. Chutani et al., "The Episode File System", 1992: an aggregate holds many filesets, shares its blocks among
//! them, and is recovered by its log.
#![tactic(auto)]

mod aggregate;
mod applying;
mod opening;
mod refused;
mod store;

pub use aggregate::Aggregate;
pub use refused::MountRefused;
