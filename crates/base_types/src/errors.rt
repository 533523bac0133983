//! The plain errors that several layers share.

use std::alloc::{AllocError, AllocFailed};
use thiserror::Error;

/// A call ran out of memory, which is its only error.
#[derive(Clone, Copy, Debug, PartialEq, Eq, Error)]
#[error("memory ran out")]
pub struct NoMemory;

impl From<AllocError> for NoMemory {
    fn from(_error: AllocError) -> NoMemory {
        NoMemory
    }
}

impl<T: Drop> From<AllocFailed<T>> for NoMemory {
    fn from(_error: AllocFailed<T>) -> NoMemory {
        NoMemory
    }
}

/// The outside did not do what was asked of it, and its count of faults has risen.
#[derive(Clone, Copy, Debug, PartialEq, Eq, Error)]
#[error("the outside failed")]
pub struct Failed;

/// A shared thing was not closed: it and the passes to it are handed back as they were.
#[derive(Debug, Drop)]
pub enum CloseRefused<O, P> {
    /// Memory ran out.
    Memory(O, Vec<P>),
}
