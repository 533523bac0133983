use base_types::{NameRefused, NoMemory};
use std::alloc::AllocError;
use thiserror::Error;

/// Why a row gave no answer.
#[derive(Clone, Copy, Debug, Error)]
pub enum Fault {
    /// Memory ran out.
    #[error("memory ran out")]
    Memory,
    /// It isn't written as a row is.
    #[error("no row")]
    Row,
}

impl From<NoMemory> for Fault {
    fn from(_error: NoMemory) -> Fault {
        Fault::Memory
    }
}

impl From<AllocError> for Fault {
    fn from(_error: AllocError) -> Fault {
        Fault::Memory
    }
}

impl From<NameRefused> for Fault {
    fn from(refused: NameRefused) -> Fault {
        match refused {
            NameRefused::BadName => Fault::Row,
            NameRefused::Memory => Fault::Memory,
        }
    }
}
