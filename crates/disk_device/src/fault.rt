use std::fs::TryLockError;
use std::io;
use std::io::ErrorKind;
use thiserror::Error;

/// Why a file isn't opened as a disk, or why a call of it failed; in the words that a user is told.
#[derive(Clone, Copy, Debug, PartialEq, Eq, Error)]
pub enum FileFault {
    /// There is no file of this name.
    #[error("no such file")]
    NoFile,
    /// The folder in which it is to be made isn't there.
    #[error("no such folder")]
    NoFolder,
    /// It is a folder, a pipe or a socket.
    #[error("neither a file nor a device")]
    NoDisk,
    /// It is open as a disk already, in another program or under another name.
    #[error("in use by another program, or named twice")]
    InUse,
    /// Its file system is full.
    #[error("no space left")]
    NoSpace,
    /// The system had no memory for the call.
    #[error("memory ran out")]
    Memory,
    /// What else the system answered.
    #[error("{0}")]
    Other(ErrorKind),
}

impl From<io::Error> for FileFault {
    fn from(error: io::Error) -> Self {
        match error.kind() {
            ErrorKind::StorageFull => FileFault::NoSpace,
            ErrorKind::OutOfMemory => FileFault::Memory,
            kind => FileFault::Other(kind),
        }
    }
}

impl From<TryLockError> for FileFault {
    fn from(error: TryLockError) -> Self {
        match error {
            TryLockError::WouldBlock => FileFault::InUse,
            TryLockError::Error(error) => FileFault::from(error),
        }
    }
}
