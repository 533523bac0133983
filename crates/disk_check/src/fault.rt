ghost use Rattle.std.specs.Prelude.{◌≡◌};
ghost use Rattle.disk_check.specs.declared.fault.CheckRefused.TheVariants.{Failed as DiskFailed, Memory};

use base_types::{Failed, NoMemory};
use std::alloc::AllocError;
use thiserror::Error;

/// Why a disk isn't checked.
#[derive(Clone, Copy, Debug, Error)]
pub enum CheckRefused {
    /// The disk failed, and its count of faults rose.
    #[error("the disk failed")]
    Failed,
    /// Memory ran out.
    #[error("memory ran out")]
    Memory,
}

impl From<Failed> for CheckRefused {
    ghost from_gives = { λ _ e. e ≡ DiskFailed };

    fn from(_: Failed) -> Self {
        CheckRefused::Failed
    }
}

impl From<AllocError> for CheckRefused {
    ghost from_gives = { λ _ e. e ≡ Memory };

    fn from(_: AllocError) -> Self {
        CheckRefused::Memory
    }
}

impl From<NoMemory> for CheckRefused {
    ghost from_gives = { λ _ e. e ≡ Memory };

    fn from(_: NoMemory) -> Self {
        CheckRefused::Memory
    }
}
