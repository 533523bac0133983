ghost use Rattle.std.specs.Prelude.{◌≡◌};
ghost use Rattle.disk_log.specs.declared.fault.LogFault.TheVariants.{Failed as DiskFailed, Memory};

use base_types::Failed;
use std::alloc::AllocError;

/// Why a call of the log failed.
#[derive(Clone, Copy, Debug)]
pub enum LogFault {
    /// The disk failed, and its count of faults rose. After a force or a checkpoint the log is to be taken apart and
    /// mounted again.
    Failed,
    /// Fewer entries of the log are free than a transaction needs.
    Full {
        /// Entries that are free.
        free: u32,
        /// Entries that the transaction needs.
        needed: u64,
    },
    /// The bytes of the disk are no log that can be mounted. The place, in bytes, tells why: 0 where there is no
    /// superblock, 512 where no half is used, or where the generation of the used half is the last value of 64 bits.
    NotALog(u64),
    /// Memory ran out, before a byte of the disk was changed.
    Memory,
}

impl From<Failed> for LogFault {
    ghost from_gives = { λ _ e. e ≡ DiskFailed };

    fn from(_: Failed) -> Self {
        LogFault::Failed
    }
}

impl From<AllocError> for LogFault {
    ghost from_gives = { λ _ e. e ≡ Memory };

    fn from(_: AllocError) -> Self {
        LogFault::Memory
    }
}
