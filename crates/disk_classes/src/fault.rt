ghost use Rattle.std.specs.Prelude.{◌≡◌};
ghost use Rattle.disk_classes.specs.Faults.{class_fault};
ghost use Rattle.disk_classes.specs.declared.fault.ClassFault.TheVariants.{Memory as NoRoom};

use base_types::NoMemory;
use disk_log::LogFault;

/// Why a call failed.
#[derive(Clone, Copy, Debug)]
pub enum ClassFault {
    /// The disk failed, and its count of faults rose. After a force the log is to be taken out and mounted again.
    Failed,
    /// Fewer entries of the log are free than the members need.
    Full {
        /// Entries that are free.
        free: u32,
        /// Entries that all members need which aren't yet committed, and the new one.
        needed: u64,
    },
    /// Memory ran out.
    Memory,
}

impl From<NoMemory> for ClassFault {
    ghost from_gives = { λ _ e. e ≡ NoRoom };

    fn from(_: NoMemory) -> Self {
        ClassFault::Memory
    }
}

impl From<LogFault> for ClassFault {
    ghost from_gives = { λ fault e. e ≡ class_fault fault };

    fn from(fault: LogFault) -> Self {
        match fault {
            LogFault::Failed | LogFault::NotALog(_) => ClassFault::Failed,
            LogFault::Full { free, needed } => ClassFault::Full { free, needed },
            LogFault::Memory => ClassFault::Memory,
        }
    }
}
