ghost use Rattle.std.specs.Prelude.{◌≡◌};
ghost use Rattle.disk_space.specs.Faults.{space_fault};

use disk_log::LogFault;

/// Why a call on blocks failed.
#[derive(Clone, Copy, Debug)]
pub enum SpaceFault {
    /// The disk failed, and its count of faults rose. Take the log apart and mount it again.
    Failed,
    /// No block is free.
    Full,
    /// Memory ran out.
    Memory,
}

// A log answers nothing else where its pages are read and put.
impl From<LogFault> for SpaceFault {
    ghost from_gives = { λ fault e. e ≡ space_fault fault };

    fn from(fault: LogFault) -> Self {
        match fault {
            LogFault::Memory => SpaceFault::Memory,
            LogFault::Failed | LogFault::Full { .. } | LogFault::NotALog(_) => SpaceFault::Failed,
        }
    }
}
