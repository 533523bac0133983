ghost use Rattle.std.specs.Prelude.{◌≡◌};
ghost use Rattle.disk_anode.specs.Faults.{log_fault, space_fault};

use disk_log::LogFault;
use disk_space::SpaceFault;

/// Why a call on an anode failed.
#[derive(Clone, Copy, Debug)]
pub enum NodeFault {
    /// The disk failed, and its count of faults rose. Take the log apart and mount it again.
    Failed,
    /// Memory ran out. The transaction may hold some of the call's puts: undo it.
    Memory,
}

// A log answers nothing else where its pages are read and put.
impl From<LogFault> for NodeFault {
    ghost from_gives = { λ fault e. e ≡ log_fault fault };

    fn from(fault: LogFault) -> Self {
        match fault {
            LogFault::Memory => NodeFault::Memory,
            LogFault::Failed | LogFault::Full { .. } | LogFault::NotALog(_) => NodeFault::Failed,
        }
    }
}

// No block is free only where the disk isn't told: the caller has the room.
impl From<SpaceFault> for NodeFault {
    ghost from_gives = { λ fault e. e ≡ space_fault fault };

    fn from(fault: SpaceFault) -> Self {
        match fault {
            SpaceFault::Failed => NodeFault::Failed,
            SpaceFault::Full | SpaceFault::Memory => NodeFault::Memory,
        }
    }
}
