ghost use Rattle.std.specs.Prelude.{◌≡◌};
ghost use Rattle.disk_aggregate.specs.Refused.{log_refused, node_refused, check_refused, opening_fault, store_fault};
ghost use Rattle.disk_aggregate.specs.declared.refused.MountRefused.TheVariants.{Memory};

use base_types::NoMemory;
use disk_anode::NodeFault;
use disk_check::CheckRefused;
use disk_log::LogFault;
use store_memory::StoreFault;

/// Why a disk wasn't mounted, or formatted.
#[derive(Clone, Copy, Debug)]
pub enum MountRefused {
    /// The bytes of the disk are no aggregate of the server that can be mounted. The place, in bytes, is that of the
    /// first page or block that breaks a rule, or of the number that is worn; 0 of a blank disk, and of another
    /// server's.
    NotAggregate(u64),
    /// The disk failed, and its count of faults rose.
    Failed,
    /// Memory ran out.
    Memory,
}

impl From<CheckRefused> for MountRefused {
    ghost from_gives = { λ refused e. e ≡ check_refused refused };

    fn from(refused: CheckRefused) -> Self {
        match refused {
            CheckRefused::Failed => MountRefused::Failed,
            CheckRefused::Memory => MountRefused::Memory,
        }
    }
}

// A log that was judged answers nothing else.
impl From<LogFault> for MountRefused {
    ghost from_gives = { λ fault e. e ≡ log_refused fault };

    fn from(fault: LogFault) -> Self {
        match fault {
            LogFault::Failed => MountRefused::Failed,
            LogFault::Memory | LogFault::Full { .. } | LogFault::NotALog(_) => MountRefused::Memory,
        }
    }
}

impl From<NodeFault> for MountRefused {
    ghost from_gives = { λ fault e. e ≡ node_refused fault };

    fn from(fault: NodeFault) -> Self {
        match fault {
            NodeFault::Failed => MountRefused::Failed,
            NodeFault::Memory => MountRefused::Memory,
        }
    }
}

impl From<NoMemory> for MountRefused {
    ghost from_gives = { λ _ e. e ≡ Memory };

    fn from(_error: NoMemory) -> Self {
        MountRefused::Memory
    }
}

/// What the opening of a log answers that was one: nothing else than that the disk failed, or memory ran out.
pub(crate) fn opening_fault(fault: LogFault) -> NodeFault
    ensures { result ≡ opening_fault fault }
{
    match fault {
        LogFault::Failed => NodeFault::Failed,
        LogFault::Memory | LogFault::Full { .. } | LogFault::NotALog(_) => NodeFault::Memory,
    }
}

/// What a store answers where the disk failed, or memory ran out.
pub(crate) fn store_fault(fault: NodeFault) -> StoreFault
    ensures { result ≡ store_fault fault }
{
    match fault {
        NodeFault::Failed => StoreFault::Failed,
        NodeFault::Memory => StoreFault::Memory,
    }
}
