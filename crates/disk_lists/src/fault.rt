ghost use Rattle.std.specs.Prelude.{◌≡◌};
ghost use Rattle.disk_lists.specs.Faults.{node_fault, list_fault};

use base_types::ListRefused;
use disk_anode::NodeFault;

/// Why an access list was not loaded.
#[derive(Clone, Copy, Debug)]
pub enum ListFault {
    /// The disk failed, and its count of faults rose. Take the log apart and mount it again.
    Failed,
    /// The block holds no access list.
    BadList,
    /// Memory ran out.
    Memory,
}

impl From<NodeFault> for ListFault {
    ghost from_gives = { λ fault e. e ≡ node_fault fault };

    fn from(fault: NodeFault) -> Self {
        match fault {
            NodeFault::Failed => ListFault::Failed,
            NodeFault::Memory => ListFault::Memory,
        }
    }
}

impl From<ListRefused> for ListFault {
    ghost from_gives = { λ fault e. e ≡ list_fault fault };

    fn from(fault: ListRefused) -> Self {
        match fault {
            ListRefused::BadList => ListFault::BadList,
            ListRefused::Memory => ListFault::Memory,
        }
    }
}
