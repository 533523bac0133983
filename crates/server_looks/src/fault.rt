ghost use Rattle.std.specs.Prelude.{◌≡◌};
ghost use Rattle.server_looks.specs.Keepers.{fault_from};
ghost use Rattle.server_looks.specs.declared.fault.ExporterFault.TheVariants.{Memory};

use base_types::NoMemory;
use store_memory::StoreFault;
use thiserror::Error;

/// Why a server's machine made no step.
#[derive(Clone, Copy, Debug, PartialEq, Error)]
pub enum ExporterFault {
    /// Memory ran out, or a count did that has 64 bits, or the store told what no store keeps.
    #[error("memory ran out")]
    Memory,
    /// The disk of its store failed, and again when it was tried once more.
    #[error("the disk failed twice")]
    Store,
}

impl From<NoMemory> for ExporterFault {
    ghost from_gives = { λ _ fault. fault ≡ Memory };

    fn from(_error: NoMemory) -> ExporterFault {
        ExporterFault::Memory
    }
}

impl From<StoreFault> for ExporterFault {
    ghost from_gives = { λ error fault. fault ≡ fault_from error };

    fn from(error: StoreFault) -> ExporterFault {
        match error {
            StoreFault::Failed => ExporterFault::Store,
            StoreFault::Memory => ExporterFault::Memory,
        }
    }
}
