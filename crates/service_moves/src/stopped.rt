ghost use Rattle.std.specs.Prelude.{◌≡◌};
ghost use Rattle.service_moves.specs.Causes.{stopped_at};

use base_types::{NoMemory, ServerId};
use service_starts::FitRefused;
use store_memory::StoreFault;

/// Why a run over stores stopped.
#[derive(Clone, Copy)]
pub enum RunStopped {
    /// The store of this server failed, and failed again when that was tried once more.
    Failed(ServerId),
    /// The disk of this number, from 1, doesn't fit the others, and this is its first slot that doesn't.
    Unfit(u8, u32),
    /// Memory ran out.
    Memory,
}

impl From<NoMemory> for RunStopped {
    ghost use Rattle.service_moves.specs.declared.stopped.RunStopped.TheVariants.{Memory};

    ghost from_gives = { λ _ stopped. stopped ≡ Memory };

    fn from(_: NoMemory) -> Self {
        RunStopped::Memory
    }
}

impl From<FitRefused> for RunStopped {
    ghost use Rattle.service_moves.specs.Causes.{stopped_by};

    ghost from_gives = { λ refused stopped. stopped ≡ stopped_by refused };

    fn from(refused: FitRefused) -> Self {
        match refused {
            FitRefused::Unfit { disk, slot } => RunStopped::Unfit(disk, slot),
            FitRefused::Memory => RunStopped::Memory,
        }
    }
}

/// What a fault of the store of a server means for a run.
pub fn stopped_at(server: ServerId, fault: StoreFault) -> RunStopped
    ensures { result ≡ stopped_at server fault }
{
    match fault {
        StoreFault::Failed => RunStopped::Failed(server),
        StoreFault::Memory => RunStopped::Memory,
    }
}
