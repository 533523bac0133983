ghost use Rattle.std.specs.Prelude.{◌≡◌};
ghost use Rattle.tree_filesets.specs.declared.outcome.NotDone.TheVariants.{Refused, Memory};

use base_types::NoMemory;
use tree_calls::Refusal;

/// Why a call is not done. It has changed nothing then.
#[derive(Clone, Copy)]
pub(crate) enum NotDone {
    /// It is refused.
    Refused(Refusal),
    /// Memory ran out.
    Memory,
}

impl From<Refusal> for NotDone {
    ghost from_gives = { λ refusal error. error ≡ Refused refusal };

    fn from(refusal: Refusal) -> NotDone {
        NotDone::Refused(refusal)
    }
}

impl From<NoMemory> for NotDone {
    ghost from_gives = { λ _ error. error ≡ Memory };

    fn from(_error: NoMemory) -> NotDone {
        NotDone::Memory
    }
}
