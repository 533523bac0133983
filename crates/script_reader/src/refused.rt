ghost use Rattle.std.specs.Prelude.{◌≡◌};

use base_types::NoMemory;
use script_words::BadWhy;
use thiserror::Error;

/// Why bytes are no script.
#[derive(Clone, Copy, Debug, PartialEq, Eq, Error)]
pub enum ScriptRefused {
    /// The line with this number, from 1, is refused. Where `begin` is missing it is the line after the last.
    #[error("line {0}: {1}")]
    BadLine(u32, BadWhy),
    /// The lines wait for one another: the least number of a line at which a node stands for ever.
    #[error("line {0}: stuck")]
    Stuck(u32),
    /// Memory ran out.
    #[error("memory ran out")]
    Memory,
}

impl From<NoMemory> for ScriptRefused {
    ghost use Rattle.script_reader.specs.declared.refused.ScriptRefused.TheVariants.{Memory};

    ghost from_gives = { λ _ e. e ≡ Memory };

    fn from(_error: NoMemory) -> ScriptRefused {
        ScriptRefused::Memory
    }
}
