ghost use Rattle.std.specs.Prelude.{◌≡◌};

use base_types::NoMemory;
use thiserror::Error;

/// Why a line is refused. Its text is the word that stands for it in the service's output.
#[derive(Clone, Copy, Debug, PartialEq, Eq, Error)]
pub enum BadWhy {
    /// It has more than `LINE_BYTES_MAX` bytes, a carriage return at its end counted and its line feed not.
    #[error("long")]
    Long,
    /// A byte or a quote that no word may have there, or a text of more than `WRITE_BYTES_MAX` bytes.
    #[error("text")]
    Text,
    /// A word that isn't known in its place, or too few or too many words.
    #[error("word")]
    Word,
    /// What should be a number within limits isn't one.
    #[error("number")]
    Number,
    /// A name, a flag, a label or a path that isn't one.
    #[error("name")]
    BadName,
    /// An access list that isn't one.
    #[error("list")]
    BadList,
    /// A user, a host, a server or a fileset that isn't declared.
    #[error("undeclared")]
    Undeclared,
    /// What may stand once stands a second time, hosts are out of order, or a name is placed at two servers.
    #[error("repeated")]
    Repeated,
    /// A header in the wrong place, a `begin` without hosts, or no `begin`.
    #[error("order")]
    Order,
    /// A line of a host that stopped.
    #[error("stopped")]
    Stopped,
    /// More disks than servers.
    #[error("disks")]
    Disks,
    /// More than `SCRIPT_LINES_MAX` lines.
    #[error("lines")]
    Lines,
}

/// Why a reader of a line stopped.
#[derive(Clone, Copy, Debug, PartialEq, Eq, Error)]
pub enum Fault {
    /// The line is refused.
    #[error("{0}")]
    Bad(BadWhy),
    /// Memory ran out.
    #[error("memory ran out")]
    Memory,
}

impl From<NoMemory> for Fault {
    ghost use Rattle.script_words.specs.declared.fault.Fault.TheVariants.{Memory};

    ghost from_gives = { λ _ e. e ≡ Memory };

    fn from(_error: NoMemory) -> Fault {
        Fault::Memory
    }
}
