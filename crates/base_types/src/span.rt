ghost use Rattle.std.specs.Prelude.{◌≡◌, ◌↔◌, ◌≤◌, ◌-◌, IsTrue};
ghost use Rattle.base_types.specs.declared.limits.TheConstants.{FILE_BYTES_MAX};

use crate::errors::NoMemory;
use crate::limits::FILE_BYTES_MAX;
use crate::plain::Plain;

/// The bytes of a file from `from` on and before `to`. It ends at or below `FILE_BYTES_MAX`; where both are one place
/// it has no bytes.
#[derive(Clone, Copy, Debug, PartialEq, Eq)]
pub struct Span {
    /// The first byte.
    pub from: u32,
    /// The byte behind the last one.
    pub to: u32,
    ghost ordered: { from ≤ to },
    ghost within: { to ≤ FILE_BYTES_MAX },
}

impl Span {
    ghost use Rattle.base_types.specs.Spans.{overlap};

    /// All bytes that a file may have.
    pub const WHOLE: Span = Span {
        from: 0,
        to: FILE_BYTES_MAX,
    };

    /// How many bytes it has.
    pub fn len(self) -> u32
        ensures { result ≡ self.to - self.from }
    {
        self.to - self.from
    }

    /// Whether it has no bytes.
    pub fn is_empty(self) -> bool
        ensures { IsTrue result ↔ (self.from ≡ self.to) }
    {
        self.from == self.to
    }

    /// Whether some byte lies in both.
    pub fn overlaps(self, other: Span) -> bool
        ensures { result ≡ overlap self other }
    {
        self.from.max(other.from) < self.to.min(other.to)
    }
}

impl Plain for Span {
    fn copy(&self) -> Result<Span, NoMemory> {
        Ok(*self)
    }
}
