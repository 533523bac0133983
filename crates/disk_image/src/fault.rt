ghost use Rattle.std.specs.Prelude.{◌≡◌};
ghost use Rattle.disk_image.specs.Laws.{rule_number};

/// Blocks of an aggregate, at least: the least capacity, and the spare ones.
pub const BLOCKS_MIN: u32 = 1_092;

/// A rule that the bytes of a disk break.
#[derive(Clone, Copy, Debug, PartialEq, Eq)]
pub enum Rule {
    /// The first page is the superblock of an aggregate of 1,092 to 66,560 blocks and of a server from 1 to 4.
    Superblock,
    /// A half of the log is used.
    Log,
    /// The page of the server.
    ServerPage,
    /// A page of call numbers.
    CallNumbers,
    /// The header of a slot.
    SlotHeader,
    /// The page of an anode.
    Anode,
    /// A block that holds an access list.
    ListBlock,
    /// An indirect block.
    IndirectBlock,
    /// A block of a directory.
    DirectoryBlock,
    /// An object is reached from the root of its fileset exactly once, and under its unique number. The place is its
    /// anode's page.
    Reach,
    /// The count of each block is the number of pointers to it. It is told once for each page of counts.
    Count,
    /// The promises are within the capacity. The place is 0.
    Promises,
}

impl Rule {
    /// The number of the rule, 1 to 12 in the order of the variants.
    pub fn number(self) -> u8
        ensures { result ≡ rule_number self }
    {
        match self {
            Rule::Superblock => 1,
            Rule::Log => 2,
            Rule::ServerPage => 3,
            Rule::CallNumbers => 4,
            Rule::SlotHeader => 5,
            Rule::Anode => 6,
            Rule::ListBlock => 7,
            Rule::IndirectBlock => 8,
            Rule::DirectoryBlock => 9,
            Rule::Reach => 10,
            Rule::Count => 11,
            Rule::Promises => 12,
        }
    }
}

/// A fault of a disk: the place of the page or block that breaks a rule, in bytes, and the rule.
#[derive(Clone, Copy, Debug, PartialEq, Eq)]
pub struct Fault {
    pub place: u64,
    pub rule: Rule,
}
