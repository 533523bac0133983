ghost use Rattle.std.specs.Prelude.{◌≡◌};
ghost use Rattle.disk_layout.specs.Places.{pages_of as pages_for};

use base_types::PAGE_BYTES;

/// Bytes of a page.
pub const PAGE: usize = PAGE_BYTES as usize;

/// Where the headers of the log's two halves stand, in bytes.
pub const HALF_STARTS: [u64; 2] = [512, 3_146_752];

/// Where the metadata pages begin, in bytes.
pub const PAGES_START: u64 = 6_292_992;

/// The byte of an open gate.
pub const OPEN: u8 = 1;

/// The byte of a gate that is written to close it. Any other than `OPEN` is closed.
pub const CLOSED: u8 = 0;

/// How many metadata pages an aggregate of so many blocks has: two of the server, 66 for each of 16 fileset slots, and
/// one for the counts of 256 blocks.
pub fn pages_of(blocks: u32) -> u32
    ensures { result ≡ pages_for blocks }
{
    1058 + blocks.div_ceil(256)
}
