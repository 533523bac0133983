// A checkpoint: each page that an entry names is written in its place once, and the log goes on in its other half,
// empty.
ghost use Rattle.std.specs.Prelude.{◌≡◌, ◌<◌, ◌≤◌, ◌⊎◌, [], ℕ, length, OnOk};
ghost use Rattle.base_types.specs.Crash.{IsSettled};
ghost use Rattle.base_outside.specs.Runs.{LeavesOnly};
ghost use Rattle.disk_layout.specs.Places.{in_place, SameFront, SameBlocks};
ghost use Rattle.disk_layout.specs.Entry.{entries};
ghost use Rattle.disk_layout.specs.Half.{AreSides, IsLog};
ghost use Rattle.disk_layout.specs.Pages.{pages_in, HasPages};
ghost use Rattle.disk_log.specs.Append.{AllFit};
ghost use Rattle.disk_log.specs.Blame.{IsBlamed};
ghost use Rattle.disk_log.specs.Recovered.{AreRecovered};
ghost use Rattle.disk_log.specs.Switch.{IsUsed, half_after, next_half as half_next};

use crate::recover::write_pages;
use crate::switch::switch;
use base_types::{Disk, Failed};
use disk_layout::{HALF_STARTS, Half, PAGE, Superblock};

// The half that a log goes on in: the other one, of the next generation.
pub fn next_half(half: &Half) -> Half
    requires placed { (half.now.start ≡ 512) ⊎ (half.now.start ≡ 3146752) }
    requires fresh { half.now.generation < 18446744073709551615 }
    ensures { result ≡ half_next half.now }
{
    Half {
        start: HALF_STARTS[0] + HALF_STARTS[1] - half.start,
        generation: half.generation + 1,
        pages: half.pages,
    }
}

// Writes what recovery makes of the pages that the entries of the used half name in their places, and takes the log
// to its other half. A crash at any moment leaves the same pages and blocks.
pub fn checkpoint<D: Disk>(
    disk: &mut D,
    superblock: &Superblock,
    half: &Half,
    other: u64,
    table: &[Option<[u8; PAGE]>],
    bytes: &mut [u8],
) -> Result<(), Failed>
    requires sides { AreSides half.now.start other }
    requires size { length bytes.old ≡ 98304 }
    requires fresh { half.now.generation < 18446744073709551615 }
    requires few { half.now.pages ≤ 131072 }
    requires size_table { length table.now ≡ half.now.pages }
    requires fits { D.tells → AllFit half.now (entries half.now (D.view disk.old).image) }
    requires recovered { D.tells → AreRecovered (entries half.now (D.view disk.old).image) table.now }
    requires settled { IsSettled (D.view disk.old) }
    requires used { D.tells
        → IsUsed superblock.now half.now other (entries half.now (D.view disk.old).image) (D.view disk.old).image }
    ensures switched { D.tells → OnOk result (IsLog (half_after half.now other) [] (D.view disk.new).image) }
    ensures front { D.tells → SameFront (D.view disk.old).image (D.view disk.new).image }
    ensures placed { D.tells → OnOk result ((p : ℕ)
        → p < half.now.pages → in_place (D.view disk.new).image p ≡ pages_in half.now (D.view disk.old).image p) }
    ensures blocks { D.tells → SameBlocks half.now.pages (D.view disk.old).image (D.view disk.new).image }
    ensures settled { OnOk result (IsSettled (D.view disk.new)) }
    ensures crash { D.tells → LeavesOnly (HasPages superblock.now half.now.generation
        (pages_in half.now (D.view disk.old).image) (D.view disk.old).image) (D.view disk.old) (D.view disk.new) }
    ensures blamed { IsBlamed result (D.view disk.old) (D.view disk.new) }
{
    write_pages(disk, table)?;
    switch(disk, superblock, half, other, bytes)
}
