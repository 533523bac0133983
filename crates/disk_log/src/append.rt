// Entries that are written behind the closed gate of the first, which is then opened: one that is closed hides all that
// stand behind it.
ghost use Rattle.base_outside.specs.Runs.{LeavesOnly};
ghost use Rattle.std.specs.Prelude.{◌≡◌, ◌+◌, ◌*◌, ◌<◌, ◌≤◌, ◌++◌, ◌^◌, ℕ, length, take, drop, OnOk};
ghost use Rattle.base_types.specs.Image.{Holds, Torn};
ghost use Rattle.base_types.specs.View.{IsCounted};
ghost use Rattle.base_types.specs.Crash.{IsSettled, ChangesBy};
ghost use Rattle.disk_layout.specs.declared.superblock.Superblock.{Superblock};
ghost use Rattle.disk_layout.specs.Places.{entry_start, pages_of, SameFront};
ghost use Rattle.disk_layout.specs.Superblock.{IsSuperblock};
ghost use Rattle.disk_layout.specs.Entry.{gate_at, Fits, Stands, StandFrom, AreOpen, HasEntries, SameButBodies};
ghost use Rattle.disk_layout.specs.Entry.{SameButEntries, SameButGates, SameButThese};
ghost use Rattle.disk_layout.specs.Half.{IsLog};
ghost use Rattle.disk_layout.specs.Pages.{HasWhole, HasFirst};
ghost use Rattle.disk_log.specs.Append.{AllFit, LeavesBlocks, SameRest};
ghost use Rattle.disk_log.specs.Blame.{IsBlamed};

use base_types::{Disk, Failed};
use disk_layout::{Entry, Half, OPEN, entry_bytes};

// Writes an entry, but not its gate.
fn write_entry<D: Disk>(disk: &mut D, half: &Half, slot: u64, entry: &Entry) -> Result<(), Failed>
    requires start { half.now.start ≤ 3146752 }
    requires slot { slot < 2048 }
    requires fits { Fits half.now entry.now }
    ensures written { D.tells → OnOk result (Stands half.now entry.now (D.view disk.new).image slot) }
    ensures same { D.tells → SameButBodies half.now.start slot 1 (D.view disk.old).image (D.view disk.new).image }
    ensures crash { ChangesBy (SameButBodies half.now.start slot 1) (D.view disk.old) (D.view disk.new) }
    ensures faults { IsCounted result (D.view disk.old) (D.view disk.new) }
{
    let bytes = entry_bytes(entry, half.generation);
    disk.write_at(half.start + 512 + 1536 * slot + 1, &bytes[1..])
}

// Writes entries behind closed gates, and syncs.
fn write_entries<D: Disk>(
    disk: &mut D,
    half: &Half,
    first: u64,
    news: &[Entry],
) -> Result<(), Failed>
    requires start { half.now.start ≤ 3146752 }
    requires room { first + length news.now ≤ 2048 }
    requires fits { AllFit half.now news.now }
    ensures written { D.tells → OnOk result (StandFrom half.now first news.now (D.view disk.new).image) }
    ensures same { D.tells
        → SameButBodies half.now.start first (length news.now) (D.view disk.old).image (D.view disk.new).image }
    ensures settled { OnOk result (IsSettled (D.view disk.new)) }
    ensures crash { ChangesBy
        (SameButBodies half.now.start first (length news.now)) (D.view disk.old) (D.view disk.new) }
    ensures faults { IsCounted result (D.view disk.old) (D.view disk.new) }
{
    for (i, entry) in news.iter().enumerate() {
        write_entry(disk, half, first + i as u64, entry)?;
    }
    disk.sync()
}

fn open_gate<D: Disk>(disk: &mut D, start: u64, slot: u64) -> Result<(), Failed>
    requires start { start ≤ 3146752 }
    requires slot { slot < 2048 }
    ensures opened { D.tells → OnOk result (gate_at start (D.view disk.new).image slot ≡ 1) }
    ensures same { D.tells → SameButGates start slot 1 (D.view disk.old).image (D.view disk.new).image }
    ensures crash { ChangesBy (SameButGates start slot 1) (D.view disk.old) (D.view disk.new) }
    ensures faults { IsCounted result (D.view disk.old) (D.view disk.new) }
{
    disk.write_at(start + 512 + 1536 * slot, &[OPEN])
}

// Writes an entry with an open gate.
fn write_open<D: Disk>(disk: &mut D, half: &Half, slot: u64, entry: &Entry) -> Result<(), Failed>
    requires start { half.now.start ≤ 3146752 }
    requires slot { slot < 2048 }
    requires fits { Fits half.now entry.now }
    ensures written { D.tells → OnOk result (Stands half.now entry.now (D.view disk.new).image slot) }
    ensures opened { D.tells → OnOk result (gate_at half.now.start (D.view disk.new).image slot ≡ 1) }
    ensures same { D.tells → SameButThese half.now.start slot 1 (D.view disk.old).image (D.view disk.new).image }
    ensures crash { ChangesBy (SameButThese half.now.start slot 1) (D.view disk.old) (D.view disk.new) }
    ensures faults { IsCounted result (D.view disk.old) (D.view disk.new) }
{
    let bytes = entry_bytes(entry, half.generation);
    disk.write_at(half.start + 512 + 1536 * slot, &bytes)
}

// Writes entries with open gates.
fn write_rest<D: Disk>(disk: &mut D, half: &Half, first: u64, news: &[Entry]) -> Result<(), Failed>
    requires start { half.now.start ≤ 3146752 }
    requires room { first + length news.now ≤ 2048 }
    requires fits { AllFit half.now news.now }
    ensures written { D.tells → OnOk result (StandFrom half.now first news.now (D.view disk.new).image) }
    ensures opened { D.tells → OnOk result (AreOpen half.now first (length news.now) (D.view disk.new).image) }
    ensures same { D.tells
        → SameButThese half.now.start first (length news.now) (D.view disk.old).image (D.view disk.new).image }
    ensures crash { ChangesBy
        (SameButThese half.now.start first (length news.now)) (D.view disk.old) (D.view disk.new) }
    ensures blamed { IsBlamed result (D.view disk.old) (D.view disk.new) }
{
    for (i, entry) in news.iter().enumerate() {
        write_open(disk, half, first + i as u64, entry)?;
    }
    Ok(())
}

// Writes entries behind the closed gate of the first, and syncs.
fn write_behind<D: Disk>(
    disk: &mut D,
    half: &Half,
    first: u64,
    news: &[Entry],
) -> Result<(), Failed>
    requires start { half.now.start ≤ 3146752 }
    requires room { first + length news.now ≤ 2048 }
    requires fits { AllFit half.now news.now }
    ensures written { D.tells → OnOk result (StandFrom half.now first news.now (D.view disk.new).image) }
    ensures opened { D.tells → OnOk result ((k : ℕ)
        → 1 ≤ k → k < length news.now → gate_at half.now.start (D.view disk.new).image (first + k) ≡ 1) }
    ensures same { D.tells
        → SameButEntries half.now.start first (length news.now) (D.view disk.old).image (D.view disk.new).image }
    ensures settled { OnOk result (IsSettled (D.view disk.new)) }
    ensures crash { ChangesBy
        (SameButEntries half.now.start first (length news.now)) (D.view disk.old) (D.view disk.new) }
    ensures faults { IsCounted result (D.view disk.old) (D.view disk.new) }
{
    let split = news.len().min(1);
    write_rest(disk, half, first + split as u64, &news[split..])?;
    write_entries(disk, half, first, &news[..split])
}

// Opens gates, and syncs.
fn open_gates<D: Disk>(disk: &mut D, half: &Half, first: u64, count: u64) -> Result<(), Failed>
    requires start { half.now.start ≤ 3146752 }
    requires room { first + count ≤ 2048 }
    ensures opened { D.tells → OnOk result (AreOpen half.now first count (D.view disk.new).image) }
    ensures same { D.tells → SameButGates half.now.start first count (D.view disk.old).image (D.view disk.new).image }
    ensures settled { OnOk result (IsSettled (D.view disk.new)) }
    ensures crash { ChangesBy (SameButGates half.now.start first count) (D.view disk.old) (D.view disk.new) }
    ensures faults { IsCounted result (D.view disk.old) (D.view disk.new) }
{
    for i in 0..count {
        open_gate(disk, half.start, first + i)?;
    }
    disk.sync()
}

// Opens the gate of the first of some entries, where there are any, and syncs.
fn open_first<D: Disk>(disk: &mut D, half: &Half, first: u64, news: &[Entry]) -> Result<(), Failed>
    requires start { half.now.start ≤ 3146752 }
    requires room { first + length news.now ≤ 2048 }
    ensures opened { D.tells
        → 0 < length news.now → OnOk result (gate_at half.now.start (D.view disk.new).image first ≡ 1) }
    ensures above { D.tells → (k : ℕ) → 1 ≤ k → gate_at half.now.start (D.view disk.new).image (first + k)
        ≡ gate_at half.now.start (D.view disk.old).image (first + k) }
    ensures same { D.tells
        → SameButGates half.now.start first (length news.now) (D.view disk.old).image (D.view disk.new).image }
    ensures settled { OnOk result (IsSettled (D.view disk.new)) }
    ensures crash { ChangesBy
        (SameButGates half.now.start first (length news.now)) (D.view disk.old) (D.view disk.new) }
    ensures faults { IsCounted result (D.view disk.old) (D.view disk.new) }
{
    let count = news.len().min(1);
    open_gates(disk, half, first, count as u64)
}

// Forces entries: writes those from `forced` on behind the closed gate of the first, and then opens that. A crash at any
// moment of the call leaves the pages after the first of the transactions that end in them, or after none.
pub(crate) fn append<D: Disk>(
    disk: &mut D,
    half: &Half,
    all: &[Entry],
    forced: usize,
) -> Result<(), Failed>
    requires start { half.now.start ≤ 3146752 }
    requires forced { forced ≤ length all.now }
    requires room { length all.now ≤ 2048 }
    requires fits { AllFit half.now (drop forced all.now) }
    requires log { D.tells → IsLog half.now (take forced all.now) (D.view disk.old).image }
    requires whole { D.tells → HasWhole (take forced all.now) (drop forced all.now) (D.view disk.old).image }
    requires settled { D.tells → LeavesBlocks half.now.pages (D.view disk.old) }
    ensures log { D.tells → OnOk result (IsLog half.now all.now (D.view disk.new).image) }
    ensures front { D.tells → SameFront (D.view disk.old).image (D.view disk.new).image }
    ensures rest { D.tells → SameRest (D.view disk.old).image (D.view disk.new).image }
    ensures settled { OnOk result (IsSettled (D.view disk.new)) }
    ensures crash { D.tells → (superblock : Superblock)
        → half.now.pages ≡ pages_of superblock.blocks → IsSuperblock superblock (D.view disk.old).image
        → LeavesOnly (HasFirst superblock half.now.generation (take forced all.now) (drop forced all.now)
        (D.view disk.old).image (D.view disk.old).may_leave) (D.view disk.old) (D.view disk.new) }
    ensures faults { IsCounted result (D.view disk.old) (D.view disk.new) }
{
    let news = &all[forced..];
    write_behind(disk, half, forced as u64, news)?;
    open_first(disk, half, forced as u64, news)
}
