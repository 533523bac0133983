// Reads of a log's words that change nothing.
ghost use Rattle.std.specs.Prelude.{◌≡◌, ◌≤◌, ◌<◌, ◌+◌, ◌↔◌, ℕ, IsTrue, IfOk, IfErr, IfSome, MatchOption, length};
ghost use Rattle.std.specs.Prelude.{EachIndex, slice_index};
ghost use Rattle.base_types.specs.Crash.{IsQuiet};
ghost use Rattle.base_types.specs.Image.{byte_at};
ghost use Rattle.base_types.specs.declared.limits.TheConstants.{DISK_END};
ghost use Rattle.base_types.specs.View.{IsCounted};
ghost use Rattle.disk_layout.specs.Superblock.{IsSuperblock, IsUntouched, IsBlank};
ghost use Rattle.disk_layout.specs.Half.{used_half as used_in, header_from, IsPlaced};
ghost use Rattle.disk_layout.specs.Entry.{entry_at, entries, Fits};
ghost use Rattle.disk_layout.specs.declared.superblock.Superblock.{Superblock as TheSuperblock};
ghost use Rattle.disk_log.specs.Append.{AllFit};
ghost use Rattle.disk_log.specs.Blame.{IsBlamed, IsDiskOrMemory};

use crate::fault::LogFault;
use base_types::{DISK_END, Disk, Failed};
use disk_layout::{
    ENTRIES, ENTRY, Entry, HALF_STARTS, Half, Header, PAGE, Superblock, is_marked, read_entry,
    read_header, read_superblock, used_half,
};
use std::alloc::Global;

// Bytes that are looked at at once: 31 pages.
const LOOK: usize = 15_872;

// How many such looks there are at what a format may write.
const LOOKS: u64 = 439;

fn are_zero(bytes: &[u8]) -> bool
    ensures { IsTrue result ↔ EachIndex bytes.now (λ k. slice_index bytes.now k ≡ 0) }
{
    bytes.iter().all(|byte| *byte == 0)
}

// Whether the bytes from a place on are zero, as many as are read into these.
fn is_zero_at<D: Disk>(disk: &mut D, at: u64, bytes: &mut [u8]) -> Result<bool, Failed>
    requires { at + length bytes.old ≤ DISK_END }
    ensures zero { D.tells → IfOk result (λ zero. IsTrue zero
        ↔ ((k : ℕ) → k < length bytes.old → byte_at (D.view disk.old).image (at + k) ≡ 0)) }
    ensures quiet { IsQuiet (D.view disk.old) (D.view disk.new) }
    ensures faults { IsCounted result (D.view disk.old) (D.view disk.new) }
{
    disk.read(at, bytes)?;
    Ok(are_zero(bytes))
}

// Whether all is zero that a format may write.
fn is_untouched<D: Disk>(disk: &mut D) -> Result<bool, Failed>
    ensures untouched { D.tells
        → IfOk result (λ untouched. IsTrue untouched ↔ IsUntouched (D.view disk.old).image) }
    ensures quiet { IsQuiet (D.view disk.old) (D.view disk.new) }
    ensures blamed { IsBlamed result (D.view disk.old) (D.view disk.new) }
{
    let length = disk.length()?;
    let mut bytes = [0; LOOK];
    for look in 0..LOOKS {
        let behind = length <= 15_872 * look;
        if behind {
            return Ok(true);
        }
        let zero = is_zero_at(disk, 15_872 * look, &mut bytes)?;
        if !zero {
            return Ok(false);
        }
    }
    Ok(true)
}

/// Whether a disk is blank: all is zero that a format may write, as on one without bytes, or it has the mark of a
/// format that was stopped. Any other disk without a log may be somebody's. The only error is the disk's.
pub fn is_blank<D: Disk>(disk: &mut D) -> Result<bool, Failed>
    ensures blank { D.tells → IfOk result (λ blank. IsTrue blank ↔ IsBlank (D.view disk.old).image) }
    ensures quiet { IsQuiet (D.view disk.old) (D.view disk.new) }
    ensures blamed { IsBlamed result (D.view disk.old) (D.view disk.new) }
{
    let mut page = [0; PAGE];
    disk.read(0, &mut page)?;
    if is_marked(&page) {
        return Ok(true);
    }
    is_untouched(disk)
}

/// The superblock of a disk as it is found, where there is one: whose aggregate it is, and how many blocks it has.
/// The only error is the disk's.
pub fn found_superblock<D: Disk>(disk: &mut D) -> Result<Option<Superblock>, Failed>
    ensures front { D.tells → IfOk result (λ found. MatchOption found
        ((superblock : TheSuperblock) → IsSuperblock superblock (D.view disk.old).image → ⊥)
        (λ superblock. IsSuperblock superblock (D.view disk.old).image)) }
    ensures blocks { IfOk result (λ found. IfSome found (λ superblock. superblock.blocks ≤ 66560)) }
    ensures quiet { IsQuiet (D.view disk.old) (D.view disk.new) }
    ensures faults { IsCounted result (D.view disk.old) (D.view disk.new) }
{
    let mut page = [0; PAGE];
    disk.read(0, &mut page)?;
    Ok(read_superblock(&page))
}

fn header_of<D: Disk>(disk: &mut D, start: u64) -> Result<Header, Failed>
    requires { start ≤ 3146752 }
    ensures header { D.tells → IfOk result (λ header. header ≡ header_from (D.view disk.old).image start) }
    ensures quiet { IsQuiet (D.view disk.old) (D.view disk.new) }
    ensures faults { IsCounted result (D.view disk.old) (D.view disk.new) }
{
    let mut bytes = [0; 16];
    disk.read(start, &mut bytes)?;
    Ok(read_header(&bytes))
}

/// The half of the log that is used, before so many metadata pages, where one is. The only error is the disk's.
pub fn read_used<D: Disk>(disk: &mut D, pages: u32) -> Result<Option<Half>, Failed>
    ensures used { D.tells → IfOk result (λ half. half ≡ used_in pages (D.view disk.old).image) }
    ensures placed { IfOk result (λ half. IfSome half (λ half. IsPlaced pages half)) }
    ensures quiet { IsQuiet (D.view disk.old) (D.view disk.new) }
    ensures faults { IsCounted result (D.view disk.old) (D.view disk.new) }
{
    let zeroth = header_of(disk, HALF_STARTS[0])?;
    let first = header_of(disk, HALF_STARTS[1])?;
    Ok(used_half(pages, zeroth, first))
}

fn read_one<D: Disk>(disk: &mut D, half: &Half, i: u64) -> Result<Option<Entry>, Failed>
    requires start { half.now.start ≤ 3146752 }
    requires place { i < 2048 }
    ensures entry { D.tells → IfOk result (λ entry. entry ≡ entry_at half.now (D.view disk.old).image i) }
    ensures fits { IfOk result (λ entry. IfSome entry (λ entry. Fits half.now entry)) }
    ensures quiet { IsQuiet (D.view disk.old) (D.view disk.new) }
    ensures faults { IsCounted result (D.view disk.old) (D.view disk.new) }
{
    let mut bytes = [0; ENTRY];
    disk.read(half.start + 512 + 1_536 * i, &mut bytes)?;
    Ok(read_entry(half, &bytes))
}

// The entries of a half, up to the first that doesn't count.
pub fn read_entries<D: Disk>(
    alloc: Global,
    disk: &mut D,
    half: &Half,
) -> Result<Vec<Entry>, LogFault>
    requires { half.now.start ≤ 3146752 }
    ensures entries { D.tells → IfOk result (λ found. found.items ≡ entries half.now (D.view disk.old).image) }
    ensures fits { IfOk result (λ found. AllFit half.now found.items) }
    ensures quiet { IsQuiet (D.view disk.old) (D.view disk.new) }
    ensures counted { (D.view disk.old).faults ≤ (D.view disk.new).faults }
    ensures only { IfErr result (λ fault. IsDiskOrMemory fault (D.view disk.old) (D.view disk.new)) }
{
    let mut found = Vec::with_capacity(alloc, ENTRIES)?;
    for i in 0..ENTRIES {
        match read_one(disk, half, i as u64)? {
            Some(entry) => found.push_reserved(entry),
            None => return Ok(found),
        }
    }
    Ok(found)
}
