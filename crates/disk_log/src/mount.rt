// Mounts: what the bytes of a disk hold is recovered in its places, and the log goes on in its other half.
ghost use Rattle.std.specs.Prelude.{◌≡◌, ◌<◌, ◌≤◌, IfOk, IfErr, OnOk, OnErr};
ghost use Rattle.base_types.specs.Crash.{IsSettled, IsQuiet};
ghost use Rattle.base_outside.specs.Runs.{LeavesOnly};
ghost use Rattle.disk_layout.specs.Places.{pages_of as pages_for};
ghost use Rattle.disk_layout.specs.Half.{HasLog, IsPlaced};
ghost use Rattle.disk_layout.specs.Pages.{pages_in, HasPages};
ghost use Rattle.disk_log.specs.Log.{state_in};
ghost use Rattle.disk_log.specs.State.{IsSound, fresh_state};
ghost use Rattle.disk_log.specs.Mount.{IsSettledFault, IsMounted, IsMountFault, IsSameLog, IsQuietOr};
ghost use Rattle.disk_log.specs.Blame.{IsDiskOrMemory};

use crate::checkpoint::{checkpoint, next_half};
use crate::fault::LogFault;
use crate::kept::Kept;
use crate::read::{found_superblock, read_entries, read_used};
use crate::recover::recovered;
use crate::switch::piece;
use base_types::Disk;
use disk_layout::{HALF_STARTS, Half, Superblock, pages_of};
use std::alloc::Global;

// Reads the superblock and the used half of a disk's bytes, which are a log.
pub fn found_log<D: Disk>(disk: &mut D) -> Result<(Superblock, Half), LogFault>
    ensures log { D.tells → IfOk result (λ found. HasLog found.0 found.1 (D.view disk.old).image) }
    ensures blocks { IfOk result (λ found. found.0.blocks ≤ 66560) }
    ensures placed { IfOk result (λ found. IsPlaced (pages_for found.0.blocks) found.1) }
    ensures quiet { IsQuiet (D.view disk.old) (D.view disk.new) }
    ensures counted { (D.view disk.old).faults ≤ (D.view disk.new).faults }
    ensures only { IfErr result (λ fault. IsSettledFault D.tells fault (D.view disk.old) (D.view disk.new)) }
{
    let Some(superblock) = found_superblock(disk)? else {
        return Err(LogFault::NotALog(0));
    };
    let Some(half) = read_used(disk, pages_of(superblock.blocks))? else {
        return Err(LogFault::NotALog(HALF_STARTS[0]));
    };
    Ok((superblock, half))
}

// Syncs, and reads the superblock and the used half of a disk's bytes, which are a log that can go on.
fn used_log<D: Disk>(disk: &mut D) -> Result<(Superblock, Half), LogFault>
    ensures log { D.tells → IfOk result (λ found. HasLog found.0 found.1 (D.view disk.old).image) }
    ensures blocks { IfOk result (λ found. found.0.blocks ≤ 66560) }
    ensures placed { IfOk result (λ found. IsPlaced (pages_for found.0.blocks) found.1) }
    ensures fresh { IfOk result (λ found. found.1.generation < 18446744073709551615) }
    ensures settled { OnOk result (IsSettled (D.view disk.new)) }
    ensures quiet { IsQuiet (D.view disk.old) (D.view disk.new) }
    ensures counted { (D.view disk.old).faults ≤ (D.view disk.new).faults }
    ensures only { IfErr result (λ fault. IsMountFault D.tells fault (D.view disk.old) (D.view disk.new)) }
{
    disk.sync()?;
    let (superblock, half) = found_log(disk)?;
    if half.generation == u64::MAX {
        return Err(LogFault::NotALog(HALF_STARTS[0]));
    }
    Ok((superblock, half))
}

// Recovers the pages of a log in their places, and takes it to its other half. It takes all memory before it writes.
fn recover<D: Disk>(
    alloc: Global,
    disk: &mut D,
    superblock: &Superblock,
    half: &Half,
) -> Result<Kept, LogFault>
    requires blocks { superblock.now.blocks ≤ 66560 }
    requires placed { IsPlaced (pages_for superblock.now.blocks) half.now }
    requires fresh { half.now.generation < 18446744073709551615 }
    requires settled { IsSettled (D.view disk.old) }
    requires log { D.tells → HasLog superblock.now half.now (D.view disk.old).image }
    ensures sound { IfOk result (λ kept. IsSound D.tells (D.view disk.new) kept.pages (state_in kept)) }
    ensures mounted { D.tells
        → IfOk result (λ kept. IsMounted (D.view disk.old).image (D.view disk.new).image (state_in kept)) }
    ensures fresh { IfOk result (λ kept. state_in kept ≡ fresh_state kept.superblock kept.half) }
    ensures settled { OnOk result (IsSettled (D.view disk.new)) }
    ensures crash { D.tells → LeavesOnly (HasPages superblock.now half.now.generation
        (pages_in half.now (D.view disk.old).image) (D.view disk.old).image) (D.view disk.old) (D.view disk.new) }
    ensures counted { (D.view disk.old).faults ≤ (D.view disk.new).faults }
    ensures only { IfErr result (λ fault. IsDiskOrMemory fault (D.view disk.old) (D.view disk.new)) }
{
    let entries = read_entries(alloc, disk, half)?;
    let next = next_half(half);
    let kept = Kept::fresh(alloc, *superblock, next)?;
    let table = recovered(alloc, &entries, half.pages)?;
    let mut bytes = piece(alloc)?;
    checkpoint(
        disk,
        superblock,
        half,
        next.start,
        table.as_slice(),
        &mut bytes,
    )?;
    Ok(kept)
}

// Mounts the log on a disk.
pub fn mounted<D: Disk>(alloc: Global, disk: &mut D) -> Result<Kept, LogFault>
    ensures sound { IfOk result (λ kept. IsSound D.tells (D.view disk.new) kept.pages (state_in kept)) }
    ensures mounted { D.tells
        → IfOk result (λ kept. IsMounted (D.view disk.old).image (D.view disk.new).image (state_in kept)) }
    ensures fresh { IfOk result (λ kept. state_in kept ≡ fresh_state kept.superblock kept.half) }
    ensures settled { OnOk result (IsSettled (D.view disk.new)) }
    ensures crash { D.tells → LeavesOnly (IsSameLog (D.view disk.old).image) (D.view disk.old) (D.view disk.new) }
    ensures left { D.tells
        → OnErr result (IsQuietOr (IsSameLog (D.view disk.old).image) (D.view disk.old) (D.view disk.new)) }
    ensures counted { (D.view disk.old).faults ≤ (D.view disk.new).faults }
    ensures only { IfErr result (λ fault. IsMountFault D.tells fault (D.view disk.old) (D.view disk.new)) }
{
    let (superblock, half) = used_log(disk)?;
    recover(alloc, disk, &superblock, &half)
}
