// The steps that take a log from one half to the other, once its pages stand in their places.
ghost use Rattle.std.specs.Prelude.{◌≡◌, ◌≢◌, ◌+◌, ◌*◌, ◌<◌, ◌≤◌, [], ℕ, length, OnOk, OnErr, IfOk, IfErr};
ghost use Rattle.std.proofs.Common.{get_or};
ghost use Rattle.base_types.specs.Image.{byte_at, bytes_from};
ghost use Rattle.base_types.specs.View.{IsCounted};
ghost use Rattle.base_types.specs.Crash.{IsSettled, IsQuiet, ChangesBy};
ghost use Rattle.base_outside.specs.Runs.{LeavesOnly};
ghost use Rattle.disk_layout.specs.Numbers.{number_at};
ghost use Rattle.disk_layout.specs.Places.{entry_start};
ghost use Rattle.disk_layout.specs.Entry.{gate_at, SameButGates};
ghost use Rattle.disk_layout.specs.Half.{AreSides, IsAhead, IsLog};
ghost use Rattle.disk_layout.specs.Pages.{pages_in, HasPages};
ghost use Rattle.disk_log.specs.Blame.{IsBlamed};
ghost use Rattle.disk_log.specs.Switch.{GateTorn, GenerationTorn, ClosesGates, IsReady, SameOutside, half_after};

use base_outside::{read_byte, write_through};
use base_types::{Disk, Failed};
use disk_layout::{CLOSED, ENTRY, Half, OPEN, Superblock, put_u64};
use std::alloc::{AllocError, Global};

// Entries whose gates are read at once.
const PIECE_ENTRIES: u64 = 64;

// Bytes of so many entries: 96 KiB.
const PIECE: usize = 98_304;

// Memory for the bytes that are read at once.
pub fn piece(alloc: Global) -> Result<Vec<u8>, AllocError>
    ensures { IfOk result (λ bytes. length bytes.items ≡ 98304) }
{
    let mut bytes = Vec::new(alloc);
    bytes.resize(PIECE, 0)?;
    Ok(bytes)
}

// Closes the other half's gate where it is open. One that is closed isn't written, since a crash might open it over a
// torn generation.
pub fn close_header<D: Disk>(disk: &mut D, half: &Half, other: u64) -> Result<(), Failed>
    requires sides { AreSides half.now.start other }
    requires settled { IsSettled (D.view disk.old) }
    requires ahead { D.tells → IsAhead half.now other (D.view disk.old).image }
    ensures closed { D.tells → OnOk result (byte_at (D.view disk.new).image other ≢ 1) }
    ensures settled { OnOk result (IsSettled (D.view disk.new)) }
    ensures same { D.tells → GateTorn half.now other (D.view disk.old).image (D.view disk.new).image }
    ensures crash { D.tells
        → LeavesOnly (GateTorn half.now other (D.view disk.old).image) (D.view disk.old) (D.view disk.new) }
    ensures faults { IsCounted result (D.view disk.old) (D.view disk.new) }
{
    if read_byte(disk, other)? != OPEN {
        return Ok(());
    }
    write_through(disk, other, &[CLOSED])
}

// Closes a gate of the half that starts there.
fn close_gate<D: Disk>(disk: &mut D, start: u64, slot: u64) -> Result<(), Failed>
    requires start { start ≤ 3146752 }
    requires slot { slot < 2048 }
    ensures closed { D.tells → OnOk result (gate_at start (D.view disk.new).image slot ≢ 1) }
    ensures same { D.tells → SameButGates start slot 1 (D.view disk.old).image (D.view disk.new).image }
    ensures crash { ChangesBy (SameButGates start slot 1) (D.view disk.old) (D.view disk.new) }
    ensures faults { IsCounted result (D.view disk.old) (D.view disk.new) }
{
    disk.write_at(start + 512 + 1_536 * slot, &[CLOSED])
}

// Closes a gate where the bytes that were read say that it is open.
fn close_if_open<D: Disk>(disk: &mut D, start: u64, slot: u64, gate: u8) -> Result<(), Failed>
    requires start { start ≤ 3146752 }
    requires slot { slot < 2048 }
    requires read { D.tells → gate ≡ gate_at start (D.view disk.old).image slot }
    ensures closed { D.tells → OnOk result (gate_at start (D.view disk.new).image slot ≢ 1) }
    ensures same { D.tells → SameButGates start slot 1 (D.view disk.old).image (D.view disk.new).image }
    ensures crash { ChangesBy (SameButGates start slot 1) (D.view disk.old) (D.view disk.new) }
    ensures blamed { IsBlamed result (D.view disk.old) (D.view disk.new) }
{
    if gate != OPEN {
        return Ok(());
    }
    close_gate(disk, start, slot)
}

// Closes the open gates of a piece of a half, which was read.
fn close_piece<D: Disk>(disk: &mut D, start: u64, first: u64, bytes: &[u8]) -> Result<(), Failed>
    requires start { start ≤ 3146752 }
    requires first { first + 64 ≤ 2048 }
    requires size { length bytes.now ≡ 98304 }
    requires read { D.tells → bytes.now ≡ bytes_from (D.view disk.old).image (entry_start start first) 98304 }
    ensures closed { D.tells → OnOk result (ClosesGates start first 64 (D.view disk.new).image) }
    ensures same { D.tells → SameButGates start first 64 (D.view disk.old).image (D.view disk.new).image }
    ensures crash { ChangesBy (SameButGates start first 64) (D.view disk.old) (D.view disk.new) }
    ensures blamed { IsBlamed result (D.view disk.old) (D.view disk.new) }
{
    for i in 0..PIECE_ENTRIES {
        close_if_open(disk, start, first + i, bytes[ENTRY * i as usize])?;
    }
    Ok(())
}

// Closes the open gates of a half, which is read in large pieces, and syncs.
pub fn close_gates<D: Disk>(disk: &mut D, start: u64, bytes: &mut [u8]) -> Result<(), Failed>
    requires start { start ≤ 3146752 }
    requires size { length bytes.old ≡ 98304 }
    ensures closed { D.tells → OnOk result (ClosesGates start 0 2048 (D.view disk.new).image) }
    ensures same { D.tells → SameButGates start 0 2048 (D.view disk.old).image (D.view disk.new).image }
    ensures settled { OnOk result (IsSettled (D.view disk.new)) }
    ensures crash { ChangesBy (SameButGates start 0 2048) (D.view disk.old) (D.view disk.new) }
    ensures blamed { IsBlamed result (D.view disk.old) (D.view disk.new) }
{
    for piece in 0..32 {
        let first = PIECE_ENTRIES * piece;
        disk.read(start + 512 + 1_536 * first, bytes)?;
        close_piece(disk, start, first, bytes)?;
    }
    disk.sync()
}

// Writes the generation of the other half, which is closed.
pub fn write_generation<D: Disk>(
    disk: &mut D,
    half: &Half,
    other: u64,
    generation: u64,
) -> Result<(), Failed>
    requires sides { AreSides half.now.start other }
    requires settled { IsSettled (D.view disk.old) }
    requires ahead { D.tells → IsAhead half.now other (D.view disk.old).image }
    requires closed { D.tells → byte_at (D.view disk.old).image other ≢ 1 }
    ensures written { D.tells → OnOk result (number_at 8 (other + 8) (D.view disk.new).image ≡ generation) }
    ensures settled { OnOk result (IsSettled (D.view disk.new)) }
    ensures same { D.tells → GenerationTorn half.now other (D.view disk.old).image (D.view disk.new).image }
    ensures crash { D.tells
        → LeavesOnly (GenerationTorn half.now other (D.view disk.old).image) (D.view disk.old) (D.view disk.new) }
    ensures faults { IsCounted result (D.view disk.old) (D.view disk.new) }
{
    let mut bytes = [0; 8];
    put_u64(&mut bytes, 0, generation);
    write_through(disk, other + 8, &bytes)
}

// Takes a log whose pages stand in their places to its other half, which is then empty.
pub fn switch<D: Disk>(
    disk: &mut D,
    superblock: &Superblock,
    half: &Half,
    other: u64,
    bytes: &mut [u8],
) -> Result<(), Failed>
    requires sides { AreSides half.now.start other }
    requires size { length bytes.old ≡ 98304 }
    requires fresh { half.now.generation < 18446744073709551615 }
    requires settled { IsSettled (D.view disk.old) }
    requires ready { D.tells → IsReady superblock.now half.now other (D.view disk.old).image }
    ensures switched { D.tells → OnOk result (IsLog (half_after half.now other) [] (D.view disk.new).image) }
    ensures same { D.tells → SameOutside other (D.view disk.old).image (D.view disk.new).image }
    ensures settled { OnOk result (IsSettled (D.view disk.new)) }
    ensures crash { D.tells → LeavesOnly (HasPages superblock.now half.now.generation
        (pages_in half.now (D.view disk.old).image) (D.view disk.old).image) (D.view disk.old) (D.view disk.new) }
    ensures blamed { IsBlamed result (D.view disk.old) (D.view disk.new) }
{
    close_header(disk, half, other)?;
    close_gates(disk, other, bytes)?;
    write_generation(disk, half, other, half.generation + 1)?;
    write_through(disk, other, &[OPEN])
}
