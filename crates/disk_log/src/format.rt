// Formats: the superblock comes first, behind its gate, as the mark of a format; then all gates of entries are closed,
// half 0 is opened, the pages are new, and the gate of the superblock comes last.
ghost use Rattle.std.specs.Prelude.{◌≡◌, ◌≢◌, ◌+◌, ◌<◌, ◌≤◌, ℕ, true, false, length, IfOk, IfErr, OnOk, OnErr};
ghost use Rattle.base_types.specs.Image.{byte_at, bytes_from, Torn};
ghost use Rattle.base_types.specs.View.{IsCounted};
ghost use Rattle.base_types.specs.Crash.{IsSettled, ChangesBy};
ghost use Rattle.base_outside.specs.Runs.{LeavesOnly};
ghost use Rattle.disk_layout.specs.Places.{in_place, pages_end, pages_of as pages_for};
ghost use Rattle.disk_layout.specs.Server.{IsNewServer};
ghost use Rattle.disk_layout.specs.Superblock.{IsSuperblock, IsMarked, layout_name};
ghost use Rattle.disk_log.specs.Blame.{IsBlamed, IsDiskOrMemory};
ghost use Rattle.disk_log.specs.Format.{SameAround, HasHeaders, SameButHeaders, SameLog, HasFront, SameButFront};
ghost use Rattle.disk_log.specs.Format.{HasNewPages, IsPrepared, IsStaged, IsFormatted, IsLeftOfFormat, IsMarkedFirst};
ghost use Rattle.disk_log.specs.Format.{first_half};
ghost use Rattle.disk_log.specs.Log.{state_in};
ghost use Rattle.disk_log.specs.Mount.{IsQuietOr};
ghost use Rattle.disk_log.specs.Recovered.{blank_page};
ghost use Rattle.disk_log.specs.State.{IsSound, fresh_state};

use crate::fault::LogFault;
use crate::kept::Kept;
use crate::switch::{close_gates, piece};
use base_outside::{read_byte, write_through};
use base_types::{Disk, Failed};
use disk_layout::{
    CLOSED, HALF_STARTS, Half, OPEN, PAGE, PAGES_START, Superblock, new_server_page, pages_of,
    put_u64, superblock_bytes,
};
use std::alloc::Global;

// Writes a gate where it stands otherwise.
fn set_gate<D: Disk>(disk: &mut D, at: u64, gate: u8) -> Result<(), Failed>
    requires low { 512 ≤ at }
    requires high { at ≤ 3146752 }
    ensures written { D.tells → OnOk result (byte_at (D.view disk.new).image at ≡ gate) }
    ensures torn { D.tells → OnOk result (Torn at 1 (D.view disk.old).image (D.view disk.new).image) }
    ensures crash { ChangesBy (SameAround 6292992) (D.view disk.old) (D.view disk.new) }
    ensures blamed { IsBlamed result (D.view disk.old) (D.view disk.new) }
{
    if read_byte(disk, at)? == gate {
        return Ok(());
    }
    disk.write_at(at, &[gate])
}

// Closes half 1, and opens half 0 with generation 1.
fn write_headers<D: Disk>(disk: &mut D) -> Result<(), Failed>
    ensures written { D.tells → OnOk result (HasHeaders (D.view disk.new).image) }
    ensures same { D.tells → OnOk result (SameButHeaders (D.view disk.old).image (D.view disk.new).image) }
    ensures crash { ChangesBy (SameAround 6292992) (D.view disk.old) (D.view disk.new) }
    ensures blamed { IsBlamed result (D.view disk.old) (D.view disk.new) }
{
    let mut bytes = [0; 8];
    put_u64(&mut bytes, 0, 1);
    set_gate(disk, HALF_STARTS[1], CLOSED)?;
    disk.write_at(HALF_STARTS[0] + 8, &bytes)?;
    set_gate(disk, HALF_STARTS[0], OPEN)
}

fn write_zero<D: Disk>(disk: &mut D, page: u32) -> Result<(), Failed>
    requires { page < 131072 }
    ensures written { D.tells → OnOk result (in_place (D.view disk.new).image page ≡ blank_page) }
    ensures others { D.tells
        → (p : ℕ) → p < page → in_place (D.view disk.new).image p ≡ in_place (D.view disk.old).image p }
    ensures same { D.tells → SameLog (D.view disk.old).image (D.view disk.new).image }
    ensures crash { ChangesBy (SameAround (pages_end (page + 1))) (D.view disk.old) (D.view disk.new) }
    ensures faults { IsCounted result (D.view disk.old) (D.view disk.new) }
{
    disk.write_at(PAGES_START + 512 * page as u64, &[0; PAGE])
}

// Writes zeros to the metadata pages.
fn write_zeros<D: Disk>(disk: &mut D, pages: u32) -> Result<(), Failed>
    requires { pages ≤ 131072 }
    ensures written { D.tells → OnOk result ((p : ℕ) → p < pages → in_place (D.view disk.new).image p ≡ blank_page) }
    ensures same { D.tells → SameLog (D.view disk.old).image (D.view disk.new).image }
    ensures crash { ChangesBy (SameAround (pages_end pages)) (D.view disk.old) (D.view disk.new) }
    ensures blamed { IsBlamed result (D.view disk.old) (D.view disk.new) }
{
    for page in 0..pages {
        write_zero(disk, page)?;
    }
    Ok(())
}

// Writes the server's page.
fn write_server<D: Disk>(disk: &mut D) -> Result<(), Failed>
    ensures written { D.tells → OnOk result (IsNewServer (in_place (D.view disk.new).image 0)) }
    ensures others { D.tells
        → (p : ℕ) → 1 ≤ p → in_place (D.view disk.new).image p ≡ in_place (D.view disk.old).image p }
    ensures same { D.tells → SameLog (D.view disk.old).image (D.view disk.new).image }
    ensures crash { ChangesBy (SameAround (pages_end 1)) (D.view disk.old) (D.view disk.new) }
    ensures faults { IsCounted result (D.view disk.old) (D.view disk.new) }
{
    disk.write_at(PAGES_START, &new_server_page())
}

// Writes all metadata pages.
fn write_new_pages<D: Disk>(disk: &mut D, pages: u32) -> Result<(), Failed>
    requires some { 1 ≤ pages }
    requires few { pages ≤ 131072 }
    ensures written { D.tells → OnOk result (HasNewPages pages (D.view disk.new).image) }
    ensures same { D.tells → SameLog (D.view disk.old).image (D.view disk.new).image }
    ensures crash { ChangesBy (SameAround (pages_end pages)) (D.view disk.old) (D.view disk.new) }
    ensures blamed { IsBlamed result (D.view disk.old) (D.view disk.new) }
{
    write_zeros(disk, pages)?;
    write_server(disk)
}

// Writes the superblock but for its gate.
fn write_front<D: Disk>(disk: &mut D, superblock: Superblock) -> Result<(), Failed>
    requires some_blocks { 1 ≤ superblock.blocks }
    requires few_blocks { superblock.blocks ≤ 66560 }
    ensures written { D.tells → OnOk result (HasFront superblock (D.view disk.new).image) }
    ensures named { D.tells → OnOk result (bytes_from (D.view disk.new).image 1 8 ≡ layout_name) }
    ensures same { D.tells → SameButFront (D.view disk.old).image (D.view disk.new).image }
    ensures crash { ChangesBy SameButFront (D.view disk.old) (D.view disk.new) }
    ensures faults { IsCounted result (D.view disk.old) (D.view disk.new) }
{
    let page = superblock_bytes(superblock);
    disk.write_at(1, &page[1..])
}

// Marks a disk as one whose format was begun, by the superblock behind its gate, and syncs.
fn mark<D: Disk>(disk: &mut D, superblock: Superblock) -> Result<(), Failed>
    requires some_blocks { 1 ≤ superblock.blocks }
    requires few_blocks { superblock.blocks ≤ 66560 }
    ensures written { D.tells → OnOk result (HasFront superblock (D.view disk.new).image) }
    ensures named { D.tells → OnOk result (bytes_from (D.view disk.new).image 1 8 ≡ layout_name) }
    ensures same { D.tells → SameButFront (D.view disk.old).image (D.view disk.new).image }
    ensures settled { OnOk result (IsSettled (D.view disk.new)) }
    ensures crash { ChangesBy SameButFront (D.view disk.old) (D.view disk.new) }
    ensures blamed { IsBlamed result (D.view disk.old) (D.view disk.new) }
{
    write_front(disk, superblock)?;
    disk.sync()
}

// Prepares both halves and the pages.
fn prepare<D: Disk>(disk: &mut D, pages: u32, bytes: &mut [u8]) -> Result<(), Failed>
    requires some { 1 ≤ pages }
    requires few { pages ≤ 131072 }
    requires size { length bytes.old ≡ 98304 }
    ensures written { D.tells → OnOk result (IsPrepared pages (D.view disk.new).image) }
    ensures crash { ChangesBy (SameAround (pages_end pages)) (D.view disk.old) (D.view disk.new) }
    ensures blamed { IsBlamed result (D.view disk.old) (D.view disk.new) }
{
    close_gates(disk, HALF_STARTS[0], bytes)?;
    close_gates(disk, HALF_STARTS[1], bytes)?;
    write_headers(disk)?;
    write_new_pages(disk, pages)
}

// Writes what stands behind the first page, and syncs.
fn stage<D: Disk>(disk: &mut D, superblock: Superblock, bytes: &mut [u8]) -> Result<(), Failed>
    requires some_blocks { 1 ≤ superblock.blocks }
    requires few_blocks { superblock.blocks ≤ 66560 }
    requires size { length bytes.old ≡ 98304 }
    requires front { D.tells → HasFront superblock (D.view disk.old).image }
    requires settled { IsSettled (D.view disk.old) }
    ensures staged { D.tells → OnOk result (IsStaged superblock (D.view disk.new).image) }
    ensures same { D.tells → SameAround (pages_end (pages_for superblock.blocks))
        (D.view disk.old).image (D.view disk.new).image }
    ensures settled { OnOk result (IsSettled (D.view disk.new)) }
    ensures crash { ChangesBy (SameAround (pages_end (pages_for superblock.blocks)))
        (D.view disk.old) (D.view disk.new) }
    ensures blamed { IsBlamed result (D.view disk.old) (D.view disk.new) }
{
    prepare(disk, pages_of(superblock.blocks), bytes)?;
    disk.sync()
}

// Formats a disk. It takes all memory before it writes.
pub fn formatted<D: Disk>(
    alloc: Global,
    disk: &mut D,
    superblock: Superblock,
) -> Result<Kept, LogFault>
    requires some_blocks { 1 ≤ superblock.blocks }
    requires few_blocks { superblock.blocks ≤ 66560 }
    ensures sound { IfOk result (λ kept. IsSound D.tells (D.view disk.new) kept.pages (state_in kept)) }
    ensures formatted { D.tells → OnOk result (IsFormatted superblock (D.view disk.new).image) }
    ensures state { IfOk result (λ kept. state_in kept ≡ fresh_state superblock (first_half superblock)) }
    ensures settled { OnOk result (IsSettled (D.view disk.new)) }
    ensures crash { D.tells → byte_at (D.view disk.old).image 0 ≢ 1
        → LeavesOnly (IsLeftOfFormat superblock) (D.view disk.old) (D.view disk.new) }
    ensures left { D.tells → byte_at (D.view disk.old).image 0 ≢ 1
        → OnErr result (IsQuietOr (IsLeftOfFormat superblock) (D.view disk.old) (D.view disk.new)) }
    ensures marked { D.tells → byte_at (D.view disk.old).image 0 ≢ 1
        → LeavesOnly (IsMarkedFirst superblock (D.view disk.old).image) (D.view disk.old) (D.view disk.new) }
    ensures within { D.tells → OnOk result ((at : ℕ) → pages_end (pages_for superblock.blocks) ≤ at
        → byte_at (D.view disk.new).image at ≡ byte_at (D.view disk.old).image at) }
    ensures counted { (D.view disk.old).faults ≤ (D.view disk.new).faults }
    ensures only { IfErr result (λ fault. IsDiskOrMemory fault (D.view disk.old) (D.view disk.new)) }
{
    let half = Half {
        start: HALF_STARTS[0],
        generation: 1,
        pages: pages_of(superblock.blocks),
    };
    let kept = Kept::fresh(alloc, superblock, half)?;
    let mut bytes = piece(alloc)?;
    disk.sync()?;
    mark(disk, superblock)?;
    stage(disk, superblock, &mut bytes)?;
    write_through(disk, 0, &[OPEN])?;
    Ok(kept)
}
