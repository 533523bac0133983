// The calls on blocks.
ghost use Rattle.std.specs.Prelude.{◌≡◌, ◌≢◌, ◌+◌, ◌-◌, ◌%◌, ◌<◌, ◌≤◌, ℕ, Some, OnOk, OnErr, IfOk, IfErr, IfSome};
ghost use Rattle.base_types.specs.Crash.{IsQuiet};
ghost use Rattle.disk_log.specs.Log.{disk_of, state_of, slot_of, IsSoundLog};
ghost use Rattle.disk_log.specs.State.{MayPut};
ghost use Rattle.disk_space.specs.Counts.{count_page, count_now, IsFree, IsFound, AreUsed, MayCount, HasPut, SetsCount};
ghost use Rattle.disk_space.specs.Faults.{IsCountFault, IsTakeFault};

use crate::counts::{COUNTS, first_zero, page_of, place_of};
use crate::fault::SpaceFault;
use base_types::Disk;
use disk_layout::{PAGE, put_u16, u16_at};
use disk_log::{Log, Tx};

/// How many pointers name a block. The only error is `Failed`.
pub fn count_of<D: Disk>(log: &mut Log<D>, block: u32) -> Result<u16, SpaceFault>
    requires sound { IsSoundLog D.tells D.view log.old }
    requires block { block < (state_of log.old).superblock.blocks }
    ensures sound { IsSoundLog D.tells D.view log.new }
    ensures state { state_of log.new ≡ state_of log.old }
    ensures count { D.tells
        → IfOk result (λ count. count ≡ count_now (state_of log.old) (D.view (disk_of log.old)).image block) }
    ensures quiet { IsQuiet (D.view (disk_of log.old)) (D.view (disk_of log.new)) }
    ensures counted { (D.view (disk_of log.old)).faults ≤ (D.view (disk_of log.new)).faults }
    ensures only { IfErr result (λ fault. IsCountFault fault (D.view (disk_of log.old)) (D.view (disk_of log.new))) }
{
    let mut page = [0; PAGE];
    log.page(page_of(block), &mut page)?;
    Ok(u16_at(&page, place_of(block)))
}

// Puts the count of a block.
fn set_count<D: Disk>(
    log: &mut Log<D>,
    tx: &mut Tx,
    block: u32,
    count: u16,
) -> Result<(), SpaceFault>
    requires sound { IsSoundLog D.tells D.view log.old }
    requires block { block < (state_of log.old).superblock.blocks }
    requires may { MayPut (state_of log.old) (slot_of tx.old) (count_page block) }
    ensures sound { IsSoundLog D.tells D.view log.new }
    ensures tx { tx.new ≡ tx.old }
    ensures put { OnOk result (HasPut (slot_of tx.old) block (state_of log.old) (state_of log.new)) }
    ensures count { D.tells
        → OnOk result (SetsCount block count (state_of log.old) (state_of log.new) (D.view (disk_of log.old)).image) }
    ensures err { OnErr result (state_of log.new ≡ state_of log.old) }
    ensures quiet { IsQuiet (D.view (disk_of log.old)) (D.view (disk_of log.new)) }
    ensures counted { (D.view (disk_of log.old)).faults ≤ (D.view (disk_of log.new)).faults }
    ensures only { IfErr result (λ fault. IsCountFault fault (D.view (disk_of log.old)) (D.view (disk_of log.new))) }
{
    let mut page = [0; PAGE];
    log.page(page_of(block), &mut page)?;
    put_u16(&mut page, place_of(block), count);
    log.put(tx, page_of(block), &page)?;
    Ok(())
}

// The lowest free block among those whose counts stand in one page.
fn find_from<D: Disk>(log: &mut Log<D>, first: u32) -> Result<Option<u32>, SpaceFault>
    requires sound { IsSoundLog D.tells D.view log.old }
    requires first { first < (state_of log.old).superblock.blocks }
    requires whole { first % 256 ≡ 0 }
    ensures sound { IsSoundLog D.tells D.view log.new }
    ensures state { state_of log.new ≡ state_of log.old }
    ensures found { D.tells
        → IfOk result (λ found. IsFound (state_of log.old) (D.view (disk_of log.old)).image first (first + 256) found) }
    ensures within { IfOk result (λ found. IfSome found (λ block. block < (state_of log.old).superblock.blocks)) }
    ensures quiet { IsQuiet (D.view (disk_of log.old)) (D.view (disk_of log.new)) }
    ensures counted { (D.view (disk_of log.old)).faults ≤ (D.view (disk_of log.new)).faults }
    ensures only { IfErr result (λ fault. IsCountFault fault (D.view (disk_of log.old)) (D.view (disk_of log.new))) }
{
    let mut now = [0; PAGE];
    log.page(page_of(first), &mut now)?;
    let mut settled = [0; PAGE];
    log.settled(page_of(first), &mut settled)?;
    let counts = COUNTS.min(log.blocks() - first);
    match first_zero(&now, &settled, counts) {
        Some(i) => Ok(Some(first + i)),
        None => Ok(None),
    }
}

// The lowest free block.
fn find<D: Disk>(log: &mut Log<D>) -> Result<Option<u32>, SpaceFault>
    requires sound { IsSoundLog D.tells D.view log.old }
    ensures sound { IsSoundLog D.tells D.view log.new }
    ensures state { state_of log.new ≡ state_of log.old }
    ensures found { D.tells → IfOk result (λ found.
        IsFound (state_of log.old) (D.view (disk_of log.old)).image 0 (state_of log.old).superblock.blocks found) }
    ensures within { IfOk result (λ found. IfSome found (λ block. block < (state_of log.old).superblock.blocks)) }
    ensures quiet { IsQuiet (D.view (disk_of log.old)) (D.view (disk_of log.new)) }
    ensures counted { (D.view (disk_of log.old)).faults ≤ (D.view (disk_of log.new)).faults }
    ensures only { IfErr result (λ fault. IsCountFault fault (D.view (disk_of log.old)) (D.view (disk_of log.new))) }
{
    for page in 0..log.blocks().div_ceil(COUNTS) {
        if let Some(block) = find_from(log, COUNTS * page)? {
            return Ok(Some(block));
        }
    }
    Ok(None)
}

/// Takes the lowest free block, which no pointer names now or in whatever a crash may leave: its count is then 1. It
/// answers `Full` exactly where no block is free; the other errors are `Failed` and `Memory`. After an error nothing is
/// put.
pub fn take<D: Disk>(log: &mut Log<D>, tx: &mut Tx) -> Result<u32, SpaceFault>
    requires sound { IsSoundLog D.tells D.view log.old }
    requires may { MayCount (state_of log.old) (slot_of tx.old) }
    ensures sound { IsSoundLog D.tells D.view log.new }
    ensures tx { tx.new ≡ tx.old }
    ensures within { IfOk result (λ block. block < (state_of log.old).superblock.blocks) }
    ensures put { IfOk result (λ block. HasPut (slot_of tx.old) block (state_of log.old) (state_of log.new)) }
    ensures lowest { D.tells
        → IfOk result (λ block. IsFound (state_of log.old) (D.view (disk_of log.old)).image 0 block (Some block)) }
    ensures count { D.tells → IfOk result
        (λ block. SetsCount block 1 (state_of log.old) (state_of log.new) (D.view (disk_of log.old)).image) }
    ensures err { OnErr result (state_of log.new ≡ state_of log.old) }
    ensures quiet { IsQuiet (D.view (disk_of log.old)) (D.view (disk_of log.new)) }
    ensures counted { (D.view (disk_of log.old)).faults ≤ (D.view (disk_of log.new)).faults }
    ensures only { IfErr result (λ fault. IsTakeFault
        (D.tells → AreUsed (state_of log.old) (D.view (disk_of log.old)).image 0 (state_of log.old).superblock.blocks)
        fault (D.view (disk_of log.old)) (D.view (disk_of log.new))) }
{
    let Some(block) = find(log)? else {
        return Err(SpaceFault::Full);
    };
    set_count(log, tx, block, 1)?;
    Ok(block)
}

/// One more pointer names a block, which 1 to 65,534 do. The errors are `Failed` and `Memory`, after which nothing is
/// put.
pub fn share<D: Disk>(log: &mut Log<D>, tx: &mut Tx, block: u32) -> Result<(), SpaceFault>
    requires sound { IsSoundLog D.tells D.view log.old }
    requires block { block < (state_of log.old).superblock.blocks }
    requires may { MayPut (state_of log.old) (slot_of tx.old) (count_page block) }
    requires shared { D.tells → 1 ≤ count_now (state_of log.old) (D.view (disk_of log.old)).image block }
    requires few { D.tells → count_now (state_of log.old) (D.view (disk_of log.old)).image block < 65535 }
    ensures sound { IsSoundLog D.tells D.view log.new }
    ensures tx { tx.new ≡ tx.old }
    ensures put { OnOk result (HasPut (slot_of tx.old) block (state_of log.old) (state_of log.new)) }
    ensures count { D.tells → OnOk result (SetsCount block (count_now (state_of log.old) (D.view
        (disk_of log.old)).image block + 1) (state_of log.old) (state_of log.new) (D.view (disk_of log.old)).image) }
    ensures err { OnErr result (state_of log.new ≡ state_of log.old) }
    ensures quiet { IsQuiet (D.view (disk_of log.old)) (D.view (disk_of log.new)) }
    ensures counted { (D.view (disk_of log.old)).faults ≤ (D.view (disk_of log.new)).faults }
    ensures only { IfErr result (λ fault. IsCountFault fault (D.view (disk_of log.old)) (D.view (disk_of log.new))) }
{
    let count = count_of(log, block)?;
    set_count(log, tx, block, count.saturating_add(1))
}

/// One pointer less names a block. At count 0 it is free once the transaction is durable. The errors are `Failed` and
/// `Memory`, after which nothing is put.
pub fn give<D: Disk>(log: &mut Log<D>, tx: &mut Tx, block: u32) -> Result<(), SpaceFault>
    requires sound { IsSoundLog D.tells D.view log.old }
    requires block { block < (state_of log.old).superblock.blocks }
    requires may { MayPut (state_of log.old) (slot_of tx.old) (count_page block) }
    requires used { D.tells → 1 ≤ count_now (state_of log.old) (D.view (disk_of log.old)).image block }
    ensures sound { IsSoundLog D.tells D.view log.new }
    ensures tx { tx.new ≡ tx.old }
    ensures put { OnOk result (HasPut (slot_of tx.old) block (state_of log.old) (state_of log.new)) }
    ensures count { D.tells → OnOk result (SetsCount block (count_now (state_of log.old) (D.view
        (disk_of log.old)).image block - 1) (state_of log.old) (state_of log.new) (D.view (disk_of log.old)).image) }
    ensures err { OnErr result (state_of log.new ≡ state_of log.old) }
    ensures quiet { IsQuiet (D.view (disk_of log.old)) (D.view (disk_of log.new)) }
    ensures counted { (D.view (disk_of log.old)).faults ≤ (D.view (disk_of log.new)).faults }
    ensures only { IfErr result (λ fault. IsCountFault fault (D.view (disk_of log.old)) (D.view (disk_of log.new))) }
{
    let count = count_of(log, block)?;
    set_count(log, tx, block, count.saturating_sub(1))
}
