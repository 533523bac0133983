// Looks at slots and their anodes, and at the blocks that these name.
ghost use Rattle.std.specs.Prelude.{◌≡◌, ◌≤◌, ◌<◌, ◌+◌, ◌++◌, ◌&&◌, nat_lt, ℕ, List, IfErr, OnOk, length};
ghost use Rattle.base_types.specs.Crash.{IsQuiet};
ghost use Rattle.disk_layout.specs.Places.{page_start};
ghost use Rattle.disk_image.specs.Aggregate.{header_number};
ghost use Rattle.disk_image.specs.Slots.{is_slot_header as is_header_there};
ghost use Rattle.disk_image.specs.Slots.{is_slot_numbers as are_numbers_there};
ghost use Rattle.disk_image.specs.Anodes.{unless};
ghost use Rattle.disk_judge.specs.Judged.{IsJudged};
ghost use Rattle.disk_judge.specs.Metadata.{IsSized, over};
ghost use Rattle.disk_judge.specs.Reach.{AreFromAnodes};
ghost use Rattle.disk_check.specs.Found.{LooksAt, LooksAtOne, LooksAtSlot, LooksUntil};
ghost use Rattle.disk_check.specs.Refused.{IsRefused};

use crate::anode::{push_block_faults, push_links, push_uses};
use crate::fault::CheckRefused;
use crate::found::Found;
use crate::parts::read_parts;
use base_types::Disk;
use disk_image::{Fault, Rule};
use disk_judge::{
    Metadata, is_slot_header, is_slot_numbers, page_place, push_reach_faults, push_unless,
};
use disk_pages::is_object;
use std::alloc::{AllocError, Global};

const ANODES: usize = 64;

const SLOTS: usize = 16;

// Looks at anode i of a slot, of which is told whether all is well with its page, and at the blocks that it names.
fn look_at_anode<D: Disk>(
    alloc: Global,
    disk: &mut D,
    metadata: &Metadata,
    rights: &[bool],
    slot: usize,
    i: usize,
    found: &mut Found,
) -> Result<(), CheckRefused>
    requires judged { IsJudged metadata.now rights.now }
    requires slot { slot < 16 }
    requires anode { i < 64 }
    requires mapped { length found.old.mapped.items ≡ metadata.now.blocks }
    requires from { AreFromAnodes found.old.links.items }
    ensures mapped { OnOk result (length found.new.mapped.items ≡ metadata.now.blocks) }
    ensures from { OnOk result (AreFromAnodes found.new.links.items) }
    ensures looks { D.tells
        → OnOk result (LooksAtOne (over metadata.now (D.view disk.old).image) slot i found.old found.new) }
    ensures quiet { IsQuiet (D.view disk.old) (D.view disk.new) }
    ensures counted { (D.view disk.old).faults ≤ (D.view disk.new).faults }
    ensures only { IfErr result (λ e. IsRefused e (D.view disk.old) (D.view disk.new)) }
{
    let page = metadata.anode(slot, i);
    let is_right = rights[ANODES * slot + i];
    let place = page_place(4 + 66 * slot + i);
    push_unless(&mut found.faults, is_right, place, Rule::Anode)?;
    if !is_object(page) {
        return Ok(());
    }
    let parts = read_parts(alloc, disk, metadata, slot, i)?;
    push_block_faults(alloc, metadata, page, &parts, &mut found.faults)?;
    push_links(metadata, page, i, &parts, &mut found.links)?;
    let (mapped, uses) = (&mut found.mapped, &mut found.uses);
    push_uses(metadata, page, slot as u8, &parts, mapped, uses)?;
    Ok(())
}

// Looks at the anodes of a slot.
fn look_at_anodes<D: Disk>(
    alloc: Global,
    disk: &mut D,
    metadata: &Metadata,
    rights: &[bool],
    slot: usize,
    found: &mut Found,
) -> Result<(), CheckRefused>
    requires judged { IsJudged metadata.now rights.now }
    requires slot { slot < 16 }
    requires mapped { length found.old.mapped.items ≡ metadata.now.blocks }
    requires from { AreFromAnodes found.old.links.items }
    ensures mapped { OnOk result (length found.new.mapped.items ≡ metadata.now.blocks) }
    ensures from { OnOk result (AreFromAnodes found.new.links.items) }
    ensures looks { D.tells
        → OnOk result (LooksAt (over metadata.now (D.view disk.old).image) slot 64 found.old found.new) }
    ensures quiet { IsQuiet (D.view disk.old) (D.view disk.new) }
    ensures counted { (D.view disk.old).faults ≤ (D.view disk.new).faults }
    ensures only { IfErr result (λ e. IsRefused e (D.view disk.old) (D.view disk.new)) }
{
    for i in 0..ANODES {
        look_at_anode(alloc, disk, metadata, rights, slot, i, found)?;
    }
    Ok(())
}

// Adds the faults of the header and the call numbers of a slot.
fn push_slot_faults(
    metadata: &Metadata,
    slot: usize,
    faults: &mut Vec<Fault>,
) -> Result<(), AllocError>
    requires sized { IsSized metadata.now }
    requires slot { slot < 16 }
    ensures { OnOk result ((image : List ℕ) → faults.new.items ≡ (faults.old.items
        ++ unless (is_header_there (over metadata.now image) slot) (page_start (header_number slot)) Rule.SlotHeader)
        ++ unless (are_numbers_there (over metadata.now image) slot) (page_start (header_number slot + 1))
        Rule.CallNumbers) }
{
    let is_header = is_slot_header(metadata, slot);
    let place = page_place(2 + 66 * slot);
    push_unless(faults, is_header, place, Rule::SlotHeader)?;
    let are_numbers = is_slot_numbers(metadata, slot);
    let next = page_place(2 + 66 * slot + 1);
    push_unless(faults, are_numbers, next, Rule::CallNumbers)?;
    Ok(())
}

// Looks at a slot.
fn look_at_slot<D: Disk>(
    alloc: Global,
    disk: &mut D,
    metadata: &Metadata,
    rights: &[bool],
    slot: usize,
    found: &mut Found,
) -> Result<(), CheckRefused>
    requires judged { IsJudged metadata.now rights.now }
    requires slot { slot < 16 }
    requires mapped { length found.old.mapped.items ≡ metadata.now.blocks }
    ensures mapped { OnOk result (length found.new.mapped.items ≡ metadata.now.blocks) }
    ensures looks { D.tells
        → OnOk result (LooksAtSlot (over metadata.now (D.view disk.old).image) slot found.old found.new) }
    ensures quiet { IsQuiet (D.view disk.old) (D.view disk.new) }
    ensures counted { (D.view disk.old).faults ≤ (D.view disk.new).faults }
    ensures only { IfErr result (λ e. IsRefused e (D.view disk.old) (D.view disk.new)) }
{
    push_slot_faults(metadata, slot, &mut found.faults)?;
    found.links.clear();
    look_at_anodes(alloc, disk, metadata, rights, slot, found)?;
    push_reach_faults(metadata, slot, found.links.as_slice(), &mut found.reach)?;
    Ok(())
}

// Whether a look that stops at a fault has found one.
pub fn is_done(stops: bool, found: &Found) -> bool
    ensures { result ≡ (stops && nat_lt 0 (length found.now.faults.items)) }
{
    stops && 0 < found.faults.len()
}

// Looks at all slots, or else at no more than it takes to find a fault.
pub fn look_at_slots<D: Disk>(
    alloc: Global,
    disk: &mut D,
    metadata: &Metadata,
    rights: &[bool],
    stops: bool,
    found: &mut Found,
) -> Result<(), CheckRefused>
    requires judged { IsJudged metadata.now rights.now }
    requires mapped { length found.old.mapped.items ≡ metadata.now.blocks }
    ensures looks { D.tells
        → OnOk result (LooksUntil (over metadata.now (D.view disk.old).image) stops found.old found.new) }
    ensures quiet { IsQuiet (D.view disk.old) (D.view disk.new) }
    ensures counted { (D.view disk.old).faults ≤ (D.view disk.new).faults }
    ensures only { IfErr result (λ e. IsRefused e (D.view disk.old) (D.view disk.new)) }
{
    for slot in 0..SLOTS {
        if is_done(stops, found) {
            return Ok(());
        }
        look_at_slot(alloc, disk, metadata, rights, slot, found)?;
    }
    Ok(())
}
