// The blocks that filesets are promised.
ghost use Rattle.std.specs.Prelude.{◌≡◌, ◌≤◌, ◌<◌, ℕ, nat_le};
ghost use Rattle.disk_image.specs.Joined.{total};
ghost use Rattle.disk_image.specs.Counts.{object_promise as object_there, limit_promise as limit_there};
ghost use Rattle.disk_image.specs.Counts.{promise_by as promise_there, promises as promises_there, capacity_of};
ghost use Rattle.disk_image.specs.Slots.{state_at as state_there};
ghost use Rattle.disk_judge.specs.Metadata.{IsSized, plain, anode_in};

use crate::metadata::Metadata;
use crate::slot::state_at;
use base_types::SPARE_BLOCKS;
use disk_layout::{PAGE, u32_at};
use disk_pages::{SlotState, bytes_in, is_limit};
use tree_filesets::OBJECT_BLOCKS;

const ANODES: usize = 64;

const SLOTS: usize = 16;

const OBJECTS_AT: usize = 8;

// The blocks that a clone is promised for an anode.
fn object_promise(page: &[u8; PAGE]) -> u64
    ensures value { result ≡ object_there page.now }
    ensures few { result ≤ 68 }
{
    match page[0] {
        1 => 9,
        2 => 4 + u64::from(bytes_in(page).div_ceil(1_024)),
        _ => 0,
    }
}

// The blocks that a fileset is promised by its limit.
fn limit_promise(header: &[u8; PAGE]) -> u64
    ensures value { result ≡ limit_there header.now }
    ensures few { result ≤ 4352 }
{
    let objects = u32_at(header, OBJECTS_AT);
    if is_limit(objects) {
        OBJECT_BLOCKS * u64::from(objects)
    } else {
        0
    }
}

fn clone_promise(metadata: &Metadata, slot: usize) -> u64
    requires sized { IsSized metadata.now }
    requires slot { slot < 16 }
    ensures value { result ≡ total (λ (i : ℕ). object_there (anode_in metadata.now slot i)) 64 }
    ensures few { result ≤ 4352 }
{
    let mut blocks = 0;
    for i in 0..ANODES {
        blocks += object_promise(metadata.anode(slot, i));
    }
    blocks
}

// The blocks that a slot is promised.
fn slot_promise(metadata: &Metadata, slot: usize) -> u64
    requires sized { IsSized metadata.now }
    requires slot { slot < 16 }
    ensures value { result ≡ promise_there (state_there (plain metadata.now) slot) (plain metadata.now) slot }
    ensures few { result ≤ 4352 }
{
    match state_at(metadata, slot) {
        SlotState::Clone => clone_promise(metadata, slot),
        SlotState::Free | SlotState::Gone | SlotState::Unknown => 0,
        SlotState::Writable | SlotState::Leaving | SlotState::Arriving => {
            limit_promise(metadata.header(slot))
        }
    }
}

// The blocks that all slots are promised.
fn promises(metadata: &Metadata) -> u64
    requires sized { IsSized metadata.now }
    ensures { result ≡ promises_there (plain metadata.now) }
{
    let mut blocks = 0;
    for slot in 0..SLOTS {
        blocks += slot_promise(metadata, slot);
    }
    blocks
}

/// Whether the promises are kept within the capacity.
pub fn are_kept(metadata: &Metadata) -> bool
    requires sized { IsSized metadata.now }
    ensures { result ≡ nat_le (promises_there (plain metadata.now)) (capacity_of (plain metadata.now)) }
{
    promises(metadata) <= u64::from(metadata.blocks.saturating_sub(SPARE_BLOCKS))
}
