// Headers and call numbers of slots.
ghost use Rattle.std.specs.Prelude.{◌≡◌, ◌≤◌, ◌<◌, ◌||◌, not};
ghost use Rattle.disk_pages.specs.Header.{is_taken_slot as is_taken, is_leaving as is_leaving_there};
ghost use Rattle.disk_image.specs.Slots.{state_at as state_in, are_alike as are_alike_there, is_first};
ghost use Rattle.disk_image.specs.Slots.{is_slot_free, is_slot_header, is_slot_numbers, limit_of, usable};
ghost use Rattle.disk_image.specs.Slots.{has_root, is_whole};
ghost use Rattle.disk_judge.specs.Metadata.{IsSized, plain};

use crate::metadata::Metadata;
use disk_layout::{PAGE, u32_at};
use disk_pages::{
    SlotState, are_zero, is_header, is_limit, is_numbers_page, is_taken_slot, name_at, state_of,
};

const ID_AT: usize = 4;

const OBJECTS_AT: usize = 8;

const NAME_AT: usize = 12;

const PARTS_AT: usize = 88;

// Anodes of a slot.
const ANODES: u32 = 64;

pub fn state_at(metadata: &Metadata, slot: usize) -> SlotState
    requires sized { IsSized metadata.now }
    requires slot { slot < 16 }
    ensures { result ≡ state_in (plain metadata.now) slot }
{
    state_of(metadata.page(0), metadata.header(slot))
}

fn is_leaving(metadata: &Metadata, slot: usize) -> bool
    requires sized { IsSized metadata.now }
    requires slot { slot < 16 }
    ensures { result ≡ is_leaving_there (state_in (plain metadata.now) slot) }
{
    matches!(state_at(metadata, slot), SlotState::Leaving)
}

// Whether two headers have one id or one name, or are both of filesets that leave.
fn are_alike(metadata: &Metadata, a: usize, b: usize) -> bool
    requires sized { IsSized metadata.now }
    requires a { a < 16 }
    requires b { b < 16 }
    ensures { result ≡ are_alike_there (plain metadata.now) a b }
{
    let (x, y) = (metadata.header(a), metadata.header(b));
    u32_at(x, ID_AT) == u32_at(y, ID_AT)
        || name_at(x, NAME_AT) == name_at(y, NAME_AT)
        || (is_leaving(metadata, a) && is_leaving(metadata, b))
}

// Whether an earlier slot has no fileset, or one that is unlike a slot's.
fn is_unlike(metadata: &Metadata, earlier: usize, slot: usize) -> bool
    requires sized { IsSized metadata.now }
    requires earlier { earlier < 16 }
    requires slot { slot < 16 }
    ensures { result ≡ (not (is_taken (state_in (plain metadata.now) earlier)) || not (are_alike_there
        (plain metadata.now) earlier slot)) }
{
    !is_taken_slot(state_at(metadata, earlier)) || !are_alike(metadata, earlier, slot)
}

fn is_first(metadata: &Metadata, slot: usize) -> bool
    requires sized { IsSized metadata.now }
    requires slot { slot < 16 }
    ensures { result ≡ is_first (plain metadata.now) slot }
{
    for earlier in 0..slot {
        if !is_unlike(metadata, earlier, slot) {
            return false;
        }
    }
    true
}

pub fn is_slot_free(metadata: &Metadata, slot: usize) -> bool
    requires sized { IsSized metadata.now }
    requires slot { slot < 16 }
    ensures { result ≡ is_slot_free (plain metadata.now) slot }
{
    metadata.header(slot)[0] == 0
}

/// Whether all is well with the header of a slot.
#[tactic(auto, unfolding(disk_image::specs::Slots::is_slot_header))]
pub fn is_slot_header(metadata: &Metadata, slot: usize) -> bool
    requires sized { IsSized metadata.now }
    requires slot { slot < 16 }
    ensures { result ≡ is_slot_header (plain metadata.now) slot }
{
    let page = metadata.header(slot);
    if is_slot_free(metadata, slot) {
        return are_zero(page, 0, PAGE);
    }
    is_header(metadata.server, metadata.page(0), page) && is_first(metadata, slot)
}

/// Whether all is well with the call numbers of a slot.
#[tactic(auto, unfolding(disk_image::specs::Slots::is_slot_numbers))]
pub fn is_slot_numbers(metadata: &Metadata, slot: usize) -> bool
    requires sized { IsSized metadata.now }
    requires slot { slot < 16 }
    ensures { result ≡ is_slot_numbers (plain metadata.now) slot }
{
    let page = metadata.numbers(slot);
    if is_slot_free(metadata, slot) {
        are_zero(page, 0, PAGE)
    } else {
        is_numbers_page(page)
    }
}

// How many objects a fileset may have, 64 where its header tells no limit.
fn limit_of(header: &[u8; PAGE]) -> u32
    ensures { result ≡ limit_of header.now }
{
    let objects = u32_at(header, OBJECTS_AT);
    if is_limit(objects) { objects } else { ANODES }
}

// How many of the first anodes may be used.
pub fn usable(state: SlotState, header: &[u8; PAGE]) -> u32
    ensures { result ≡ usable state header.now }
{
    match state {
        SlotState::Free | SlotState::Gone => 0,
        SlotState::Unknown => ANODES,
        SlotState::Arriving => limit_of(header).min(u32_at(header, PARTS_AT).saturating_sub(1)),
        SlotState::Writable | SlotState::Clone | SlotState::Leaving => limit_of(header),
    }
}

// Whether the first anode has to be a root.
pub fn has_root(state: SlotState, header: &[u8; PAGE]) -> bool
    ensures { result ≡ has_root state header.now }
{
    match state {
        SlotState::Writable | SlotState::Clone | SlotState::Leaving => true,
        SlotState::Arriving => 2 <= u32_at(header, PARTS_AT),
        SlotState::Free | SlotState::Gone | SlotState::Unknown => false,
    }
}

// Whether each object has to be reached from the root.
pub fn is_whole(state: SlotState) -> bool
    ensures { result ≡ is_whole state }
{
    matches!(
        state,
        SlotState::Writable | SlotState::Clone | SlotState::Leaving
    )
}
