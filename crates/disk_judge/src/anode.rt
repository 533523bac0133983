// Pages of anodes in their slots.
ghost use Rattle.std.specs.Prelude.{◌≡◌, ◌<◌, if◌then◌else◌};
ghost use Rattle.disk_image.specs.Anodes.{is_root_place, is_root_page, is_slot_anode};
ghost use Rattle.disk_image.specs.Slots.{is_slot_free as is_slot_free_there};
ghost use Rattle.disk_pages.specs.Anode.{is_free_page as is_free_there};
ghost use Rattle.disk_pages.specs.Words.{are_zero as zero_there};
ghost use Rattle.disk_judge.specs.Metadata.{IsSized, plain};

use crate::metadata::Metadata;
use crate::slot::{has_root, is_slot_free, state_at, usable};
use disk_layout::{PAGE, u32_at};
use disk_pages::{are_zero, is_free_page, is_object_page};

const DIRECTORY: u8 = 1;

const UNIQUE_AT: usize = 4;

// Whether anode i of a slot is the root of a fileset.
fn is_root_place(metadata: &Metadata, slot: usize, i: usize) -> bool
    requires sized { IsSized metadata.now }
    requires slot { slot < 16 }
    ensures { result ≡ is_root_place (plain metadata.now) slot i }
{
    i == 0 && has_root(state_at(metadata, slot), metadata.header(slot))
}

fn is_root_page(page: &[u8; PAGE]) -> bool
    ensures { result ≡ is_root_page page.now }
{
    page[0] == DIRECTORY && u32_at(page, UNIQUE_AT) == 1
}

// Whether all is well with the page of a free anode.
fn is_slot_free_page(metadata: &Metadata, slot: usize, page: &[u8; PAGE]) -> bool
    requires sized { IsSized metadata.now }
    requires slot { slot < 16 }
    ensures { result ≡ (if is_slot_free_there
        (plain metadata.now) slot then zero_there 0 512 page.now else is_free_there page.now) }
{
    if is_slot_free(metadata, slot) {
        are_zero(page, 0, PAGE)
    } else {
        is_free_page(page)
    }
}

/// Whether all is well with the page of anode `i` of a slot.
#[tactic(auto, unfolding(disk_image::specs::Anodes::is_slot_anode))]
pub fn is_slot_anode(metadata: &Metadata, slot: usize, i: usize) -> bool
    requires sized { IsSized metadata.now }
    requires slot { slot < 16 }
    requires anode { i < 64 }
    ensures { result ≡ is_slot_anode (plain metadata.now) slot i }
{
    let page = metadata.anode(slot, i);
    let is_root = is_root_place(metadata, slot, i);
    if page[0] == 0 {
        return is_slot_free_page(metadata, slot, page) && !is_root;
    }
    is_object_page(page, metadata.blocks)
        && (i as u32) < usable(state_at(metadata, slot), metadata.header(slot))
        && (!is_root || is_root_page(page))
}
