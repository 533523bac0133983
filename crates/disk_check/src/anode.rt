// Anodes, the blocks that they name, and where their entries lead.
ghost use Rattle.std.specs.Prelude.{◌≡◌, ◌≤◌, ◌<◌, ◌+◌, ◌*◌, ◌++◌, ◌-◌, ◌&&◌, ℕ, List, true, false};
ghost use Rattle.std.specs.Prelude.{slice_set, not, if◌then◌else◌, OnOk, length, is_some};
ghost use Rattle.std.proofs.Common.{get_or};
ghost use Rattle.disk_image.specs.Joined.{joined, listed};
ghost use Rattle.disk_image.specs.Lists.{list_in as list_there};
ghost use Rattle.disk_image.specs.Anodes.{unless_block, list_fault};
ghost use Rattle.disk_image.specs.Anodes.{map_fault, directory_fault, block_faults};
ghost use Rattle.disk_image.specs.Anodes.{entry_blocks as blocks_there, entry_pointer as pointer_of_entries};
ghost use Rattle.disk_image.specs.Anodes.{is_directory_block, is_readable, link_of, links_at};
ghost use Rattle.disk_image.specs.Aggregate.{Aggregate as TheAggregate, names_block, node_at as node_there};
ghost use Rattle.disk_image.specs.Counts.{page_use, map_use, uses_at, is_mapped};
ghost use Rattle.disk_anode.specs.Node.{pointer_of as pointer_there};
ghost use Rattle.disk_pages.specs.Anode.{is_free_page as is_free_there, is_object as is_object_there};
ghost use Rattle.disk_pages.specs.Words.{are_zero as zero_there};
ghost use Rattle.disk_judge.specs.declared.metadata.Metadata.{Metadata as TheMetadata};
ghost use Rattle.disk_judge.specs.Metadata.{IsSized, over, anode_in};
ghost use Rattle.disk_judge.specs.Reach.{AreFromAnodes};
ghost use Rattle.disk_check.specs.Parts.{AreParts};
ghost use Rattle.disk_check.specs.Found.{AreMapped};

use crate::parts::{Parts, entries_in, entry_blocks, entry_pointer};
use base_types::NoMemory;
use disk_image::{Fault, Link, Rule, Use, list_in};
use disk_judge::{Metadata, push_unless_block};
use disk_layout::PAGE;
use disk_pages::{
    BLOCK, bytes_in, entry_numbers, is_entry_block, is_map, map_pointer, page_pointer,
};
use std::alloc::{AllocError, Global};

const DIRECTORY: u8 = 1;

const POINTERS: usize = 16;

// The pointer of the indirect block, and how many stand in it.
const INDIRECT: usize = 15;

const MAPPED: usize = 52;

// Adds the fault of the block of a list, where a pointer names one.
fn push_list_fault(
    alloc: Global,
    metadata: &Metadata,
    pointer: u32,
    block: &[u8; BLOCK],
    faults: &mut Vec<Fault>,
) -> Result<(), NoMemory>
    requires { IsSized metadata.now }
    ensures { OnOk result ((image : List ℕ)
        → faults.new.items ≡ faults.old.items
        ++ unless_block (over metadata.now image) pointer (is_some (list_there block.now)) Rule.ListBlock) }
{
    let list = list_in(alloc, block)?;
    let is_list = list.is_some();
    push_unless_block(faults, metadata, pointer, is_list, Rule::ListBlock)?;
    Ok(())
}

// Adds the faults of the lists of anode i of a slot.
fn push_list_faults(
    alloc: Global,
    metadata: &Metadata,
    page: &[u8; PAGE],
    parts: &Parts,
    faults: &mut Vec<Fault>,
) -> Result<(), NoMemory>
    requires { IsSized metadata.now }
    ensures { OnOk result ((image : List ℕ) (slot : ℕ) (i : ℕ) → page.now ≡ anode_in metadata.now slot i
        → AreParts (over metadata.now image) slot i parts.now
        → faults.new.items ≡ faults.old.items ++ joined (list_fault (over metadata.now image) slot i) 3) }
{
    push_list_fault(alloc, metadata, page_pointer(page, 0), &parts.own, faults)?;
    push_list_fault(alloc, metadata, page_pointer(page, 1), &parts.files, faults)?;
    push_list_fault(alloc, metadata, page_pointer(page, 2), &parts.dirs, faults)?;
    Ok(())
}

// Adds the fault of its indirect block.
fn push_map_fault(
    metadata: &Metadata,
    page: &[u8; PAGE],
    parts: &Parts,
    faults: &mut Vec<Fault>,
) -> Result<(), AllocError>
    requires { IsSized metadata.now }
    ensures { OnOk result ((image : List ℕ) (slot : ℕ) (i : ℕ) → page.now ≡ anode_in metadata.now slot i
        → AreParts (over metadata.now image) slot i parts.now
        → faults.new.items ≡ faults.old.items ++ map_fault (over metadata.now image) slot i) }
{
    let is_map = is_map(
        &parts.map,
        metadata.blocks,
        page[0] == DIRECTORY,
        bytes_in(page),
    );
    push_unless_block(
        faults,
        metadata,
        page_pointer(page, INDIRECT),
        is_map,
        Rule::IndirectBlock,
    )?;
    Ok(())
}

// Adds the fault of block n of its entries.
fn push_directory_fault(
    metadata: &Metadata,
    page: &[u8; PAGE],
    parts: &Parts,
    n: usize,
    faults: &mut Vec<Fault>,
) -> Result<(), AllocError>
    requires sized { IsSized metadata.now }
    requires block { n < blocks_there page.now }
    requires size { length parts.now.entries.items ≡ 1024 * blocks_there page.now }
    ensures { OnOk result ((image : List ℕ) (slot : ℕ) (i : ℕ) → page.now ≡ anode_in metadata.now slot i
        → AreParts (over metadata.now image) slot i parts.now
        → faults.new.items ≡ faults.old.items ++ directory_fault (over metadata.now image) slot i n) }
{
    let is_block = is_entry_block(&parts.entries, entries_in(page), n);
    let pointer = entry_pointer(page, &parts.map, n);
    push_unless_block(faults, metadata, pointer, is_block, Rule::DirectoryBlock)?;
    Ok(())
}

// Adds the faults of the blocks of its entries.
fn push_directory_faults(
    metadata: &Metadata,
    page: &[u8; PAGE],
    parts: &Parts,
    faults: &mut Vec<Fault>,
) -> Result<(), AllocError>
    requires sized { IsSized metadata.now }
    requires size { length parts.now.entries.items ≡ 1024 * blocks_there page.now }
    ensures { OnOk result ((image : List ℕ) (slot : ℕ) (i : ℕ) → page.now ≡ anode_in metadata.now slot i
        → AreParts (over metadata.now image) slot i parts.now
        → faults.new.items ≡ faults.old.items
        ++ joined (directory_fault (over metadata.now image) slot i) (blocks_there page.now)) }
{
    for n in 0..entry_blocks(page) {
        push_directory_fault(metadata, page, parts, n, faults)?;
    }
    Ok(())
}

// Adds the faults of the blocks that anode i of a slot names.
pub fn push_block_faults(
    alloc: Global,
    metadata: &Metadata,
    page: &[u8; PAGE],
    parts: &Parts,
    faults: &mut Vec<Fault>,
) -> Result<(), NoMemory>
    requires sized { IsSized metadata.now }
    requires size { length parts.now.entries.items ≡ 1024 * blocks_there page.now }
    ensures { OnOk result ((image : List ℕ) (slot : ℕ) (i : ℕ) → page.now ≡ anode_in metadata.now slot i
        → AreParts (over metadata.now image) slot i parts.now
        → faults.new.items ≡ faults.old.items ++ block_faults (over metadata.now image) slot i) }
{
    push_list_faults(alloc, metadata, page, parts, faults)?;
    push_map_fault(metadata, page, parts, faults)?;
    push_directory_faults(metadata, page, parts, faults)?;
    Ok(())
}

// Whether block n of a directory's entries is there and holds what it should.
fn is_block_readable(metadata: &Metadata, page: &[u8; PAGE], parts: &Parts, n: usize) -> bool
    requires sized { IsSized metadata.now }
    requires block { n < blocks_there page.now }
    requires size { length parts.now.entries.items ≡ 1024 * blocks_there page.now }
    ensures { (image : List ℕ) (slot : ℕ) (i : ℕ) → page.now ≡ anode_in metadata.now slot i
        → AreParts (over metadata.now image) slot i parts.now
        → result ≡ (names_block (over metadata.now image) (pointer_of_entries (over metadata.now image) slot i n)
        && is_directory_block (over metadata.now image) slot i n) }
{
    metadata.names_block(entry_pointer(page, &parts.map, n))
        && is_entry_block(&parts.entries, entries_in(page), n)
}

// Whether each block of a directory's entries is.
fn is_readable(metadata: &Metadata, page: &[u8; PAGE], parts: &Parts) -> bool
    requires sized { IsSized metadata.now }
    requires size { length parts.now.entries.items ≡ 1024 * blocks_there page.now }
    ensures { (image : List ℕ) (slot : ℕ) (i : ℕ) → page.now ≡ anode_in metadata.now slot i
        → AreParts (over metadata.now image) slot i parts.now
        → result ≡ is_readable (over metadata.now image) slot i }
{
    for n in 0..entry_blocks(page) {
        if !is_block_readable(metadata, page, parts, n) {
            return false;
        }
    }
    true
}

// Adds where the entries of anode i of a slot lead.
pub fn push_links(
    metadata: &Metadata,
    page: &[u8; PAGE],
    i: usize,
    parts: &Parts,
    links: &mut Vec<Link>,
) -> Result<(), AllocError>
    requires sized { IsSized metadata.now }
    requires anode { i < 64 }
    requires size { length parts.now.entries.items ≡ 1024 * blocks_there page.now }
    ensures from { AreFromAnodes links.old.items → OnOk result (AreFromAnodes links.new.items) }
    ensures links { OnOk result ((image : List ℕ) (slot : ℕ) → page.now ≡ anode_in metadata.now slot i
        → AreParts (over metadata.now image) slot i parts.now
        → links.new.items ≡ links.old.items ++ links_at (over metadata.now image) slot i) }
{
    if !is_readable(metadata, page, parts) {
        return Ok(());
    }
    for e in 0..entries_in(page) {
        let (to, unique) = entry_numbers(&parts.entries, e);
        links.push(Link {
            from: i as u8 + 1,
            to,
            unique,
        })?;
    }
    Ok(())
}

// Adds the pointers of the page of an anode.
fn push_page_uses(page: &[u8; PAGE], slot: u8, uses: &mut Vec<Use>) -> Result<(), AllocError>
    ensures { OnOk result ((metadata : TheMetadata) (image : List ℕ) (i : ℕ) → page.now ≡ anode_in metadata slot i
        → uses.new.items ≡ uses.old.items ++ listed (page_use (over metadata image) slot i) 16) }
{
    for w in 0..POINTERS {
        uses.push(Use {
            pointer: page_pointer(page, w),
            slot,
            is_map: w == INDIRECT,
            is_counted: true,
        })?;
    }
    Ok(())
}

// Adds the pointers of its indirect block.
fn push_map_uses(
    map: &[u8; BLOCK],
    slot: u8,
    is_counted: bool,
    uses: &mut Vec<Use>,
) -> Result<(), AllocError>
    ensures { OnOk result ((disk : TheAggregate) (i : ℕ) → map.now ≡ (node_there disk slot i).map
        → is_counted ≡ not (is_mapped disk slot i (pointer_there (node_there disk slot i) 15))
        → uses.new.items ≡ uses.old.items ++ listed (map_use disk slot i) 52) }
{
    for j in 0..MAPPED {
        uses.push(Use {
            pointer: map_pointer(map, j),
            slot,
            is_map: false,
            is_counted,
        })?;
    }
    Ok(())
}

// Whether an anode before has the indirect block that a pointer names. It is noted from here on.
fn was_mapped(metadata: &Metadata, mapped: &mut Vec<bool>, pointer: u32) -> bool
    requires sized { IsSized metadata.now }
    requires size { length mapped.old.items ≡ metadata.now.blocks }
    requires some { 1 ≤ pointer }
    requires there { pointer ≤ metadata.now.blocks }
    ensures was { result ≡ get_or mapped.old.items (pointer - 1) false }
    ensures noted { mapped.new.items ≡ slice_set mapped.old.items (pointer - 1) true }
{
    let place = pointer as usize - 1;
    let was = mapped[place];
    mapped[place] = true;
    was
}

// Adds the pointers of anode i of a slot, a file or directory.
pub fn push_uses(
    metadata: &Metadata,
    page: &[u8; PAGE],
    slot: u8,
    parts: &Parts,
    mapped: &mut Vec<bool>,
    uses: &mut Vec<Use>,
) -> Result<(), AllocError>
    requires sized { IsSized metadata.now }
    requires size { length mapped.old.items ≡ metadata.now.blocks }
    requires object { is_object_there page.now ≡ true }
    ensures size { OnOk result (length mapped.new.items ≡ metadata.now.blocks) }
    ensures uses { OnOk result ((image : List ℕ) (i : ℕ) → page.now ≡ anode_in metadata.now slot i
        → AreParts (over metadata.now image) slot i parts.now
        → AreMapped (over metadata.now image) slot i mapped.old.items
        → uses.new.items ≡ uses.old.items ++ uses_at (over metadata.now image) slot i) }
    ensures mapped { OnOk result ((image : List ℕ) (i : ℕ) → page.now ≡ anode_in metadata.now slot i
        → AreParts (over metadata.now image) slot i parts.now
        → AreMapped (over metadata.now image) slot i mapped.old.items
        → AreMapped (over metadata.now image) slot (i + 1) mapped.new.items) }
{
    push_page_uses(page, slot, uses)?;
    let pointer = page_pointer(page, INDIRECT);
    if !metadata.names_block(pointer) {
        return Ok(());
    }
    let was = was_mapped(metadata, mapped, pointer);
    push_map_uses(&parts.map, slot, !was, uses)?;
    Ok(())
}
