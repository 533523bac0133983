// What a slot keeps, read back.
ghost use Rattle.std.specs.Prelude.{◌≡◌, ◌≤◌, ◌<◌, ℕ, List, true, false, IfOk, IfErr, slice_get, take};
ghost use Rattle.base_types.specs.declared.access.AccessEntry.{AccessEntry as Entry};
ghost use Rattle.tree_objects.specs.declared.content.Anode.{Anode as Kept};
ghost use Rattle.tree_objects.specs.Objects.{is_dir};
ghost use Rattle.tree_filesets.specs.Laws.{lists_in};
ghost use Rattle.disk_log.specs.Log.{IsSoundLog};
ghost use Rattle.disk_log.specs.Contents.{contents_of, page_in};
ghost use Rattle.disk_anode.specs.Anode.{text_at};
ghost use Rattle.disk_anode.specs.declared.fault.NodeFault.TheVariants.{Memory};
ghost use Rattle.disk_objects.specs.Objects.{page_for, anode_at, bytes_kept};
ghost use Rattle.disk_fileset.specs.Slots.{Keeps};
ghost use Rattle.disk_fileset.specs.Reading.{Looks, Finds, FindsOf};

use crate::giving::zeros;
use crate::place::anode_page;
use base_types::{AccessList, Disk, FILE_BYTES_MAX, Items, Name, NoMemory, Span};
use disk_anode::{NodeFault, length_of, read_at};
use disk_layout::{PAGE, u32_at};
use disk_lists::{ListFault, list, load};
use disk_log::Log;
use std::alloc::Global;
use tree_objects::{Anode, Content, Object, UnsavedBytes};

// Where parts of an anode's page stand, in bytes.
const UNIQUE_AT: usize = 4;

const OWNER_AT: usize = 76;

const GROUP_AT: usize = 137;

// The kind of a free anode, and of a directory.
const FREE: u8 = 0;

const DIRECTORY: u8 = 1;

// An access list of an object. It lacks memory also where there is none, as in no block of an object.
fn list_of<D: Disk>(
    alloc: Global,
    log: &mut Log<D>,
    slot: u32,
    anode: u32,
    which: u8,
) -> Result<AccessList, NodeFault>
    requires sound { IsSoundLog D.tells D.view log.old }
    requires slot { slot < 16 }
    requires first { 1 ≤ anode }
    requires last { anode ≤ 64 }
    requires which { which < 3 }
    ensures list { FindsOf D.tells D.view slot anode (λ object list. (entries : List Entry)
        → slice_get (lists_in object.content) which ≡ Some entries → list ≡ entries) result log.old }
    ensures looks { Looks D.tells D.view result log.old log.new }
{
    match load(alloc, log, anode_page(slot, anode), which) {
        Ok(list) => Ok(list),
        Err(ListFault::Failed) => Err(NodeFault::Failed),
        Err(_) => Err(NodeFault::Memory),
    }
}

// The three lists of a directory.
fn lists_of<D: Disk>(
    alloc: Global,
    log: &mut Log<D>,
    slot: u32,
    anode: u32,
) -> Result<Items<AccessList>, NodeFault>
    requires sound { IsSoundLog D.tells D.view log.old }
    requires slot { slot < 16 }
    requires first { 1 ≤ anode }
    requires last { anode ≤ 64 }
    ensures lists { FindsOf D.tells D.view slot anode
        (λ object lists. is_dir object.content ≡ true → lists ≡ lists_in object.content) result log.old }
    ensures looks { Looks D.tells D.view result log.old log.new }
{
    let mut lists = Items::new(alloc);
    for which in 0..3 {
        let list = list_of(alloc, log, slot, anode, which)?;
        match lists.push(list) {
            Ok(()) => {}
            Err(NoMemory) => return Err(NodeFault::Memory),
        }
    }
    Ok(lists)
}

// The bytes of a file.
fn bytes_of<D: Disk>(
    alloc: Global,
    log: &mut Log<D>,
    slot: u32,
    anode: u32,
) -> Result<Items<u8>, NodeFault>
    requires sound { IsSoundLog D.tells D.view log.old }
    requires slot { slot < 16 }
    requires first { 1 ≤ anode }
    requires last { anode ≤ 64 }
    ensures bytes { FindsOf D.tells D.view slot anode
        (λ object bytes. is_dir object.content ≡ false → bytes ≡ bytes_kept object.content) result log.old }
    ensures looks { Looks D.tells D.view result log.old log.new }
{
    let page = anode_page(slot, anode);
    let to = length_of(log, page)?.min(FILE_BYTES_MAX);
    let mut bytes = zeros(alloc, to as usize)?;
    read_at(log, page, Span { from: 0, to }, &mut bytes)?;
    Ok(Items::from_vec(bytes))
}

// The content of a directory, or of a file.
fn content_of<D: Disk>(
    alloc: Global,
    log: &mut Log<D>,
    slot: u32,
    anode: u32,
    dir: bool,
) -> Result<Content, NodeFault>
    requires sound { IsSoundLog D.tells D.view log.old }
    requires slot { slot < 16 }
    requires first { 1 ≤ anode }
    requires last { anode ≤ 64 }
    ensures content { FindsOf D.tells D.view slot anode
        (λ object content. is_dir object.content ≡ dir → content ≡ object.content) result log.old }
    ensures looks { Looks D.tells D.view result log.old log.new }
{
    if dir {
        let lists = lists_of(alloc, log, slot, anode)?;
        let entries = list(alloc, log, anode_page(slot, anode))?;
        return Ok(Content::Dir { entries, lists });
    }
    let kept = bytes_of(alloc, log, slot, anode)?;
    let list = list_of(alloc, log, slot, anode, 0)?;
    Ok(Content::File {
        list,
        kept,
        unsaved: UnsavedBytes::new(alloc),
        length: None,
    })
}

// The name behind its length. It lacks memory also where there is no name, as in no page of an object.
fn name_in(alloc: Global, page: &[u8; PAGE], at: usize) -> Result<Name, NodeFault>
    requires { at ≤ 137 }
    ensures name { IfOk result (λ name. name ≡ text_at page.now at) }
    ensures only { IfErr result (λ fault. fault ≡ Memory) }
{
    let size = page[at] as usize;
    match Name::new(alloc, &page[at + 1..at + 1 + size]) {
        Ok(name) => Ok(name),
        Err(_) => Err(NodeFault::Memory),
    }
}

// The object of an anode, if it isn't free. `head` is the anode's page.
fn object_of<D: Disk>(
    alloc: Global,
    log: &mut Log<D>,
    slot: u32,
    anode: u32,
    head: &[u8; PAGE],
) -> Result<Option<Object>, NodeFault>
    requires sound { IsSoundLog D.tells D.view log.old }
    requires slot { slot < 16 }
    requires first { 1 ≤ anode }
    requires last { anode ≤ 64 }
    ensures object { head.now ≡ page_in (contents_of D.view log.old) (page_for slot anode)
        → Finds D.tells D.view slot anode (λ kept found. found ≡ kept.object) result log.old }
    ensures looks { Looks D.tells D.view result log.old log.new }
{
    if head[0] == FREE {
        return Ok(None);
    }
    let owner = name_in(alloc, head, OWNER_AT)?;
    let group = name_in(alloc, head, GROUP_AT)?;
    let content = content_of(alloc, log, slot, anode, head[0] == DIRECTORY)?;
    Ok(Some(Object {
        owner,
        group,
        content,
    }))
}

/// What an anode of a slot keeps, from 1 to 64: its unique number and its object, of which nothing is unsaved. The
/// errors are `Failed` and `Memory`, the second also over pages and blocks that keep no objects.
pub fn kept_anode<D: Disk>(
    alloc: Global,
    log: &mut Log<D>,
    slot: u32,
    anode: u32,
) -> Result<Anode, NodeFault>
    requires sound { IsSoundLog D.tells D.view log.old }
    requires slot { slot < 16 }
    requires first { 1 ≤ anode }
    requires last { anode ≤ 64 }
    ensures anode { D.tells → (slots : ℕ → List Kept) → Keeps D.view slots log.old
        → IfOk result (λ found. found ≡ anode_at (slots slot) anode) }
    ensures looks { Looks D.tells D.view result log.old log.new }
{
    let mut head = [0; PAGE];
    log.page(anode_page(slot, anode), &mut head)?;
    let unique = u32_at(&head, UNIQUE_AT);
    let object = object_of(alloc, log, slot, anode, &head)?;
    Ok(Anode { unique, object })
}

/// The first anodes of a slot, 64 at most, as a fileset of this limit has them. The errors are those of `kept_anode`.
pub fn kept_anodes<D: Disk>(
    alloc: Global,
    log: &mut Log<D>,
    slot: u32,
    count: u32,
) -> Result<Items<Anode>, NodeFault>
    requires sound { IsSoundLog D.tells D.view log.old }
    requires slot { slot < 16 }
    requires count { count ≤ 64 }
    ensures anodes { D.tells → (slots : ℕ → List Kept) → Keeps D.view slots log.old
        → IfOk result (λ anodes. anodes ≡ take count (slots slot)) }
    ensures looks { Looks D.tells D.view result log.old log.new }
{
    let mut anodes = Items::new(alloc);
    for i in 0..count {
        let anode = kept_anode(alloc, log, slot, i + 1)?;
        match anodes.push(anode) {
            Ok(()) => {}
            Err(NoMemory) => return Err(NodeFault::Memory),
        }
    }
    Ok(anodes)
}
