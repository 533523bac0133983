// Anodes that are put as they are.
ghost use Rattle.std.specs.Prelude.{◌≡◌, ◌≤◌, ◌<◌, true, IfSome};
ghost use Rattle.tree_filesets.specs.Creation.{occupied};
ghost use Rattle.tree_objects.specs.Changes.{anode_changed};
ghost use Rattle.disk_objects.specs.Objects.{with_anode, HeldNow};
ghost use Rattle.disk_fileset.specs.Slots.{is_listed, is_whole, emptied, numbered, blank_content, IsVacant, IsEmptied};
ghost use Rattle.disk_fileset.specs.Slots.{MayTurn, Turned, MayChange, TurnsInto, ChangesSlot};

use crate::making::{fill_all, known};
use crate::place::anode_page;
use base_types::{Disk, Name};
use disk_anode::{NodeFault, create_as, write_at};
use disk_lists::set_entries;
use disk_log::{Log, Tx};
use std::alloc::Global;
use tree_objects::{Anode, Content, Object};

// The kinds of anodes.
const FREE: u8 = 0;

const DIRECTORY: u8 = 1;

const FILE: u8 = 2;

// Makes an object of a unique number, without lists, entries or bytes.
fn start<D: Disk>(
    log: &mut Log<D>,
    tx: &mut Tx,
    slot: u32,
    anode: u32,
    unique: u32,
    dir: bool,
    owner: &Name,
    group: &Name,
) -> Result<(), NodeFault>
    requires slot { slot < 16 }
    requires first { 1 ≤ anode }
    requires last { anode ≤ 64 }
    requires may { MayTurn HeldNow D.tells D.view (IsVacant slot anode) slot 0 log.old tx.old }
    ensures turned { Turned HeldNow D.tells D.view (IsVacant slot anode) (with_anode slot anode
        (occupied unique (record { owner = owner.now; group = group.now; content = blank_content dir }))) result
        log.old log.new }
    ensures changes { ChangesSlot D.tells D.view slot 0 result log.old log.new tx.old tx.new }
{
    let page = anode_page(slot, anode);
    let kind = if dir { DIRECTORY } else { FILE };
    let (owner, group) = (owner.as_bytes(), group.as_bytes());
    create_as(log, tx, page, kind, unique, owner, group)
}

// Makes an object of a unique number with its lists, without entries or bytes.
fn put_empty<D: Disk>(
    alloc: Global,
    log: &mut Log<D>,
    tx: &mut Tx,
    slot: u32,
    anode: u32,
    unique: u32,
    object: &Object,
) -> Result<(), NodeFault>
    requires slot { slot < 16 }
    requires first { 1 ≤ anode }
    requires last { anode ≤ 64 }
    requires listed { is_listed object.now.content ≡ true }
    requires may { MayChange D.tells D.view (IsVacant slot anode) slot 6 log.old tx.old }
    ensures kept { TurnsInto D.tells D.view (IsVacant slot anode) (with_anode slot anode
        (occupied unique (record object.now { content = emptied object.now.content }))) result log.old log.new }
    ensures changes { ChangesSlot D.tells D.view slot 6 result log.old log.new tx.old tx.new }
{
    known(&object.owner);
    known(&object.group);
    let dir = object.is_dir();
    start(
        log,
        tx,
        slot,
        anode,
        unique,
        dir,
        &object.owner,
        &object.group,
    )?;
    fill_all(alloc, log, tx, slot, anode, &object.content)
}

// Puts the entries or bytes of an object that has its lists.
fn fill_content<D: Disk>(
    alloc: Global,
    log: &mut Log<D>,
    tx: &mut Tx,
    slot: u32,
    anode: u32,
    content: &Content,
) -> Result<(), NodeFault>
    requires slot { slot < 16 }
    requires first { 1 ≤ anode }
    requires last { anode ≤ 64 }
    requires whole { is_whole content.now ≡ true }
    requires may { MayChange D.tells D.view (IsEmptied slot anode content.now) slot 66 log.old tx.old }
    ensures kept { TurnsInto D.tells D.view (IsEmptied slot anode content.now)
        (with_anode slot anode (anode_changed (λ empty. content.now))) result log.old log.new }
    ensures changes { ChangesSlot D.tells D.view slot 66 result log.old log.new tx.old tx.new }
{
    let page = anode_page(slot, anode);
    match content {
        Content::Dir { entries, .. } => set_entries(alloc, log, tx, page, entries.as_slice()),
        Content::File { kept, .. } => write_at(log, tx, page, 0, kept.as_slice()),
    }
}

// Puts an object of a unique number.
fn put_object<D: Disk>(
    alloc: Global,
    log: &mut Log<D>,
    tx: &mut Tx,
    slot: u32,
    anode: u32,
    unique: u32,
    object: &Object,
) -> Result<(), NodeFault>
    requires slot { slot < 16 }
    requires first { 1 ≤ anode }
    requires last { anode ≤ 64 }
    requires whole { is_whole object.now.content ≡ true }
    requires may { MayChange D.tells D.view (IsVacant slot anode) slot 72 log.old tx.old }
    ensures kept { TurnsInto D.tells D.view (IsVacant slot anode) (with_anode slot anode (occupied unique object.now))
        result log.old log.new }
    ensures changes { ChangesSlot D.tells D.view slot 72 result log.old log.new tx.old tx.new }
{
    put_empty(alloc, log, tx, slot, anode, unique, object)?;
    fill_content(alloc, log, tx, slot, anode, &object.content)
}

// Gives a free anode a unique number.
fn put_number<D: Disk>(
    log: &mut Log<D>,
    tx: &mut Tx,
    slot: u32,
    anode: u32,
    unique: u32,
) -> Result<(), NodeFault>
    requires slot { slot < 16 }
    requires first { 1 ≤ anode }
    requires last { anode ≤ 64 }
    requires may { MayChange D.tells D.view (IsVacant slot anode) slot 0 log.old tx.old }
    ensures kept { TurnsInto D.tells D.view (IsVacant slot anode) (with_anode slot anode (numbered unique)) result
        log.old log.new }
    ensures changes { ChangesSlot D.tells D.view slot 0 result log.old log.new tx.old tx.new }
{
    create_as(log, tx, anode_page(slot, anode), FREE, unique, &[], &[])
}

/// Puts an anode as it is, with its unique number and its object where it has one, in place of a free one, as a part of
/// a fileset arrives.
///
/// It needs 72 free blocks. `Failed`: mount the log again. `Memory`: undo the transaction, which may hold some puts.
pub fn put_anode<D: Disk>(
    alloc: Global,
    log: &mut Log<D>,
    tx: &mut Tx,
    slot: u32,
    anode: u32,
    kept: &Anode,
) -> Result<(), NodeFault>
    requires slot { slot < 16 }
    requires first { 1 ≤ anode }
    requires last { anode ≤ 64 }
    requires whole { IfSome kept.now.object (λ object. is_whole object.content ≡ true) }
    requires may { MayChange D.tells D.view (IsVacant slot anode) slot 72 log.old tx.old }
    ensures kept { TurnsInto D.tells D.view (IsVacant slot anode) (with_anode slot anode (λ free. kept.now)) result
        log.old log.new }
    ensures changes { ChangesSlot D.tells D.view slot 72 result log.old log.new tx.old tx.new }
{
    match &kept.object {
        Some(object) => put_object(alloc, log, tx, slot, anode, kept.unique, object),
        None => put_number(log, tx, slot, anode, kept.unique),
    }
}
