// New objects.
ghost use Rattle.std.specs.Prelude.{◌≡◌, ◌≤◌, ◌<◌, ◌+◌, ℕ, List, [], IfOk, OnOk, IsTrue, length, true};
ghost use Rattle.base_types.specs.Name.{is_name};
ghost use Rattle.tree_objects.specs.declared.content.Anode.{Anode};
ghost use Rattle.tree_objects.specs.Changes.{anode_changed};
ghost use Rattle.tree_objects.specs.declared.content.Content.TheVariants.{Dir};
ghost use Rattle.tree_objects.specs.Objects.{is_dir, content_with_list};
ghost use Rattle.disk_objects.specs.Objects.{anode_at, with_anode, HeldNow, FitsList, EachList, FitsContent};
ghost use Rattle.disk_fileset.specs.Slots.{
  HasList,
  IsBlank,
  TakesObject,
  MayMake,
  made,
  is_new,
  is_listed,
  emptied,
  used_by,
  blank_content,
  Held,
  Keeps,
  MayTurn,
  Turned,
  MayChange,
  TurnsInto,
  ChangesSlot,
};

use crate::lists::list_number;
use crate::names::enter;
use crate::place::anode_page;
use base_types::{AccessList, Disk, Items, Name};
use disk_anode::{NodeFault, create};
use disk_lists::save;
use disk_log::{Log, Tx};
use std::alloc::Global;
use tree_calls::Which;
use tree_filesets::Creation;
use tree_objects::{Content, Object};

// Makes an object without lists.
fn begin<D: Disk>(
    log: &mut Log<D>,
    tx: &mut Tx,
    slot: u32,
    anode: u32,
    dir: bool,
    owner: &Name,
    group: &Name,
) -> Result<u32, NodeFault>
    requires slot { slot < 16 }
    requires first { 1 ≤ anode }
    requires last { anode ≤ 64 }
    requires may { MayTurn HeldNow D.tells D.view (TakesObject slot anode) slot 0 log.old tx.old }
    ensures unique { D.tells → (slots : ℕ → List Anode) → Held HeldNow D.view slots log.old
        → IfOk result (λ unique. unique ≡ (anode_at (slots slot) anode).unique + 1) }
    ensures turned { Turned HeldNow D.tells D.view (TakesObject slot anode) (with_anode slot anode
        (used_by (record { owner = owner.now; group = group.now; content = blank_content dir }))) result
        log.old log.new }
    ensures changes { ChangesSlot D.tells D.view slot 0 result log.old log.new tx.old tx.new }
{
    create(log, tx, anode_page(slot, anode), dir, owner, group)
}

// Saves an access list of an object.
fn fill<D: Disk>(
    alloc: Global,
    log: &mut Log<D>,
    tx: &mut Tx,
    slot: u32,
    anode: u32,
    which: Which,
    list: &AccessList,
) -> Result<(), NodeFault>
    requires slot { slot < 16 }
    requires first { 1 ≤ anode }
    requires last { anode ≤ 64 }
    requires may { MayTurn HeldNow D.tells D.view (HasList slot anode which) slot 2 log.old tx.old }
    ensures turned { Turned HeldNow D.tells D.view (HasList slot anode which)
        (with_anode slot anode (anode_changed (content_with_list which list.now))) result log.old log.new }
    ensures fits { D.tells → OnOk result (FitsList list.now) }
    ensures changes { ChangesSlot D.tells D.view slot 2 result log.old log.new tx.old tx.new }
{
    save(
        alloc,
        log,
        tx,
        anode_page(slot, anode),
        list_number(which),
        list,
    )
}

// What a name is, as a fact.
pub fn known(name: &Name)
    ensures { IsTrue (is_name name.now) }
{
    name.as_bytes();
}

// Saves the three lists of a new directory.
fn fill_three<D: Disk>(
    alloc: Global,
    log: &mut Log<D>,
    tx: &mut Tx,
    slot: u32,
    anode: u32,
    lists: &Items<AccessList>,
) -> Result<(), NodeFault>
    requires slot { slot < 16 }
    requires first { 1 ≤ anode }
    requires last { anode ≤ 64 }
    requires three { length lists.now ≡ 3 }
    requires may { MayTurn HeldNow D.tells D.view (IsBlank slot anode true) slot 6 log.old tx.old }
    ensures turned { Turned HeldNow D.tells D.view (IsBlank slot anode true)
        (with_anode slot anode (anode_changed (λ content. Dir [] lists.now))) result log.old log.new }
    ensures fits { D.tells → OnOk result (EachList lists.now) }
    ensures changes { ChangesSlot D.tells D.view slot 6 result log.old log.new tx.old tx.new }
{
    fill(alloc, log, tx, slot, anode, Which::Own, lists.get(0))?;
    fill(alloc, log, tx, slot, anode, Which::Files, lists.get(1))?;
    fill(alloc, log, tx, slot, anode, Which::Dirs, lists.get(2))
}

// Saves the lists of an object that is being made.
pub fn fill_all<D: Disk>(
    alloc: Global,
    log: &mut Log<D>,
    tx: &mut Tx,
    slot: u32,
    anode: u32,
    content: &Content,
) -> Result<(), NodeFault>
    requires slot { slot < 16 }
    requires first { 1 ≤ anode }
    requires last { anode ≤ 64 }
    requires listed { is_listed content.now ≡ true }
    requires may { MayTurn HeldNow D.tells D.view (IsBlank slot anode (is_dir content.now)) slot 6 log.old tx.old }
    ensures turned { Turned HeldNow D.tells D.view (IsBlank slot anode (is_dir content.now))
        (with_anode slot anode (anode_changed (λ blank. emptied content.now))) result log.old log.new }
    ensures fits { D.tells → OnOk result (FitsContent (emptied content.now)) }
    ensures changes { ChangesSlot D.tells D.view slot 6 result log.old log.new tx.old tx.new }
{
    match content {
        Content::File { list, .. } => fill(alloc, log, tx, slot, anode, Which::Own, list),
        Content::Dir { lists, .. } => fill_three(alloc, log, tx, slot, anode, lists),
    }
}

/// Makes a new object in a free anode, in the next use of this, and answers the number of that use.
///
/// It needs six free blocks. `Failed`: mount the log again. `Memory`: undo the transaction, which may hold some puts.
pub fn occupy<D: Disk>(
    alloc: Global,
    log: &mut Log<D>,
    tx: &mut Tx,
    slot: u32,
    anode: u32,
    object: &Object,
) -> Result<u32, NodeFault>
    requires slot { slot < 16 }
    requires first { 1 ≤ anode }
    requires last { anode ≤ 64 }
    requires new { is_new object.now.content ≡ true }
    requires may { MayChange D.tells D.view (TakesObject slot anode) slot 6 log.old tx.old }
    ensures unique { D.tells → (slots : ℕ → List Anode) → Keeps D.view slots log.old
        → IfOk result (λ unique. unique ≡ (anode_at (slots slot) anode).unique + 1) }
    ensures kept { TurnsInto D.tells D.view (TakesObject slot anode) (with_anode slot anode (used_by object.now))
        result log.old log.new }
    ensures changes { ChangesSlot D.tells D.view slot 6 result log.old log.new tx.old tx.new }
{
    known(&object.owner);
    known(&object.group);
    let dir = object.is_dir();
    let unique = begin(log, tx, slot, anode, dir, &object.owner, &object.group)?;
    fill_all(alloc, log, tx, slot, anode, &object.content)?;
    Ok(unique)
}

/// Makes a new object and its entry in a directory: the anode that the entry names is free, and the entry is of its
/// next use.
///
/// It needs thirteen free blocks. `Failed`: mount the log again. `Memory`: undo the transaction, which may hold some
/// puts.
pub fn make<D: Disk>(
    alloc: Global,
    log: &mut Log<D>,
    tx: &mut Tx,
    slot: u32,
    creation: &Creation,
) -> Result<(), NodeFault>
    requires slot { slot < 16 }
    requires parent { 1 ≤ creation.now.parent }
    requires parent_last { creation.now.parent ≤ 64 }
    requires first { 1 ≤ creation.now.entry.anode }
    requires last { creation.now.entry.anode ≤ 64 }
    requires new { is_new creation.now.object.content ≡ true }
    requires may { MayChange D.tells D.view (MayMake slot creation.now) slot 13 log.old tx.old }
    ensures kept { TurnsInto D.tells D.view (MayMake slot creation.now) (made slot creation.now) result
        log.old log.new }
    ensures changes { ChangesSlot D.tells D.view slot 13 result log.old log.new tx.old tx.new }
{
    enter(alloc, log, tx, slot, creation.parent, &creation.entry)?;
    occupy(alloc, log, tx, slot, creation.entry.anode, &creation.object)?;
    Ok(())
}
