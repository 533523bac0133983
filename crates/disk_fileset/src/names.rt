// Entries of directories.
ghost use Rattle.std.specs.Prelude.{◌≤◌, ◌<◌};
ghost use Rattle.tree_objects.specs.Changes.{anode_changed};
ghost use Rattle.tree_objects.specs.Entries.{content_with_entry, content_without_entry};
ghost use Rattle.disk_objects.specs.Objects.{with_anode};
ghost use Rattle.disk_fileset.specs.Slots.{TakesName, IsDir, MayMove, moved, MayChange, TurnsInto, ChangesSlot};

use crate::place::anode_page;
use base_types::{Disk, Name};
use disk_anode::NodeFault;
use disk_lists::{add, drop_name};
use disk_log::{Log, Tx};
use std::alloc::Global;
use tree_calls::DirEntry;
use tree_filesets::Move;

/// Puts an entry into a directory that has none of its name and fewer than 64 entries.
///
/// It needs seven free blocks. `Failed`: mount the log again. `Memory`: undo the transaction, which may hold some puts.
pub fn enter<D: Disk>(
    alloc: Global,
    log: &mut Log<D>,
    tx: &mut Tx,
    slot: u32,
    directory: u32,
    entry: &DirEntry,
) -> Result<(), NodeFault>
    requires slot { slot < 16 }
    requires first { 1 ≤ directory }
    requires last { directory ≤ 64 }
    requires may { MayChange D.tells D.view (TakesName slot directory entry.now.name) slot 7 log.old tx.old }
    ensures kept { TurnsInto D.tells D.view (TakesName slot directory entry.now.name)
        (with_anode slot directory (anode_changed (content_with_entry entry.now))) result log.old log.new }
    ensures changes { ChangesSlot D.tells D.view slot 7 result log.old log.new tx.old tx.new }
{
    let page = anode_page(slot, directory);
    add(alloc, log, tx, page, &entry.name, entry.anode, entry.unique)
}

/// Takes the entry of a name out of a directory, where there is one.
///
/// It needs seven free blocks. `Failed`: mount the log again. `Memory`: undo the transaction, which may hold some puts.
pub fn leave<D: Disk>(
    log: &mut Log<D>,
    tx: &mut Tx,
    slot: u32,
    directory: u32,
    name: &Name,
) -> Result<(), NodeFault>
    requires slot { slot < 16 }
    requires first { 1 ≤ directory }
    requires last { directory ≤ 64 }
    requires may { MayChange D.tells D.view (IsDir slot directory) slot 7 log.old tx.old }
    ensures kept { TurnsInto D.tells D.view (IsDir slot directory)
        (with_anode slot directory (anode_changed (content_without_entry name.now))) result log.old log.new }
    ensures changes { ChangesSlot D.tells D.view slot 7 result log.old log.new tx.old tx.new }
{
    drop_name(log, tx, anode_page(slot, directory), name)
}

/// Moves an entry from one directory to another, or to another name in one: the second has none of its new name and
/// fewer than 64 entries.
///
/// It needs fourteen free blocks. `Failed`: mount the log again. `Memory`: undo the transaction, which may hold some
/// puts.
pub fn rename<D: Disk>(
    alloc: Global,
    log: &mut Log<D>,
    tx: &mut Tx,
    slot: u32,
    way: &Move,
) -> Result<(), NodeFault>
    requires slot { slot < 16 }
    requires from { 1 ≤ way.now.from }
    requires from_last { way.now.from ≤ 64 }
    requires to { 1 ≤ way.now.to }
    requires to_last { way.now.to ≤ 64 }
    requires may { MayChange D.tells D.view (MayMove slot way.now) slot 14 log.old tx.old }
    ensures kept { TurnsInto D.tells D.view (MayMove slot way.now) (moved slot way.now) result log.old log.new }
    ensures changes { ChangesSlot D.tells D.view slot 14 result log.old log.new tx.old tx.new }
{
    enter(alloc, log, tx, slot, way.to, &way.entry)?;
    leave(log, tx, slot, way.from, &way.name)
}
