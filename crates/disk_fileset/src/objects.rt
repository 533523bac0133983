// Objects as they come and go.
ghost use Rattle.std.specs.Prelude.{◌≤◌, ◌<◌, ◌≢◌, ⊤};
ghost use Rattle.tree_objects.specs.Changes.{anode_freed};
ghost use Rattle.disk_objects.specs.Objects.{anode_at, with_anode};
ghost use Rattle.disk_fileset.specs.Slots.{IsVacant, IsDir, CopiesNow, removed};
ghost use Rattle.disk_fileset.specs.Slots.{MayTurn, Turned, MayChange, TurnsInto, ChangesSlot};

use crate::names::leave;
use crate::place::anode_page;
use base_types::{Disk, Name};
use disk_anode::{NodeFault, clone_of, remove};
use disk_log::{Log, Tx};

/// Frees an anode: its object goes, and its unique number stays.
///
/// It needs no block. `Failed`: mount the log again. `Memory`: undo the transaction, which may hold some puts.
pub fn vacate<D: Disk>(
    log: &mut Log<D>,
    tx: &mut Tx,
    slot: u32,
    anode: u32,
) -> Result<(), NodeFault>
    requires slot { slot < 16 }
    requires first { 1 ≤ anode }
    requires last { anode ≤ 64 }
    requires may { MayChange D.tells D.view (λ slots. ⊤) slot 0 log.old tx.old }
    ensures kept { TurnsInto D.tells D.view (λ slots. ⊤) (with_anode slot anode anode_freed) result log.old log.new }
    ensures changes { ChangesSlot D.tells D.view slot 0 result log.old log.new tx.old tx.new }
{
    remove(log, tx, anode_page(slot, anode))
}

/// Gives a free anode what the anode of the same number in another slot has, and its unique number. The blocks of the
/// object are shared, but for those past its length. The slot has no blocks but those of such copies.
///
/// It needs a block, for another indirect block. `Failed`: mount the log again. `Memory`: undo the transaction, which
/// may hold some puts.
pub fn copy_anode<D: Disk>(
    log: &mut Log<D>,
    tx: &mut Tx,
    from: u32,
    to: u32,
    anode: u32,
) -> Result<(), NodeFault>
    requires from { from < 16 }
    requires slot { to < 16 }
    requires apart { from ≢ to }
    requires first { 1 ≤ anode }
    requires last { anode ≤ 64 }
    requires may { MayTurn (CopiesNow from to) D.tells D.view (IsVacant to anode) to 1 log.old tx.old }
    ensures kept { Turned (CopiesNow from to) D.tells D.view (IsVacant to anode)
        (λ slots. with_anode to anode (λ free. anode_at (slots from) anode) slots) result log.old log.new }
    ensures changes { ChangesSlot D.tells D.view to 1 result log.old log.new tx.old tx.new }
{
    clone_of(log, tx, anode_page(from, anode), anode_page(to, anode))
}

/// Removes an object: the entry of its name goes from its directory, and then its anode is freed.
///
/// It needs seven free blocks. `Failed`: mount the log again. `Memory`: undo the transaction, which may hold some puts.
pub fn unmake<D: Disk>(
    log: &mut Log<D>,
    tx: &mut Tx,
    slot: u32,
    directory: u32,
    name: &Name,
    anode: u32,
) -> Result<(), NodeFault>
    requires slot { slot < 16 }
    requires directory { 1 ≤ directory }
    requires directory_last { directory ≤ 64 }
    requires first { 1 ≤ anode }
    requires last { anode ≤ 64 }
    requires may { MayChange D.tells D.view (IsDir slot directory) slot 7 log.old tx.old }
    ensures kept { TurnsInto D.tells D.view (IsDir slot directory) (removed slot directory name.now anode) result
        log.old log.new }
    ensures changes { ChangesSlot D.tells D.view slot 7 result log.old log.new tx.old tx.new }
{
    leave(log, tx, slot, directory, name)?;
    vacate(log, tx, slot, anode)
}
