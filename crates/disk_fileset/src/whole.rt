// Whole slots.
ghost use Rattle.std.specs.Prelude.{◌<◌, ◌≢◌, ⊤, OnOk};
ghost use Rattle.disk_log.specs.Log.{disk_of, state_of};
ghost use Rattle.disk_objects.specs.Objects.{AreTrimmed};
ghost use Rattle.disk_fileset.specs.Slots.{AllVacant, slot_freed, slot_copied, MayChange, TurnsInto, ChangesSlot};

use crate::objects::{copy_anode, vacate};
use base_types::Disk;
use disk_anode::NodeFault;
use disk_log::{Log, Tx};

/// Frees all anodes of a slot, as a fileset is deleted: the objects go, and the unique numbers stay.
///
/// It needs no block. `Failed`: mount the log again. `Memory`: undo the transaction, which may hold some puts.
pub fn clear_slot<D: Disk>(log: &mut Log<D>, tx: &mut Tx, slot: u32) -> Result<(), NodeFault>
    requires slot { slot < 16 }
    requires may { MayChange D.tells D.view (λ slots. ⊤) slot 0 log.old tx.old }
    ensures kept { TurnsInto D.tells D.view (λ slots. ⊤) (slot_freed slot) result log.old log.new }
    ensures changes { ChangesSlot D.tells D.view slot 0 result log.old log.new tx.old tx.new }
{
    for i in 0..64 {
        vacate(log, tx, slot, i + 1)?;
    }
    Ok(())
}

/// Gives a slot whose anodes are all free what another slot has, as a fileset is cloned. The blocks are shared, but for
/// those past the length of an anode, which are left out.
///
/// It needs 64 free blocks, for indirect blocks that have pointers past a length, and so aren't shared. `Failed`: mount
/// the log again. `Memory`: undo the transaction, which may hold some puts.
pub fn copy_slot<D: Disk>(
    log: &mut Log<D>,
    tx: &mut Tx,
    from: u32,
    to: u32,
) -> Result<(), NodeFault>
    requires from { from < 16 }
    requires slot { to < 16 }
    requires apart { from ≢ to }
    requires may { MayChange D.tells D.view (AllVacant to) to 64 log.old tx.old }
    ensures kept { TurnsInto D.tells D.view (AllVacant to) (slot_copied from to) result log.old log.new }
    ensures trimmed { D.tells → OnOk result (AreTrimmed to (state_of log.new) (D.view (disk_of log.new)).image) }
    ensures changes { ChangesSlot D.tells D.view to 64 result log.old log.new tx.old tx.new }
{
    for i in 0..64 {
        copy_anode(log, tx, from, to, i + 1)?;
    }
    Ok(())
}
