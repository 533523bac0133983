// Bytes of files.
ghost use Rattle.std.specs.Prelude.{◌≤◌, ◌<◌};
ghost use Rattle.tree_objects.specs.Changes.{anode_changed, content_truncated};
ghost use Rattle.disk_objects.specs.Objects.{with_anode};
ghost use Rattle.disk_fileset.specs.Slots.{IsFile, MayChange, TurnsInto, ChangesSlot};

use crate::place::anode_page;
use base_types::Disk;
use disk_anode::{NodeFault, cut};
use disk_log::{Log, Tx};

/// Sets the length of a file, at most 65,536 bytes; new bytes are zero.
///
/// It needs two free blocks. `Failed`: mount the log again. `Memory`: undo the transaction, which may hold some puts.
pub fn truncate<D: Disk>(
    log: &mut Log<D>,
    tx: &mut Tx,
    slot: u32,
    anode: u32,
    length: u32,
) -> Result<(), NodeFault>
    requires slot { slot < 16 }
    requires first { 1 ≤ anode }
    requires last { anode ≤ 64 }
    requires length { length ≤ 65536 }
    requires may { MayChange D.tells D.view (IsFile slot anode) slot 2 log.old tx.old }
    ensures kept { TurnsInto D.tells D.view (IsFile slot anode)
        (with_anode slot anode (anode_changed (content_truncated length))) result log.old log.new }
    ensures changes { ChangesSlot D.tells D.view slot 2 result log.old log.new tx.old tx.new }
{
    cut(log, tx, anode_page(slot, anode), length)
}
