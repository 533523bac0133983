// Access lists of objects.
ghost use Rattle.std.specs.Prelude.{◌≡◌, ◌≤◌, ◌<◌};
ghost use Rattle.tree_objects.specs.Changes.{anode_changed};
ghost use Rattle.tree_objects.specs.Objects.{content_with_list, list_index};
ghost use Rattle.disk_objects.specs.Objects.{with_anode};
ghost use Rattle.disk_fileset.specs.Slots.{HasList, MayChange, TurnsInto, ChangesSlot};

use crate::place::anode_page;
use base_types::{AccessList, Disk};
use disk_anode::NodeFault;
use disk_lists::save;
use disk_log::{Log, Tx};
use std::alloc::Global;
use tree_calls::Which;

// The number of a list among those of an anode.
pub fn list_number(which: Which) -> u8
    ensures value { result ≡ list_index which }
    ensures few { result < 3 }
{
    match which {
        Which::Own => 0,
        Which::Files => 1,
        Which::Dirs => 2,
    }
}

/// Replaces an access list of an object, which has one there: a file has only its own.
///
/// It needs two free blocks. `Failed`: mount the log again. `Memory`: undo the transaction, which may hold some puts.
pub fn set_list<D: Disk>(
    alloc: Global,
    log: &mut Log<D>,
    tx: &mut Tx,
    slot: u32,
    anode: u32,
    which: Which,
    list: &AccessList,
) -> Result<(), NodeFault>
    requires slot { slot < 16 }
    requires first { 1 ≤ anode }
    requires last { anode ≤ 64 }
    requires may { MayChange D.tells D.view (HasList slot anode which) slot 2 log.old tx.old }
    ensures kept { TurnsInto D.tells D.view (HasList slot anode which)
        (with_anode slot anode (anode_changed (content_with_list which list.now))) result log.old log.new }
    ensures changes { ChangesSlot D.tells D.view slot 2 result log.old log.new tx.old tx.new }
{
    save(
        alloc,
        log,
        tx,
        anode_page(slot, anode),
        list_number(which),
        list,
    )
}
