// The calls on access lists.
ghost use Rattle.std.specs.Prelude.{◌≡◌, ◌<◌, ◌≤◌, ◌+◌, ℕ, List, IfOk, IfErr, OnOk};
ghost use Rattle.base_types.specs.Crash.{IsQuiet};
ghost use Rattle.base_types.specs.declared.access.AccessEntry.{AccessEntry as Entry};
ghost use Rattle.disk_log.specs.Log.{disk_of, state_of, slot_of, IsSoundLog};
ghost use Rattle.disk_anode.specs.Room.{with_counts, free_blocks, MayPutAll, PutsPages};
ghost use Rattle.disk_anode.specs.Node.{names, node_in};
ghost use Rattle.disk_anode.specs.Anode.{with_list};
ghost use Rattle.disk_anode.specs.Changes.{own_names, WroteLoose, Changed, AreCounted, AreFew};
ghost use Rattle.disk_anode.specs.Faults.{IsNodeFault};
ghost use Rattle.disk_lists.specs.Lists.{list_bytes, list_in, HoldsList};
ghost use Rattle.disk_lists.specs.Faults.{IsListFault};

use crate::acl_bytes::{list_from, list_in_bytes};
use crate::fault::ListFault;
use base_types::{AccessList, Disk};
use disk_anode::{BLOCK, NodeFault, read_list, write_list};
use disk_layout::put_bytes;
use disk_log::{Log, Tx};
use std::alloc::Global;

/// An access list of an anode: 0 its own, and of a directory 1 the one for new files and 2 the one for new directories.
/// `page` is the anode's metadata page. It answers `BadList` exactly where the list's block, which is zero where the
/// anode has none, holds no access list with zeros behind it. The other errors are `Failed` and `Memory`.
pub fn load<D: Disk>(
    alloc: Global,
    log: &mut Log<D>,
    page: u32,
    which: u8,
) -> Result<AccessList, ListFault>
    requires sound { IsSoundLog D.tells D.view log.old }
    requires page { page < 1058 }
    requires which { which < 3 }
    ensures sound { IsSoundLog D.tells D.view log.new }
    ensures state { state_of log.new ≡ state_of log.old }
    ensures holds { D.tells → IfOk result (λ list. HoldsList list (list_in D.view log.old page which)) }
    ensures list { D.tells → (entries : List Entry) → HoldsList entries (list_in D.view log.old page which)
        → IfOk result (λ list. list ≡ entries) }
    ensures quiet { IsQuiet (D.view (disk_of log.old)) (D.view (disk_of log.new)) }
    ensures counted { (D.view (disk_of log.old)).faults ≤ (D.view (disk_of log.new)).faults }
    ensures only { IfErr result (λ fault. IsListFault
        (D.tells → (entries : List Entry) → HoldsList entries (list_in D.view log.old page which) → ⊥)
        fault (D.view (disk_of log.old)) (D.view (disk_of log.new))) }
{
    let mut bytes = [0; BLOCK];
    read_list(log, page, which, &mut bytes)?;
    Ok(list_from(alloc, &bytes)?)
}

/// Saves an access list of an anode: 0 its own, and of a directory 1 the one for new files and 2 the one for new
/// directories. A `load` gives it from then on. `page` is the anode's metadata page.
///
/// Room: two free blocks, for the list and for the indirect block; the transaction may put the page and all pages of
/// counts. `Failed`: mount the log again. `Memory`: undo the transaction, which may hold some of the puts.
pub fn save<D: Disk>(
    alloc: Global,
    log: &mut Log<D>,
    tx: &mut Tx,
    page: u32,
    which: u8,
    list: &AccessList,
) -> Result<(), NodeFault>
    requires sound { IsSoundLog D.tells D.view log.old }
    requires may { MayPutAll (with_counts page) (state_of log.old) (slot_of tx.old) }
    requires page { page < 1058 }
    requires which { which < 3 }
    requires named { D.tells →
        AreCounted (names (node_in (state_of log.old) (D.view (disk_of log.old)).image page))
        (state_of log.old) (D.view (disk_of log.old)).image }
    requires few { D.tells →
        AreFew (names (node_in (state_of log.old) (D.view (disk_of log.old)).image page))
        (state_of log.old) (D.view (disk_of log.old)).image }
    requires room { D.tells → 2 ≤ free_blocks (state_of log.old) (D.view (disk_of log.old)).image }
    ensures sound { IsSoundLog D.tells D.view log.new }
    ensures tx { tx.new ≡ tx.old }
    ensures puts { PutsPages (with_counts page) (slot_of tx.old) (state_of log.old) (state_of log.new) }
    ensures changed { D.tells → OnOk result (Changed page (with_list which (list_bytes list.now))
        (state_of log.old) (D.view (disk_of log.old)).image (state_of log.new) (D.view (disk_of log.new)).image) }
    ensures list { D.tells → OnOk result (HoldsList list.now (list_in D.view log.new page which)) }
    ensures room { D.tells → OnOk result (free_blocks (state_of log.old) (D.view (disk_of log.old)).image
        ≤ free_blocks (state_of log.new) (D.view (disk_of log.new)).image + 2) }
    ensures wrote { D.tells → WroteLoose
        (own_names (state_of log.old) (D.view (disk_of log.old)).image
        (node_in (state_of log.old) (D.view (disk_of log.old)).image page))
        (state_of log.old) (D.view (disk_of log.old)) (D.view (disk_of log.new)) }
    ensures counted { (D.view (disk_of log.old)).faults ≤ (D.view (disk_of log.new)).faults }
    ensures only { IfErr result (λ fault. IsNodeFault fault (D.view (disk_of log.old)) (D.view (disk_of log.new))) }
{
    let Ok(bytes) = list_in_bytes(alloc, list.as_slice()) else {
        return Err(NodeFault::Memory);
    };
    let mut block = [0; BLOCK];
    put_bytes(&mut block, 0, bytes.as_slice());
    write_list(log, tx, page, which, &block)
}
