// The blocks of an anode's lists.
ghost use Rattle.std.specs.Prelude.{◌≡◌, ◌<◌, ◌≤◌, ◌+◌, ℕ, IfErr, OnOk};
ghost use Rattle.std.proofs.Common.{get_or};
ghost use Rattle.base_types.specs.Crash.{IsQuiet};
ghost use Rattle.disk_log.specs.Log.{disk_of, state_of, slot_of, IsSoundLog};
ghost use Rattle.disk_anode.specs.Room.{with_counts, free_blocks, MayPutAll, PutsPages};
ghost use Rattle.disk_anode.specs.Node.{names, node_in};
ghost use Rattle.disk_anode.specs.Anode.{anode_in, with_list};
ghost use Rattle.disk_anode.specs.Changes.{own_names, WroteLoose, Changed, AreCounted, AreFew};
ghost use Rattle.disk_anode.specs.Faults.{IsNodeFault};

use crate::blocks::{load, read_under};
use crate::fault::NodeFault;
use crate::node::BLOCK;
use crate::owning::load_own;
use crate::writing::list_node;
use base_types::Disk;
use disk_log::{Log, Tx};

/// Fills `out` with the block of a list: 0 own, 1 files, 2 dirs. It is zero where the anode has none. `page` is the
/// anode's metadata page. The errors are `Failed` and `Memory`, after which `out` may hold anything.
pub fn read_list<D: Disk>(
    log: &mut Log<D>,
    page: u32,
    which: u8,
    out: &mut [u8; BLOCK],
) -> Result<(), NodeFault>
    requires sound { IsSoundLog D.tells D.view log.old }
    requires page { page < 1058 }
    requires which { which < 3 }
    ensures sound { IsSoundLog D.tells D.view log.new }
    ensures state { state_of log.new ≡ state_of log.old }
    ensures bytes { D.tells → OnOk result ((k : ℕ) → k < 1024
        → get_or out.new k 0 ≡ (anode_in (state_of log.old) (D.view (disk_of log.old)).image page).lists which k) }
    ensures quiet { IsQuiet (D.view (disk_of log.old)) (D.view (disk_of log.new)) }
    ensures counted { (D.view (disk_of log.old)).faults ≤ (D.view (disk_of log.new)).faults }
    ensures only { IfErr result (λ fault. IsNodeFault fault (D.view (disk_of log.old)) (D.view (disk_of log.new))) }
{
    let node = load(log, page)?;
    read_under(log, node.pointer(which as u32), out)?;
    Ok(())
}

/// Writes the block of a list: 0 own, 1 files, 2 dirs. The old one is given up, and a list that is zero has none.
/// `page` is the anode's metadata page.
///
/// Room: two free blocks, for the list and for the indirect block; the transaction may put the anode's page and all
/// pages of counts. `Failed`: mount the log again. `Memory`: undo the transaction, which may hold some of the puts.
pub fn write_list<D: Disk>(
    log: &mut Log<D>,
    tx: &mut Tx,
    page: u32,
    which: u8,
    bytes: &[u8; BLOCK],
) -> Result<(), NodeFault>
    requires sound { IsSoundLog D.tells D.view log.old }
    requires may { MayPutAll (with_counts page) (state_of log.old) (slot_of tx.old) }
    requires page { page < 1058 }
    requires which { which < 3 }
    requires named { D.tells → AreCounted (names (node_in (state_of log.old) (D.view (disk_of log.old)).image page))
        (state_of log.old) (D.view (disk_of log.old)).image }
    requires few { D.tells → AreFew (names (node_in (state_of log.old) (D.view (disk_of log.old)).image page))
        (state_of log.old) (D.view (disk_of log.old)).image }
    requires room { D.tells → 2 ≤ free_blocks (state_of log.old) (D.view (disk_of log.old)).image }
    ensures sound { IsSoundLog D.tells D.view log.new }
    ensures tx { tx.new ≡ tx.old }
    ensures puts { PutsPages (with_counts page) (slot_of tx.old) (state_of log.old) (state_of log.new) }
    ensures changed { D.tells → OnOk result (Changed page (with_list which bytes.now)
        (state_of log.old) (D.view (disk_of log.old)).image (state_of log.new) (D.view (disk_of log.new)).image) }
    ensures room { D.tells → OnOk result (free_blocks (state_of log.old) (D.view (disk_of log.old)).image
        ≤ free_blocks (state_of log.new) (D.view (disk_of log.new)).image + 2) }
    ensures wrote { D.tells → WroteLoose (own_names (state_of log.old)
        (D.view (disk_of log.old)).image (node_in (state_of log.old) (D.view (disk_of log.old)).image page))
        (state_of log.old) (D.view (disk_of log.old)) (D.view (disk_of log.new)) }
    ensures counted { (D.view (disk_of log.old)).faults ≤ (D.view (disk_of log.new)).faults }
    ensures only { IfErr result (λ fault. IsNodeFault fault (D.view (disk_of log.old)) (D.view (disk_of log.new))) }
{
    let mut node = load_own(log, tx, page)?;
    list_node(log, tx, page, &mut node, which as u32, bytes)?;
    Ok(())
}
