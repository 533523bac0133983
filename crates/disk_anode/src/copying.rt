// Copies of anodes, which name the blocks of their sources.
ghost use Rattle.std.specs.Prelude.{◌≡◌, ◌<◌, ◌≤◌, ◌+◌, ℕ, IfErr, OnOk, min};
ghost use Rattle.base_types.specs.Crash.{IsQuiet};
ghost use Rattle.disk_log.specs.Log.{disk_of, state_of, slot_of, IsSoundLog};
ghost use Rattle.disk_anode.specs.Room.{with_counts, free_blocks, MayPutAll, PutsPages};
ghost use Rattle.disk_anode.specs.Node.{pointer_of, map_under, names, no_names, node_in};
ghost use Rattle.disk_anode.specs.Changes.{WroteLoose, AreCounted, AreFew, Cloned, Made, OwnsMap, SharesBlocks};
ghost use Rattle.disk_anode.specs.Anode.{anode_of, names_past};
ghost use Rattle.disk_space.specs.Faults.{IsTakeFault, IsCountFault};

use crate::blocks::share_all;
use crate::node::{INDIRECT, MAPPED, Node, POINTERS};
use crate::writing::save;
use base_types::Disk;
use disk_log::{Log, Tx};
use disk_space::SpaceFault;

// Puts an anode in a page that had none: one more pointer names each block that its page names.
fn put_sharing<D: Disk>(
    log: &mut Log<D>,
    tx: &mut Tx,
    page: u32,
    copy: &Node,
) -> Result<(), SpaceFault>
    requires sound { IsSoundLog D.tells D.view log.old }
    requires may { MayPutAll (with_counts page) (state_of log.old) (slot_of tx.old) }
    requires page { page < 1058 }
    requires blocks { copy.now.blocks ≡ (state_of log.old).superblock.blocks }
    requires map { D.tells
        → copy.now.map ≡ map_under copy.now.blocks (D.view (disk_of log.old)).image (pointer_of copy.now 15) }
    requires named { D.tells → AreCounted (names copy.now) (state_of log.old) (D.view (disk_of log.old)).image }
    requires few { D.tells → AreFew (names copy.now) (state_of log.old) (D.view (disk_of log.old)).image }
    ensures sound { IsSoundLog D.tells D.view log.new }
    ensures tx { tx.new ≡ tx.old }
    ensures puts { PutsPages (with_counts page) (slot_of tx.old) (state_of log.old) (state_of log.new) }
    ensures cloned { D.tells → OnOk result (Cloned page copy.now
        (state_of log.old) (D.view (disk_of log.old)).image (state_of log.new) (D.view (disk_of log.new)).image) }
    ensures indirect { D.tells → OnOk result
        (pointer_of (node_in (state_of log.new) (D.view (disk_of log.new)).image page) 15 ≡ pointer_of copy.now 15) }
    ensures room { D.tells → OnOk result (free_blocks (state_of log.old) (D.view (disk_of log.old)).image
        ≤ free_blocks (state_of log.new) (D.view (disk_of log.new)).image) }
    ensures quiet { IsQuiet (D.view (disk_of log.old)) (D.view (disk_of log.new)) }
    ensures counted { (D.view (disk_of log.old)).faults ≤ (D.view (disk_of log.new)).faults }
    ensures only { IfErr result (λ fault. IsCountFault fault (D.view (disk_of log.old)) (D.view (disk_of log.new))) }
{
    share_all(log, tx, copy, 0, MAPPED)?;
    log.put(tx, page, &copy.page)?;
    Ok(())
}

// Puts an anode in a page that had none, with an indirect block of its own: one more pointer names each other block
// that it names.
fn put_copy<D: Disk>(
    log: &mut Log<D>,
    tx: &mut Tx,
    page: u32,
    copy: &mut Node,
) -> Result<(), SpaceFault>
    requires sound { IsSoundLog D.tells D.view log.old }
    requires may { MayPutAll (with_counts page) (state_of log.old) (slot_of tx.old) }
    requires page { page < 1058 }
    requires blocks { copy.old.blocks ≡ (state_of log.old).superblock.blocks }
    requires named { D.tells → AreCounted (names copy.old) (state_of log.old) (D.view (disk_of log.old)).image }
    requires few { D.tells → AreFew (names copy.old) (state_of log.old) (D.view (disk_of log.old)).image }
    requires room { D.tells → 1 ≤ free_blocks (state_of log.old) (D.view (disk_of log.old)).image }
    ensures sound { IsSoundLog D.tells D.view log.new }
    ensures tx { tx.new ≡ tx.old }
    ensures puts { PutsPages (with_counts page) (slot_of tx.old) (state_of log.old) (state_of log.new) }
    ensures cloned { D.tells → OnOk result (Cloned page copy.old
        (state_of log.old) (D.view (disk_of log.old)).image (state_of log.new) (D.view (disk_of log.new)).image) }
    ensures own { D.tells → OnOk result (OwnsMap page
        (state_of log.old) (D.view (disk_of log.old)).image (state_of log.new) (D.view (disk_of log.new)).image) }
    ensures room { D.tells → OnOk result (free_blocks (state_of log.old) (D.view (disk_of log.old)).image
        ≤ free_blocks (state_of log.new) (D.view (disk_of log.new)).image + 1) }
    ensures wrote { D.tells
        → WroteLoose no_names (state_of log.old) (D.view (disk_of log.old)) (D.view (disk_of log.new)) }
    ensures counted { (D.view (disk_of log.old)).faults ≤ (D.view (disk_of log.new)).faults }
    ensures only { IfErr result
        (λ fault. IsTakeFault (D.tells → ⊥) fault (D.view (disk_of log.old)) (D.view (disk_of log.new))) }
{
    copy.set_pointer(INDIRECT, 0);
    share_all(log, tx, copy, 0, POINTERS)?;
    save(log, tx, page, copy)
}

// Puts a copy of an anode in a page that had none.
pub fn copy_node<D: Disk>(
    log: &mut Log<D>,
    tx: &mut Tx,
    page: u32,
    source: &Node,
) -> Result<(), SpaceFault>
    requires sound { IsSoundLog D.tells D.view log.old }
    requires may { MayPutAll (with_counts page) (state_of log.old) (slot_of tx.old) }
    requires page { page < 1058 }
    requires blocks { source.now.blocks ≡ (state_of log.old).superblock.blocks }
    requires map { D.tells
        → source.now.map ≡ map_under source.now.blocks (D.view (disk_of log.old)).image (pointer_of source.now 15) }
    requires named { D.tells → AreCounted (names source.now) (state_of log.old) (D.view (disk_of log.old)).image }
    requires few { D.tells → AreFew (names source.now) (state_of log.old) (D.view (disk_of log.old)).image }
    requires room { D.tells
        → min 1 (names_past source.now) ≤ free_blocks (state_of log.old) (D.view (disk_of log.old)).image }
    ensures sound { IsSoundLog D.tells D.view log.new }
    ensures tx { tx.new ≡ tx.old }
    ensures puts { PutsPages (with_counts page) (slot_of tx.old) (state_of log.old) (state_of log.new) }
    ensures made { D.tells → OnOk result (Made page (anode_of (D.view (disk_of log.old)).image source.now)
        (state_of log.old) (D.view (disk_of log.old)).image (state_of log.new) (D.view (disk_of log.new)).image) }
    ensures shares { D.tells → OnOk result (SharesBlocks page source.now
        (state_of log.old) (D.view (disk_of log.old)).image (state_of log.new) (D.view (disk_of log.new)).image) }
    ensures room { D.tells → OnOk result (free_blocks (state_of log.old) (D.view (disk_of log.old)).image
        ≤ free_blocks (state_of log.new) (D.view (disk_of log.new)).image + min 1 (names_past source.now)) }
    ensures wrote { D.tells
        → WroteLoose no_names (state_of log.old) (D.view (disk_of log.old)) (D.view (disk_of log.new)) }
    ensures counted { (D.view (disk_of log.old)).faults ≤ (D.view (disk_of log.new)).faults }
    ensures only { IfErr result
        (λ fault. IsTakeFault (D.tells → ⊥) fault (D.view (disk_of log.old)) (D.view (disk_of log.new))) }
{
    let mut copy = source.up_to_length();
    if source.has_names_past() {
        return put_copy(log, tx, page, &mut copy);
    }
    copy.map = source.map;
    put_sharing(log, tx, page, &copy)
}
