// Anodes whose pointers are all their own.
ghost use Rattle.std.specs.Prelude.{◌≡◌, ◌<◌, ◌≤◌, ℕ, IfOk, IfErr, OnOk};
ghost use Rattle.base_types.specs.Crash.{IsQuiet};
ghost use Rattle.disk_log.specs.Log.{disk_of, state_of, slot_of, IsSoundLog};
ghost use Rattle.disk_anode.specs.Room.{are_counts, free_blocks, MayPutAll, PutsPages};
ghost use Rattle.disk_anode.specs.Node.{names, node_in};
ghost use Rattle.disk_anode.specs.Changes.{is_shared as shared_of, own_names, left_names, Moves};
ghost use Rattle.disk_anode.specs.Changes.{AreCounted, AreFew, Owned};
ghost use Rattle.disk_space.specs.Faults.{IsCountFault};

use crate::blocks::{clear, load, share_all};
use crate::node::{BLOCK, INDIRECT, MAPPED, Node, POINTERS};
use base_types::Disk;
use disk_log::{Log, Tx};
use disk_space::{SpaceFault, count_of};

// Whether another pointer names an anode's indirect block, too.
pub fn is_shared<D: Disk>(log: &mut Log<D>, node: &Node) -> Result<bool, SpaceFault>
    requires sound { IsSoundLog D.tells D.view log.old }
    requires blocks { node.now.blocks ≡ (state_of log.old).superblock.blocks }
    ensures sound { IsSoundLog D.tells D.view log.new }
    ensures state { state_of log.new ≡ state_of log.old }
    ensures shared { D.tells
        → IfOk result (λ shared. shared ≡ shared_of (state_of log.old) (D.view (disk_of log.old)).image node.now) }
    ensures quiet { IsQuiet (D.view (disk_of log.old)) (D.view (disk_of log.new)) }
    ensures counted { (D.view (disk_of log.old)).faults ≤ (D.view (disk_of log.new)).faults }
    ensures only { IfErr result (λ fault. IsCountFault fault (D.view (disk_of log.old)) (D.view (disk_of log.new))) }
{
    let pointer = node.pointer(INDIRECT);
    if pointer == 0 || log.blocks() < pointer {
        return Ok(false);
    }
    let count = count_of(log, pointer - 1)?;
    Ok(1 < count)
}

// Leaves an anode's indirect block to the others where it is shared: the blocks that it names have one more pointer
// each, and the anode has its pointers to them without a block.
fn detach<D: Disk>(log: &mut Log<D>, tx: &mut Tx, node: &mut Node) -> Result<(), SpaceFault>
    requires sound { IsSoundLog D.tells D.view log.old }
    requires may { MayPutAll are_counts (state_of log.old) (slot_of tx.old) }
    requires blocks { node.old.blocks ≡ (state_of log.old).superblock.blocks }
    requires named { D.tells → AreCounted (names node.old) (state_of log.old) (D.view (disk_of log.old)).image }
    requires few { D.tells → AreFew (names node.old) (state_of log.old) (D.view (disk_of log.old)).image }
    ensures sound { IsSoundLog D.tells D.view log.new }
    ensures tx { tx.new ≡ tx.old }
    ensures puts { PutsPages are_counts (slot_of tx.old) (state_of log.old) (state_of log.new) }
    ensures owned { OnOk result (Owned node.old node.new) }
    ensures left { D.tells → OnOk result ((block : ℕ)
        → names node.new block ≤ left_names (state_of log.old) (D.view (disk_of log.old)).image node.old block) }
    ensures moves { D.tells
        → OnOk result (Moves (own_names (state_of log.old) (D.view (disk_of log.old)).image node.old) (names node.new)
        (state_of log.old) (D.view (disk_of log.old)).image (state_of log.new) (D.view (disk_of log.new)).image) }
    ensures room { D.tells → OnOk result (free_blocks (state_of log.old) (D.view (disk_of log.old)).image
        ≤ free_blocks (state_of log.new) (D.view (disk_of log.new)).image) }
    ensures quiet { IsQuiet (D.view (disk_of log.old)) (D.view (disk_of log.new)) }
    ensures counted { (D.view (disk_of log.old)).faults ≤ (D.view (disk_of log.new)).faults }
    ensures only { IfErr result (λ fault. IsCountFault fault (D.view (disk_of log.old)) (D.view (disk_of log.new))) }
{
    if !is_shared(log, node)? {
        return Ok(());
    }
    share_all(log, tx, node, MAPPED, POINTERS)?;
    clear(log, tx, node, INDIRECT)
}

// The anode in a page, with all its pointers its own.
pub fn load_own<D: Disk>(log: &mut Log<D>, tx: &mut Tx, page: u32) -> Result<Node, SpaceFault>
    requires sound { IsSoundLog D.tells D.view log.old }
    requires may { MayPutAll are_counts (state_of log.old) (slot_of tx.old) }
    requires page { page < 1058 }
    requires named { D.tells → AreCounted (names (node_in (state_of log.old) (D.view (disk_of log.old)).image page))
        (state_of log.old) (D.view (disk_of log.old)).image }
    requires few { D.tells → AreFew (names (node_in (state_of log.old) (D.view (disk_of log.old)).image page))
        (state_of log.old) (D.view (disk_of log.old)).image }
    ensures sound { IsSoundLog D.tells D.view log.new }
    ensures tx { tx.new ≡ tx.old }
    ensures puts { PutsPages are_counts (slot_of tx.old) (state_of log.old) (state_of log.new) }
    ensures blocks { IfOk result (λ node. node.blocks ≡ (state_of log.old).superblock.blocks) }
    ensures owned { D.tells
        → IfOk result (λ node. Owned (node_in (state_of log.old) (D.view (disk_of log.old)).image page) node) }
    ensures left { D.tells → IfOk result (λ node. (block : ℕ) → names node block ≤ left_names (state_of log.old)
        (D.view (disk_of log.old)).image (node_in (state_of log.old) (D.view (disk_of log.old)).image page) block) }
    ensures moves { D.tells → IfOk result (λ node. Moves (own_names (state_of log.old) (D.view (disk_of log.old)).image
        (node_in (state_of log.old) (D.view (disk_of log.old)).image page)) (names node)
        (state_of log.old) (D.view (disk_of log.old)).image (state_of log.new) (D.view (disk_of log.new)).image) }
    ensures room { D.tells → OnOk result (free_blocks (state_of log.old) (D.view (disk_of log.old)).image
        ≤ free_blocks (state_of log.new) (D.view (disk_of log.new)).image) }
    ensures quiet { IsQuiet (D.view (disk_of log.old)) (D.view (disk_of log.new)) }
    ensures counted { (D.view (disk_of log.old)).faults ≤ (D.view (disk_of log.new)).faults }
    ensures only { IfErr result (λ fault. IsCountFault fault (D.view (disk_of log.old)) (D.view (disk_of log.new))) }
{
    let mut node = load(log, page)?;
    detach(log, tx, &mut node)?;
    Ok(node)
}

// The anode in a page, with those of its pointers alone that are its own.
pub fn load_names<D: Disk>(log: &mut Log<D>, page: u32) -> Result<Node, SpaceFault>
    requires sound { IsSoundLog D.tells D.view log.old }
    requires page { page < 1058 }
    ensures sound { IsSoundLog D.tells D.view log.new }
    ensures state { state_of log.new ≡ state_of log.old }
    ensures blocks { IfOk result (λ node. node.blocks ≡ (state_of log.old).superblock.blocks) }
    ensures page { D.tells
        → IfOk result (λ node. node.page ≡ (node_in (state_of log.old) (D.view (disk_of log.old)).image page).page) }
    ensures names { D.tells → IfOk result (λ node. (block : ℕ) → names node block ≡ own_names (state_of log.old)
        (D.view (disk_of log.old)).image (node_in (state_of log.old) (D.view (disk_of log.old)).image page) block) }
    ensures quiet { IsQuiet (D.view (disk_of log.old)) (D.view (disk_of log.new)) }
    ensures counted { (D.view (disk_of log.old)).faults ≤ (D.view (disk_of log.new)).faults }
    ensures only { IfErr result (λ fault. IsCountFault fault (D.view (disk_of log.old)) (D.view (disk_of log.new))) }
{
    let mut node = load(log, page)?;
    if is_shared(log, &node)? {
        node.map = [0; BLOCK];
    }
    Ok(node)
}
