// Anodes made and freed.
ghost use Rattle.std.specs.Prelude.{◌≡◌, ◌<◌, ◌≤◌, ◌⊎◌, ◌+◌, ℕ, IfErr, OnOk, length};
ghost use Rattle.base_types.specs.Image.{byte_at};
ghost use Rattle.disk_log.specs.Log.{disk_of, state_of, slot_of, IsSoundLog};
ghost use Rattle.disk_anode.specs.Room.{are_counts, with_counts, free_blocks, MayPutAll, PutsPages};
ghost use Rattle.disk_anode.specs.Node.{names, node_in, SameFacts, HasNoBlocks};
ghost use Rattle.disk_anode.specs.Anode.{freed, text_at, IsPage, IsBare};
ghost use Rattle.disk_anode.specs.Changes.{WroteLoose, Moves, AreCounted, Turned};
ghost use Rattle.disk_space.specs.Faults.{IsCountFault};

use crate::blocks::clear;
use crate::node::{GROUP_AT, Node, OWNER_AT, POINTERS, UNIQUE_AT};
use base_types::Disk;
use disk_layout::{PAGE, put_bytes, put_u32, u32_at};
use disk_log::{Log, Tx};
use disk_space::SpaceFault;

// Writes a text of at most 60 bytes behind its length.
fn put_text(page: &mut [u8; PAGE], at: usize, text: &[u8])
    requires at { at + 61 ≤ 512 }
    requires short { length text.now ≤ 60 }
    ensures size { byte_at page.new at ≡ length text.now }
    ensures text { text_at page.new at ≡ text.now }
    ensures rest { (k : ℕ) → (k < at) ⊎ (at + 1 + length text.now ≤ k) → byte_at page.new k ≡ byte_at page.old k }
{
    page[at] = text.len() as u8;
    put_bytes(page, at + 1, text);
}

// The page of an anode of length 0, without blocks.
pub fn anode_page(kind: u8, unique: u32, owner: &[u8], group: &[u8]) -> [u8; PAGE]
    requires owner { length owner.now ≤ 60 }
    requires group { length group.now ≤ 60 }
    ensures { IsPage kind unique owner.now group.now result }
{
    let mut page = [0; PAGE];
    page[0] = kind;
    put_u32(&mut page, UNIQUE_AT, unique);
    put_text(&mut page, OWNER_AT, owner);
    put_text(&mut page, GROUP_AT, group);
    page
}

// Gives up all blocks that an anode names.
fn clear_all<D: Disk>(log: &mut Log<D>, tx: &mut Tx, node: &mut Node) -> Result<(), SpaceFault>
    requires sound { IsSoundLog D.tells D.view log.old }
    requires may { MayPutAll are_counts (state_of log.old) (slot_of tx.old) }
    requires blocks { node.old.blocks ≡ (state_of log.old).superblock.blocks }
    requires named { D.tells → AreCounted (names node.old) (state_of log.old) (D.view (disk_of log.old)).image }
    ensures sound { IsSoundLog D.tells D.view log.new }
    ensures tx { tx.new ≡ tx.old }
    ensures puts { PutsPages are_counts (slot_of tx.old) (state_of log.old) (state_of log.new) }
    ensures facts { SameFacts node.old node.new }
    ensures none { OnOk result (HasNoBlocks node.new) }
    ensures moves { D.tells → OnOk result (Moves (names node.old) (names node.new)
        (state_of log.old) (D.view (disk_of log.old)).image (state_of log.new) (D.view (disk_of log.new)).image) }
    ensures room { D.tells → OnOk result (free_blocks (state_of log.old) (D.view (disk_of log.old)).image
        ≤ free_blocks (state_of log.new) (D.view (disk_of log.new)).image) }
    ensures wrote { D.tells
        → WroteLoose (names node.old) (state_of log.old) (D.view (disk_of log.old)) (D.view (disk_of log.new)) }
    ensures counted { (D.view (disk_of log.old)).faults ≤ (D.view (disk_of log.new)).faults }
    ensures only { IfErr result (λ fault. IsCountFault fault (D.view (disk_of log.old)) (D.view (disk_of log.new))) }
{
    for w in 0..POINTERS {
        clear(log, tx, node, w)?;
    }
    Ok(())
}

// Gives up all blocks that an anode names, and frees it.
pub fn free_node<D: Disk>(
    log: &mut Log<D>,
    tx: &mut Tx,
    page: u32,
    node: &mut Node,
) -> Result<(), SpaceFault>
    requires sound { IsSoundLog D.tells D.view log.old }
    requires may { MayPutAll (with_counts page) (state_of log.old) (slot_of tx.old) }
    requires page { page < 1058 }
    requires blocks { node.old.blocks ≡ (state_of log.old).superblock.blocks }
    requires named { D.tells → AreCounted (names node.old) (state_of log.old) (D.view (disk_of log.old)).image }
    ensures sound { IsSoundLog D.tells D.view log.new }
    ensures tx { tx.new ≡ tx.old }
    ensures puts { PutsPages (with_counts page) (slot_of tx.old) (state_of log.old) (state_of log.new) }
    ensures turned { D.tells → OnOk result (Turned page freed node.old
        (state_of log.old) (D.view (disk_of log.old)).image (state_of log.new) (D.view (disk_of log.new)).image) }
    ensures bare { D.tells → OnOk result
        (IsBare (D.view (disk_of log.new)).image (node_in (state_of log.new) (D.view (disk_of log.new)).image page)) }
    ensures room { D.tells → OnOk result (free_blocks (state_of log.old) (D.view (disk_of log.old)).image
        ≤ free_blocks (state_of log.new) (D.view (disk_of log.new)).image) }
    ensures wrote { D.tells
        → WroteLoose (names node.old) (state_of log.old) (D.view (disk_of log.old)) (D.view (disk_of log.new)) }
    ensures counted { (D.view (disk_of log.old)).faults ≤ (D.view (disk_of log.new)).faults }
    ensures only { IfErr result (λ fault. IsCountFault fault (D.view (disk_of log.old)) (D.view (disk_of log.new))) }
{
    clear_all(log, tx, node)?;
    let unique = u32_at(&node.page, UNIQUE_AT);
    log.put(tx, page, &anode_page(0, unique, &[], &[]))?;
    Ok(())
}
