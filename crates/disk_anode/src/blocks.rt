// The blocks that an anode's pointers name.
ghost use Rattle.std.specs.Prelude.{◌≡◌, ◌<◌, ◌≤◌, ◌+◌, ◌-◌, ◌*◌, ◌/◌, ◌==◌, ℕ, IsTrue, IfOk, IfErr, OnOk, length};
ghost use Rattle.std.proofs.Common.{get_or};
ghost use Rattle.base_types.specs.Crash.{IsQuiet};
ghost use Rattle.disk_log.specs.Log.{disk_of, state_of, slot_of, IsSoundLog};
ghost use Rattle.disk_space.specs.Counts.{count_now};
ghost use Rattle.disk_anode.specs.Room.{one, are_counts, free_blocks, MayPutAll, PutsPages};
ghost use Rattle.disk_anode.specs.Node.{pointer_of, is_pointer, map_under, names, names_below, no_names};
ghost use Rattle.disk_anode.specs.Node.{node_in, SameFacts, PointsTo};
ghost use Rattle.disk_anode.specs.Anode.{bytes_of, content_at};
ghost use Rattle.disk_anode.specs.Changes.{WroteLoose, Moves, AreCounted, AreFew, IsTaken, Replaced};
ghost use Rattle.disk_space.specs.Faults.{IsCountFault, IsTakeFault};

use crate::node::{BLOCK, INDIRECT_AT, Node, pointer_at};
use crate::parts::{clear_from, copy_part};
use base_types::Disk;
use disk_layout::{PAGE, u32_at};
use disk_log::{Log, Tx};
use disk_space::{SpaceFault, give, share, take};

// Fills a block's bytes with those of the block that a pointer names, zero where it names none.
pub fn read_under<D: Disk>(
    log: &mut Log<D>,
    pointer: u32,
    bytes: &mut [u8; BLOCK],
) -> Result<(), SpaceFault>
    requires sound { IsSoundLog D.tells D.view log.old }
    ensures sound { IsSoundLog D.tells D.view log.new }
    ensures state { state_of log.new ≡ state_of log.old }
    ensures bytes { D.tells → OnOk result
        (bytes.new ≡ map_under (state_of log.old).superblock.blocks (D.view (disk_of log.old)).image pointer) }
    ensures quiet { IsQuiet (D.view (disk_of log.old)) (D.view (disk_of log.new)) }
    ensures counted { (D.view (disk_of log.old)).faults ≤ (D.view (disk_of log.new)).faults }
    ensures only { IfErr result (λ fault. IsCountFault fault (D.view (disk_of log.old)) (D.view (disk_of log.new))) }
{
    if pointer == 0 || log.blocks() < pointer {
        *bytes = [0; BLOCK];
        return Ok(());
    }
    log.read_block(pointer - 1, bytes)?;
    Ok(())
}

// The anode in a page.
pub fn load<D: Disk>(log: &mut Log<D>, page: u32) -> Result<Node, SpaceFault>
    requires sound { IsSoundLog D.tells D.view log.old }
    requires page { page < 1058 }
    ensures sound { IsSoundLog D.tells D.view log.new }
    ensures state { state_of log.new ≡ state_of log.old }
    ensures blocks { IfOk result (λ node. node.blocks ≡ (state_of log.old).superblock.blocks) }
    ensures node { D.tells
        → IfOk result (λ node. node ≡ node_in (state_of log.old) (D.view (disk_of log.old)).image page) }
    ensures quiet { IsQuiet (D.view (disk_of log.old)) (D.view (disk_of log.new)) }
    ensures counted { (D.view (disk_of log.old)).faults ≤ (D.view (disk_of log.new)).faults }
    ensures only { IfErr result (λ fault. IsCountFault fault (D.view (disk_of log.old)) (D.view (disk_of log.new))) }
{
    let mut bytes = [0; PAGE];
    log.page(page, &mut bytes)?;
    let mut map = [0; BLOCK];
    read_under(log, u32_at(&bytes, INDIRECT_AT), &mut map)?;
    Ok(Node {
        blocks: log.blocks(),
        page: bytes,
        map,
    })
}

// Writes bytes to a free block.
fn fresh<D: Disk>(log: &mut Log<D>, tx: &mut Tx, bytes: &[u8; BLOCK]) -> Result<u32, SpaceFault>
    requires sound { IsSoundLog D.tells D.view log.old }
    requires may { MayPutAll are_counts (state_of log.old) (slot_of tx.old) }
    requires room { D.tells → 1 ≤ free_blocks (state_of log.old) (D.view (disk_of log.old)).image }
    ensures sound { IsSoundLog D.tells D.view log.new }
    ensures tx { tx.new ≡ tx.old }
    ensures puts { PutsPages are_counts (slot_of tx.old) (state_of log.old) (state_of log.new) }
    ensures within { IfOk result (λ block. block < (state_of log.old).superblock.blocks) }
    ensures taken { D.tells → IfOk result (λ block. IsTaken block bytes.now
        (state_of log.old) (D.view (disk_of log.old)).image (state_of log.new) (D.view (disk_of log.new)).image) }
    ensures room { D.tells → OnOk result (free_blocks (state_of log.old) (D.view (disk_of log.old)).image
        ≤ free_blocks (state_of log.new) (D.view (disk_of log.new)).image + 1) }
    ensures wrote { D.tells → (named : ℕ → ℕ)
        → WroteLoose named (state_of log.old) (D.view (disk_of log.old)) (D.view (disk_of log.new)) }
    ensures counted { (D.view (disk_of log.old)).faults ≤ (D.view (disk_of log.new)).faults }
    ensures only { IfErr result
        (λ fault. IsTakeFault (D.tells → ⊥) fault (D.view (disk_of log.old)) (D.view (disk_of log.new))) }
{
    let block = take(log, tx)?;
    log.write_block(block, bytes)?;
    Ok(block)
}

// Gives up the block that a pointer names.
fn give_up<D: Disk>(log: &mut Log<D>, tx: &mut Tx, pointer: u32) -> Result<(), SpaceFault>
    requires sound { IsSoundLog D.tells D.view log.old }
    requires may { MayPutAll are_counts (state_of log.old) (slot_of tx.old) }
    requires named { D.tells → IsTrue (is_pointer (state_of log.old).superblock.blocks pointer)
        → 1 ≤ count_now (state_of log.old) (D.view (disk_of log.old)).image (pointer - 1) }
    ensures sound { IsSoundLog D.tells D.view log.new }
    ensures tx { tx.new ≡ tx.old }
    ensures puts { PutsPages are_counts (slot_of tx.old) (state_of log.old) (state_of log.new) }
    ensures moves { D.tells → OnOk result (Moves (λ block. one (pointer == block + 1)) no_names
        (state_of log.old) (D.view (disk_of log.old)).image (state_of log.new) (D.view (disk_of log.new)).image) }
    ensures room { D.tells → OnOk result (free_blocks (state_of log.old) (D.view (disk_of log.old)).image
        ≤ free_blocks (state_of log.new) (D.view (disk_of log.new)).image) }
    ensures quiet { IsQuiet (D.view (disk_of log.old)) (D.view (disk_of log.new)) }
    ensures counted { (D.view (disk_of log.old)).faults ≤ (D.view (disk_of log.new)).faults }
    ensures only { IfErr result (λ fault. IsCountFault fault (D.view (disk_of log.old)) (D.view (disk_of log.new))) }
{
    if pointer == 0 || log.blocks() < pointer {
        return Ok(());
    }
    give(log, tx, pointer - 1)?;
    Ok(())
}

// One more pointer names the block that a pointer names.
fn share_under<D: Disk>(log: &mut Log<D>, tx: &mut Tx, pointer: u32) -> Result<(), SpaceFault>
    requires sound { IsSoundLog D.tells D.view log.old }
    requires may { MayPutAll are_counts (state_of log.old) (slot_of tx.old) }
    requires named { D.tells → IsTrue (is_pointer (state_of log.old).superblock.blocks pointer)
        → 1 ≤ count_now (state_of log.old) (D.view (disk_of log.old)).image (pointer - 1) }
    requires few { D.tells → IsTrue (is_pointer (state_of log.old).superblock.blocks pointer)
        → count_now (state_of log.old) (D.view (disk_of log.old)).image (pointer - 1) < 65535 }
    ensures sound { IsSoundLog D.tells D.view log.new }
    ensures tx { tx.new ≡ tx.old }
    ensures puts { PutsPages are_counts (slot_of tx.old) (state_of log.old) (state_of log.new) }
    ensures moves { D.tells → OnOk result (Moves no_names (λ block. one (pointer == block + 1))
        (state_of log.old) (D.view (disk_of log.old)).image (state_of log.new) (D.view (disk_of log.new)).image) }
    ensures quiet { IsQuiet (D.view (disk_of log.old)) (D.view (disk_of log.new)) }
    ensures counted { (D.view (disk_of log.old)).faults ≤ (D.view (disk_of log.new)).faults }
    ensures only { IfErr result (λ fault. IsCountFault fault (D.view (disk_of log.old)) (D.view (disk_of log.new))) }
{
    if pointer == 0 || log.blocks() < pointer {
        return Ok(());
    }
    share(log, tx, pointer - 1)?;
    Ok(())
}

// One more pointer names each of the blocks that pointers from one on up to another name.
pub fn share_all<D: Disk>(
    log: &mut Log<D>,
    tx: &mut Tx,
    node: &Node,
    from: u32,
    to: u32,
) -> Result<(), SpaceFault>
    requires sound { IsSoundLog D.tells D.view log.old }
    requires may { MayPutAll are_counts (state_of log.old) (slot_of tx.old) }
    requires blocks { node.now.blocks ≡ (state_of log.old).superblock.blocks }
    requires from { from ≤ to }
    requires to { to ≤ 68 }
    requires named { D.tells → AreCounted (names node.now) (state_of log.old) (D.view (disk_of log.old)).image }
    requires few { D.tells → AreFew (names node.now) (state_of log.old) (D.view (disk_of log.old)).image }
    ensures sound { IsSoundLog D.tells D.view log.new }
    ensures tx { tx.new ≡ tx.old }
    ensures puts { PutsPages are_counts (slot_of tx.old) (state_of log.old) (state_of log.new) }
    ensures moves { D.tells → OnOk result (Moves (names_below from node.now) (names_below to node.now)
        (state_of log.old) (D.view (disk_of log.old)).image (state_of log.new) (D.view (disk_of log.new)).image) }
    ensures room { D.tells → OnOk result (free_blocks (state_of log.old) (D.view (disk_of log.old)).image
        ≤ free_blocks (state_of log.new) (D.view (disk_of log.new)).image) }
    ensures quiet { IsQuiet (D.view (disk_of log.old)) (D.view (disk_of log.new)) }
    ensures counted { (D.view (disk_of log.old)).faults ≤ (D.view (disk_of log.new)).faults }
    ensures only { IfErr result (λ fault. IsCountFault fault (D.view (disk_of log.old)) (D.view (disk_of log.new))) }
{
    for w in from..to {
        share_under(log, tx, node.pointer(w))?;
    }
    Ok(())
}

// Gives up the block that pointer w names, which names none then.
pub fn clear<D: Disk>(
    log: &mut Log<D>,
    tx: &mut Tx,
    node: &mut Node,
    w: u32,
) -> Result<(), SpaceFault>
    requires sound { IsSoundLog D.tells D.view log.old }
    requires may { MayPutAll are_counts (state_of log.old) (slot_of tx.old) }
    requires pointer { w < 68 }
    requires blocks { node.old.blocks ≡ (state_of log.old).superblock.blocks }
    requires named { D.tells → AreCounted (names node.old) (state_of log.old) (D.view (disk_of log.old)).image }
    ensures sound { IsSoundLog D.tells D.view log.new }
    ensures tx { tx.new ≡ tx.old }
    ensures puts { PutsPages are_counts (slot_of tx.old) (state_of log.old) (state_of log.new) }
    ensures facts { SameFacts node.old node.new }
    ensures replaced { D.tells → OnOk result (Replaced w no_names node.old (state_of log.old)
        (D.view (disk_of log.old)).image node.new (state_of log.new) (D.view (disk_of log.new)).image) }
    ensures room { D.tells → OnOk result (free_blocks (state_of log.old) (D.view (disk_of log.old)).image
        ≤ free_blocks (state_of log.new) (D.view (disk_of log.new)).image) }
    ensures wrote { D.tells
        → WroteLoose (names node.old) (state_of log.old) (D.view (disk_of log.old)) (D.view (disk_of log.new)) }
    ensures quiet { IsQuiet (D.view (disk_of log.old)) (D.view (disk_of log.new)) }
    ensures map { w < 16 → node.new.map ≡ node.old.map }
    ensures points { OnOk result (PointsTo w 0 node.old node.new) }
    ensures others { (v : ℕ) → v < 68 → (v ≡ w → ⊥) → pointer_of node.new v ≡ pointer_of node.old v }
    ensures counted { (D.view (disk_of log.old)).faults ≤ (D.view (disk_of log.new)).faults }
    ensures only { IfErr result (λ fault. IsCountFault fault (D.view (disk_of log.old)) (D.view (disk_of log.new))) }
{
    give_up(log, tx, node.pointer(w))?;
    node.set_pointer(w, 0);
    Ok(())
}

// Writes bytes to a free block, which pointer w names then, and gives up the one that it named.
pub fn replace<D: Disk>(
    log: &mut Log<D>,
    tx: &mut Tx,
    node: &mut Node,
    w: u32,
    bytes: &[u8; BLOCK],
) -> Result<(), SpaceFault>
    requires sound { IsSoundLog D.tells D.view log.old }
    requires may { MayPutAll are_counts (state_of log.old) (slot_of tx.old) }
    requires pointer { w < 68 }
    requires blocks { node.old.blocks ≡ (state_of log.old).superblock.blocks }
    requires named { D.tells → AreCounted (names node.old) (state_of log.old) (D.view (disk_of log.old)).image }
    requires room { D.tells → 1 ≤ free_blocks (state_of log.old) (D.view (disk_of log.old)).image }
    ensures sound { IsSoundLog D.tells D.view log.new }
    ensures tx { tx.new ≡ tx.old }
    ensures puts { PutsPages are_counts (slot_of tx.old) (state_of log.old) (state_of log.new) }
    ensures facts { SameFacts node.old node.new }
    ensures replaced { D.tells → OnOk result (Replaced w (λ k. get_or bytes.now k 0) node.old (state_of log.old)
        (D.view (disk_of log.old)).image node.new (state_of log.new) (D.view (disk_of log.new)).image) }
    ensures room { D.tells → OnOk result (free_blocks (state_of log.old) (D.view (disk_of log.old)).image
        ≤ free_blocks (state_of log.new) (D.view (disk_of log.new)).image + 1) }
    ensures wrote { D.tells
        → WroteLoose (names node.old) (state_of log.old) (D.view (disk_of log.old)) (D.view (disk_of log.new)) }
    ensures map { w < 16 → node.new.map ≡ node.old.map }
    ensures others { (v : ℕ) → v < 68 → (v ≡ w → ⊥) → pointer_of node.new v ≡ pointer_of node.old v }
    ensures fresh { D.tells
        → OnOk result (count_now (state_of log.new) (D.view (disk_of log.new)).image (pointer_of node.new w - 1) ≡ 1) }
    ensures counted { (D.view (disk_of log.old)).faults ≤ (D.view (disk_of log.new)).faults }
    ensures only { IfErr result
        (λ fault. IsTakeFault (D.tells → ⊥) fault (D.view (disk_of log.old)) (D.view (disk_of log.new))) }
{
    let block = fresh(log, tx, bytes)?;
    give_up(log, tx, node.pointer(w))?;
    node.set_pointer(w, block + 1);
    Ok(())
}

// Fills a block's bytes with those of block i of an anode's bytes, zero from n on.
pub fn read_part<D: Disk>(
    log: &mut Log<D>,
    node: &Node,
    i: u32,
    n: u32,
    bytes: &mut [u8; BLOCK],
) -> Result<(), SpaceFault>
    requires sound { IsSoundLog D.tells D.view log.old }
    requires i { i < 64 }
    requires blocks { node.now.blocks ≡ (state_of log.old).superblock.blocks }
    ensures sound { IsSoundLog D.tells D.view log.new }
    ensures state { state_of log.new ≡ state_of log.old }
    ensures bytes { D.tells → OnOk result ((k : ℕ) → k < 1024 →
        get_or bytes.new k 0 ≡ content_at (D.view (disk_of log.old)).image node.now n (1024 * i + k)) }
    ensures quiet { IsQuiet (D.view (disk_of log.old)) (D.view (disk_of log.new)) }
    ensures counted { (D.view (disk_of log.old)).faults ≤ (D.view (disk_of log.new)).faults }
    ensures only { IfErr result (λ fault. IsCountFault fault (D.view (disk_of log.old)) (D.view (disk_of log.new))) }
{
    read_under(log, node.pointer(pointer_at(i)), bytes)?;
    clear_from(bytes, n.saturating_sub(1_024 * i));
    Ok(())
}

// Fills `out` with an anode's bytes from `from` on, zero past the length.
pub fn read_span<D: Disk>(
    log: &mut Log<D>,
    node: &Node,
    from: u32,
    out: &mut [u8],
) -> Result<(), SpaceFault>
    requires sound { IsSoundLog D.tells D.view log.old }
    requires blocks { node.now.blocks ≡ (state_of log.old).superblock.blocks }
    requires within { from + length out.old ≤ 65536 }
    ensures sound { IsSoundLog D.tells D.view log.new }
    ensures state { state_of log.new ≡ state_of log.old }
    ensures bytes { D.tells → OnOk result ((k : ℕ) → k < length out.new →
        get_or out.new k 0 ≡ content_at (D.view (disk_of log.old)).image node.now (bytes_of node.now) (from + k)) }
    ensures quiet { IsQuiet (D.view (disk_of log.old)) (D.view (disk_of log.new)) }
    ensures counted { (D.view (disk_of log.old)).faults ≤ (D.view (disk_of log.new)).faults }
    ensures only { IfErr result (λ fault. IsCountFault fault (D.view (disk_of log.old)) (D.view (disk_of log.new))) }
{
    let end = from + out.len() as u32;
    for i in from / 1_024..end.div_ceil(1_024) {
        let mut bytes = [0; BLOCK];
        read_part(log, node, i, node.bytes(), &mut bytes)?;
        copy_part(out, from, &bytes, 1_024 * i);
    }
    Ok(())
}
