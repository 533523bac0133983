// Writes to an anode's bytes.
ghost use Rattle.std.specs.Prelude.{◌/◌, ◌≡◌, ◌<◌, ◌≤◌, ◌⊎◌, ◌+◌, ◌-◌, ◌*◌, ℕ, IfErr, OnOk, length};
ghost use Rattle.std.proofs.Common.{get_or};
ghost use Rattle.disk_log.specs.Log.{disk_of, state_of, slot_of, IsSoundLog};
ghost use Rattle.disk_anode.specs.Room.{are_counts, with_counts, free_blocks, blocks_written, MayPutAll, PutsPages};
ghost use Rattle.disk_anode.specs.Node.{pointer_of, pointer_at as pointer_for, names, SameFacts};
ghost use Rattle.disk_anode.specs.Anode.{content_at, over, written, ended, with_length, with_list};
ghost use Rattle.disk_anode.specs.Changes.{WroteLoose, AreCounted, Replaced, Laid, Saved, Turned};
ghost use Rattle.disk_space.specs.Counts.{count_now};
ghost use Rattle.disk_space.specs.Faults.{IsTakeFault};

use crate::blocks::{clear, read_part, replace};
use crate::node::{BLOCK, BYTES_MAX, INDIRECT, Node, pointer_at};
use crate::parts::{is_zero, lay_over};
use base_types::Disk;
use disk_log::{Log, Tx};
use disk_space::SpaceFault;

// Writes block i of an anode's bytes anew: those before `kept`, under a piece that stands from `from` on.
fn write_part<D: Disk>(
    log: &mut Log<D>,
    tx: &mut Tx,
    node: &mut Node,
    i: u32,
    kept: u32,
    from: u32,
    piece: &[u8],
) -> Result<(), SpaceFault>
    requires sound { IsSoundLog D.tells D.view log.old }
    requires may { MayPutAll are_counts (state_of log.old) (slot_of tx.old) }
    requires i { i < 64 }
    requires within { from + length piece.now ≤ 65536 }
    requires blocks { node.old.blocks ≡ (state_of log.old).superblock.blocks }
    requires named { D.tells → AreCounted (names node.old) (state_of log.old) (D.view (disk_of log.old)).image }
    requires room { D.tells → 1 ≤ free_blocks (state_of log.old) (D.view (disk_of log.old)).image }
    ensures sound { IsSoundLog D.tells D.view log.new }
    ensures tx { tx.new ≡ tx.old }
    ensures puts { PutsPages are_counts (slot_of tx.old) (state_of log.old) (state_of log.new) }
    ensures facts { SameFacts node.old node.new }
    ensures replaced { D.tells → OnOk result (Replaced (pointer_for i) (λ k. over from piece.now
        (λ m. content_at (D.view (disk_of log.old)).image node.old kept m) (1024 * i + k)) node.old (state_of log.old)
        (D.view (disk_of log.old)).image node.new (state_of log.new) (D.view (disk_of log.new)).image) }
    ensures room { D.tells → OnOk result (free_blocks (state_of log.old) (D.view (disk_of log.old)).image
        ≤ free_blocks (state_of log.new) (D.view (disk_of log.new)).image + 1) }
    ensures wrote { D.tells
        → WroteLoose (names node.old) (state_of log.old) (D.view (disk_of log.old)) (D.view (disk_of log.new)) }
    ensures others { (v : ℕ) → v < 68 → (v ≡ pointer_for i → ⊥) → pointer_of node.new v ≡ pointer_of node.old v }
    ensures counted { (D.view (disk_of log.old)).faults ≤ (D.view (disk_of log.new)).faults }
    ensures only { IfErr result
        (λ fault. IsTakeFault (D.tells → ⊥) fault (D.view (disk_of log.old)) (D.view (disk_of log.new))) }
{
    let mut bytes = [0; BLOCK];
    read_part(log, node, i, kept, &mut bytes)?;
    lay_over(&mut bytes, 1_024 * i, from, piece);
    replace(log, tx, node, pointer_at(i), &bytes)
}

// Lays a piece over block i of an anode's bytes, of which those before `kept` stay. A block without any is given up.
fn lay_block<D: Disk>(
    log: &mut Log<D>,
    tx: &mut Tx,
    node: &mut Node,
    i: u32,
    kept: u32,
    from: u32,
    piece: &[u8],
) -> Result<(), SpaceFault>
    requires sound { IsSoundLog D.tells D.view log.old }
    requires may { MayPutAll are_counts (state_of log.old) (slot_of tx.old) }
    requires i { i < 64 }
    requires within { from + length piece.now ≤ 65536 }
    requires blocks { node.old.blocks ≡ (state_of log.old).superblock.blocks }
    requires named { D.tells → AreCounted (names node.old) (state_of log.old) (D.view (disk_of log.old)).image }
    requires room { D.tells → 1 ≤ free_blocks (state_of log.old) (D.view (disk_of log.old)).image }
    ensures sound { IsSoundLog D.tells D.view log.new }
    ensures tx { tx.new ≡ tx.old }
    ensures puts { PutsPages are_counts (slot_of tx.old) (state_of log.old) (state_of log.new) }
    ensures facts { SameFacts node.old node.new }
    ensures replaced { D.tells → OnOk result (Replaced (pointer_for i) (λ k. over from piece.now
        (λ m. content_at (D.view (disk_of log.old)).image node.old kept m) (1024 * i + k)) node.old (state_of log.old)
        (D.view (disk_of log.old)).image node.new (state_of log.new) (D.view (disk_of log.new)).image) }
    ensures room { D.tells → OnOk result (free_blocks (state_of log.old) (D.view (disk_of log.old)).image
        + blocks_written kept from (length piece.now) i ≤ free_blocks
        (state_of log.new) (D.view (disk_of log.new)).image + blocks_written kept from (length piece.now) (i + 1)) }
    ensures wrote { D.tells
        → WroteLoose (names node.old) (state_of log.old) (D.view (disk_of log.old)) (D.view (disk_of log.new)) }
    ensures others { (v : ℕ) → v < 68 → (v ≡ pointer_for i → ⊥) → pointer_of node.new v ≡ pointer_of node.old v }
    ensures past { kept ≤ 1024 * i
        → from + length piece.now ≤ 1024 * i → OnOk result (pointer_of node.new (pointer_for i) ≡ 0) }
    ensures same { 1024 * i + 1024 ≤ kept → from + length piece.now ≤ 1024 * i
        → pointer_of node.new (pointer_for i) ≡ pointer_of node.old (pointer_for i) }
    ensures counted { (D.view (disk_of log.old)).faults ≤ (D.view (disk_of log.new)).faults }
    ensures only { IfErr result
        (λ fault. IsTakeFault (D.tells → ⊥) fault (D.view (disk_of log.old)) (D.view (disk_of log.new))) }
{
    let at = 1_024 * i;
    let end = at + BLOCK as u32;
    let is_written = from.max(at) < end.min(from + piece.len() as u32);
    if is_written || at < kept && kept < end {
        write_part(log, tx, node, i, kept, from, piece)
    } else if kept <= at {
        clear(log, tx, node, pointer_at(i))
    } else {
        Ok(())
    }
}

// Lays a piece over an anode's bytes, of which those before `kept` stay.
pub fn lay<D: Disk>(
    log: &mut Log<D>,
    tx: &mut Tx,
    node: &mut Node,
    kept: u32,
    from: u32,
    piece: &[u8],
) -> Result<(), SpaceFault>
    requires sound { IsSoundLog D.tells D.view log.old }
    requires may { MayPutAll are_counts (state_of log.old) (slot_of tx.old) }
    requires within { from + length piece.now ≤ 65536 }
    requires blocks { node.old.blocks ≡ (state_of log.old).superblock.blocks }
    requires named { D.tells → AreCounted (names node.old) (state_of log.old) (D.view (disk_of log.old)).image }
    requires room { D.tells → blocks_written kept from (length piece.now) 64 + 1
        ≤ free_blocks (state_of log.old) (D.view (disk_of log.old)).image }
    ensures sound { IsSoundLog D.tells D.view log.new }
    ensures tx { tx.new ≡ tx.old }
    ensures puts { PutsPages are_counts (slot_of tx.old) (state_of log.old) (state_of log.new) }
    ensures facts { SameFacts node.old node.new }
    ensures laid { D.tells → OnOk result (Laid kept from piece.now node.old (state_of log.old)
        (D.view (disk_of log.old)).image node.new (state_of log.new) (D.view (disk_of log.new)).image) }
    ensures room { D.tells → OnOk result (free_blocks (state_of log.old) (D.view (disk_of log.old)).image ≤ free_blocks
        (state_of log.new) (D.view (disk_of log.new)).image + blocks_written kept from (length piece.now) 64) }
    ensures wrote { D.tells
        → WroteLoose (names node.old) (state_of log.old) (D.view (disk_of log.old)) (D.view (disk_of log.new)) }
    ensures counted { (D.view (disk_of log.old)).faults ≤ (D.view (disk_of log.new)).faults }
    ensures only { IfErr result
        (λ fault. IsTakeFault (D.tells → ⊥) fault (D.view (disk_of log.old)) (D.view (disk_of log.new))) }
{
    for i in 0..64 {
        lay_block(log, tx, node, i, kept, from, piece)?;
    }
    Ok(())
}

// Writes the block of a pointer of an anode's page anew. It has none where it is zero.
fn write_under<D: Disk>(
    log: &mut Log<D>,
    tx: &mut Tx,
    node: &mut Node,
    w: u32,
    bytes: &[u8; BLOCK],
) -> Result<(), SpaceFault>
    requires sound { IsSoundLog D.tells D.view log.old }
    requires may { MayPutAll are_counts (state_of log.old) (slot_of tx.old) }
    requires pointer { w < 16 }
    requires blocks { node.old.blocks ≡ (state_of log.old).superblock.blocks }
    requires named { D.tells → AreCounted (names node.old) (state_of log.old) (D.view (disk_of log.old)).image }
    requires room { D.tells → 1 ≤ free_blocks (state_of log.old) (D.view (disk_of log.old)).image }
    ensures sound { IsSoundLog D.tells D.view log.new }
    ensures tx { tx.new ≡ tx.old }
    ensures puts { PutsPages are_counts (slot_of tx.old) (state_of log.old) (state_of log.new) }
    ensures facts { SameFacts node.old node.new }
    ensures replaced { D.tells → OnOk result (Replaced w (λ k. get_or bytes.now k 0) node.old (state_of log.old)
        (D.view (disk_of log.old)).image node.new (state_of log.new) (D.view (disk_of log.new)).image) }
    ensures none { ((k : ℕ) → k < 1024 → get_or bytes.now k 0 ≡ 0) → OnOk result (pointer_of node.new w ≡ 0) }
    ensures fresh { D.tells → OnOk result ((pointer_of node.new w ≡ 0)
        ⊎ (count_now (state_of log.new) (D.view (disk_of log.new)).image (pointer_of node.new w - 1) ≡ 1)) }
    ensures room { D.tells → OnOk result (free_blocks (state_of log.old) (D.view (disk_of log.old)).image
        ≤ free_blocks (state_of log.new) (D.view (disk_of log.new)).image + 1) }
    ensures wrote { D.tells
        → WroteLoose (names node.old) (state_of log.old) (D.view (disk_of log.old)) (D.view (disk_of log.new)) }
    ensures others { (v : ℕ) → v < 68 → (v ≡ w → ⊥) → pointer_of node.new v ≡ pointer_of node.old v }
    ensures map { node.new.map ≡ node.old.map }
    ensures counted { (D.view (disk_of log.old)).faults ≤ (D.view (disk_of log.new)).faults }
    ensures only { IfErr result
        (λ fault. IsTakeFault (D.tells → ⊥) fault (D.view (disk_of log.old)) (D.view (disk_of log.new))) }
{
    if is_zero(bytes) {
        clear(log, tx, node, w)
    } else {
        replace(log, tx, node, w, bytes)
    }
}

// Puts an anode in its page.
pub fn save<D: Disk>(
    log: &mut Log<D>,
    tx: &mut Tx,
    page: u32,
    node: &mut Node,
) -> Result<(), SpaceFault>
    requires sound { IsSoundLog D.tells D.view log.old }
    requires may { MayPutAll (with_counts page) (state_of log.old) (slot_of tx.old) }
    requires page { page < 1058 }
    requires blocks { node.old.blocks ≡ (state_of log.old).superblock.blocks }
    requires named { D.tells → AreCounted (names node.old) (state_of log.old) (D.view (disk_of log.old)).image }
    requires room { D.tells → 1 ≤ free_blocks (state_of log.old) (D.view (disk_of log.old)).image }
    ensures sound { IsSoundLog D.tells D.view log.new }
    ensures tx { tx.new ≡ tx.old }
    ensures puts { PutsPages (with_counts page) (slot_of tx.old) (state_of log.old) (state_of log.new) }
    ensures facts { SameFacts node.old node.new }
    ensures saved { D.tells → OnOk result (Saved page node.old (state_of log.old)
        (D.view (disk_of log.old)).image node.new (state_of log.new) (D.view (disk_of log.new)).image) }
    ensures room { D.tells → OnOk result (free_blocks (state_of log.old) (D.view (disk_of log.old)).image
        ≤ free_blocks (state_of log.new) (D.view (disk_of log.new)).image + 1) }
    ensures wrote { D.tells
        → WroteLoose (names node.old) (state_of log.old) (D.view (disk_of log.old)) (D.view (disk_of log.new)) }
    ensures counted { (D.view (disk_of log.old)).faults ≤ (D.view (disk_of log.new)).faults }
    ensures only { IfErr result
        (λ fault. IsTakeFault (D.tells → ⊥) fault (D.view (disk_of log.old)) (D.view (disk_of log.new))) }
{
    let map = node.map;
    write_under(log, tx, node, INDIRECT, &map)?;
    log.put(tx, page, &node.page)?;
    Ok(())
}

// Writes a piece, and raises the length where it must.
pub fn write_node<D: Disk>(
    log: &mut Log<D>,
    tx: &mut Tx,
    page: u32,
    node: &mut Node,
    from: u32,
    piece: &[u8],
) -> Result<(), SpaceFault>
    requires sound { IsSoundLog D.tells D.view log.old }
    requires may { MayPutAll (with_counts page) (state_of log.old) (slot_of tx.old) }
    requires page { page < 1058 }
    requires within { from + length piece.now ≤ 65536 }
    requires some { 0 < length piece.now }
    requires blocks { node.old.blocks ≡ (state_of log.old).superblock.blocks }
    requires named { D.tells → AreCounted (names node.old) (state_of log.old) (D.view (disk_of log.old)).image }
    requires room { D.tells → (from + length piece.now + 1023) / 1024 - from / 1024 + 2
        ≤ free_blocks (state_of log.old) (D.view (disk_of log.old)).image }
    ensures sound { IsSoundLog D.tells D.view log.new }
    ensures tx { tx.new ≡ tx.old }
    ensures puts { PutsPages (with_counts page) (slot_of tx.old) (state_of log.old) (state_of log.new) }
    ensures turned { D.tells → OnOk result (Turned page (written from piece.now) node.old
        (state_of log.old) (D.view (disk_of log.old)).image (state_of log.new) (D.view (disk_of log.new)).image) }
    ensures room { D.tells
        → OnOk result (free_blocks (state_of log.old) (D.view (disk_of log.old)).image ≤ free_blocks (state_of log.new)
        (D.view (disk_of log.new)).image + ((from + length piece.now + 1023) / 1024 - from / 1024 + 2)) }
    ensures wrote { D.tells
        → WroteLoose (names node.old) (state_of log.old) (D.view (disk_of log.old)) (D.view (disk_of log.new)) }
    ensures counted { (D.view (disk_of log.old)).faults ≤ (D.view (disk_of log.new)).faults }
    ensures only { IfErr result
        (λ fault. IsTakeFault (D.tells → ⊥) fault (D.view (disk_of log.old)) (D.view (disk_of log.new))) }
{
    let end = from + piece.len() as u32;
    let bytes = node.bytes();
    let kept = if bytes < end { bytes } else { BYTES_MAX };
    lay(log, tx, node, kept, from, piece)?;
    node.reach(end);
    save(log, tx, page, node)
}

// Sets the length.
pub fn cut_node<D: Disk>(
    log: &mut Log<D>,
    tx: &mut Tx,
    page: u32,
    node: &mut Node,
    length: u32,
) -> Result<(), SpaceFault>
    requires sound { IsSoundLog D.tells D.view log.old }
    requires may { MayPutAll (with_counts page) (state_of log.old) (slot_of tx.old) }
    requires page { page < 1058 }
    requires blocks { node.old.blocks ≡ (state_of log.old).superblock.blocks }
    requires named { D.tells → AreCounted (names node.old) (state_of log.old) (D.view (disk_of log.old)).image }
    requires room { D.tells → 2 ≤ free_blocks (state_of log.old) (D.view (disk_of log.old)).image }
    ensures sound { IsSoundLog D.tells D.view log.new }
    ensures tx { tx.new ≡ tx.old }
    ensures puts { PutsPages (with_counts page) (slot_of tx.old) (state_of log.old) (state_of log.new) }
    ensures turned { D.tells → OnOk result (Turned page (with_length length) node.old
        (state_of log.old) (D.view (disk_of log.old)).image (state_of log.new) (D.view (disk_of log.new)).image) }
    ensures room { D.tells → OnOk result (free_blocks (state_of log.old) (D.view (disk_of log.old)).image
        ≤ free_blocks (state_of log.new) (D.view (disk_of log.new)).image + 2) }
    ensures wrote { D.tells
        → WroteLoose (names node.old) (state_of log.old) (D.view (disk_of log.old)) (D.view (disk_of log.new)) }
    ensures counted { (D.view (disk_of log.old)).faults ≤ (D.view (disk_of log.new)).faults }
    ensures only { IfErr result
        (λ fault. IsTakeFault (D.tells → ⊥) fault (D.view (disk_of log.old)) (D.view (disk_of log.new))) }
{
    let kept = node.bytes_for(length).min(node.bytes());
    lay(log, tx, node, kept, 0, &[])?;
    node.set_length(length);
    save(log, tx, page, node)
}

// Writes a piece, and ends the bytes with it.
pub fn end_node<D: Disk>(
    log: &mut Log<D>,
    tx: &mut Tx,
    page: u32,
    node: &mut Node,
    from: u32,
    piece: &[u8],
) -> Result<(), SpaceFault>
    requires sound { IsSoundLog D.tells D.view log.old }
    requires may { MayPutAll (with_counts page) (state_of log.old) (slot_of tx.old) }
    requires page { page < 1058 }
    requires within { from + length piece.now ≤ 65536 }
    requires blocks { node.old.blocks ≡ (state_of log.old).superblock.blocks }
    requires named { D.tells → AreCounted (names node.old) (state_of log.old) (D.view (disk_of log.old)).image }
    requires room { D.tells → (from + length piece.now + 1023) / 1024 - from / 1024 + 2
        ≤ free_blocks (state_of log.old) (D.view (disk_of log.old)).image }
    ensures sound { IsSoundLog D.tells D.view log.new }
    ensures tx { tx.new ≡ tx.old }
    ensures puts { PutsPages (with_counts page) (slot_of tx.old) (state_of log.old) (state_of log.new) }
    ensures turned { D.tells → OnOk result (Turned page (ended from piece.now) node.old
        (state_of log.old) (D.view (disk_of log.old)).image (state_of log.new) (D.view (disk_of log.new)).image) }
    ensures room { D.tells
        → OnOk result (free_blocks (state_of log.old) (D.view (disk_of log.old)).image ≤ free_blocks (state_of log.new)
        (D.view (disk_of log.new)).image + ((from + length piece.now + 1023) / 1024 - from / 1024 + 2)) }
    ensures wrote { D.tells
        → WroteLoose (names node.old) (state_of log.old) (D.view (disk_of log.old)) (D.view (disk_of log.new)) }
    ensures counted { (D.view (disk_of log.old)).faults ≤ (D.view (disk_of log.new)).faults }
    ensures only { IfErr result
        (λ fault. IsTakeFault (D.tells → ⊥) fault (D.view (disk_of log.old)) (D.view (disk_of log.new))) }
{
    let kept = node.bytes().min(from);
    lay(log, tx, node, kept, from, piece)?;
    let length = node.length_for(from + piece.len() as u32);
    node.set_length(length);
    save(log, tx, page, node)
}

// Writes the block of a list.
pub fn list_node<D: Disk>(
    log: &mut Log<D>,
    tx: &mut Tx,
    page: u32,
    node: &mut Node,
    which: u32,
    bytes: &[u8; BLOCK],
) -> Result<(), SpaceFault>
    requires sound { IsSoundLog D.tells D.view log.old }
    requires may { MayPutAll (with_counts page) (state_of log.old) (slot_of tx.old) }
    requires page { page < 1058 }
    requires which { which < 3 }
    requires blocks { node.old.blocks ≡ (state_of log.old).superblock.blocks }
    requires named { D.tells → AreCounted (names node.old) (state_of log.old) (D.view (disk_of log.old)).image }
    requires room { D.tells → 2 ≤ free_blocks (state_of log.old) (D.view (disk_of log.old)).image }
    ensures sound { IsSoundLog D.tells D.view log.new }
    ensures tx { tx.new ≡ tx.old }
    ensures puts { PutsPages (with_counts page) (slot_of tx.old) (state_of log.old) (state_of log.new) }
    ensures turned { D.tells → OnOk result (Turned page (with_list which bytes.now) node.old
        (state_of log.old) (D.view (disk_of log.old)).image (state_of log.new) (D.view (disk_of log.new)).image) }
    ensures room { D.tells → OnOk result (free_blocks (state_of log.old) (D.view (disk_of log.old)).image
        ≤ free_blocks (state_of log.new) (D.view (disk_of log.new)).image + 2) }
    ensures wrote { D.tells
        → WroteLoose (names node.old) (state_of log.old) (D.view (disk_of log.old)) (D.view (disk_of log.new)) }
    ensures counted { (D.view (disk_of log.old)).faults ≤ (D.view (disk_of log.new)).faults }
    ensures only { IfErr result
        (λ fault. IsTakeFault (D.tells → ⊥) fault (D.view (disk_of log.old)) (D.view (disk_of log.new))) }
{
    write_under(log, tx, node, which, bytes)?;
    save(log, tx, page, node)
}
