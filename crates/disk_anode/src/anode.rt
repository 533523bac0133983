// The calls on anodes.
ghost use Rattle.std.specs.Prelude.{◌≡◌, ◌<◌, ◌≤◌, ◌+◌, ◌-◌, ◌/◌, ℕ, IfOk, IfErr, OnOk, OnErr, length, min};
ghost use Rattle.std.proofs.Common.{get_or};
ghost use Rattle.base_types.specs.Crash.{IsQuiet};
ghost use Rattle.disk_log.specs.Log.{disk_of, state_of, slot_of, IsSoundLog};
ghost use Rattle.disk_anode.specs.Room.{with_counts, is_page, free_blocks, MayPutAll, PutsPages};
ghost use Rattle.disk_anode.specs.Node.{names, no_names, node_in};
ghost use Rattle.disk_anode.specs.Anode.{anode_in, bare_anode, made, names_past, written, ended, with_length, freed};
ghost use Rattle.disk_anode.specs.Anode.{IsBare};
ghost use Rattle.disk_anode.specs.Changes.{own_names, WroteLoose, Changed, Made, SharesBlocks, AreCounted, AreFew};
ghost use Rattle.disk_anode.specs.Faults.{IsNodeFault};

use crate::blocks::{load, read_span};
use crate::copying::copy_node;
use crate::fault::NodeFault;
use crate::making::{anode_page, free_node};
use crate::node::{DIRECTORY, FILE, LENGTH_AT, UNIQUE_AT};
use crate::owning::{load_names, load_own};
use crate::writing::{cut_node, end_node, write_node};
use base_types::{Disk, Name, Span};
use disk_layout::{PAGE, u32_at};
use disk_log::{Log, Tx};

/// Fills `out`, as long as the span, with the bytes of a file or directory; past its length they are zero. `page` is
/// the anode's metadata page. The errors are `Failed` and `Memory`, after which `out` may hold anything.
pub fn read_at<D: Disk>(
    log: &mut Log<D>,
    page: u32,
    span: Span,
    out: &mut [u8],
) -> Result<(), NodeFault>
    requires sound { IsSoundLog D.tells D.view log.old }
    requires page { page < 1058 }
    requires size { length out.old ≡ span.to - span.from }
    ensures sound { IsSoundLog D.tells D.view log.new }
    ensures state { state_of log.new ≡ state_of log.old }
    ensures bytes { D.tells → OnOk result ((k : ℕ) → k < length out.new
        → get_or out.new k 0
        ≡ (anode_in (state_of log.old) (D.view (disk_of log.old)).image page).content (span.from + k)) }
    ensures quiet { IsQuiet (D.view (disk_of log.old)) (D.view (disk_of log.new)) }
    ensures counted { (D.view (disk_of log.old)).faults ≤ (D.view (disk_of log.new)).faults }
    ensures only { IfErr result (λ fault. IsNodeFault fault (D.view (disk_of log.old)) (D.view (disk_of log.new))) }
{
    let node = load(log, page)?;
    read_span(log, &node, span.from, out)?;
    Ok(())
}

/// The length of an anode, in its own unit: bytes of a file, entries of a directory. `page` is its metadata page. The
/// only error is `Failed`.
pub fn length_of<D: Disk>(log: &mut Log<D>, page: u32) -> Result<u32, NodeFault>
    requires sound { IsSoundLog D.tells D.view log.old }
    requires page { page < 1058 }
    ensures sound { IsSoundLog D.tells D.view log.new }
    ensures state { state_of log.new ≡ state_of log.old }
    ensures length { D.tells
        → IfOk result (λ n. n ≡ (anode_in (state_of log.old) (D.view (disk_of log.old)).image page).length) }
    ensures quiet { IsQuiet (D.view (disk_of log.old)) (D.view (disk_of log.new)) }
    ensures counted { (D.view (disk_of log.old)).faults ≤ (D.view (disk_of log.new)).faults }
    ensures only { IfErr result (λ fault. IsNodeFault fault (D.view (disk_of log.old)) (D.view (disk_of log.new))) }
{
    let mut bytes = [0; PAGE];
    log.page(page, &mut bytes)?;
    Ok(u32_at(&bytes, LENGTH_AT))
}

/// Writes a piece from the byte `from` on, at most 65,536 with the piece, and raises the length where it must: of a
/// directory, whose length is in entries of 72 bytes, to the entries that the bytes reach. A gap reads zero. Every
/// block that changes is written to a free one, and the old one is given up. An indirect block that other anodes share
/// is left to them, and the blocks that it names are shared from then on. `page` is the anode's metadata page.
///
/// Room: a free block for each block of the piece, one for the block of the old end, and one for the indirect block;
/// the transaction may put the anode's page and all pages of counts. `Failed`: mount the log again. `Memory`: undo the
/// transaction, which may hold some of the puts.
pub fn write_at<D: Disk>(
    log: &mut Log<D>,
    tx: &mut Tx,
    page: u32,
    from: u32,
    piece: &[u8],
) -> Result<(), NodeFault>
    requires sound { IsSoundLog D.tells D.view log.old }
    requires may { MayPutAll (with_counts page) (state_of log.old) (slot_of tx.old) }
    requires page { page < 1058 }
    requires within { from + length piece.now ≤ 65536 }
    requires named { D.tells → AreCounted (names (node_in (state_of log.old) (D.view (disk_of log.old)).image page))
        (state_of log.old) (D.view (disk_of log.old)).image }
    requires few { D.tells → AreFew (names (node_in (state_of log.old) (D.view (disk_of log.old)).image page))
        (state_of log.old) (D.view (disk_of log.old)).image }
    requires room { D.tells → (from + length piece.now + 1023) / 1024 - from / 1024 + 2
        ≤ free_blocks (state_of log.old) (D.view (disk_of log.old)).image }
    ensures sound { IsSoundLog D.tells D.view log.new }
    ensures tx { tx.new ≡ tx.old }
    ensures puts { PutsPages (with_counts page) (slot_of tx.old) (state_of log.old) (state_of log.new) }
    ensures changed { D.tells → OnOk result (Changed page (written from piece.now)
        (state_of log.old) (D.view (disk_of log.old)).image (state_of log.new) (D.view (disk_of log.new)).image) }
    ensures room { D.tells
        → OnOk result (free_blocks (state_of log.old) (D.view (disk_of log.old)).image ≤ free_blocks (state_of log.new)
        (D.view (disk_of log.new)).image + ((from + length piece.now + 1023) / 1024 - from / 1024 + 2)) }
    ensures wrote { D.tells → WroteLoose (own_names (state_of log.old)
        (D.view (disk_of log.old)).image (node_in (state_of log.old) (D.view (disk_of log.old)).image page))
        (state_of log.old) (D.view (disk_of log.old)) (D.view (disk_of log.new)) }
    ensures counted { (D.view (disk_of log.old)).faults ≤ (D.view (disk_of log.new)).faults }
    ensures only { IfErr result (λ fault. IsNodeFault fault (D.view (disk_of log.old)) (D.view (disk_of log.new))) }
{
    if piece.is_empty() {
        return Ok(());
    }
    let mut node = load_own(log, tx, page)?;
    write_node(log, tx, page, &mut node, from, piece)?;
    Ok(())
}

/// Writes a piece from the byte `from` on, at most 65,536 with the piece, and ends the bytes with it: what stood behind
/// is gone, and a gap before reads zero. The length is what the bytes need, of a directory in entries of 72 bytes.
/// Otherwise it is like `write_at`, with the same room and errors. `page` is the anode's metadata page.
pub fn write_end<D: Disk>(
    log: &mut Log<D>,
    tx: &mut Tx,
    page: u32,
    from: u32,
    piece: &[u8],
) -> Result<(), NodeFault>
    requires sound { IsSoundLog D.tells D.view log.old }
    requires may { MayPutAll (with_counts page) (state_of log.old) (slot_of tx.old) }
    requires page { page < 1058 }
    requires within { from + length piece.now ≤ 65536 }
    requires named { D.tells → AreCounted (names (node_in (state_of log.old) (D.view (disk_of log.old)).image page))
        (state_of log.old) (D.view (disk_of log.old)).image }
    requires few { D.tells → AreFew (names (node_in (state_of log.old) (D.view (disk_of log.old)).image page))
        (state_of log.old) (D.view (disk_of log.old)).image }
    requires room { D.tells → (from + length piece.now + 1023) / 1024 - from / 1024 + 2
        ≤ free_blocks (state_of log.old) (D.view (disk_of log.old)).image }
    ensures sound { IsSoundLog D.tells D.view log.new }
    ensures tx { tx.new ≡ tx.old }
    ensures puts { PutsPages (with_counts page) (slot_of tx.old) (state_of log.old) (state_of log.new) }
    ensures changed { D.tells → OnOk result (Changed page (ended from piece.now)
        (state_of log.old) (D.view (disk_of log.old)).image (state_of log.new) (D.view (disk_of log.new)).image) }
    ensures room { D.tells
        → OnOk result (free_blocks (state_of log.old) (D.view (disk_of log.old)).image ≤ free_blocks (state_of log.new)
        (D.view (disk_of log.new)).image + ((from + length piece.now + 1023) / 1024 - from / 1024 + 2)) }
    ensures wrote { D.tells → WroteLoose (own_names (state_of log.old)
        (D.view (disk_of log.old)).image (node_in (state_of log.old) (D.view (disk_of log.old)).image page))
        (state_of log.old) (D.view (disk_of log.old)) (D.view (disk_of log.new)) }
    ensures counted { (D.view (disk_of log.old)).faults ≤ (D.view (disk_of log.new)).faults }
    ensures only { IfErr result (λ fault. IsNodeFault fault (D.view (disk_of log.old)) (D.view (disk_of log.new))) }
{
    let mut node = load_own(log, tx, page)?;
    end_node(log, tx, page, &mut node, from, piece)?;
    Ok(())
}

/// Sets the length, in the anode's own unit: bytes of a file, entries of 72 bytes of a directory, 65,536 bytes at most.
/// What is past it is gone, and what is new reads zero. `page` is the anode's metadata page.
///
/// Room: two free blocks, for the block of the new end and for the indirect block; the transaction may put the anode's
/// page and all pages of counts. `Failed`: mount the log again. `Memory`: undo the transaction, which may hold some of
/// the puts.
pub fn cut<D: Disk>(log: &mut Log<D>, tx: &mut Tx, page: u32, length: u32) -> Result<(), NodeFault>
    requires sound { IsSoundLog D.tells D.view log.old }
    requires may { MayPutAll (with_counts page) (state_of log.old) (slot_of tx.old) }
    requires page { page < 1058 }
    requires length { length ≤ 65536 }
    requires named { D.tells → AreCounted (names (node_in (state_of log.old) (D.view (disk_of log.old)).image page))
        (state_of log.old) (D.view (disk_of log.old)).image }
    requires few { D.tells → AreFew (names (node_in (state_of log.old) (D.view (disk_of log.old)).image page))
        (state_of log.old) (D.view (disk_of log.old)).image }
    requires room { D.tells → 2 ≤ free_blocks (state_of log.old) (D.view (disk_of log.old)).image }
    ensures sound { IsSoundLog D.tells D.view log.new }
    ensures tx { tx.new ≡ tx.old }
    ensures puts { PutsPages (with_counts page) (slot_of tx.old) (state_of log.old) (state_of log.new) }
    ensures changed { D.tells → OnOk result (Changed page (with_length length)
        (state_of log.old) (D.view (disk_of log.old)).image (state_of log.new) (D.view (disk_of log.new)).image) }
    ensures room { D.tells → OnOk result (free_blocks (state_of log.old) (D.view (disk_of log.old)).image
        ≤ free_blocks (state_of log.new) (D.view (disk_of log.new)).image + 2) }
    ensures wrote { D.tells → WroteLoose (own_names (state_of log.old)
        (D.view (disk_of log.old)).image (node_in (state_of log.old) (D.view (disk_of log.old)).image page))
        (state_of log.old) (D.view (disk_of log.old)) (D.view (disk_of log.new)) }
    ensures counted { (D.view (disk_of log.old)).faults ≤ (D.view (disk_of log.new)).faults }
    ensures only { IfErr result (λ fault. IsNodeFault fault (D.view (disk_of log.old)) (D.view (disk_of log.new))) }
{
    let mut node = load_own(log, tx, page)?;
    cut_node(log, tx, page, &mut node, length)?;
    Ok(())
}

/// Makes an anode of a kind, 0 free, 1 a directory and 2 a file, and of a unique number in the page of a free one: of
/// length 0, with empty lists. Its owner and group, of a free one empty, have 60 bytes at most. `page` is the anode's
/// metadata page.
///
/// Room: no block; the transaction may put the page. `Failed`: mount the log again. `Memory`: nothing is put.
pub fn create_as<D: Disk>(
    log: &mut Log<D>,
    tx: &mut Tx,
    page: u32,
    kind: u8,
    unique: u32,
    owner: &[u8],
    group: &[u8],
) -> Result<(), NodeFault>
    requires sound { IsSoundLog D.tells D.view log.old }
    requires may { MayPutAll (is_page page) (state_of log.old) (slot_of tx.old) }
    requires page { page < 1058 }
    requires owner { length owner.now ≤ 60 }
    requires group { length group.now ≤ 60 }
    ensures sound { IsSoundLog D.tells D.view log.new }
    ensures tx { tx.new ≡ tx.old }
    ensures puts { PutsPages (is_page page) (slot_of tx.old) (state_of log.old) (state_of log.new) }
    ensures made { D.tells → OnOk result (Made page (bare_anode kind unique owner.now group.now)
        (state_of log.old) (D.view (disk_of log.old)).image (state_of log.new) (D.view (disk_of log.new)).image) }
    ensures bare { D.tells → OnOk result
        (IsBare (D.view (disk_of log.new)).image (node_in (state_of log.new) (D.view (disk_of log.new)).image page)) }
    ensures err { OnErr result (state_of log.new ≡ state_of log.old) }
    ensures room { D.tells → OnOk result (free_blocks (state_of log.old) (D.view (disk_of log.old)).image
        ≤ free_blocks (state_of log.new) (D.view (disk_of log.new)).image) }
    ensures quiet { IsQuiet (D.view (disk_of log.old)) (D.view (disk_of log.new)) }
    ensures counted { (D.view (disk_of log.old)).faults ≤ (D.view (disk_of log.new)).faults }
    ensures only { IfErr result (λ fault. IsNodeFault fault (D.view (disk_of log.old)) (D.view (disk_of log.new))) }
{
    let new = anode_page(kind, unique, owner, group);
    log.put(tx, page, &new)?;
    Ok(())
}

/// Makes a new file or directory in the page of a free anode: of length 0, with empty lists, and with the next unique
/// number, which it answers. `page` is the anode's metadata page.
///
/// Room: no block; the transaction may put the page. `Failed`: mount the log again. `Memory`: nothing is put.
pub fn create<D: Disk>(
    log: &mut Log<D>,
    tx: &mut Tx,
    page: u32,
    dir: bool,
    owner: &Name,
    group: &Name,
) -> Result<u32, NodeFault>
    requires sound { IsSoundLog D.tells D.view log.old }
    requires may { MayPutAll (is_page page) (state_of log.old) (slot_of tx.old) }
    requires page { page < 1058 }
    requires unique { D.tells
        → (anode_in (state_of log.old) (D.view (disk_of log.old)).image page).unique < 4294967295 }
    ensures sound { IsSoundLog D.tells D.view log.new }
    ensures tx { tx.new ≡ tx.old }
    ensures puts { PutsPages (is_page page) (slot_of tx.old) (state_of log.old) (state_of log.new) }
    ensures unique { D.tells → IfOk result
        (λ unique. unique ≡ (anode_in (state_of log.old) (D.view (disk_of log.old)).image page).unique + 1) }
    ensures made { D.tells → OnOk result
        (Made page (made dir owner.now group.now (anode_in (state_of log.old) (D.view (disk_of log.old)).image page))
        (state_of log.old) (D.view (disk_of log.old)).image (state_of log.new) (D.view (disk_of log.new)).image) }
    ensures bare { D.tells → OnOk result
        (IsBare (D.view (disk_of log.new)).image (node_in (state_of log.new) (D.view (disk_of log.new)).image page)) }
    ensures err { OnErr result (state_of log.new ≡ state_of log.old) }
    ensures room { D.tells → OnOk result (free_blocks (state_of log.old) (D.view (disk_of log.old)).image
        ≤ free_blocks (state_of log.new) (D.view (disk_of log.new)).image) }
    ensures quiet { IsQuiet (D.view (disk_of log.old)) (D.view (disk_of log.new)) }
    ensures counted { (D.view (disk_of log.old)).faults ≤ (D.view (disk_of log.new)).faults }
    ensures only { IfErr result (λ fault. IsNodeFault fault (D.view (disk_of log.old)) (D.view (disk_of log.new))) }
{
    let mut old = [0; PAGE];
    log.page(page, &mut old)?;
    let unique = u32_at(&old, UNIQUE_AT).saturating_add(1);
    let kind = if dir { DIRECTORY } else { FILE };
    let (owner, group) = (owner.as_bytes(), group.as_bytes());
    create_as(log, tx, page, kind, unique, owner, group)?;
    Ok(unique)
}

/// Frees an anode: its blocks and those of its lists are given up, and it keeps its unique number. `page` is the
/// anode's metadata page.
///
/// Room: no block; the transaction may put the anode's page and all pages of counts. `Failed`: mount the log again.
/// `Memory`: undo the transaction, which may hold some of the puts.
pub fn remove<D: Disk>(log: &mut Log<D>, tx: &mut Tx, page: u32) -> Result<(), NodeFault>
    requires sound { IsSoundLog D.tells D.view log.old }
    requires may { MayPutAll (with_counts page) (state_of log.old) (slot_of tx.old) }
    requires page { page < 1058 }
    requires named { D.tells → AreCounted (names (node_in (state_of log.old) (D.view (disk_of log.old)).image page))
        (state_of log.old) (D.view (disk_of log.old)).image }
    ensures sound { IsSoundLog D.tells D.view log.new }
    ensures tx { tx.new ≡ tx.old }
    ensures puts { PutsPages (with_counts page) (slot_of tx.old) (state_of log.old) (state_of log.new) }
    ensures changed { D.tells → OnOk result (Changed page freed
        (state_of log.old) (D.view (disk_of log.old)).image (state_of log.new) (D.view (disk_of log.new)).image) }
    ensures bare { D.tells → OnOk result
        (IsBare (D.view (disk_of log.new)).image (node_in (state_of log.new) (D.view (disk_of log.new)).image page)) }
    ensures room { D.tells → OnOk result (free_blocks (state_of log.old) (D.view (disk_of log.old)).image
        ≤ free_blocks (state_of log.new) (D.view (disk_of log.new)).image) }
    ensures wrote { D.tells → WroteLoose (own_names (state_of log.old)
        (D.view (disk_of log.old)).image (node_in (state_of log.old) (D.view (disk_of log.old)).image page))
        (state_of log.old) (D.view (disk_of log.old)) (D.view (disk_of log.new)) }
    ensures counted { (D.view (disk_of log.old)).faults ≤ (D.view (disk_of log.new)).faults }
    ensures only { IfErr result (λ fault. IsNodeFault fault (D.view (disk_of log.old)) (D.view (disk_of log.new))) }
{
    let mut node = load_names(log, page)?;
    free_node(log, tx, page, &mut node)?;
    Ok(())
}

/// Copies an anode, with its unique number, into the page of a free one. No block is copied: the copy names those that
/// the source names, whose counts rise by one, and shares its indirect block. Pointers past the length are left out;
/// an indirect block that has some isn't shared. `from` and `to` are metadata pages of anodes.
///
/// Room: no block, but one for another indirect block where the source's has pointers past the length; the transaction
/// may put the page `to` and all pages of counts. `Failed`: mount the log again. `Memory`: undo the transaction, which
/// may hold some of the puts.
pub fn clone_of<D: Disk>(log: &mut Log<D>, tx: &mut Tx, from: u32, to: u32) -> Result<(), NodeFault>
    requires sound { IsSoundLog D.tells D.view log.old }
    requires may { MayPutAll (with_counts to) (state_of log.old) (slot_of tx.old) }
    requires from { from < 1058 }
    requires page { to < 1058 }
    requires room { D.tells → min 1 (names_past (node_in (state_of log.old) (D.view (disk_of log.old)).image from))
        ≤ free_blocks (state_of log.old) (D.view (disk_of log.old)).image }
    requires named { D.tells → AreCounted (names (node_in (state_of log.old) (D.view (disk_of log.old)).image from))
        (state_of log.old) (D.view (disk_of log.old)).image }
    requires few { D.tells → AreFew (names (node_in (state_of log.old) (D.view (disk_of log.old)).image from))
        (state_of log.old) (D.view (disk_of log.old)).image }
    ensures sound { IsSoundLog D.tells D.view log.new }
    ensures tx { tx.new ≡ tx.old }
    ensures puts { PutsPages (with_counts to) (slot_of tx.old) (state_of log.old) (state_of log.new) }
    ensures made { D.tells → OnOk result (Made to (anode_in (state_of log.old) (D.view (disk_of log.old)).image from)
        (state_of log.old) (D.view (disk_of log.old)).image (state_of log.new) (D.view (disk_of log.new)).image) }
    ensures shares { D.tells → OnOk result
        (SharesBlocks to (node_in (state_of log.old) (D.view (disk_of log.old)).image from)
        (state_of log.old) (D.view (disk_of log.old)).image (state_of log.new) (D.view (disk_of log.new)).image) }
    ensures room { D.tells → OnOk result (free_blocks (state_of log.old) (D.view (disk_of log.old)).image
        ≤ free_blocks (state_of log.new) (D.view (disk_of log.new)).image
        + min 1 (names_past (node_in (state_of log.old) (D.view (disk_of log.old)).image from))) }
    ensures wrote { D.tells
        → WroteLoose no_names (state_of log.old) (D.view (disk_of log.old)) (D.view (disk_of log.new)) }
    ensures counted { (D.view (disk_of log.old)).faults ≤ (D.view (disk_of log.new)).faults }
    ensures only { IfErr result (λ fault. IsNodeFault fault (D.view (disk_of log.old)) (D.view (disk_of log.new))) }
{
    let source = load(log, from)?;
    copy_node(log, tx, to, &source)?;
    Ok(())
}
