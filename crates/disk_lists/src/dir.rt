// The calls on directories.
ghost use Rattle.std.specs.Prelude.{◌≡◌, ◌<◌, ◌≤◌, ◌+◌, ◌*◌, ℕ, List, None, IfOk, IfErr, OnOk, length, take, true};
ghost use Rattle.base_types.specs.Crash.{IsQuiet};
ghost use Rattle.tree_calls.specs.declared.part.DirEntry.{DirEntry as Entry};
ghost use Rattle.tree_objects.specs.Entries.{entry_named};
ghost use Rattle.tree_objects.specs.Sound.{names_rise};
ghost use Rattle.disk_log.specs.Log.{disk_of, state_of, slot_of, IsSoundLog};
ghost use Rattle.disk_anode.specs.Room.{with_counts, free_blocks, MayPutAll, PutsPages};
ghost use Rattle.disk_anode.specs.Node.{names, node_in};
ghost use Rattle.disk_anode.specs.Anode.{anode_in};
ghost use Rattle.disk_anode.specs.Changes.{own_names, WroteLoose, Changed, AreCounted, AreFew};
ghost use Rattle.disk_anode.specs.Faults.{IsNodeFault};
ghost use Rattle.disk_lists.specs.Entries.{numbers_of, entered, without, with_entries, AreEntries, IsDirectory};

use crate::bytes::{
    BYTES_MAX, ENTRIES_MAX, ENTRY, bytes_of, entries_in, entry_before, numbers_named, place_named,
    place_of,
};
use base_types::{Disk, Items, Name, NoMemory, Span};
use disk_anode::{NodeFault, length_of, read_at, write_end};
use disk_log::{Log, Tx};
use std::alloc::Global;
use tree_calls::DirEntry;

// Fills `out` with the bytes of a directory's entries, and answers how many there are.
fn read_entries<D: Disk>(
    log: &mut Log<D>,
    page: u32,
    out: &mut [u8; BYTES_MAX],
) -> Result<usize, NodeFault>
    requires sound { IsSoundLog D.tells D.view log.old }
    requires page { page < 1058 }
    ensures sound { IsSoundLog D.tells D.view log.new }
    ensures state { state_of log.new ≡ state_of log.old }
    ensures few { IfOk result (λ count. count ≤ 64) }
    ensures count { D.tells → (entries : List Entry) → IsDirectory entries (anode_in
        (state_of log.old) (D.view (disk_of log.old)).image page) → IfOk result (λ count. count ≡ length entries) }
    ensures entries { D.tells → (entries : List Entry) → IsDirectory entries (anode_in (state_of log.old)
        (D.view (disk_of log.old)).image page) → IfOk result (λ count. AreEntries entries (take (72 * count) out.new)) }
    ensures quiet { IsQuiet (D.view (disk_of log.old)) (D.view (disk_of log.new)) }
    ensures counted { (D.view (disk_of log.old)).faults ≤ (D.view (disk_of log.new)).faults }
    ensures only { IfErr result (λ fault. IsNodeFault fault (D.view (disk_of log.old)) (D.view (disk_of log.new))) }
{
    let count = (length_of(log, page)? as usize).min(ENTRIES_MAX);
    let bytes = ENTRY * count;
    let span = Span {
        from: 0,
        to: bytes as u32,
    };
    read_at(log, page, span, &mut out[..bytes])?;
    Ok(count)
}

/// The numbers of the entry of a name in a directory, its anode and the unique number, where there is one. `page` is
/// the directory's metadata page. It reads each block of the directory once, at most five. The errors are `Failed` and
/// `Memory`, the second only over a page that holds no directory.
pub fn find<D: Disk>(
    log: &mut Log<D>,
    page: u32,
    name: &Name,
) -> Result<Option<(u32, u32)>, NodeFault>
    requires sound { IsSoundLog D.tells D.view log.old }
    requires page { page < 1058 }
    ensures sound { IsSoundLog D.tells D.view log.new }
    ensures state { state_of log.new ≡ state_of log.old }
    ensures found { D.tells → (entries : List Entry) → IsDirectory entries (anode_in (state_of log.old)
        (D.view (disk_of log.old)).image page) → IfOk result (λ found. found ≡ numbers_of entries name.now) }
    ensures quiet { IsQuiet (D.view (disk_of log.old)) (D.view (disk_of log.new)) }
    ensures counted { (D.view (disk_of log.old)).faults ≤ (D.view (disk_of log.new)).faults }
    ensures only { IfErr result (λ fault. IsNodeFault fault (D.view (disk_of log.old)) (D.view (disk_of log.new))) }
{
    let mut bytes = [0; BYTES_MAX];
    let count = read_entries(log, page, &mut bytes)?;
    Ok(numbers_named(&bytes[..ENTRY * count], name.as_bytes()))
}

/// The entries of a directory, in the order of their names. `page` is its metadata page. The errors are `Failed` and
/// `Memory`.
pub fn list<D: Disk>(
    alloc: Global,
    log: &mut Log<D>,
    page: u32,
) -> Result<Items<DirEntry>, NodeFault>
    requires sound { IsSoundLog D.tells D.view log.old }
    requires page { page < 1058 }
    ensures sound { IsSoundLog D.tells D.view log.new }
    ensures state { state_of log.new ≡ state_of log.old }
    ensures entries { D.tells → (entries : List Entry) → IsDirectory entries
        (anode_in (state_of log.old) (D.view (disk_of log.old)).image page) → IfOk result (λ listed. listed ≡ entries) }
    ensures quiet { IsQuiet (D.view (disk_of log.old)) (D.view (disk_of log.new)) }
    ensures counted { (D.view (disk_of log.old)).faults ≤ (D.view (disk_of log.new)).faults }
    ensures only { IfErr result (λ fault. IsNodeFault fault (D.view (disk_of log.old)) (D.view (disk_of log.new))) }
{
    let mut bytes = [0; BYTES_MAX];
    let count = read_entries(log, page, &mut bytes)?;
    match entries_in(alloc, &bytes[..ENTRY * count]) {
        Ok(entries) => Ok(entries),
        Err(NoMemory) => Err(NodeFault::Memory),
    }
}

/// Puts an entry of a name that a directory of fewer than 64 entries lacks into it, at its place in the order of names.
/// `page` is the directory's metadata page.
///
/// Room: seven free blocks; the transaction may put the page and all pages of counts. `Failed`: mount the log again.
/// `Memory`: undo the transaction, which may hold some of the puts.
pub fn add<D: Disk>(
    alloc: Global,
    log: &mut Log<D>,
    tx: &mut Tx,
    page: u32,
    name: &Name,
    anode: u32,
    unique: u32,
) -> Result<(), NodeFault>
    requires sound { IsSoundLog D.tells D.view log.old }
    requires may { MayPutAll (with_counts page) (state_of log.old) (slot_of tx.old) }
    requires page { page < 1058 }
    requires named { D.tells → AreCounted (names (node_in (state_of log.old) (D.view (disk_of log.old)).image page))
        (state_of log.old) (D.view (disk_of log.old)).image }
    requires few { D.tells → AreFew (names (node_in (state_of log.old) (D.view (disk_of log.old)).image page))
        (state_of log.old) (D.view (disk_of log.old)).image }
    requires room { D.tells → 7 ≤ free_blocks (state_of log.old) (D.view (disk_of log.old)).image }
    ensures sound { IsSoundLog D.tells D.view log.new }
    ensures tx { tx.new ≡ tx.old }
    ensures puts { PutsPages (with_counts page) (slot_of tx.old) (state_of log.old) (state_of log.new) }
    ensures changed { D.tells → (entries : List Entry) → IsDirectory entries (anode_in (state_of log.old)
        (D.view (disk_of log.old)).image page) → entry_named entries name.now ≡ None → length entries < 64
        → OnOk result
        (Changed page (with_entries (entered (record { name = name.now; anode = anode; unique = unique }) entries))
        (state_of log.old) (D.view (disk_of log.old)).image (state_of log.new) (D.view (disk_of log.new)).image) }
    ensures directory { D.tells → (entries : List Entry) → IsDirectory entries (anode_in (state_of log.old)
        (D.view (disk_of log.old)).image page) → entry_named entries name.now ≡ None → length entries < 64
        → OnOk result (IsDirectory (entered (record { name = name.now; anode = anode; unique = unique }) entries)
        (anode_in (state_of log.new) (D.view (disk_of log.new)).image page)) }
    ensures room { D.tells → OnOk result (free_blocks (state_of log.old) (D.view (disk_of log.old)).image
        ≤ free_blocks (state_of log.new) (D.view (disk_of log.new)).image + 7) }
    ensures wrote { D.tells → WroteLoose (own_names (state_of log.old)
        (D.view (disk_of log.old)).image (node_in (state_of log.old) (D.view (disk_of log.old)).image page))
        (state_of log.old) (D.view (disk_of log.old)) (D.view (disk_of log.new)) }
    ensures counted { (D.view (disk_of log.old)).faults ≤ (D.view (disk_of log.new)).faults }
    ensures only { IfErr result (λ fault. IsNodeFault fault (D.view (disk_of log.old)) (D.view (disk_of log.new))) }
{
    let mut bytes = [0; BYTES_MAX];
    let count = read_entries(log, page, &mut bytes)?;
    if count == ENTRIES_MAX {
        return Err(NodeFault::Memory);
    }
    let bytes = &bytes[..ENTRY * count];
    let place = place_of(bytes, name.as_bytes());
    let at = ENTRY * place;
    match entry_before(alloc, name, anode, unique, &bytes[at..]) {
        Ok(piece) => write_end(log, tx, page, at as u32, piece.as_slice()),
        Err(_) => Err(NodeFault::Memory),
    }
}

/// Takes the entry of a name out of a directory, where there is one. `page` is the directory's metadata page.
///
/// Room: seven free blocks; the transaction may put the page and all pages of counts. `Failed`: mount the log again.
/// `Memory`: undo the transaction, which may hold some of the puts.
pub fn drop_name<D: Disk>(
    log: &mut Log<D>,
    tx: &mut Tx,
    page: u32,
    name: &Name,
) -> Result<(), NodeFault>
    requires sound { IsSoundLog D.tells D.view log.old }
    requires may { MayPutAll (with_counts page) (state_of log.old) (slot_of tx.old) }
    requires page { page < 1058 }
    requires named { D.tells → AreCounted (names (node_in (state_of log.old) (D.view (disk_of log.old)).image page))
        (state_of log.old) (D.view (disk_of log.old)).image }
    requires few { D.tells → AreFew (names (node_in (state_of log.old) (D.view (disk_of log.old)).image page))
        (state_of log.old) (D.view (disk_of log.old)).image }
    requires room { D.tells → 7 ≤ free_blocks (state_of log.old) (D.view (disk_of log.old)).image }
    ensures sound { IsSoundLog D.tells D.view log.new }
    ensures tx { tx.new ≡ tx.old }
    ensures puts { PutsPages (with_counts page) (slot_of tx.old) (state_of log.old) (state_of log.new) }
    ensures changed { D.tells → (entries : List Entry)
        → IsDirectory entries (anode_in (state_of log.old) (D.view (disk_of log.old)).image page)
        → OnOk result (Changed page (with_entries (without name.now entries))
        (state_of log.old) (D.view (disk_of log.old)).image (state_of log.new) (D.view (disk_of log.new)).image) }
    ensures directory { D.tells → (entries : List Entry)
        → IsDirectory entries (anode_in (state_of log.old) (D.view (disk_of log.old)).image page)
        → OnOk result
        (IsDirectory (without name.now entries) (anode_in (state_of log.new) (D.view (disk_of log.new)).image page)) }
    ensures room { D.tells → OnOk result (free_blocks (state_of log.old) (D.view (disk_of log.old)).image
        ≤ free_blocks (state_of log.new) (D.view (disk_of log.new)).image + 7) }
    ensures wrote { D.tells → WroteLoose (own_names (state_of log.old)
        (D.view (disk_of log.old)).image (node_in (state_of log.old) (D.view (disk_of log.old)).image page))
        (state_of log.old) (D.view (disk_of log.old)) (D.view (disk_of log.new)) }
    ensures counted { (D.view (disk_of log.old)).faults ≤ (D.view (disk_of log.new)).faults }
    ensures only { IfErr result (λ fault. IsNodeFault fault (D.view (disk_of log.old)) (D.view (disk_of log.new))) }
{
    let mut bytes = [0; BYTES_MAX];
    let count = read_entries(log, page, &mut bytes)?;
    let bytes = &bytes[..ENTRY * count];
    let Some(i) = place_named(bytes, name.as_bytes()) else {
        return Ok(());
    };
    let at = ENTRY * i;
    write_end(log, tx, page, at as u32, &bytes[at + ENTRY..])
}

/// Puts entries, at most 64 in the order of their names, in place of those of a directory. `page` is the directory's
/// metadata page.
///
/// Room: seven free blocks; the transaction may put the page and all pages of counts. `Failed`: mount the log again.
/// `Memory`: undo the transaction, which may hold some of the puts.
pub fn set_entries<D: Disk>(
    alloc: Global,
    log: &mut Log<D>,
    tx: &mut Tx,
    page: u32,
    entries: &[DirEntry],
) -> Result<(), NodeFault>
    requires sound { IsSoundLog D.tells D.view log.old }
    requires may { MayPutAll (with_counts page) (state_of log.old) (slot_of tx.old) }
    requires page { page < 1058 }
    requires most { length entries.now ≤ 64 }
    requires rise { names_rise entries.now ≡ true }
    requires named { D.tells → AreCounted (names (node_in (state_of log.old) (D.view (disk_of log.old)).image page))
        (state_of log.old) (D.view (disk_of log.old)).image }
    requires few { D.tells → AreFew (names (node_in (state_of log.old) (D.view (disk_of log.old)).image page))
        (state_of log.old) (D.view (disk_of log.old)).image }
    requires room { D.tells → 7 ≤ free_blocks (state_of log.old) (D.view (disk_of log.old)).image }
    ensures sound { IsSoundLog D.tells D.view log.new }
    ensures tx { tx.new ≡ tx.old }
    ensures puts { PutsPages (with_counts page) (slot_of tx.old) (state_of log.old) (state_of log.new) }
    ensures changed { D.tells → (others : List Entry) → IsDirectory others (anode_in (state_of log.old)
        (D.view (disk_of log.old)).image page) → OnOk result (Changed page (with_entries entries.now)
        (state_of log.old) (D.view (disk_of log.old)).image (state_of log.new) (D.view (disk_of log.new)).image) }
    ensures directory { D.tells → (others : List Entry) → IsDirectory others (anode_in (state_of log.old)
        (D.view (disk_of log.old)).image page) → OnOk result (IsDirectory entries.now
        (anode_in (state_of log.new) (D.view (disk_of log.new)).image page)) }
    ensures room { D.tells → OnOk result (free_blocks (state_of log.old) (D.view (disk_of log.old)).image
        ≤ free_blocks (state_of log.new) (D.view (disk_of log.new)).image + 7) }
    ensures wrote { D.tells → WroteLoose (own_names (state_of log.old)
        (D.view (disk_of log.old)).image (node_in (state_of log.old) (D.view (disk_of log.old)).image page))
        (state_of log.old) (D.view (disk_of log.old)) (D.view (disk_of log.new)) }
    ensures counted { (D.view (disk_of log.old)).faults ≤ (D.view (disk_of log.new)).faults }
    ensures only { IfErr result (λ fault. IsNodeFault fault (D.view (disk_of log.old)) (D.view (disk_of log.new))) }
{
    match bytes_of(alloc, entries) {
        Ok(bytes) => write_end(log, tx, page, 0, bytes.as_slice()),
        Err(_) => Err(NodeFault::Memory),
    }
}
