// What hosts give back of files.
ghost use Rattle.std.specs.Prelude.{◌≡◌, ◌≤◌, ◌<◌, ◌-◌, IfOk, IfErr, IfSome, length, vec_len};
ghost use Rattle.base_types.specs.Crash.{IsQuiet};
ghost use Rattle.tree_objects.specs.Changes.{anode_changed};
ghost use Rattle.store_state.specs.Giving.{content_given, put_bytes, put_pieces};
ghost use Rattle.disk_log.specs.Log.{disk_of, state_of, IsSoundLog};
ghost use Rattle.disk_anode.specs.Anode.{anode_in};
ghost use Rattle.disk_anode.specs.Faults.{IsNodeFault};
ghost use Rattle.disk_anode.specs.declared.fault.NodeFault.TheVariants.{Memory};
ghost use Rattle.disk_objects.specs.Objects.{with_anode};
ghost use Rattle.disk_fileset.specs.Giving.{LieIn, shifted, ArePatched, content_patched, IsLong};
ghost use Rattle.disk_fileset.specs.Slots.{IsFile, MayChange, TurnsInto, ChangesSlot};

use crate::bytes::truncate;
use crate::place::anode_page;
use base_types::{Disk, FILE_BYTES_MAX, Items, Span};
use disk_anode::{NodeFault, length_of, read_at, write_at};
use disk_log::{Log, Tx};
use std::alloc::Global;
use tree_calls::Piece;

// The span from the first byte of some pieces to the end of the last one, below an end.
fn span_of(pieces: &[Piece], end: u32) -> Span
    requires { end ≤ 65536 }
    ensures lie { LieIn pieces.now result.from result.to end }
    ensures end { result.to ≤ end }
{
    let mut from = end;
    let mut to = 0;
    for piece in pieces {
        from = from.min(piece.from);
        to = to.max(piece.from as usize + piece.bytes.len().min(FILE_BYTES_MAX as usize));
    }
    let to = to.min(end as usize) as u32;
    Span {
        from: from.min(to),
        to,
    }
}

// Puts bytes over others from a position on; none behind the end.
fn put_bytes(bytes: &mut Items<u8>, at: u32, values: &[u8])
    ensures { bytes.new ≡ put_bytes bytes.old at values.now }
{
    for (i, value) in values.iter().enumerate() {
        bytes.put(at as usize + i, *value);
    }
}

// Puts pieces over the bytes of a span that begins at a position.
fn put_pieces(bytes: &mut Items<u8>, from: u32, pieces: &[Piece])
    ensures { bytes.new ≡ put_pieces bytes.old (shifted from pieces.now) }
{
    for piece in pieces {
        let at = piece.from.saturating_sub(from);
        put_bytes(bytes, at, piece.bytes.as_slice());
    }
}

// So many zeros.
pub fn zeros(alloc: Global, count: usize) -> Result<Vec<u8>, NodeFault>
    ensures size { IfOk result (λ bytes. vec_len bytes ≡ count) }
    ensures only { IfErr result (λ fault. fault ≡ Memory) }
{
    match vec![in alloc; 0u8; count] {
        Ok(bytes) => Ok(bytes),
        Err(_) => Err(NodeFault::Memory),
    }
}

// The bytes of a span of an anode, with pieces put over them.
fn patched<D: Disk>(
    alloc: Global,
    log: &mut Log<D>,
    page: u32,
    span: Span,
    pieces: &[Piece],
) -> Result<Items<u8>, NodeFault>
    requires sound { IsSoundLog D.tells D.view log.old }
    requires page { page < 1058 }
    ensures sound { IsSoundLog D.tells D.view log.new }
    ensures state { state_of log.new ≡ state_of log.old }
    ensures size { IfOk result (λ bytes. length bytes ≡ span.to - span.from) }
    ensures bytes { D.tells → IfOk result (λ bytes. ArePatched pieces.now span.from span.to
        (anode_in (state_of log.old) (D.view (disk_of log.old)).image page).content bytes) }
    ensures quiet { IsQuiet (D.view (disk_of log.old)) (D.view (disk_of log.new)) }
    ensures counted { (D.view (disk_of log.old)).faults ≤ (D.view (disk_of log.new)).faults }
    ensures only { IfErr result (λ fault. IsNodeFault fault (D.view (disk_of log.old)) (D.view (disk_of log.new))) }
{
    let mut bytes = zeros(alloc, span.len() as usize)?;
    read_at(log, page, span, &mut bytes)?;
    let mut bytes = Items::from_vec(bytes);
    put_pieces(&mut bytes, span.from, pieces);
    Ok(bytes)
}

// Puts pieces over the bytes of a file of so many.
fn patch<D: Disk>(
    alloc: Global,
    log: &mut Log<D>,
    tx: &mut Tx,
    slot: u32,
    anode: u32,
    pieces: &[Piece],
    end: u32,
) -> Result<(), NodeFault>
    requires slot { slot < 16 }
    requires first { 1 ≤ anode }
    requires last { anode ≤ 64 }
    requires end { end ≤ 65536 }
    requires may { MayChange D.tells D.view (IsLong slot anode end) slot 66 log.old tx.old }
    ensures kept { TurnsInto D.tells D.view (IsLong slot anode end)
        (with_anode slot anode (anode_changed (content_patched pieces.now))) result log.old log.new }
    ensures changes { ChangesSlot D.tells D.view slot 66 result log.old log.new tx.old tx.new }
{
    let span = span_of(pieces, end);
    if span.is_empty() {
        return Ok(());
    }
    let page = anode_page(slot, anode);
    let bytes = patched(alloc, log, page, span, pieces)?;
    write_at(log, tx, page, span.from, bytes.as_slice())
}

/// Gives back to a file: the length comes first, at most 65,536 bytes, where it is above that of the file, and then the
/// pieces as far as the file reaches, in one write from the first byte of them to the end of the last.
///
/// It needs 68 free blocks. `Failed`: mount the log again. `Memory`: undo the transaction, which may hold some puts.
pub fn give<D: Disk>(
    alloc: Global,
    log: &mut Log<D>,
    tx: &mut Tx,
    slot: u32,
    anode: u32,
    pieces: &[Piece],
    given: Option<u32>,
) -> Result<(), NodeFault>
    requires slot { slot < 16 }
    requires first { 1 ≤ anode }
    requires last { anode ≤ 64 }
    requires given { IfSome given (λ n. n ≤ 65536) }
    requires may { MayChange D.tells D.view (IsFile slot anode) slot 68 log.old tx.old }
    ensures kept { TurnsInto D.tells D.view (IsFile slot anode)
        (with_anode slot anode (anode_changed (content_given pieces.now given))) result log.old log.new }
    ensures changes { ChangesSlot D.tells D.view slot 68 result log.old log.new tx.old tx.new }
{
    let length = length_of(log, anode_page(slot, anode))?;
    let end = given.unwrap_or(0);
    if length < end {
        truncate(log, tx, slot, anode, end)?;
        return patch(alloc, log, tx, slot, anode, pieces, end);
    }
    patch(
        alloc,
        log,
        tx,
        slot,
        anode,
        pieces,
        length.min(FILE_BYTES_MAX),
    )
}
