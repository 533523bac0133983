ghost use Rattle.std.specs.Prelude.{◌≡◌, ◌+◌, ◌-◌, ◌<◌, ◌≤◌, ◌++◌, ◌==◌, ◌&&◌, not, true, [], slice_get, length, filter, insert};
ghost use Rattle.std.specs.Prelude.{IfOk, OnOk, OnErr};
ghost use Rattle.std.specs.List.{list_all};
ghost use Rattle.base_types.specs.declared.limits.TheConstants.{FILE_BYTES_MAX};
ghost use Rattle.tree_objects.specs.Changes.{unsaved_after};
ghost use Rattle.tree_objects.specs.Files.{bytes_over};
ghost use Rattle.tree_objects.specs.Positions.{written};
ghost use Rattle.tree_objects.specs.Stores.{is_stored};
ghost use Rattle.tree_objects.specs.Stretches.{all_bytes, is_stretch, are_stretches, piece_of, reaches};

use crate::bytes::{bytes_over, lengthen, put_each};
use crate::content::Unsaved;
use crate::parts::{cut_at, cut_of, put_between};
use crate::splits::split_stored;
use crate::stretch::{
    PIECE_BYTES, Stretch, first_byte, push_above, push_below, push_written, reaches, write_in,
};
use base_types::{HostId, Items, NoMemory, Plain, Span};
use std::alloc::Global;
use std::marker::Model;

/// The bytes of a file that aren't stored yet, in the order of their positions, each of which has at most one.
/// Contracts see it as the list of these bytes.
pub struct UnsavedBytes {
    stretches: Items<Stretch>,
}

impl Drop for UnsavedBytes {
    fn drop(self) {
        let UnsavedBytes { stretches: _ } = self;
    }
}

impl Model for UnsavedBytes {
    ghost use Rattle.std.specs.Prelude.{◌≡◌, true, List};
    ghost use Rattle.tree_objects.specs.declared.content.Unsaved.{Unsaved};
    ghost use Rattle.tree_objects.specs.Stretches.{all_bytes, are_stretches};

    ghost Value = { List Unsaved };

    ghost view = { λ a. all_bytes a.stretches };

    ghost invariant = { λ a. are_stretches a.stretches ≡ true };
}

impl UnsavedBytes {
    /// No bytes. It takes no memory.
    pub fn new(alloc: Global) -> UnsavedBytes
        ensures { result ≡ [] }
    {
        UnsavedBytes {
            stretches: Items::new(alloc),
        }
    }

    #[tactic(auto, using(crate::proofs::Pieces::empty_alike, crate::proofs::Observed::and_left))]
    pub fn is_empty(&self) -> bool
        ensures { result ≡ (length self.now == 0) }
    {
        self.stretches.as_slice().is_empty()
    }

    /// The first of the bytes, where there is one.
    #[tactic(auto, using(crate::proofs::Pieces::first_some, crate::proofs::Pieces::first_none, crate::proofs::Observed::and_left))]
    pub fn first(&self) -> Option<Unsaved>
        ensures { result ≡ slice_get self.now 0 }
    {
        match self.stretches.as_slice().first() {
            Some(stretch) => first_byte(stretch),
            None => None,
        }
    }

    /// The bytes, in the order of their positions.
    pub fn to_items(&self) -> Result<Items<Unsaved>, NoMemory>
        ensures { IfOk result (λ bytes. bytes ≡ self.now) }
    {
        bytes_in(self.stretches.alloc(), self.stretches())
    }

    /// The stretches in which the bytes stand.
    pub(crate) fn stretches(&self) -> &[Stretch]
        ensures value { all_bytes result.now ≡ self.now }
        ensures each { list_all is_stretch result.now ≡ true }
    {
        self.stretches.as_slice()
    }

    /// The bytes of a file from the position `from` on and before `end`: the unsaved ones where there are any, else the
    /// kept ones, else zeros.
    pub(crate) fn over(
        &self,
        kept: &Items<u8>,
        from: usize,
        end: usize,
    ) -> Result<Items<u8>, NoMemory>
        ensures { IfOk result (λ bytes. bytes ≡ bytes_over kept.now self.now from (end - from)) }
    {
        let stretches = self.stretches.as_slice();
        let cut = cut_at(stretches, from, end);
        let part = &stretches[cut.from..cut.to];
        bytes_over(kept, part, from, end.saturating_sub(from))
    }

    /// Adds the bytes that a host writes from a position on. Only those that are written over give way.
    pub(crate) fn write(&mut self, host: HostId, from: u32, bytes: &[u8]) -> Result<(), NoMemory>
        requires { from + length bytes.now ≤ FILE_BYTES_MAX }
        ensures ok { OnOk result (self.new ≡ unsaved_after self.old host from bytes.now) }
        ensures err { OnErr result (self.new ≡ self.old) }
    {
        put_written(&mut self.stretches, host, from, bytes)?;
        Ok(())
    }

    /// Lets the bytes of a host go.
    pub(crate) fn forget(&mut self, host: HostId)
        ensures { self.new ≡ filter (λ byte. not (byte.writer.0 == host.0)) self.old }
    {
        drop_own(&mut self.stretches, host);
    }

    /// Stores what a host has in these spans below the position `end`: its bytes go, over the kept ones, of which the
    /// first `end` stay, with zeros where there are fewer. After `NoMemory` nothing has changed.
    pub(crate) fn store(
        &mut self,
        kept: &mut Items<u8>,
        host: HostId,
        spans: &[Span],
        end: usize,
    ) -> Result<(), NoMemory>
        ensures kept { OnOk result
            (kept.new ≡ bytes_over kept.old (filter (is_stored host spans.now end) self.old) 0 end) }
        ensures left { OnOk result
            (self.new ≡ filter (λ byte. not (is_stored host spans.now end byte)) self.old) }
        ensures err { OnErr result ((self.new ≡ self.old) × (kept.new ≡ kept.old)) }
    {
        let stretches = self.stretches.as_slice();
        let cut = cut_of(stretches, spans, end);
        let part = &stretches[cut.from..cut.to];
        let (stored, left) = split_stored(self.stretches.alloc(), part, host, spans, end)?;
        let before = kept.len();
        lengthen(kept, end)?;
        match put_between(&mut self.stretches, cut, left) {
            Ok(()) => {
                kept.truncate(end);
                put_each(kept, stored.as_slice(), 0);
                Ok(())
            }
            Err(NoMemory) => {
                kept.truncate(before);
                Err(NoMemory)
            }
        }
    }
}

impl Plain for UnsavedBytes {
    fn copy(&self) -> Result<UnsavedBytes, NoMemory> {
        Ok(UnsavedBytes {
            stretches: self.stretches.copy()?,
        })
    }
}

// The bytes of stretches, each with its position.
fn bytes_in(alloc: Global, stretches: &[Stretch]) -> Result<Items<Unsaved>, NoMemory>
    requires { list_all is_stretch stretches.now ≡ true }
    ensures { IfOk result (λ bytes. bytes ≡ all_bytes stretches.now) }
{
    let mut bytes = Items::new(alloc);
    for stretch in stretches {
        let values = stretch.bytes.as_slice();
        push_bytes(&mut bytes, stretch.writer, stretch.from, values)?;
    }
    Ok(bytes)
}

// Adds the bytes that a host writes from a position on, each with its position.
fn push_bytes(
    list: &mut Items<Unsaved>,
    host: HostId,
    from: u32,
    bytes: &[u8],
) -> Result<(), NoMemory>
    requires { from + length bytes.now ≤ FILE_BYTES_MAX }
    ensures { OnOk result (list.new ≡ list.old ++ written host from bytes.now) }
{
    for (i, value) in bytes.iter().enumerate() {
        list.push(Unsaved {
            at: from + i as u32,
            value: *value,
            writer: host,
        })?;
    }
    Ok(())
}

// Puts the bytes that a host writes from a position on among those of stretches, in the place of those that are written
// over. A stretch of the host that goes on there becomes longer.
fn put_written(
    stretches: &mut Items<Stretch>,
    host: HostId,
    from: u32,
    bytes: &[u8],
) -> Result<(), NoMemory>
    requires stand { are_stretches stretches.old ≡ true }
    requires within { from + length bytes.now ≤ FILE_BYTES_MAX }
    ensures ok { OnOk result (all_bytes stretches.new ≡ unsaved_after (all_bytes stretches.old) host from bytes.now) }
    ensures each { OnOk result (list_all is_stretch stretches.new ≡ true) }
    ensures err { OnErr result (stretches.new ≡ stretches.old) }
{
    let list = stretches.as_slice();
    let to = from as usize + bytes.len();
    let near = cut_at(list, (from as usize).saturating_sub(1), to);
    if takes(&list[near.from..near.to], host, from, to) {
        write_in(stretches.get_mut(near.from), from, bytes)
    } else {
        write_over(stretches, host, from, bytes)
    }
}

// Whether a part is one stretch that a host may go on with by a write from a position on and before another.
fn takes(part: &[Stretch], host: HostId, from: u32, to: usize) -> bool
    ensures { result ≡ ((length part.now == 1) && list_all (reaches host from to) part.now) }
{
    part.len() == 1 && each_reaches(part, host, from, to)
}

fn each_reaches(part: &[Stretch], host: HostId, from: u32, to: usize) -> bool
    ensures { result ≡ list_all (reaches host from to) part.now }
{
    part.iter().all(|stretch| reaches(stretch, host, from, to))
}

// Puts the bytes that a host writes from a position on among those of stretches, as stretches of their own.
fn write_over(
    stretches: &mut Items<Stretch>,
    host: HostId,
    from: u32,
    bytes: &[u8],
) -> Result<(), NoMemory>
    requires stand { are_stretches stretches.old ≡ true }
    requires within { from + length bytes.now ≤ FILE_BYTES_MAX }
    ensures ok { OnOk result (all_bytes stretches.new ≡ unsaved_after (all_bytes stretches.old) host from bytes.now) }
    ensures each { OnOk result (list_all is_stretch stretches.new ≡ true) }
    ensures err { OnErr result (stretches.new ≡ stretches.old) }
{
    let alloc = stretches.alloc();
    let list = stretches.as_slice();
    let cut = cut_at(list, from as usize, from as usize + bytes.len());
    if cut.from == cut.to && is_piece(bytes) {
        return put_piece(stretches, cut.from, host, from, bytes);
    }
    let written = written_over(alloc, &list[cut.from..cut.to], host, from, bytes)?;
    put_between(stretches, cut, written)?;
    Ok(())
}

// Whether bytes make one stretch.
fn is_piece(bytes: &[u8]) -> bool
    ensures { result ≡ true → 0 < length bytes.now }
{
    !bytes.is_empty() && bytes.len() <= PIECE_BYTES
}

// Puts the bytes that a host writes from a position on before the stretch at a place, as one stretch.
fn put_piece(
    stretches: &mut Items<Stretch>,
    at: usize,
    host: HostId,
    from: u32,
    bytes: &[u8],
) -> Result<(), NoMemory>
    requires { at ≤ length stretches.old }
    ensures ok { OnOk result (stretches.new ≡ insert stretches.old at (piece_of host from bytes.now)) }
    ensures err { OnErr result (stretches.new ≡ stretches.old) }
{
    let bytes = Items::from_slice(stretches.alloc(), bytes)?;
    stretches.insert(
        at,
        Stretch {
            from,
            writer: host,
            bytes,
        },
    )
}

// What a write leaves of stretches: those of their bytes that stand below it, the written ones, and those above it.
fn written_over(
    alloc: Global,
    part: &[Stretch],
    host: HostId,
    from: u32,
    bytes: &[u8],
) -> Result<Vec<Stretch>, NoMemory>
    requires within { from + length bytes.now ≤ FILE_BYTES_MAX }
    requires each { list_all is_stretch part.now ≡ true }
    ensures value { IfOk result
        (λ list. all_bytes list.items ≡ unsaved_after (all_bytes part.now) host from bytes.now) }
    ensures each { IfOk result (λ list. list_all is_stretch list.items ≡ true) }
{
    let mut list = Vec::with_capacity(alloc, 3)?;
    push_below(&mut list, part, from as usize)?;
    push_written(&mut list, host, from, bytes)?;
    push_above(&mut list, part, from as usize + bytes.len())?;
    Ok(list)
}

// Lets the stretches of a host go.
fn drop_own(stretches: &mut Items<Stretch>, host: HostId)
    ensures { stretches.new ≡ filter (λ stretch. not (stretch.writer.0 == host.0)) stretches.old }
{
    stretches.retain(|stretch| stretch.writer != host);
}
