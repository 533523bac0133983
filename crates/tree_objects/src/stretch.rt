//! Stretches of unsaved bytes.
ghost use Rattle.std.specs.Prelude.{◌≡◌, ◌≤◌, ◌+◌, ◌-◌, ◌++◌, true, take, drop, length, min, slice_get, filter, nat_lt};
ghost use Rattle.std.specs.Prelude.{nat_le, OnOk, OnErr, IfOk};
ghost use Rattle.std.specs.List.{list_all};
ghost use Rattle.base_types.specs.declared.limits.TheConstants.{FILE_BYTES_MAX};
ghost use Rattle.tree_objects.specs.Positions.{written};
ghost use Rattle.tree_objects.specs.Stretches.{bytes_of, all_bytes, is_stretch, reaches, written_in};

use crate::bytes::replace;
use crate::content::Unsaved;
use base_types::{HostId, Items, NoMemory, Plain};
use std::alloc::Global;

/// How many bytes a stretch has at most; a longer write makes several.
pub const PIECE_BYTES: usize = 1_024;

/// Bytes that a host has written at positions of a file that follow one another, and not stored yet.
pub struct Stretch {
    /// The position of the first byte.
    pub from: u32,
    /// The host that wrote them.
    pub writer: HostId,
    /// The bytes.
    pub bytes: Items<u8>,
}

impl Drop for Stretch {
    fn drop(self) {
        let Stretch {
            from: _,
            writer: _,
            bytes: _,
        } = self;
    }
}

impl Plain for Stretch {
    fn copy(&self) -> Result<Stretch, NoMemory> {
        Ok(Stretch {
            from: self.from,
            writer: self.writer,
            bytes: self.bytes.to_items()?,
        })
    }
}

/// The position behind the last byte of a stretch.
pub(crate) fn end(stretch: &Stretch) -> usize
    ensures { result ≡ stretch.now.from + length stretch.now.bytes }
{
    stretch.from as usize + stretch.bytes.as_slice().len()
}

/// Whether a host may go on with a stretch by a write from a position on and before another: it begins in the stretch
/// or directly behind it, and leaves it no longer than a piece, or than it was.
pub(crate) fn reaches(stretch: &Stretch, host: HostId, from: u32, to: usize) -> bool
    ensures { result ≡ reaches host from to stretch.now }
{
    let last = end(stretch);
    let room = stretch.from as usize + PIECE_BYTES;
    stretch.writer == host && stretch.from <= from && from as usize <= last && to <= last.max(room)
}

/// Writes bytes in a stretch from a position on, which it reaches.
pub(crate) fn write_in(stretch: &mut Stretch, from: u32, bytes: &[u8]) -> Result<(), NoMemory>
    requires begun { stretch.old.from ≤ from }
    requires reached { from ≤ stretch.old.from + length stretch.old.bytes }
    ensures ok { OnOk result (stretch.new ≡ written_in stretch.old from bytes.now) }
    ensures err { OnErr result (stretch.new ≡ stretch.old) }
{
    let at = (from - stretch.from) as usize;
    replace(&mut stretch.bytes, at, bytes)
}

/// The first byte of a stretch.
#[tactic(auto, using(crate::proofs::Pieces::first_of))]
pub(crate) fn first_byte(stretch: &Stretch) -> Option<Unsaved>
    ensures { result ≡ slice_get (bytes_of stretch.now) 0 }
{
    match stretch.bytes.as_slice().first() {
        Some(value) => Some(Unsaved {
            at: stretch.from,
            value: *value,
            writer: stretch.writer,
        }),
        None => None,
    }
}

/// Adds the bytes that a host writes from a position on, in pieces.
pub(crate) fn push_written(
    list: &mut Vec<Stretch>,
    host: HostId,
    from: u32,
    bytes: &[u8],
) -> Result<(), NoMemory>
    requires { from + length bytes.now ≤ FILE_BYTES_MAX }
    ensures bytes { OnOk result (all_bytes list.new.items ≡ all_bytes list.old.items ++ written host from bytes.now) }
    ensures each { OnOk result (list_all is_stretch list.old.items ≡ true → list_all is_stretch list.new.items ≡ true) }
{
    let mut done = 0;
    while done < bytes.len() {
        let next = bytes.len().min(done + PIECE_BYTES);
        push_piece(list, host, from + done as u32, &bytes[done..next])?;
        done = next;
    }
    Ok(())
}

// Adds a stretch of the bytes that a host writes from a position on, where there are some.
#[tactic(auto, using(crate::proofs::Pieces::one_more, crate::proofs::Pieces::each_more, crate::proofs::Pieces::none_more, crate::proofs::Pieces::made_of))]
fn push_piece(
    list: &mut Vec<Stretch>,
    host: HostId,
    from: u32,
    bytes: &[u8],
) -> Result<(), NoMemory>
    requires { from + length bytes.now ≤ FILE_BYTES_MAX }
    ensures bytes { OnOk result (all_bytes list.new.items ≡ all_bytes list.old.items ++ written host from bytes.now) }
    ensures each { OnOk result (list_all is_stretch list.old.items ≡ true → list_all is_stretch list.new.items ≡ true) }
{
    if !bytes.is_empty() {
        let bytes = Items::from_slice(*list.allocator(), bytes)?;
        list.push(Stretch {
            from,
            writer: host,
            bytes,
        })?;
    }
    Ok(())
}

/// Adds a part of a stretch: its bytes from the place `from` on and before `to`.
pub(crate) fn push_part(
    list: &mut Vec<Stretch>,
    stretch: &Stretch,
    from: usize,
    to: usize,
) -> Result<(), NoMemory>
    requires ordered { from ≤ to }
    requires within { to ≤ length stretch.now.bytes }
    requires stretch { is_stretch stretch.now ≡ true }
    ensures bytes { OnOk result (all_bytes list.new.items
        ≡ all_bytes list.old.items ++ written stretch.now.writer (stretch.now.from + from)
        (take (to - from) (drop from stretch.now.bytes))) }
    ensures each { OnOk result (list_all is_stretch list.old.items ≡ true → list_all is_stretch list.new.items ≡ true) }
{
    push_written(
        list,
        stretch.writer,
        stretch.from + from as u32,
        &stretch.bytes.as_slice()[from..to],
    )
}

/// Adds those bytes of stretches that stand below a position.
pub(crate) fn push_below(
    list: &mut Vec<Stretch>,
    stretches: &[Stretch],
    end: usize,
) -> Result<(), NoMemory>
    requires { list_all is_stretch stretches.now ≡ true }
    ensures bytes { OnOk result (all_bytes list.new.items
        ≡ all_bytes list.old.items ++ filter (λ byte. nat_lt byte.at end) (all_bytes stretches.now)) }
    ensures each { OnOk result (list_all is_stretch list.old.items ≡ true → list_all is_stretch list.new.items ≡ true) }
{
    for stretch in stretches {
        push_front(list, stretch, end)?;
    }
    Ok(())
}

fn push_front(list: &mut Vec<Stretch>, stretch: &Stretch, end: usize) -> Result<(), NoMemory>
    requires { is_stretch stretch.now ≡ true }
    ensures bytes { OnOk result (all_bytes list.new.items
        ≡ all_bytes list.old.items ++ filter (λ byte. nat_lt byte.at end) (bytes_of stretch.now)) }
    ensures each { OnOk result (list_all is_stretch list.old.items ≡ true → list_all is_stretch list.new.items ≡ true) }
{
    let count = end
        .saturating_sub(stretch.from as usize)
        .min(stretch.bytes.len());
    push_part(list, stretch, 0, count)
}

/// Adds those bytes of stretches that stand from a position on.
pub(crate) fn push_above(
    list: &mut Vec<Stretch>,
    stretches: &[Stretch],
    from: usize,
) -> Result<(), NoMemory>
    requires { list_all is_stretch stretches.now ≡ true }
    ensures bytes { OnOk result (all_bytes list.new.items
        ≡ all_bytes list.old.items ++ filter (λ byte. nat_le from byte.at) (all_bytes stretches.now)) }
    ensures each { OnOk result (list_all is_stretch list.old.items ≡ true → list_all is_stretch list.new.items ≡ true) }
{
    for stretch in stretches {
        push_rest(list, stretch, from)?;
    }
    Ok(())
}

fn push_rest(list: &mut Vec<Stretch>, stretch: &Stretch, from: usize) -> Result<(), NoMemory>
    requires { is_stretch stretch.now ≡ true }
    ensures bytes { OnOk result (all_bytes list.new.items
        ≡ all_bytes list.old.items ++ filter (λ byte. nat_le from byte.at) (bytes_of stretch.now)) }
    ensures each { OnOk result (list_all is_stretch list.old.items ≡ true → list_all is_stretch list.new.items ≡ true) }
{
    let count = stretch.bytes.len();
    let skipped = from.saturating_sub(stretch.from as usize).min(count);
    push_part(list, stretch, skipped, count)
}
