// Bytes of disks by hand.
use crate::watch::{Watched, watching};
use crate::words::{bytes_of, first, large, number};
use anyhow::Result;
use disk_device::MemDisk;
use disk_layout::{Entry, entry_bytes};
use std::alloc::Global;

// Puts a piece in place of what stands at a place.
pub fn edit(bytes: &mut Vec<u8>, at: usize, piece: &[u8]) {
    if let Some(place) = bytes
        .as_mut_slice()
        .get_mut(at..at.saturating_add(piece.len()))
    {
        place.copy_from_slice(piece);
    }
}

// Edits bytes by a row: the place, and the piece.
pub fn edit_by(alloc: Global, bytes: &mut Vec<u8>, words: &str) -> Result<()> {
    let (at, piece) = first(words);
    let piece = bytes_of(alloc, piece)?;
    edit(bytes, large(at) as usize, piece.as_slice());
    Ok(())
}

// Entry k of a half: transaction j puts page 1, or pages 1, 2 and 3, each filled with j, and ends. The last of 2,048
// puts page 4 in place of its end.
fn entry_of(k: u64, is_cycling: bool) -> Entry {
    let each = if is_cycling { 4 } else { 2 };
    let (j, i) = (k / each, k % each);
    let transaction = k - i;
    if i + 1 == each && k != 2_047 {
        return Entry::End { transaction };
    }
    let fill = if k == 2_047 { 8 } else { (j % 251) as u8 };
    let before = if k == 2_047 {
        7
    } else {
        (j.saturating_sub(1) % 251) as u8
    };
    Entry::Update {
        transaction,
        page: 1 + i as u32,
        old: [before; 512],
        new: [fill; 512],
    }
}

// Lays so many entries of generation 1 into half 0.
pub fn lay_entries(bytes: &mut Vec<u8>, words: &str) {
    let (kind, count) = first(words);
    for k in 0..number(count).min(2_048) as u64 {
        let entry = entry_of(k, kind == "cycling");
        edit(bytes, 1_024 + 1_536 * k as usize, &entry_bytes(&entry, 1));
    }
}

// Lays an entry that was left behind, by its generation and its place.
pub fn lay_stale(bytes: &mut Vec<u8>, words: &str) {
    let (generation, at) = first(words);
    let stale = Entry::Update {
        transaction: 4,
        page: 2,
        old: [6; 512],
        new: [8; 512],
    };
    edit(
        bytes,
        large(at) as usize,
        &entry_bytes(&stale, large(generation)),
    );
}

pub fn disk_of(alloc: Global, bytes: &[u8]) -> Result<Watched<MemDisk>> {
    Ok(watching(alloc, MemDisk::of(alloc, bytes, &[])?))
}
