// A disk that notes what is done to it and tells nothing, and what a crash may leave of it.
ghost use Rattle.std.specs.Prelude.{◌≡◌};

use anyhow::Result as Anyhow;
use base_types::{Disk, Failed};
use disk_device::MemDisk;
use std::alloc::{AllocError, Global};

// A call of a disk: of a write where it begins, and how many bytes it has.
#[derive(Clone, Copy)]
pub enum Seen {
    Read,
    Wrote(u64, usize),
    Synced,
}

// A disk, and its reads, its writes and those syncs that succeeded.
#[derive(Drop)]
pub struct Watched<D: Disk> {
    pub disk: D,
    pub seen: Vec<Seen>,
}

impl<D: Disk> Disk for Watched<D> {
    ghost tells = { ⊥ };

    ghost view = { λ watched. D.view watched.disk };

    ghost reads_one = { λ watched told. absurd told };

    ghost has_bytes = { λ watched told. absurd told };

    fn length(&mut self) -> Result<u64, Failed> {
        self.disk.length()
    }

    fn read(&mut self, at: u64, out: &mut [u8]) -> Result<(), Failed> {
        note(&mut self.seen, Seen::Read);
        self.disk.read(at, out)
    }

    fn write_at(&mut self, at: u64, piece: &[u8]) -> Result<(), Failed> {
        note(&mut self.seen, Seen::Wrote(at, piece.len()));
        self.disk.write_at(at, piece)
    }

    fn sync(&mut self) -> Result<(), Failed> {
        self.disk.sync()?;
        note(&mut self.seen, Seen::Synced);
        Ok(())
    }
}

fn note(seen: &mut Vec<Seen>, call: Seen) {
    let _ = seen.push(call);
}

// A disk of these bytes; with a limit it fails each call behind so many.
pub fn watching(alloc: Global, bytes: &[u8], passes: Option<u64>) -> Anyhow<Watched<MemDisk>> {
    let disk = match passes {
        Some(passes) => MemDisk::fuse(alloc, bytes, passes)?,
        None => MemDisk::of(alloc, bytes, &[])?,
    };
    Ok(Watched {
        disk,
        seen: Vec::new(alloc),
    })
}

// How many syncs there were.
pub fn syncs(seen: &[Seen]) -> usize {
    seen.iter()
        .filter(|call| matches!(call, Seen::Synced))
        .count()
}

// The place of the first write at a place or behind it; the end where there is none.
pub fn write_from(seen: &[Seen], from: usize) -> usize {
    for (at, call) in seen.iter().enumerate() {
        if from <= at && matches!(call, Seen::Wrote(_, _)) {
            return at;
        }
    }
    seen.len()
}

// Bytes that a crash may leave: those that a read gives, but for the ranges that were written since the last sync and
// have a bit in the mask, the newest the lowest: the second half of each of these has the byte everywhere.
pub fn torn(
    alloc: Global,
    disk: &Watched<MemDisk>,
    mask: u64,
    byte: u8,
) -> Result<Vec<u8>, AllocError> {
    let mut bytes = Vec::from_slice(alloc, disk.disk.bytes())?;
    let mut mask = mask;
    for call in disk.seen.iter().rev() {
        match call {
            Seen::Wrote(at, len) => {
                if mask % 2 == 1 {
                    fill(&mut bytes, *at as usize, *len, byte);
                }
                mask /= 2;
            }
            Seen::Read => {}
            Seen::Synced => break,
        }
    }
    Ok(bytes)
}

fn fill(bytes: &mut [u8], at: usize, len: usize, byte: u8) {
    let end = at.saturating_add(len);
    if let Some(range) = bytes.get_mut(at.saturating_add(len / 2)..end) {
        range.fill(byte);
    }
}
