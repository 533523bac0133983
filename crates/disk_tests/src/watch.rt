// A disk that notes what is done to it and tells nothing, and what a crash may leave of it.
ghost use Rattle.std.specs.Prelude.{◌≡◌};

use base_types::{Disk, Failed};
use disk_device::MemDisk;
use std::alloc::{AllocError, Global};

// A call of a disk: where it begins, and of a write how many bytes it has.
#[derive(Clone, Copy)]
pub enum Seen {
    Read(u64),
    Wrote(u64, usize),
    Synced,
}

// A disk, and its reads, its writes and those syncs that succeeded.
#[derive(Drop)]
pub struct Watched<D: Disk> {
    pub disk: D,
    pub seen: Vec<Seen>,
}

impl<D: Disk> Disk for Watched<D> {
    ghost tells = { ⊥ };

    ghost view = { λ watched. D.view watched.disk };

    ghost reads_one = { λ watched told. absurd told };

    ghost has_bytes = { λ watched told. absurd told };

    fn length(&mut self) -> Result<u64, Failed> {
        self.disk.length()
    }

    fn read(&mut self, at: u64, out: &mut [u8]) -> Result<(), Failed> {
        note(&mut self.seen, Seen::Read(at));
        self.disk.read(at, out)
    }

    fn write_at(&mut self, at: u64, piece: &[u8]) -> Result<(), Failed> {
        note(&mut self.seen, Seen::Wrote(at, piece.len()));
        self.disk.write_at(at, piece)
    }

    fn sync(&mut self) -> Result<(), Failed> {
        self.disk.sync()?;
        note(&mut self.seen, Seen::Synced);
        Ok(())
    }
}

fn note(seen: &mut Vec<Seen>, call: Seen) {
    let _ = seen.push(call);
}

pub fn watching(alloc: Global, disk: MemDisk) -> Watched<MemDisk> {
    Watched {
        disk,
        seen: Vec::new(alloc),
    }
}

// How many reads and writes there were that begin at these places, and how many syncs.
pub fn counts(seen: &[Seen], from: u64, up_to: u64) -> [u32; 3] {
    let mut counts = [0u32; 3];
    for call in seen {
        let (kind, at) = match call {
            Seen::Read(at) => (0, *at),
            Seen::Wrote(at, _) => (1, *at),
            Seen::Synced => (2, from),
        };
        if from <= at && at < up_to {
            counts[kind] = counts[kind].saturating_add(1);
        }
    }
    counts
}

// Whether nothing was written since the last sync.
pub fn is_synced(seen: &[Seen]) -> bool {
    for call in seen.iter().rev() {
        match call {
            Seen::Wrote(_, _) => return false,
            Seen::Read(_) => {}
            Seen::Synced => return true,
        }
    }
    true
}

// Bytes that a crash may leave: those that a read gives, but for the ranges that were written since the last sync and
// have a bit in the mask, the newest the lowest: the second half of each of these has the byte everywhere.
pub fn torn(
    alloc: Global,
    disk: &Watched<MemDisk>,
    mask: u64,
    byte: u8,
) -> Result<Vec<u8>, AllocError> {
    let mut bytes = Vec::from_slice(alloc, disk.disk.bytes())?;
    let mut mask = mask;
    for call in disk.seen.iter().rev() {
        match call {
            Seen::Wrote(at, len) => {
                if mask % 2 == 1 {
                    fill(&mut bytes, *at as usize, *len, byte);
                }
                mask /= 2;
            }
            Seen::Read(_) => {}
            Seen::Synced => break,
        }
    }
    Ok(bytes)
}

fn fill(bytes: &mut [u8], at: usize, len: usize, byte: u8) {
    let end = at.saturating_add(len);
    if let Some(range) = bytes.get_mut(at.saturating_add(len / 2)..end) {
        range.fill(byte);
    }
}
