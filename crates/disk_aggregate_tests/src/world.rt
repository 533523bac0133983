//! The bytes of a disk, and the rows that they answer.

use crate::opened::{Outcome, Work};
use crate::record::{record, record_mounted};
use crate::stops::{Stops, stops_told};
use crate::words::{first, noise, number, put_all, roster, server, size};
use anyhow::{Context, Result, bail};
use base_types::ServerId;
use disk_device::MemDisk;
use std::alloc::Global;
use tree_calls::Roster;

/// A disk that rows speak of.
#[derive(Drop)]
pub struct World {
    alloc: Global,
    bytes: Vec<u8>,
}

// The work that a word names.
fn work_of(word: &str) -> Result<Work> {
    match word {
        "format" => Ok(Work::Format),
        "mount" => Ok(Work::Mount),
        _ => bail!("no such work: {word}"),
    }
}

impl World {
    /// A disk of no bytes.
    pub fn new(alloc: Global) -> World {
        World {
            alloc,
            bytes: Vec::new(alloc),
        }
    }

    /// What a row is answered.
    pub fn told(&mut self, row: &str) -> Result<String> {
        let (kind, words) = first(row);
        match kind {
            "disk" => self.lay(words)?,
            "noise" => {
                let (length, seed) = first(words);
                self.bytes = noise(self.alloc, size(length)?, number(seed)?)?;
            }
            "put" => put_all(self.alloc, self.bytes.as_mut_slice(), words)?,
            "bytes" => return self.spelled(words),
            _ => return self.told_of(kind, words),
        }
        Ok(String::new(self.alloc))
    }

    // `LENGTH*VALUE`
    fn lay(&mut self, words: &str) -> Result<()> {
        let (length, value) = words.split_once('*').context("a length and a byte")?;
        let value = value.parse::<u8>().ok().context("a byte")?;
        self.bytes = vec![in self.alloc; value; size(length)?]?;
        Ok(())
    }

    // `PLACE COUNT`
    fn spelled(&self, words: &str) -> Result<String> {
        let (at, count) = first(words);
        let at = size(at)?;
        let end = at.saturating_add(size(count)?);
        let bytes = self.bytes.get(at..end).context("a place on the disk")?;
        Ok(hex::encode(self.alloc, bytes)?)
    }

    // `KIND SERVER CAPACITIES ..`
    fn told_of(&mut self, kind: &str, words: &str) -> Result<String> {
        let (at, words) = first(words);
        let (capacities, words) = first(words);
        let at = server(at)?;
        let roster = roster(self.alloc, capacities)?;
        let told = self.told_for(kind, at, &roster, words);
        drop(roster);
        told
    }

    fn told_for(
        &mut self,
        kind: &str,
        server: ServerId,
        roster: &Roster,
        words: &str,
    ) -> Result<String> {
        let bytes = self.bytes.as_slice();
        match kind {
            "record" => record(self.alloc, bytes, server, roster),
            "mounted" => record_mounted(self.alloc, bytes, server, roster),
            "damaged" => self.damaged(server, roster, words),
            "stops" => {
                let (work, words) = first(words);
                let (every, last) = first(words);
                let every = number(every)?;
                let last = number(last)?;
                let stops = Stops { every, last };
                stops_told(self.alloc, work_of(work)?, bytes, stops, server, roster)
            }
            _ => self.worked(work_of(kind)?, server, roster),
        }
    }

    // Does the work to the disk, whose bytes are then what it left.
    fn worked(&mut self, work: Work, server: ServerId, roster: &Roster) -> Result<String> {
        let disk = MemDisk::of(self.alloc, self.bytes.as_slice(), &[])?;
        let (disk, outcome) = work.done(self.alloc, disk, server, roster);
        let left = Vec::from_slice(self.alloc, disk.bytes());
        drop(disk);
        let left = left?;
        let changed = left.as_slice() != self.bytes.as_slice();
        self.bytes = left;
        let mut text = outcome.text(self.alloc)?;
        if changed && matches!(outcome, Outcome::Refused(_)) {
            text.push_str(", and written")?;
        }
        Ok(text)
    }

    // Mounts the disk with other bytes in some places. It stays as it was.
    fn damaged(&mut self, server: ServerId, roster: &Roster, words: &str) -> Result<String> {
        let whole = Vec::from_slice(self.alloc, self.bytes.as_slice())?;
        put_all(self.alloc, self.bytes.as_mut_slice(), words)?;
        let told = self.worked(Work::Mount, server, roster);
        self.bytes = whole;
        told
    }
}
