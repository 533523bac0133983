//! The bytes of one disk, and the rows that they answer.

use crate::disks::formatted;
use crate::stops::{Calls, SERVER, Stops, Trial};
use anyhow::{Context, Result, bail};
use base_types::{CAPACITY_MAX, CAPACITY_MIN};
use disk_device::MemDisk;
use std::alloc::Global;
use store_test_rows::{Run, roster};
use tree_calls::Roster;

/// The disk of a server in memory.
#[derive(Drop)]
pub struct OneDisk {
    alloc: Global,
    roster: Roster,
    bytes: Vec<u8>,
    // the batches that were done on it
    base: String,
}

// The first word, and what is behind it.
fn first(words: &str) -> (&str, &str) {
    let (word, rest) = words.split_once(' ').unwrap_or((words, ""));
    (word, rest.trim())
}

fn number(word: &str) -> Result<u64> {
    word.parse::<u64>().ok().context("a number")
}

impl OneDisk {
    /// A disk of no bytes.
    pub fn new(alloc: Global) -> Result<OneDisk> {
        Ok(OneDisk {
            alloc,
            roster: roster(alloc, &[CAPACITY_MIN])?,
            bytes: Vec::new(alloc),
            base: String::new(alloc),
        })
    }

    fn trial<'a>(&'a self, acts: &'a str) -> Trial<'a> {
        Trial {
            run: Run {
                alloc: self.alloc,
                roster: &self.roster,
                base: self.base.as_str(),
                acts,
            },
        }
    }

    /// What a row is answered.
    pub fn told(&mut self, row: &str) -> Result<String> {
        let (kind, words) = first(row);
        match kind {
            "new" => self.format(words)?,
            "again" => self.mount(words)?,
            "base" => self.add(words)?,
            "calls" => return self.calls(words),
            "blocks" => return self.blocks(words),
            _ => return Ok(String::from_str(self.alloc, self.stopped(kind, words)?)?),
        }
        Ok(String::new(self.alloc))
    }

    // `new CAPACITY`: a disk is formatted.
    fn format(&mut self, words: &str) -> Result<()> {
        let capacity = words.parse::<u32>().ok().context("a capacity")?;
        if capacity < CAPACITY_MIN || CAPACITY_MAX < capacity {
            bail!("no capacity: {capacity}");
        }
        let roster = roster(self.alloc, &[capacity])?;
        let bytes = new_bytes(self.alloc, &roster);
        self.roster = roster;
        self.bytes = bytes?;
        self.base = String::new(self.alloc);
        Ok(())
    }

    // `again COUNT`: it is mounted so many times, which leaves it as it is.
    fn mount(&self, words: &str) -> Result<()> {
        for _ in 0..number(words)? {
            self.trial("").mount_calls(self.bytes.as_slice())?;
        }
        Ok(())
    }

    // The bytes of the disk once batches are done.
    fn after(&self, words: &str) -> Result<Vec<u8>> {
        let (_, bytes) = self.trial(words).done(self.bytes.as_slice())?;
        Ok(bytes)
    }

    // `base ACTS | ACTS`: batches that are done.
    fn add(&mut self, words: &str) -> Result<()> {
        let bytes = self.after(words)?;
        self.bytes = bytes;
        self.base.push_str(" | ")?;
        self.base.push_str(words)?;
        Ok(())
    }

    // `stops EVERY LAST ACTS | ACTS`: the disk stops at calls of the acts; `mounts ..`: of the mount behind them; and
    // `fails ..`: one of their calls fails.
    fn stopped(&self, kind: &str, words: &str) -> Result<&'static str> {
        let (every, words) = first(words);
        let (last, words) = first(words);
        let stops = Stops {
            every: number(every)?,
            last: number(last)?,
        };
        let trial = self.trial(words);
        match kind {
            "stops" => trial.stops_told(self.bytes.as_slice(), stops),
            "mounts" => trial.mounts_told(self.bytes.as_slice(), stops),
            "fails" => trial.fails_told(self.bytes.as_slice(), stops),
            _ => bail!("no such row: {kind}"),
        }
    }

    // `calls ACTS | ACTS`: how many calls the batches need, and a mount before them.
    fn calls(&self, words: &str) -> Result<String> {
        let (calls, _) = self.trial(words).done(self.bytes.as_slice())?;
        let Calls { mount, all } = calls;
        let behind = all.saturating_sub(mount);
        Ok(format!(in self.alloc; "{behind} behind {mount}")?)
    }

    // `blocks FIRST ACTS | ACTS`: how many KiB from a place on are changed by the batches.
    fn blocks(&self, words: &str) -> Result<String> {
        let (start, words) = first(words);
        let start = number(start)? as usize;
        let (_, left) = self.trial(words).done(self.bytes.as_slice())?;
        let old = self.bytes.get(start..).context("a place")?;
        let new = left.as_slice().get(start..).context("a place")?;
        let changed = changed(old, new);
        Ok(format!(in self.alloc; "{changed}")?)
    }
}

// The bytes of the disk of the first server of a roster, with its new store.
fn new_bytes(alloc: Global, roster: &Roster) -> Result<Vec<u8>> {
    let disk = MemDisk::new(alloc, &[])?;
    let tried = formatted(alloc, disk, SERVER, roster)?;
    let disk = tried.into_store().into_disk();
    let bytes = Vec::from_slice(alloc, disk.bytes());
    drop(disk);
    Ok(bytes?)
}

// The piece of a KiB of this number, from 0; what is behind the end is left out.
fn piece(bytes: &[u8], number: usize) -> &[u8] {
    let from = number.saturating_mul(1_024).min(bytes.len());
    let to = from.saturating_add(1_024).min(bytes.len());
    &bytes[from..to]
}

// Whether two pieces are the same, where what is behind the end of the first one counts as zeros.
fn is_same(old: &[u8], new: &[u8]) -> bool {
    if old.is_empty() {
        return new.iter().all(|byte| *byte == 0);
    }
    old == new
}

// How many pieces of a KiB differ.
fn changed(old: &[u8], new: &[u8]) -> u64 {
    let mut count = 0u64;
    for number in 0..new.len().div_ceil(1_024) {
        if !is_same(piece(old, number), piece(new, number)) {
            count = count.saturating_add(1);
        }
    }
    count
}
