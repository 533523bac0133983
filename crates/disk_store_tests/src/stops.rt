//! Runs of acts on a disk in memory that stops, or fails, at one of its calls.

use crate::disks::mounted;
use anyhow::{Context, Result, bail};
use base_types::ServerId;
use disk_device::MemDisk;
use store_memory::MapStore;
use store_test_rows::{Reached, Run, Tried, all_of, is_among};

/// The server whose disk it is.
pub const SERVER: ServerId = ServerId(1);

/// The calls of a disk that is mounted, and of one that the acts are done on.
#[derive(Clone, Copy)]
pub struct Calls {
    pub mount: u64,
    pub all: u64,
}

/// Which calls: each of the last ones, and of the others every so many.
#[derive(Clone, Copy)]
pub struct Stops {
    pub every: u64,
    pub last: u64,
}

impl Stops {
    fn has(self, passes: u64, calls: u64) -> bool {
        calls.saturating_sub(passes) <= self.last || passes.checked_rem(self.every) == Some(0)
    }
}

/// A run on a disk in memory, whose store is mounted before.
#[derive(Clone, Copy)]
pub struct Trial<'a> {
    pub run: Run<'a>,
}

impl<'a> Trial<'a> {
    // What a store in memory tells after none of the acts, the first, the first two and so on.
    fn firsts(self) -> Result<Vec<String>> {
        let Run { alloc, roster, .. } = self.run;
        let mut tried = Tried::new(SERVER, roster, MapStore::new(alloc, SERVER, roster)?);
        let firsts = self.run.firsts(&mut tried);
        drop(tried);
        firsts
    }

    // Mounts a disk, and does the batches up to a fault. Answers the disk.
    fn done_on(self, disk: MemDisk) -> Result<(MemDisk, Reached)> {
        match mounted(self.run.alloc, disk, SERVER, self.run.roster) {
            Ok(mut tried) => {
                let reached = self.run.done_by(&mut tried);
                let disk = tried.into_store().into_disk();
                match reached {
                    Ok(reached) => Ok((disk, reached)),
                    Err(error) => {
                        drop(disk);
                        Err(error)
                    }
                }
            }
            Err(disk) => {
                drop(disk);
                bail!("not mounted")
            }
        }
    }

    /// Mounts a disk of these bytes and does the acts. Answers the calls that it had, and its bytes then.
    pub fn done(self, bytes: &[u8]) -> Result<(Calls, Vec<u8>)> {
        let mount = self.mount_calls(bytes)?;
        let disk = MemDisk::of(self.run.alloc, bytes, &[])?;
        let (disk, reached) = self.done_on(disk)?;
        let all = disk.calls();
        let left = Vec::from_slice(self.run.alloc, disk.bytes());
        drop(disk);
        if reached.answered != reached.begun {
            bail!("a fault of a sound disk");
        }
        Ok((Calls { mount, all }, left?))
    }

    /// How many calls a mount needs.
    pub fn mount_calls(self, bytes: &[u8]) -> Result<u64> {
        let disk = MemDisk::of(self.run.alloc, bytes, &[])?;
        match mounted(self.run.alloc, disk, SERVER, self.run.roster) {
            Ok(tried) => {
                let disk = tried.into_store().into_disk();
                let calls = disk.calls();
                drop(disk);
                Ok(calls)
            }
            Err(disk) => {
                drop(disk);
                bail!("not mounted")
            }
        }
    }

    // All that a store on a disk of these bytes tells once it is mounted.
    fn told_of(self, bytes: &[u8]) -> Result<String> {
        let disk = MemDisk::of(self.run.alloc, bytes, &[])?;
        match mounted(self.run.alloc, disk, SERVER, self.run.roster) {
            Ok(mut tried) => {
                let told = all_of(self.run.alloc, &mut tried, self.run.roster);
                drop(tried);
                told
            }
            Err(disk) => {
                drop(disk);
                bail!("not mounted")
            }
        }
    }

    // Stops the disk after so many calls. Answers its bytes.
    fn stopped(self, bytes: &[u8], passes: u64) -> Result<(Vec<u8>, Reached)> {
        let disk = MemDisk::fuse(self.run.alloc, bytes, passes)?;
        let (disk, reached) = self.done_on(disk)?;
        let left = Vec::from_slice(self.run.alloc, disk.bytes());
        drop(disk);
        Ok((left?, reached))
    }

    // Stops the disk at calls that the acts need. Answers whether a mount then has the first acts, no fewer than were
    // answered. It is mounted only where the last stop left other bytes.
    fn has_firsts(
        self,
        bytes: &[u8],
        stops: Stops,
        calls: Calls,
        firsts: &[String],
    ) -> Result<bool> {
        let mut last = Vec::new(self.run.alloc);
        let mut told = String::new(self.run.alloc);
        for passes in calls.mount..calls.all {
            if stops.has(passes, calls.all) {
                let (left, reached) = self.stopped(bytes, passes)?;
                if left.as_slice() != last.as_slice() {
                    told = self.told_of(left.as_slice())?;
                }
                last = left;
                if !is_among(firsts, reached, told.as_str()) {
                    return Ok(false);
                }
            }
        }
        Ok(true)
    }

    /// Stops the disk at calls that the acts need. Answers what is then mounted.
    pub fn stops_told(self, bytes: &[u8], stops: Stops) -> Result<&'static str> {
        let firsts = self.firsts()?;
        let (calls, left) = self.done(bytes)?;
        let told = self.told_of(left.as_slice())?;
        if !self.has_firsts(bytes, stops, calls, firsts.as_slice())? {
            return Ok("not the first acts");
        }
        match firsts.as_slice().last() {
            Some(last) if last.as_str() == told.as_str() => Ok(
                "the first acts, and all at the end",
            ),
            _ => Ok("not all acts at the end"),
        }
    }

    /// Stops the mount behind the acts at its calls. Answers what is then mounted.
    pub fn mounts_told(self, bytes: &[u8], stops: Stops) -> Result<&'static str> {
        let firsts = self.firsts()?;
        let last = firsts.as_slice().last().context("an act")?;
        let (_, left) = self.done(bytes)?;
        let calls = self.mount_calls(left.as_slice())?;
        for passes in 0..calls {
            if stops.has(passes, calls) {
                let told = self.mount_stopped(left.as_slice(), passes)?;
                if told.as_str() != last.as_str() {
                    return Ok("not all acts");
                }
            }
        }
        Ok("all acts")
    }

    fn mount_stopped(self, bytes: &[u8], passes: u64) -> Result<String> {
        let disk = MemDisk::fuse(self.run.alloc, bytes, passes)?;
        match mounted(self.run.alloc, disk, SERVER, self.run.roster) {
            Ok(tried) => {
                drop(tried);
                bail!("mounted by a disk that stops")
            }
            Err(disk) => {
                let told = self.told_of(disk.bytes());
                drop(disk);
                told
            }
        }
    }

    /// Makes calls that the acts need fail, one in each run, opens the store anew, and does the batch again. Answers
    /// what is told then.
    pub fn fails_told(self, bytes: &[u8], stops: Stops) -> Result<&'static str> {
        let firsts = self.firsts()?;
        let (calls, left) = self.done(bytes)?;
        drop(left);
        for passes in calls.mount..calls.all {
            if stops.has(passes, calls.all) {
                let told = self.failed_at(bytes, passes.saturating_add(1), firsts.as_slice())?;
                if told != "" {
                    return Ok(told);
                }
            }
        }
        Ok("the first acts, and all when done again")
    }

    fn failed_at(self, bytes: &[u8], call: u64, firsts: &[String]) -> Result<&'static str> {
        let disk = MemDisk::of(self.run.alloc, bytes, &[call])?;
        match mounted(self.run.alloc, disk, SERVER, self.run.roster) {
            Ok(mut tried) => {
                let told = self.run.mended(&mut tried, firsts);
                let disk = tried.into_store().into_disk();
                let after = self.told_of(disk.bytes());
                drop(disk);
                let told = told?;
                let after = after?;
                match firsts.last() {
                    Some(last) if last.as_str() == after.as_str() => Ok(told),
                    _ => Ok("not all acts on the disk"),
                }
            }
            Err(disk) => {
                drop(disk);
                bail!("not mounted")
            }
        }
    }
}
