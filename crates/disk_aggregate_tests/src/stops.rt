//! Disks that stop at one of their calls.

use crate::opened::{Outcome, Work};
use crate::record::record_mounted;
use anyhow::Result;
use base_types::ServerId;
use disk_device::MemDisk;
use std::alloc::Global;
use tree_calls::Roster;

/// Which of the calls a disk stops at: each of the last ones, and of the others every so many.
#[derive(Clone, Copy)]
pub struct Stops {
    pub every: u64,
    pub last: u64,
}

impl Stops {
    fn has(self, passes: u64, calls: u64) -> bool {
        calls.saturating_sub(passes) <= self.last || passes.checked_rem(self.every) == Some(0)
    }
}

// How many calls of a sound disk the work needs.
fn calls_of(
    alloc: Global,
    work: Work,
    bytes: &[u8],
    server: ServerId,
    roster: &Roster,
) -> Result<u64> {
    let disk = MemDisk::of(alloc, bytes, &[])?;
    let (disk, _) = work.done(alloc, disk, server, roster);
    let calls = disk.calls();
    drop(disk);
    Ok(calls)
}

// Stops the work after so many calls. Answers what is then mounted of the bytes that are left.
fn stopped(
    alloc: Global,
    work: Work,
    bytes: &[u8],
    passes: u64,
    server: ServerId,
    roster: &Roster,
) -> Result<String> {
    let disk = MemDisk::fuse(alloc, bytes, passes)?;
    let (disk, outcome) = work.done(alloc, disk, server, roster);
    let told = match outcome {
        Outcome::Failed => record_mounted(alloc, disk.bytes(), server, roster),
        _ => Ok(String::from_str(alloc, "not failed")?),
    };
    drop(disk);
    told
}

/// Stops the work at its calls, one after the other. Answers what is then mounted, told anew each time that it is
/// something else.
pub fn stops_told(
    alloc: Global,
    work: Work,
    bytes: &[u8],
    stops: Stops,
    server: ServerId,
    roster: &Roster,
) -> Result<String> {
    let calls = calls_of(alloc, work, bytes, server, roster)?;
    let mut text = String::new(alloc);
    let mut last = String::new(alloc);
    for passes in 0..calls {
        if stops.has(passes, calls) {
            let told = stopped(alloc, work, bytes, passes, server, roster)?;
            if told.as_str() != last.as_str() {
                text.push_str(if passes == 0 { "" } else { "; " })?;
                text.push_str(told.as_str())?;
                last = told;
            }
        }
    }
    Ok(text)
}
