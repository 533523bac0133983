//! What is on a disk: the record of a store as its log is read, and the metadata byte by byte.
ghost use Rattle.disk_log.specs.Log.{IsSoundLog};

use crate::opened::{Outcome, Work};
use anyhow::Result;
use base_types::{Disk, ServerId};
use disk_device::MemDisk;
use disk_layout::{PAGE, PAGES_START};
use disk_log::{Log, settled_pages};
use disk_records::state_in;
use std::alloc::{AllocError, Global};
use store_state::{HostState, StoreState};
use tree_calls::Roster;

// What is told of a store.
#[derive(Clone, Copy)]
struct Facts {
    server: u8,
    capacity: u32,
    epoch: u64,
    next: u32,
    filesets: usize,
    hosts: usize,
}

fn facts_of(state: &StoreState) -> Facts {
    let filesets = state.slots.as_slice().iter().filter(|slot| slot.is_some());
    let hosts = state.hosts.as_slice().iter();
    Facts {
        server: state.server.0,
        capacity: state.capacity,
        epoch: state.epoch,
        next: state.next,
        filesets: filesets.count(),
        hosts: hosts.filter(|host| **host != HostState::Unknown).count(),
    }
}

// The facts of the store that a log holds.
fn facts_in<D: Disk>(
    alloc: Global,
    log: &mut Log<D>,
    server: ServerId,
    roster: &Roster,
) -> Option<Facts>
    requires { IsSoundLog D.tells D.view log.old }
{
    match state_in(alloc, log, server, roster) {
        Ok(state) => {
            let facts = facts_of(&state);
            drop(state);
            Some(facts)
        }
        Err(_) => None,
    }
}

// Mounts the log on a disk, and hands the disk back.
fn facts_on<D: Disk>(
    alloc: Global,
    disk: D,
    server: ServerId,
    roster: &Roster,
) -> (D, Option<Facts>) {
    match Log::mount(alloc, disk) {
        Ok(mut log) => {
            let facts = facts_in(alloc, &mut log, server, roster);
            (log.into_disk(), facts)
        }
        Err((disk, _)) => (disk, None),
    }
}

// Adds the bytes of a page that aren't zero, each with its place.
fn push_page(
    alloc: Global,
    text: &mut String,
    start: u64,
    page: &[u8; PAGE],
) -> Result<(), AllocError> {
    for (at, byte) in page.iter().enumerate() {
        if *byte != 0 {
            let place = start.saturating_add(at as u64);
            text.push_str(format!(in alloc; " {place}={byte}")?.as_str())?;
        }
    }
    Ok(())
}

// The bytes of the metadata that aren't zero, as recovery makes them.
fn metadata(alloc: Global, disk: &mut MemDisk) -> Result<String> {
    let Ok(pages) = settled_pages(alloc, disk) else {
        return Ok(String::from_str(alloc, " no log")?);
    };
    let mut text = String::new(alloc);
    for (number, page) in pages.iter().enumerate() {
        let start = PAGES_START.saturating_add((PAGE as u64).saturating_mul(number as u64));
        push_page(alloc, &mut text, start, page)?;
    }
    Ok(text)
}

// Both as a text.
fn told(alloc: Global, disk: &mut MemDisk, facts: Option<Facts>) -> Result<String> {
    let Some(facts) = facts else {
        return Ok(String::from_str(alloc, "no record")?);
    };
    let metadata = metadata(alloc, disk)?;
    let Facts {
        server,
        capacity,
        epoch,
        next,
        filesets,
        hosts,
    } = facts;
    Ok(format!(in alloc;
        "s{server} {capacity} blocks epoch {epoch} next {next} filesets {filesets} hosts {hosts}:{metadata}"
    )?)
}

/// What the record on a disk of these bytes is.
pub fn record(alloc: Global, bytes: &[u8], server: ServerId, roster: &Roster) -> Result<String> {
    let disk = MemDisk::of(alloc, bytes, &[])?;
    let (disk, facts) = facts_on(alloc, disk, server, roster);
    let mut disk = disk;
    let told = told(alloc, &mut disk, facts);
    drop(disk);
    told
}

/// The record that a disk of these bytes has once it is mounted, or how its mount is refused.
pub fn record_mounted(
    alloc: Global,
    bytes: &[u8],
    server: ServerId,
    roster: &Roster,
) -> Result<String> {
    let disk = MemDisk::of(alloc, bytes, &[])?;
    let (disk, outcome) = Work::Mount.done(alloc, disk, server, roster);
    let told = match outcome {
        Outcome::Done => record(alloc, disk.bytes(), server, roster),
        _ => match outcome.text(alloc) {
            Ok(text) => Ok(text),
            Err(error) => Err(error.into()),
        },
    };
    drop(disk);
    told
}
