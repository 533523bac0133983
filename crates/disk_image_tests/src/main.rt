//! The check of disks by example. Standard input is a table of disks, and below each of them rows: bytes that are
//! put on it, and the faults that it then has. Every row that gets something else is printed, and at the end the
//! number of rows.
#![tactic(auto)]

mod row;

use anyhow::{Context, Result, bail};
use base_types::{DISK_END, Disk};
use disk_check::{check, check_first, check_shared};
use disk_device::MemDisk;
use disk_image::{Fault, blank_law, image_law, place_law, superblock_law};
use disk_image_laws::{formed_law, fresh_law, reach_law};
use disk_layout::BLOCKS_MAX;
use disk_log::Log;
use row::{Put, puts_of, row_of};
use std::alloc::Global;
use std::thread::Threads;

// A disk of so many blocks that was just formatted.
fn formatted(alloc: Global, blocks: u32) -> Result<MemDisk> {
    if blocks < 1 || blocks > BLOCKS_MAX {
        bail!("no such number of blocks");
    }
    let disk = MemDisk::new(alloc, &[])?;
    match Log::format(alloc, disk, 1, blocks) {
        Ok(log) => Ok(log.into_disk()),
        Err((_, fault)) => bail!("not formatted: {fault:?}"),
    }
}

// The disk of `BLOCKS`, or of `LENGTH*VALUE`.
fn disk_of(alloc: Global, text: &str) -> Result<MemDisk> {
    match text.split_once('*') {
        Some((length, value)) => {
            let length = length.parse::<usize>().ok().context("a length")?;
            let value = value.parse::<u8>().ok().context("a byte")?;
            let bytes = vec![in alloc; value; length]?;
            Ok(MemDisk::of(alloc, bytes.as_slice(), &[])?)
        }
        None => formatted(alloc, text.parse::<u32>().ok().context("blocks")?),
    }
}

// Puts bytes on a disk, and gives what stood in their place.
fn put(alloc: Global, disk: &mut MemDisk, put: &Put) -> Result<Put> {
    let length = put.bytes.len();
    if put.at > DISK_END || length as u64 > DISK_END - put.at {
        bail!("a place on the disk");
    }
    let mut old = vec![in alloc; 0u8; length]?;
    disk.read(put.at, old.as_mut_slice())
        .ok()
        .context("a read")?;
    disk.write_at(put.at, put.bytes.as_slice())
        .ok()
        .context("a write")?;
    Ok(Put {
        at: put.at,
        bytes: old,
    })
}

// Puts all of them on a disk, and gives what stood in their places, from the last to the first.
fn put_all(alloc: Global, disk: &mut MemDisk, puts: &[Put]) -> Result<Vec<Put>> {
    let mut olds = Vec::new(alloc);
    for one in puts {
        olds.push(put(alloc, disk, one)?)?;
    }
    olds.reverse();
    Ok(olds)
}

// The disk of a line behind `disk`.
fn begin(alloc: Global, line: &str) -> Result<MemDisk> {
    let (size, puts) = line.split_once('|').unwrap_or((line, ""));
    let mut disk = disk_of(alloc, size.trim())?;
    put_all(alloc, &mut disk, puts_of(alloc, puts)?.as_slice())?;
    Ok(disk)
}

// Faults as they stand in a row: a place and a rule's number each.
fn faults_text(alloc: Global, faults: &[Fault]) -> Result<String> {
    if faults.is_empty() {
        return Ok(String::from_str(alloc, "ok")?);
    }
    let mut text = String::new(alloc);
    for fault in faults {
        let (place, rule) = (fault.place, fault.rule.number());
        let space = if text.is_empty() { "" } else { " " };
        text.push_str(format!(in alloc; "{space}{place}:{rule}")?.as_str())?;
    }
    Ok(text)
}

// Which calls look at the rows that follow: all, whose answers are compared, or one, to be timed.
#[derive(Clone, Copy)]
enum Calls {
    All,
    Check,
    First,
    Shared,
}

fn calls_of(text: &str) -> Result<Calls> {
    match text {
        "all" => Ok(Calls::All),
        "check" => Ok(Calls::Check),
        "first" => Ok(Calls::First),
        "shared" => Ok(Calls::Shared),
        _ => bail!("no such calls"),
    }
}

// What all three answer, which is the same.
fn compared(rt: &(impl Threads + Sync), alloc: Global, disk: &mut MemDisk) -> Result<Vec<Fault>> {
    let faults = check(alloc, disk)?;
    let first = check_first(alloc, disk)?;
    if first != faults.first().copied() {
        bail!("another first fault");
    }
    let shared = check_shared(rt, alloc, disk)?;
    if shared.as_slice() != faults.as_slice() {
        bail!("other faults by several threads");
    }
    Ok(faults)
}

fn faults_by(
    rt: &(impl Threads + Sync),
    alloc: Global,
    disk: &mut MemDisk,
    calls: Calls,
) -> Result<Vec<Fault>> {
    match calls {
        Calls::All => compared(rt, alloc, disk),
        Calls::Check => Ok(check(alloc, disk)?),
        Calls::First => {
            let mut faults = Vec::new(alloc);
            faults.extend(check_first(alloc, disk)?)?;
            Ok(faults)
        }
        Calls::Shared => Ok(check_shared(rt, alloc, disk)?),
    }
}

// What is found on a disk with the bytes of a row, which are taken off again.
fn found(
    rt: &(impl Threads + Sync),
    alloc: Global,
    disk: &mut MemDisk,
    calls: Calls,
    puts: &str,
) -> Result<String> {
    let olds = put_all(alloc, disk, puts_of(alloc, puts)?.as_slice())?;
    let faults = faults_by(rt, alloc, disk, calls)?;
    put_all(alloc, disk, olds.as_slice())?;
    faults_text(alloc, faults.as_slice())
}

// What a row gets in place of what it wants, if anything.
fn look(
    rt: &(impl Threads + Sync),
    alloc: Global,
    disk: &mut MemDisk,
    calls: Calls,
    line: &str,
) -> Result<Option<String>> {
    let row = row_of(line)?;
    let told = found(rt, alloc, disk, calls, row.puts)?;
    if told.as_str() == row.wanted {
        return Ok(None);
    }
    let (name, told) = (row.name, told.as_str());
    Ok(Some(format!(in alloc; "{name}: {told}")?))
}

fn main(rt: HostRuntime) -> Result<()> {
    blank_law();
    superblock_law();
    place_law();
    image_law();
    fresh_law();
    reach_law();
    formed_law();
    let alloc = rt.alloc();
    let mut disk = MemDisk::new(alloc, &[])?;
    let mut calls = Calls::All;
    let mut rows = 0u64;
    for line in rt.lines(alloc) {
        let line = line?;
        let line = line.as_str();
        if line.is_empty() || line.starts_with("#") {
            continue;
        }
        if let Some(text) = line.strip_prefix("disk ") {
            disk = begin(alloc, text)?;
        } else if let Some(text) = line.strip_prefix("calls ") {
            calls = calls_of(text)?;
        } else {
            if let Some(told) = look(&rt, alloc, &mut disk, calls, line)? {
                let told = told.as_str();
                println!(rt; "{told}")?;
            }
            rows = rows.saturating_add(1);
        }
    }
    println!(rt; "{rows} rows")?;
    Ok(())
}
