//! The service by example. Standard input is a table: each row has the command words, the script, and the status and
//! the output that are wanted. Every row that gets others is printed, and at the end the number of rows.
#![tactic(auto)]

mod bytes;
mod disk;
mod gate;
mod row;
mod series;
mod stage;

use anyhow::Result;
use base_io::{MemSink, MemSource};
use disk::{NamedDisk, disk_called, disk_of};
use gate::LineGate;
use row::{Row, row_of};
use series::{judge_series, series_of};
use stage::run_over;
use std::sync::Wait;
use std::thread::Threads;

// Whether these words check disks.
fn is_check(words: &[String]) -> bool {
    match words.first() {
        Some(word) => word.as_str() == "check",
        None => false,
    }
}

// Whether each of these disks holds what the one of its name does.
fn are_held(disks: &[NamedDisk], left: &[NamedDisk]) -> Result<bool> {
    for disk in left {
        let before = disk_called(disks, disk.name.as_str())?;
        if before.bytes.as_slice() != disk.bytes.as_slice() {
            return Ok(false);
        }
    }
    Ok(true)
}

// Runs a row, and prints what it got where that isn't what it wants.
fn judge(
    rt: &(impl Print + AllocGlobal + Threads + Wait + Sync),
    disks: &[NamedDisk],
    row: &Row,
) -> Result<()> {
    let alloc = rt.alloc();
    let words = row.words.as_slice();
    let source = MemSource::new(alloc, row.script.as_slice(), row.failing_reads.as_slice())?;
    let sink = MemSink::new(alloc, row.failing_writes.as_slice())?;
    let gate = LineGate::new(row.hold);
    let ran = run_over(rt, disks, words, source, sink, &gate)?;
    let name = row.name.as_str();
    let status = ran.status;
    if status != row.status || !row.takes(ran.output.as_slice()) {
        let output = String::from_utf8_lossy(alloc, ran.output.as_slice())?;
        println!(rt; "{name}: {status} {output:?}")?;
    }
    if !gate.is_right() {
        println!(rt; "{name}: the gate")?;
    }
    if is_check(words) && !are_held(disks, ran.left.as_slice())? {
        println!(rt; "{name}: a disk changed")?;
    }
    Ok(())
}

fn main(rt: HostRuntime) -> Result<()> {
    let alloc = rt.alloc();
    let mut disks = Vec::new(alloc);
    let mut rows = 0u64;
    for line in rt.lines(alloc) {
        let line = line?;
        let line = line.as_str();
        if line.is_empty() || line.starts_with("#") {
            continue;
        }
        if let Some(text) = line.strip_prefix("disk ") {
            disks.push(disk_of(alloc, text)?)?;
        } else if let Some(text) = line.strip_prefix("series ") {
            rows = rows.saturating_add(judge_series(
                &rt,
                disks.as_slice(),
                &series_of(alloc, text)?,
            )?);
        } else {
            judge(&rt, disks.as_slice(), &row_of(alloc, line)?)?;
            rows = rows.saturating_add(1);
        }
    }
    println!(rt; "{rows} rows")?;
    Ok(())
}
