//! Rows of one script over disks of which one fails, each time at another call, and of a script behind it.

use crate::bytes::bytes_of;
use crate::disk::{NamedDisk, disk_called};
use crate::row::words_of;
use crate::stage::{Ran, run_over};
use anyhow::{Context, Result, bail};
use base_io::{MemSink, MemSource};
use script_commands::disk_names;
use service_run::OpenGate;
use std::alloc::Global;
use std::sync::Wait;
use std::thread::Threads;

// How the disk fails that does.
#[derive(Clone, Copy)]
enum Fault {
    // At a call alone.
    Once,
    // At a call and from then on.
    Always,
    // At this call, and at one behind it.
    Twice(u64),
}

/// A script and what it is to give, over disks of which one fails, and then a script and what it is to give over what
/// they hold then.
#[derive(Drop)]
pub struct Series {
    name: String,
    words: Vec<String>,
    fault: Fault,
    // The number of the disk that fails, from 1.
    disk: u64,
    // The numbers of the calls at which it fails: the first, the last, and how far they are apart.
    first: u64,
    last: u64,
    step: u64,
    script: Vec<u8>,
    // What the script writes where the disk doesn't fail it.
    output: Vec<u8>,
    next: Vec<u8>,
    // With what the output of the script behind it ends.
    end: Vec<u8>,
}

/// Reads a series: `NAME | WORDS | FAULT DISK FIRST LAST STEP | SCRIPT | OUTPUT | NEXT | END`. FAULT is `fails`, at one
/// call alone, `stops`, from one on, or `again:CALL`, at that one and at one more.
pub fn series_of(alloc: Global, line: &str) -> Result<Series> {
    let mut cells = line.split('|');
    let name = cells.next().context("a name")?.trim();
    let words = cells.next().context("words")?.trim();
    let mut calls = cells.next().context("failing calls")?.split_whitespace();
    Ok(Series {
        name: String::from_str(alloc, name)?,
        words: words_of(alloc, words)?,
        fault: fault_of(calls.next())?,
        disk: number_of(calls.next())?,
        first: number_of(calls.next())?,
        last: number_of(calls.next())?,
        step: number_of(calls.next())?,
        script: cell_of(alloc, cells.next())?,
        output: cell_of(alloc, cells.next())?,
        next: cell_of(alloc, cells.next())?,
        end: cell_of(alloc, cells.next())?,
    })
}

fn fault_of(word: Option<&str>) -> Result<Fault> {
    match word {
        Some("fails") => Ok(Fault::Once),
        Some("stops") => Ok(Fault::Always),
        Some(word) => Ok(Fault::Twice(number_of(word.strip_prefix("again:"))?)),
        None => bail!("how a disk fails"),
    }
}

fn number_of(word: Option<&str>) -> Result<u64> {
    word.context("a number")?.parse::<u64>().context("a number")
}

fn cell_of(alloc: Global, cell: Option<&str>) -> Result<Vec<u8>> {
    bytes_of(alloc, cell.context("a cell")?.trim())
}

impl Series {
    // The disks that the words name; one of them fails at this call.
    fn disks_at(&self, alloc: Global, disks: &[NamedDisk], call: u64) -> Result<Vec<NamedDisk>> {
        let mut made = Vec::new(alloc);
        let Ok(Some(names)) = disk_names(alloc, self.words.as_slice()) else {
            bail!("the names of disks");
        };
        let mut number = 0u64;
        for name in &names {
            number = number.saturating_add(1);
            let name = name.as_str();
            let mut disk = NamedDisk::after(
                alloc,
                name,
                disk_called(disks, name)?.bytes.as_slice(),
            )?;
            if number == self.disk {
                match self.fault {
                    Fault::Once => disk.failing.push(call)?,
                    Fault::Always => disk.fuse = Some(call.saturating_sub(1)),
                    Fault::Twice(earlier) => {
                        disk.failing.push(earlier)?;
                        disk.failing.push(call)?;
                    }
                }
            }
            made.push(disk)?;
        }
        Ok(made)
    }

    // Whether the first run ended as it may.
    fn is_first(&self, alloc: Global, ran: &Ran) -> Result<bool> {
        if ran.status == 0 {
            return Ok(ran.output.as_slice() == self.output.as_slice());
        }
        let refusal = format!(in alloc; "refused: disk {} failed\n", self.disk)?;
        Ok(
            !matches!(self.fault, Fault::Once)
                && ran.status == 5
                && ran.output.as_slice() == refusal.as_bytes(),
        )
    }

    // Whether the run behind it ended as it has to.
    fn is_next(&self, ran: &Ran) -> bool {
        ran.status == 0 && ran.output.as_slice().ends_with(self.end.as_slice())
    }
}

// The words that check the disks of a series.
fn check_words(alloc: Global, words: &[String]) -> Result<Vec<String>> {
    let mut made = Vec::new(alloc);
    made.push(String::from_str(alloc, "check")?)?;
    let Ok(Some(names)) = disk_names(alloc, words) else {
        bail!("the names of disks");
    };
    for name in names {
        made.push(name)?;
    }
    Ok(made)
}

// Runs words over disks, with this script.
fn ran_on(
    rt: &(impl AllocGlobal + Threads + Wait + Sync),
    disks: &[NamedDisk],
    words: &[String],
    script: &[u8],
) -> Result<Ran> {
    let alloc = rt.alloc();
    run_over(
        rt,
        disks,
        words,
        MemSource::new(alloc, script, &[])?,
        MemSink::new(alloc, &[])?,
        &OpenGate,
    )
}

// Prints what a run gave.
fn tell(
    rt: &(impl Print + AllocGlobal),
    series: &Series,
    call: u64,
    stage: &str,
    ran: &Ran,
) -> Result<()> {
    let name = series.name.as_str();
    let status = ran.status;
    let output = String::from_utf8_lossy(rt.alloc(), ran.output.as_slice())?;
    println!(rt; "{name}, call {call}, {stage}: {status} {output:?}")?;
    Ok(())
}

// Runs a series with a fault at this call.
fn judge_at(
    rt: &(impl Print + AllocGlobal + Threads + Wait + Sync),
    disks: &[NamedDisk],
    series: &Series,
    call: u64,
) -> Result<()> {
    let alloc = rt.alloc();
    let words = series.words.as_slice();
    let disks = series.disks_at(alloc, disks, call)?;
    let first = ran_on(rt, disks.as_slice(), words, series.script.as_slice())?;
    if !series.is_first(alloc, &first)? {
        tell(rt, series, call, "first", &first)?;
    }
    check_left(rt, series, call, &first)?;
    let next = ran_on(rt, first.left.as_slice(), words, series.next.as_slice())?;
    if !series.is_next(&next) {
        tell(rt, series, call, "next", &next)?;
    }
    check_left(rt, series, call, &next)
}

// Checks the disks that a run left: each is blank, or has no fault.
fn check_left(
    rt: &(impl Print + AllocGlobal + Threads + Wait + Sync),
    series: &Series,
    call: u64,
    ran: &Ran,
) -> Result<()> {
    let words = check_words(rt.alloc(), series.words.as_slice())?;
    let check = ran_on(rt, ran.left.as_slice(), words.as_slice(), &[])?;
    if check.status != 0 {
        tell(rt, series, call, "check", &check)?;
    }
    Ok(())
}

/// Runs a series, prints what isn't as it has to be, and tells how many times it ran.
pub fn judge_series(
    rt: &(impl Print + AllocGlobal + Threads + Wait + Sync),
    disks: &[NamedDisk],
    series: &Series,
) -> Result<u64> {
    let mut times = 0u64;
    for call in series.first..=series.last {
        if call.saturating_sub(series.first).checked_rem(series.step) == Some(0) {
            judge_at(rt, disks, series, call)?;
            times = times.saturating_add(1);
        }
    }
    Ok(times)
}
