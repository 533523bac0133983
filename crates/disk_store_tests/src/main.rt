//! Stores on disks by example. Standard input is a table. Its first part is rows over two stores, which are given to
//! stores in memory, on disks in memory and on files; those that begin with `disks` only to disks. Behind ` = ` stands
//! what is wanted, and behind each row all three have to tell the same. Its second part is rows over one disk in
//! memory, which stops or fails at its calls. Every row that gets something else is printed, and at the end the number
//! of rows.
#![tactic(auto)]

ghost use Rattle.std.specs.Prelude.{IfOk};
ghost use Rattle.store_memory.specs.MapStores.{map_view};
ghost use Rattle.store_test_rows.specs.Standing.{Stands};
ghost use Rattle.store_test_rows.specs.Worlds.{BothStand};

mod disks;
mod one_disk;
mod stops;

use anyhow::{Context, Result};
use base_types::{Disk, ServerId};
use disk_aggregate::Aggregate;
use disk_device::{FileDisk, MemDisk};
use disks::{both_formatted, both_mounted};
use one_disk::OneDisk;
use std::alloc::Global;
use std::fs::File;
use std::io;
use std::rt::Files;
use store_memory::MapStore;
use store_test_rows::{Tried, World, all_told, judge_all, roster, rows_in};
use tree_calls::Roster;

// The servers' capacities: room for many filesets, and for one of 64 objects and one of 4.
const CAPACITIES: [u32; 2] = [65_536, 4_624];

fn in_memory(alloc: Global, server: u8, roster: &Roster) -> Result<Tried<MapStore>>
    ensures stands { IfOk result (λ tried. Stands map_view roster.now tried) }
{
    let store = MapStore::new(alloc, ServerId(server), roster)?;
    Ok(Tried::new(ServerId(server), roster, store))
}

fn both_in_memory(alloc: Global, roster: Roster) -> Result<World<MapStore>>
    ensures stand { IfOk result (λ world. BothStand map_view world) }
{
    let one = in_memory(alloc, 1, &roster)?;
    match in_memory(alloc, 2, &roster) {
        Ok(two) => Ok(World::new(roster, one, two)),
        Err(error) => {
            drop(one);
            Err(error)
        }
    }
}

// What stores in memory tell behind each line.
fn told_in_memory(rt: &(impl Print + AllocGlobal), lines: &str) -> Result<Vec<String>> {
    let alloc = rt.alloc();
    let mut world = both_in_memory(alloc, roster(alloc, &CAPACITIES)?)?;
    let told = judge_all(rt, &mut world, lines, false);
    drop(world);
    told
}

// What stores on disks that they take tell behind each line, and once they are mounted again.
fn told_on_disks<D: Disk + Drop>(
    rt: &(impl Print + AllocGlobal),
    one: D,
    two: D,
    lines: &str,
) -> Result<Vec<String>> {
    let alloc = rt.alloc();
    let roster_of_both = roster(alloc, &CAPACITIES)?;
    let mut world = both_formatted(alloc, one, two, roster_of_both)?;
    let told = judge_all(rt, &mut world, lines, true);
    let again = told_again(alloc, world);
    let mut told = told?;
    told.push(again?)?;
    Ok(told)
}

fn told_again<D: Disk + Drop>(alloc: Global, world: World<Aggregate<D>>) -> Result<String> {
    let roster_of_both = match roster(alloc, &CAPACITIES) {
        Ok(roster_of_both) => roster_of_both,
        Err(error) => {
            drop(world);
            return Err(error);
        }
    };
    let mut world = both_mounted(alloc, world, roster_of_both)?;
    let told = all_told(alloc, &mut world);
    drop(world);
    told
}

// Prints the first line behind which stores on disks don't tell what those in memory do.
fn compare(
    rt: &(impl Print + AllocGlobal),
    kind: &str,
    lines: &str,
    wanted: &[String],
    told: &[String],
) -> Result<()> {
    let mut told = told.iter();
    for (line, wanted) in lines.lines().zip(wanted.iter()) {
        let found = told.next().context("a line")?;
        if found.as_str() != wanted.as_str() {
            println!(rt; "on {kind}, behind {line}: {found}, and not {wanted}")?;
            return Ok(());
        }
    }
    let last = wanted.last().map_or("", |last| last.as_str());
    if told.next().map_or("", |found| found.as_str()) != last {
        println!(rt; "on {kind}: another store once it is mounted again")?;
    }
    Ok(())
}

// Judges lines on new stores of each kind.
fn judge_anew(rt: &(impl Print + AllocGlobal + Files<File = File>), lines: &str) -> Result<u64> {
    let alloc = rt.alloc();
    let rows = rows_in(lines);
    if rows == 0 {
        return Ok(0);
    }
    let wanted = told_in_memory(rt, lines)?;
    let (one, two) = (MemDisk::new(alloc, &[])?, MemDisk::new(alloc, &[])?);
    let told = told_on_disks(rt, one, two, lines)?;
    compare(rt, "disks", lines, wanted.as_slice(), told.as_slice())?;
    let one = FileDisk::open_or_make(rt, "one.disk")?;
    let two = FileDisk::open_or_make(rt, "two.disk")?;
    let told = told_on_disks(rt, one, two, lines)?;
    compare(rt, "files", lines, wanted.as_slice(), told.as_slice())?;
    Ok(rows)
}

// Judges rows over one disk in memory.
fn judge_disk(rt: &(impl Print + AllocGlobal), lines: &str) -> Result<u64> {
    let mut disk = OneDisk::new(rt.alloc())?;
    let mut rows = 0u64;
    for line in lines.lines() {
        let line = line.trim();
        if line.is_empty() || line.starts_with("#") {
            continue;
        }
        let (row, wanted) = line.split_once(" = ").unwrap_or((line, ""));
        let told = disk.told(row.trim())?;
        if told.as_str() != wanted.trim() {
            println!(rt; "{row}: {told}, and not {wanted}")?;
        }
        rows = rows.saturating_add(1);
    }
    Ok(rows)
}

fn main(rt: HostRuntime) -> Result<()> {
    let table = io::read_to_string(rt.alloc(), rt.reader())?;
    let (both, one) = table
        .as_str()
        .split_once("\none disk\n")
        .unwrap_or((table.as_str(), ""));
    let mut rows = 0u64;
    for lines in both.split("\nstores\n") {
        rows = rows.saturating_add(judge_anew(&rt, lines)?);
    }
    rows = rows.saturating_add(judge_disk(&rt, one)?);
    println!(rt; "{rows} rows")?;
    Ok(())
}
