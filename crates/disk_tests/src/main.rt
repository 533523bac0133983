//! Disks, layout, log, blocks, anodes, directories and access lists by example. Standard input is a table: each row is
//! done to an aggregate, or asks something, and behind ` = ` stands the answer that is wanted. Every row that gets
//! another one is printed, and at the end the number of rows.
#![tactic(auto)]

mod acts;
mod changes;
mod disks;
mod files;
mod images;
mod layout;
mod lists;
mod logs;
mod looks;
mod stops;
mod watch;
mod words;
mod world;

use anyhow::Result;
use std::fs::File;
use std::rt::Files;
use world::{World, told};

// Judges one line: a comment, or a row. Answers whether it was a row, and prints one whose answer isn't the wanted one.
fn judge(
    rt: &(impl Print + AllocGlobal + Files<File = File>),
    world: &mut World,
    line: &str,
) -> Result<bool> {
    let line = line.trim();
    if line.is_empty() || line.starts_with("#") {
        return Ok(false);
    }
    let (row, wanted) = line.split_once(" =").unwrap_or((line, ""));
    let told = told(rt, world, row.trim())?;
    if told.as_str().trim() != wanted.trim() {
        println!(rt; "{row}: {told}, and not {wanted}")?;
    }
    Ok(true)
}

// Judges each line of standard input, and answers how many rows there were.
fn judge_all(
    rt: &(impl Input + Print + AllocGlobal + Files<File = File>),
    world: &mut World,
) -> Result<u64> {
    let mut rows = 0u64;
    for line in rt.lines(rt.alloc()) {
        if judge(rt, world, line?.as_str())? {
            rows = rows.saturating_add(1);
        }
    }
    Ok(rows)
}

fn main(rt: HostRuntime) -> Result<()> {
    let mut world = World::new(rt.alloc());
    let judged = judge_all(&rt, &mut world);
    drop(world);
    println!(rt; "{} rows", judged?)?;
    Ok(())
}
