//! A server's store on a disk by example. Standard input is a table: each row changes the bytes of a disk, formats or
//! mounts it, or asks what is on it, and behind ` = ` stands the answer that is wanted. Every row that gets another one
//! is printed, and at the end the number of rows.
#![tactic(auto)]

mod opened;
mod record;
mod stops;
mod words;
mod world;

use anyhow::Result;
use world::World;

// Judges one line: a comment, or a row. Answers whether it was a row, and prints one that gets another answer.
fn judge(rt: &(impl Print + AllocGlobal), world: &mut World, line: &str) -> Result<bool> {
    let line = line.trim();
    if line.is_empty() || line.starts_with("#") {
        return Ok(false);
    }
    let (row, wanted) = line.split_once(" = ").unwrap_or((line, ""));
    let told = world.told(row.trim())?;
    if told.as_str() != wanted.trim() {
        println!(rt; "{row}: {told}, and not {wanted}")?;
    }
    Ok(true)
}

fn main(rt: HostRuntime) -> Result<()> {
    let mut world = World::new(rt.alloc());
    let mut rows = 0u64;
    for line in rt.lines(rt.alloc()) {
        if judge(&rt, &mut world, line?.as_str())? {
            rows = rows.saturating_add(1);
        }
    }
    println!(rt; "{rows} rows")?;
    Ok(())
}
