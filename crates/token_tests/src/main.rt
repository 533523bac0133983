//! Tokens by example. Standard input is a table: each row is a question or a step, and behind ` = ` the answer that is
//! wanted from the steps so far. Every row that gets another one is printed, and at the end the number of rows.
#![tactic(auto)]

mod kinds;
mod managing;
mod reading;
mod reclaiming;
mod tabling;
mod telling;
mod world;

use anyhow::Result;
use std::io;
use world::World;

// Judges one line: a comment, or a row. Answers whether it was a row, and prints one whose answer isn't the wanted one.
fn judge(rt: &(impl Print + AllocGlobal), world: &mut World, line: &str) -> Result<bool> {
    let line = line.trim();
    if line.is_empty() || line.starts_with("#") {
        return Ok(false);
    }
    let (row, wanted) = line.split_once(" =").unwrap_or((line, ""));
    let told = world.told(row.trim())?;
    if told.as_str().trim() != wanted.trim() {
        println!(rt; "{row}: {told}, and not {wanted}")?;
    }
    Ok(true)
}

// Judges lines in their order, and answers how many of them were rows.
fn judge_all(rt: &(impl Print + AllocGlobal), world: &mut World, lines: &str) -> Result<u64> {
    let mut rows = 0u64;
    for line in lines.lines() {
        if judge(rt, world, line)? {
            rows = rows.saturating_add(1);
        }
    }
    Ok(rows)
}

// Judges lines where everything starts anew.
fn judge_anew(rt: &(impl Print + AllocGlobal), lines: &str) -> Result<u64> {
    let mut world = World::new(rt.alloc())?;
    let rows = judge_all(rt, &mut world, lines);
    drop(world);
    rows
}

fn main(rt: HostRuntime) -> Result<()> {
    token_table::next_tokens_law();
    token_table::one_number_law();
    token_table::marks_law();
    token_manager::revoke_law();
    token_manager::wait_law();
    token_manager::wanted_law();
    token_manager::peace_law();
    token_manager::ready_law();
    token_manager::admit_law();
    let table = io::read_to_string(rt.alloc(), rt.reader())?;
    let mut rows = 0u64;
    for lines in table.as_str().split("\nnew\n") {
        rows = rows.saturating_add(judge_anew(&rt, lines)?);
    }
    println!(rt; "{rows} rows")?;
    Ok(())
}
