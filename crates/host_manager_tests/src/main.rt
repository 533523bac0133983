//! A host's machine by example. Standard input is a table: each row is a line of the host, a message to it or something
//! that it does by itself, and behind ` = ` stands what the step does, by the rows so far. Every row that gets
//! something else is printed, and at the end the number of rows.
#![tactic(auto)]

mod acting;
mod deeds;
mod stepping;
mod telling;
mod wording;

use acting::{Hosts, told};
use anyhow::Result;

// Judges one line: a comment or a row. Answers whether it was a row, and prints one that doesn't get what is wanted.
fn judge(rt: &(impl Print + AllocGlobal), hosts: &mut Hosts, line: &str) -> Result<bool> {
    let line = line.trim();
    if line.is_empty() || line.starts_with("#") {
        return Ok(false);
    }
    let (row, wanted) = line.split_once(" =").unwrap_or((line, ""));
    let told = told(rt.alloc(), hosts, row.trim())?;
    if told.as_str().trim() != wanted.trim() {
        println!(rt; "{row}: {told}, and not {wanted}")?;
    }
    Ok(true)
}

// Judges each line of standard input, and answers how many rows there were.
fn judge_all(rt: &(impl Input + Print + AllocGlobal), hosts: &mut Hosts) -> Result<u64> {
    let mut rows = 0u64;
    for line in rt.lines(rt.alloc()) {
        if judge(rt, hosts, line?.as_str())? {
            rows = rows.saturating_add(1);
        }
    }
    Ok(rows)
}

fn main(rt: HostRuntime) -> Result<()> {
    let mut hosts = Hosts::new(rt.alloc())?;
    let judged = judge_all(&rt, &mut hosts);
    drop(hosts);
    println!(rt; "{} rows", judged?)?;
    Ok(())
}
