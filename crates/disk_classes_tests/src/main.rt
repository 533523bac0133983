//! Joined transactions by example. Standard input is a table: each row is done to a new log, and behind ` = ` stands
//! the answer that is wanted. Every row that gets another one is printed, and at the end the number of rows.
#![tactic(auto)]

mod acts;
mod many;
mod mounted;
mod plain;
mod random;
mod stops;
mod tried;
mod watch;

use acts::tell_acts;
use anyhow::{Result, bail};
use many::{tell_puts, tell_syncs};
use mounted::new_log;
use random::tell_random;
use std::alloc::Global;
use stops::tell_stops;
use tree_test_words::Text;

// Writes what a row is answered.
fn tell(alloc: Global, start: &[u8], row: &str, text: &mut Text) -> Result<()> {
    let (kind, words) = row.split_once(' ').unwrap_or((row, ""));
    match kind {
        "do" => tell_acts(alloc, start, words, text),
        "stops" => tell_stops(alloc, start, words, text),
        "random" => tell_random(alloc, start, words, text),
        "syncs" => tell_syncs(alloc, start, words, text),
        "puts" => tell_puts(alloc, start, words, text),
        _ => bail!("no row: {kind}"),
    }
}

// What a row is answered, over a new log.
fn told(alloc: Global, row: &str) -> Result<String> {
    let start = new_log(alloc)?;
    let mut text = Text::new(alloc);
    let told = tell(alloc, start.as_slice(), row, &mut text);
    drop(start);
    told?;
    text.line()
}

// Judges one line: a comment, or a row. Answers whether it was a row, and prints one whose answer isn't the wanted one.
fn judge(rt: &(impl Print + AllocGlobal), line: &str) -> Result<bool> {
    let line = line.trim();
    if line.is_empty() || line.starts_with("#") {
        return Ok(false);
    }
    let (row, wanted) = line.split_once(" =").unwrap_or((line, ""));
    let told = told(rt.alloc(), row.trim())?;
    if told.as_str() != wanted.trim() {
        println!(rt; "{row}: {told}, and not {wanted}")?;
    }
    Ok(true)
}

// Judges each line of standard input, and answers how many rows there were.
fn judge_all(rt: &(impl Input + Print + AllocGlobal)) -> Result<u64> {
    let mut rows = 0u64;
    for line in rt.lines(rt.alloc()) {
        if judge(rt, line?.as_str())? {
            rows = rows.saturating_add(1);
        }
    }
    Ok(rows)
}

fn main(rt: HostRuntime) -> Result<()> {
    let rows = judge_all(&rt)?;
    println!(rt; "{rows} rows")?;
    Ok(())
}
