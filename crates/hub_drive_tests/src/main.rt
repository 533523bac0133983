//! The driver by example, over nodes that make no steps. Each row of standard input says on how many workers they take
//! turns, and what is tried: which two can be at work at once, or at which turn which of them fails, or rests. Every
//! row that gets something else is printed, and at the end the number of rows.
#![tactic(auto)]

mod running;
mod stub;

use anyhow::{Result, bail};
use running::{Trial, run};
use std::sync::Wait;
use std::thread::Threads;

// How often a node looks for another that is to be at work beside it: as good as for ever, or for a moment.
const WAIT: u64 = 100_000_000_000;

const LOOK: u64 = 1_000_000;

// A row `NAME | WORKERS TRIAL | GIVES`. TRIAL is `NODE waits NODE`, where the first waits in its first turn until the
// other has begun its second; the same with `looks`, where it gives up soon; `NODE fails TURN`; or `NODE rests TURN`,
// of a server. GIVES is `met`, `missed`, the place of the node that failed, or that of one that isn't done, and its
// line.
#[derive(Clone, Copy)]
struct Row<'a> {
    name: &'a str,
    workers: u32,
    trial: Trial,
    gives: &'a str,
}

fn row_of(line: &str) -> Option<Row<'_>> {
    let mut cells = line.split('|');
    let name = cells.next()?.trim();
    let (workers, trial) = cells.next()?.trim().split_once(' ')?;
    Some(Row {
        name,
        workers: workers.parse().ok()?,
        trial: trial_of(trial)?,
        gives: cells.next()?.trim(),
    })
}

fn trial_of(text: &str) -> Option<Trial> {
    let (node, rest) = text.split_once(' ')?;
    let (word, last) = rest.split_once(' ')?;
    let node = node.parse().ok()?;
    match word {
        "waits" => Some(Trial::Meets {
            node,
            other: last.parse().ok()?,
            often: WAIT,
        }),
        "looks" => Some(Trial::Meets {
            node,
            other: last.parse().ok()?,
            often: LOOK,
        }),
        "fails" => Some(Trial::Fails {
            node,
            turn: last.parse().ok()?,
        }),
        "rests" => Some(Trial::Rests {
            node,
            turn: last.parse().ok()?,
        }),
        _ => None,
    }
}

// Judges one line, and answers whether it was a row. A row that gets something else is printed.
fn judge<R: Print + AllocGlobal + Threads + Wait + Sync>(rt: &R, line: &str) -> Result<bool> {
    if line.is_empty() || line.starts_with("#") {
        return Ok(false);
    }
    let Some(row) = row_of(line) else {
        bail!("no row");
    };
    let told = run(rt, rt.alloc(), row.workers, row.trial)?;
    if told.as_str() != row.gives {
        println!(rt; "{}: {}", row.name, told.as_str())?;
    }
    Ok(true)
}

fn main(rt: HostRuntime) -> Result<()> {
    let mut rows = 0u64;
    for line in rt.lines(rt.alloc()) {
        if judge(&rt, line?.as_str())? {
            rows = rows.saturating_add(1);
        }
    }
    println!(rt; "{rows} rows")?;
    Ok(())
}
