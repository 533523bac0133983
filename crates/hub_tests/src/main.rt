//! The hub by example. Standard input is a table: each row says on how many threads a message goes round a ring of
//! nodes and how far, and whose steps stand in the list then. Every row that gets something else is printed, and at
//! the end the number of rows.
#![tactic(auto)]

mod member;
mod ring;

use anyhow::{Result, bail};
use base_types::Node;
use hub_turns::Turn;
use ring::go_round;
use std::alloc::Global;
use std::sync::Wait;
use std::thread::Threads;

// A row `NAME | THREADS LAST | GIVES`, where THREADS is `one` or `four`.
#[derive(Clone, Copy)]
struct Row<'a> {
    name: &'a str,
    apart: bool,
    last: u64,
    gives: &'a str,
}

fn row_of(line: &str) -> Option<Row<'_>> {
    let mut cells = line.split('|');
    let name = cells.next()?.trim();
    let (threads, last) = cells.next()?.trim().split_once(' ')?;
    Some(Row {
        name,
        apart: is_apart(threads)?,
        last: last.parse().ok()?,
        gives: cells.next()?.trim(),
    })
}

fn is_apart(threads: &str) -> Option<bool> {
    match threads {
        "one" => Some(false),
        "four" => Some(true),
        _ => None,
    }
}

// The nodes of the turns that handed steps in, once for each step, each after a space.
fn tell(alloc: Global, turns: &[Turn], told: &mut String) -> Result<()> {
    for turn in turns {
        for _ in turn.steps.as_slice() {
            match turn.node {
                Node::Host(host) => told.push_str(format!(in alloc; " c{}", host.0)?.as_str())?,
                Node::Server(server) => told.push_str(format!(in alloc;
                    " s{}",
                    server.0
                )?.as_str())?,
            }
        }
    }
    Ok(())
}

// Judges one line, and answers whether it was a row. A row that gets something else is printed.
fn judge<R: Print + AllocGlobal + Threads + Wait + Sync>(rt: &R, line: &str) -> Result<bool> {
    if line.is_empty() || line.starts_with("#") {
        return Ok(false);
    }
    let Some(row) = row_of(line) else {
        bail!("no row");
    };
    let turns = go_round(rt, rt.alloc(), row.apart, row.last)?;
    let mut told = String::new(rt.alloc());
    tell(rt.alloc(), turns.as_slice(), &mut told)?;
    if told.as_str().trim() != row.gives {
        println!(rt; "{}: {}", row.name, told.as_str())?;
    }
    Ok(true)
}

fn main(rt: HostRuntime) -> Result<()> {
    let mut rows = 0u64;
    for line in rt.lines(rt.alloc()) {
        if judge(&rt, line?.as_str())? {
            rows = rows.saturating_add(1);
        }
    }
    println!(rt; "{rows} rows")?;
    Ok(())
}
