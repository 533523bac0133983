//! The network and the board of turns by example. Standard input is a table: each row has lines of a script, what is
//! done, and what that gives. Every row that gets something else is printed, and at the end the number of rows.
#![tactic(auto)]

mod fault;
mod letters;
mod network;
mod scripts;
mod turns;

use anyhow::Result;
use fault::Fault;
use hub_board::a_turn_goes_on;
use hub_wire::copies_are_planned;
use network::Network;
use scripts::Case;
use std::alloc::Global;
use turns::Turns;

// What all of this gives at a network, each after a space.
fn tell_network(alloc: Global, case: &Case, does: &str, told: &mut String) -> Result<(), Fault> {
    let mut network = Network::new(alloc, case)?;
    for words in does.split(';') {
        network.act(words.trim(), told)?;
    }
    Ok(())
}

// What turns give, each after a space, and then how many stand in the list.
fn tell_turns(alloc: Global, case: &Case, does: &str, told: &mut String) -> Result<(), Fault> {
    let mut turns = Turns::new(alloc, case)?;
    for words in does.split(';') {
        turns.act(words.trim(), told)?;
    }
    told.push_str(format!(in alloc; " {}", turns.count())?.as_str())?;
    Ok(())
}

fn tell(alloc: Global, lines: &str, does: &str, told: &mut String) -> Result<(), Fault> {
    let mut case = Case::new(alloc);
    case.read(alloc, lines)?;
    match does.strip_prefix("turns ") {
        Some(does) => tell_turns(alloc, &case, does, told),
        None => tell_network(alloc, &case, does, told),
    }
}

// A row `NAME | LINES | DOES | GIVES`, with `;` between lines and between what is done.
#[derive(Clone, Copy)]
struct Row<'a> {
    name: &'a str,
    lines: &'a str,
    does: &'a str,
    gives: &'a str,
}

fn row_of(line: &str) -> Option<Row<'_>> {
    let mut cells = line.split('|');
    Some(Row {
        name: cells.next()?.trim(),
        lines: cells.next()?.trim(),
        does: cells.next()?.trim(),
        gives: cells.next()?.trim(),
    })
}

// Judges one line, and answers whether it was a row. A row that gets something else is printed.
fn judge(rt: &(impl Print + AllocGlobal), line: &str) -> Result<bool> {
    if line.is_empty() || line.starts_with("#") {
        return Ok(false);
    }
    let row = row_of(line).ok_or(Fault::Row)?;
    let mut told = String::new(rt.alloc());
    tell(rt.alloc(), row.lines, row.does, &mut told)?;
    if told.as_str().trim() != row.gives {
        println!(rt; "{}: {}", row.name, told.as_str())?;
    }
    Ok(true)
}

fn main(rt: HostRuntime) -> Result<()> {
    copies_are_planned();
    a_turn_goes_on();
    let mut rows = 0u64;
    for line in rt.lines(rt.alloc()) {
        if judge(&rt, line?.as_str())? {
            rows = rows.saturating_add(1);
        }
    }
    println!(rt; "{rows} rows")?;
    Ok(())
}
