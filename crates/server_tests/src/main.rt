//! The tables of a server's machine by example. Standard input is a table: each row is a step or a look, and behind
//! ` = ` the answer that is wanted from the steps so far. Every row that gets another one is printed, and at the end
//! the number of rows.
#![tactic(auto)]

ghost use Rattle.std.specs.Prelude.{IfOk, OnOk};
ghost use Rattle.server_tables.specs.Counting.{IsCounted};

mod answering;
mod calling;
mod claiming;
mod hosting;
mod reading;
mod waiting;

use anyhow::Result;
use base_types::{Items, ServerId};
use reading::Words;
use server_tables::Tables;
use std::alloc::Global;
use tree_calls::Roster;
use tree_test_words::Text;

// Writes what is told to a row.
fn tell(tables: &mut Tables, row: &str, text: &mut Text) -> Result<()>
    requires { IsCounted tables.old }
    ensures { OnOk result (IsCounted tables.new) }
{
    let mut words = Words::new(tables.alloc(), row);
    match words.next() {
        "host" => hosting::tell(tables, &mut words, text),
        "want" => waiting::tell(tables, &mut words, text),
        "answer" => answering::tell(tables, &mut words, text),
        "call" => calling::tell(&mut words, text),
        _ => claiming::tell(tables, words.next(), &mut words, text),
    }
}

// What is told to a row.
fn told(tables: &mut Tables, row: &str) -> Result<String>
    requires { IsCounted tables.old }
    ensures { OnOk result (IsCounted tables.new) }
{
    let mut text = Text::new(tables.alloc());
    tell(tables, row, &mut text)?;
    text.line()
}

// Judges one line: a comment or a row. Answers whether it was a row, and prints one whose answer isn't the wanted one.
fn judge(rt: &(impl Print + AllocGlobal), tables: &mut Tables, line: &str) -> Result<bool>
    requires { IsCounted tables.old }
    ensures { OnOk result (IsCounted tables.new) }
{
    let line = line.trim();
    if line.is_empty() || line.starts_with("#") {
        return Ok(false);
    }
    let (row, wanted) = line.split_once(" =").unwrap_or((line, ""));
    let told = told(tables, row.trim())?;
    if told.as_str().trim() != wanted.trim() {
        println!(rt; "{row}: {told}, and not {wanted}")?;
    }
    Ok(true)
}

// Judges each line of standard input, and answers how many rows there were.
fn judge_all(rt: &(impl Input + Print + AllocGlobal), tables: &mut Tables) -> Result<u64>
    requires { IsCounted tables.old }
{
    let mut rows = 0u64;
    for line in rt.lines(rt.alloc()) {
        if judge(rt, tables, line?.as_str())? {
            rows = rows.saturating_add(1);
        }
    }
    Ok(rows)
}

// The tables of server 1 in epoch 1, of a service without users.
fn tables(alloc: Global) -> Result<Tables>
    ensures { IfOk result IsCounted }
{
    let roster = Roster {
        users: Items::new(alloc),
        hosts: Items::new(alloc),
        capacity: Items::new(alloc),
    };
    Ok(Tables::new(alloc, ServerId(1), 1, &roster)?)
}

fn main(rt: HostRuntime) -> Result<()> {
    let mut tables = tables(rt.alloc())?;
    let judged = judge_all(&rt, &mut tables);
    drop(tables);
    let rows = judged?;
    println!(rt; "{rows} rows")?;
    Ok(())
}
