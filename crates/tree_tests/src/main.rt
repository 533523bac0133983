//! The reference tree, and the types below it, by example. Standard input is a table: each row is a call of a host, or
//! what becomes kept or lost, or a question to the types below, and behind ` = ` the reply that is wanted. Every row
//! that gets another one is printed, and at the end the number of rows.
#![tactic(auto)]

mod access;
mod lists;
mod parts;
mod steps;
mod streams;

use anyhow::Result;
use base_io::{StdSink, StdSource, read_all, write_all};
use std::io;
use steps::{new_tree, tell};
use tree_answers::Tree;
use tree_test_words::{Text, Words};

// Judges one line: a comment, or a row. Answers whether it was a row, and prints one whose reply isn't the wanted one.
fn judge(rt: &(impl Print + AllocGlobal), tree: &mut Tree, line: &str) -> Result<bool> {
    let line = line.trim();
    if line.is_empty() || line.starts_with("#") {
        return Ok(false);
    }
    let (row, wanted) = line.split_once(" = ").unwrap_or((line, ""));
    let mut text = Text::new(rt.alloc());
    tell(tree, &mut Words::new(rt.alloc(), row.trim()), &mut text)?;
    let told = text.line()?;
    if told.as_str().trim() != wanted.trim() {
        println!(rt; "{row}: {told}, and not {wanted}")?;
    }
    Ok(true)
}

// Judges lines in their order, and answers how many of them were rows.
fn judge_all(rt: &(impl Print + AllocGlobal), tree: &mut Tree, lines: &str) -> Result<u64> {
    let mut rows = 0u64;
    for line in lines.lines() {
        if judge(rt, tree, line)? {
            rows = rows.saturating_add(1);
        }
    }
    Ok(rows)
}

// Judges lines on a new tree.
fn judge_anew(rt: &(impl Print + AllocGlobal), lines: &str) -> Result<u64> {
    let mut tree = new_tree(rt.alloc())?;
    let rows = judge_all(rt, &mut tree, lines);
    drop(tree);
    rows
}

fn main(rt: HostRuntime) -> Result<()> {
    let table = io::read_to_string(rt.alloc(), rt.reader())?;
    let rest = read_all(rt.alloc(), &mut StdSource::new(rt.reader()), 9)?;
    println!(rt; "{} bytes are left", rest.len())?;
    write_all(&mut StdSink::new(io::writer(&rt)), b"written\n")?;
    let mut rows = 0u64;
    for lines in table.as_str().split("\ntree\n") {
        rows = rows.saturating_add(judge_anew(&rt, lines)?);
    }
    println!(rt; "{rows} rows")?;
    Ok(())
}
