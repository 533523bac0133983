//! The rows of the table: `NAME | WORDS | FAILING | SCRIPT | STATUS | OUTPUT`.

use crate::bytes::bytes_of;
use crate::gate::{Hold, hold_of};
use anyhow::{Context, Result};
use std::alloc::Global;

/// A run, and what it is to give.
#[derive(Drop)]
pub struct Row {
    /// What the row shows.
    pub name: String,
    /// The command words.
    pub words: Vec<String>,
    /// The number of the call of the source that fails, if one does.
    pub failing_reads: Vec<u64>,
    /// The number of the call of the sink that fails, if one does.
    pub failing_writes: Vec<u64>,
    /// The line at which a host is held, if one is.
    pub hold: Option<Hold>,
    /// The input.
    pub script: Vec<u8>,
    /// The status that is wanted.
    pub status: u8,
    /// The output that is wanted; `None` where any will do.
    pub output: Option<Vec<u8>>,
}

impl Row {
    /// Whether the output is one that is wanted.
    pub fn takes(&self, output: &[u8]) -> bool {
        match &self.output {
            Some(wanted) => wanted.as_slice() == output,
            None => true,
        }
    }
}

/// Reads a row. FAILING is `-`, or `source` or `sink` and the number of the call that fails, or a hold at the gate; the
/// output `*` stands for any.
pub fn row_of(alloc: Global, line: &str) -> Result<Row> {
    let mut cells = line.split('|');
    let name = cells.next().context("a name")?.trim();
    let words = cells.next().context("words")?.trim();
    let failing = cells.next().context("failing calls")?.trim();
    let script = cells.next().context("a script")?.trim();
    let status = cells.next().context("a status")?.trim();
    let output = cells.next().context("an output")?.trim();
    Ok(Row {
        name: String::from_str(alloc, name)?,
        words: words_of(alloc, words)?,
        failing_reads: call_after(alloc, failing, "source ")?,
        failing_writes: call_after(alloc, failing, "sink ")?,
        hold: hold_of(failing)?,
        script: bytes_of(alloc, script)?,
        status: status.parse::<u8>().context("a status")?,
        output: wanted_of(alloc, output)?,
    })
}

/// The words of a cell, which spaces separate.
pub fn words_of(alloc: Global, text: &str) -> Result<Vec<String>> {
    let mut words = Vec::new(alloc);
    for word in text.split_whitespace() {
        words.push(String::from_str(alloc, word)?)?;
    }
    Ok(words)
}

fn call_after(alloc: Global, text: &str, front: &str) -> Result<Vec<u64>> {
    let mut calls = Vec::new(alloc);
    if let Some(number) = text.strip_prefix(front) {
        calls.push(number.parse::<u64>().context("the number of a call")?)?;
    }
    Ok(calls)
}

fn wanted_of(alloc: Global, text: &str) -> Result<Option<Vec<u8>>> {
    if text == "*" {
        return Ok(None);
    }
    Ok(Some(bytes_of(alloc, text)?))
}
