//! The lines of the table.

use anyhow::{Context, Result};
use std::alloc::Global;

/// Bytes that are put at a place.
#[derive(Drop)]
pub struct Put {
    /// The place.
    pub at: u64,
    /// The bytes.
    pub bytes: Vec<u8>,
}

// `PLACE=BYTES`, with the bytes in hexadecimal digits.
fn put_of(alloc: Global, word: &str) -> Result<Put> {
    let (at, bytes) = word.split_once('=').context("a place and bytes")?;
    Ok(Put {
        at: at.parse::<u64>().ok().context("a place")?,
        bytes: hex::decode(alloc, bytes).ok().context("bytes")?,
    })
}

/// Several of them, with spaces between.
pub fn puts_of(alloc: Global, text: &str) -> Result<Vec<Put>> {
    let mut puts = Vec::new(alloc);
    for word in text.split_whitespace() {
        puts.push(put_of(alloc, word)?)?;
    }
    Ok(puts)
}

/// A row of the table.
#[derive(Drop)]
pub struct Row<'a> {
    /// What it shows.
    pub name: &'a str,
    /// What is put on its disk.
    pub puts: &'a str,
    /// The faults that the disk then has.
    pub wanted: &'a str,
}

/// Takes a row apart.
pub fn row_of(line: &str) -> Result<Row<'_>> {
    let (name, rest) = line.split_once('|').context("a name")?;
    let (puts, wanted) = rest.split_once('|').context("what is put")?;
    Ok(Row {
        name: name.trim(),
        puts,
        wanted: wanted.trim(),
    })
}
