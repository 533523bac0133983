//! The rows of the table: `NAME | BYTES | says TEXT` or `NAME | BYTES | bad NUMBER`.

use anyhow::{Context, Result, bail};
use std::alloc::Global;

/// What a row wants.
#[derive(Drop)]
pub enum Wanted {
    /// The bytes are a message that says this.
    Says(String),
    /// The bytes hold no message, and so many of them begin one.
    Stops(usize),
}

/// Bytes, and what they are to give.
#[derive(Drop)]
pub struct Row {
    /// What the row shows.
    pub name: String,
    /// The bytes.
    pub bytes: Vec<u8>,
    /// What is wanted.
    pub wanted: Wanted,
}

/// Reads a row.
pub fn row_of(alloc: Global, line: &str) -> Result<Row> {
    let mut cells = line.split('|');
    let name = cells.next().context("a name")?.trim();
    let bytes = cells.next().context("bytes")?.trim();
    let wanted = cells.next().context("what is wanted")?.trim();
    Ok(Row {
        name: String::from_str(alloc, name)?,
        bytes: bytes_of(alloc, bytes)?,
        wanted: wanted_of(alloc, wanted)?,
    })
}

fn wanted_of(alloc: Global, text: &str) -> Result<Wanted> {
    if let Some(said) = text.strip_prefix("says ") {
        return Ok(Wanted::Says(String::from_str(alloc, said)?));
    }
    let Some(stop) = text.strip_prefix("bad ") else {
        bail!("neither says nor bad");
    };
    Ok(Wanted::Stops(stop.parse::<usize>().context("a number")?))
}

// Pairs of hexadecimal digits, in groups with spaces between; COUNT*GROUP is a group so often.
fn bytes_of(alloc: Global, text: &str) -> Result<Vec<u8>> {
    let mut bytes = Vec::new(alloc);
    for group in text.split_whitespace() {
        match group.split_once('*') {
            Some((count, digits)) => {
                for _ in 0..count.parse::<u32>().context("a count")? {
                    push_group(&mut bytes, digits)?;
                }
            }
            None => push_group(&mut bytes, group)?,
        }
    }
    Ok(bytes)
}

fn push_group(bytes: &mut Vec<u8>, digits: &str) -> Result<()> {
    let mut high = None;
    for byte in digits.bytes() {
        match high {
            None => high = Some(digit(byte)),
            Some(first) => {
                bytes.push(first << 4 | digit(byte))?;
                high = None;
            }
        }
    }
    Ok(())
}

fn digit(byte: u8) -> u8 {
    match byte {
        b'0'..=b'9' => byte - b'0',
        b'a'..=b'f' => byte - b'a' + 10,
        _ => 0,
    }
}
