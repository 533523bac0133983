//! The words of rows.

use anyhow::{Context, Result, bail};
use base_types::{Items, ServerId};
use std::alloc::Global;
use tree_calls::Roster;

// Bytes of a disk of the table, at most.
const DISK_MAX: usize = 8_000_000;

/// The first word, and what is behind it.
pub fn first(words: &str) -> (&str, &str) {
    let (word, rest) = words.split_once(' ').unwrap_or((words, ""));
    (word, rest.trim())
}

/// A number in decimal digits.
pub fn number(word: &str) -> Result<u64> {
    word.parse::<u64>().ok().context("a number")
}

/// How long a disk is to be.
pub fn size(word: &str) -> Result<usize> {
    let size = word.parse::<usize>().ok().context("a length")?;
    if size > DISK_MAX {
        bail!("too long a disk");
    }
    Ok(size)
}

/// A server.
pub fn server(word: &str) -> Result<ServerId> {
    Ok(ServerId(word.parse::<u8>().ok().context("a server")?))
}

/// A roster of servers with these capacities, from the first server on, joined by commas.
pub fn roster(alloc: Global, word: &str) -> Result<Roster> {
    let mut capacity = Items::new(alloc);
    for blocks in word.split(',') {
        capacity.push(blocks.parse::<u32>().ok().context("a capacity")?)?;
    }
    Ok(Roster {
        users: Items::new(alloc),
        hosts: Items::new(alloc),
        capacity,
    })
}

// Puts `PLACE=BYTES`, with the bytes in hexadecimal digits.
fn put(alloc: Global, bytes: &mut [u8], word: &str) -> Result<()> {
    let (at, piece) = word.split_once('=').context("a place and bytes")?;
    let at = at.parse::<usize>().ok().context("a place")?;
    let piece = hex::decode(alloc, piece).ok().context("bytes")?;
    let end = at.saturating_add(piece.len());
    let range = bytes.get_mut(at..end).context("a place on the disk")?;
    range.copy_from_slice(piece.as_slice());
    Ok(())
}

/// Puts several of them, with spaces between.
pub fn put_all(alloc: Global, bytes: &mut [u8], words: &str) -> Result<()> {
    for word in words.split_whitespace() {
        put(alloc, bytes, word)?;
    }
    Ok(())
}

/// So many bytes that seem random, by a linear congruential generator.
pub fn noise(alloc: Global, length: usize, seed: u64) -> Result<Vec<u8>> {
    let mut bytes = Vec::new(alloc);
    let mut word = seed;
    for _ in 0..length {
        word = word
            .wrapping_mul(6_364_136_223_846_793_005)
            .wrapping_add(1_442_695_040_888_963_407);
        bytes.push((word >> 56) as u8)?;
    }
    Ok(bytes)
}
