//! The disks of the table.

use crate::bytes::bytes_of;
use anyhow::{Context, Result};
use disk_device::MemDisk;
use std::alloc::Global;

/// A disk that rows name.
#[derive(Drop)]
pub struct NamedDisk {
    /// Its name.
    pub name: String,
    /// The numbers of the calls that fail.
    pub failing: Vec<u64>,
    /// How many calls pass before all others fail, if they do.
    pub fuse: Option<u64>,
    /// What it holds.
    pub bytes: Vec<u8>,
}

impl NamedDisk {
    /// A disk of this name that holds what another one does; none of its calls fails.
    pub fn after(alloc: Global, name: &str, bytes: &[u8]) -> Result<Self> {
        Ok(NamedDisk {
            name: String::from_str(alloc, name)?,
            failing: Vec::new(alloc),
            fuse: None,
            bytes: Vec::from_slice(alloc, bytes)?,
        })
    }

    /// Whether it has this name.
    pub fn is_called(&self, name: &str) -> bool {
        self.name.as_str() == name
    }

    /// A disk in memory with its bytes, whose calls fail as it says.
    pub fn made(&self, alloc: Global) -> Result<MemDisk> {
        let bytes = self.bytes.as_slice();
        match self.fuse {
            Some(passes) => Ok(MemDisk::fuse(alloc, bytes, passes)?),
            None => Ok(MemDisk::of(alloc, bytes, self.failing.as_slice())?),
        }
    }
}

/// The disk of this name.
pub fn disk_called<'a>(disks: &'a [NamedDisk], name: &str) -> Result<&'a NamedDisk> {
    disks
        .iter()
        .find(|disk| disk.is_called(name))
        .context("no such disk")
}

/// Reads a disk behind the word `disk`: `NAME | FAILING | BYTES`. FAILING is `-`, the numbers of the calls that fail,
/// or `fuse` and how many calls pass.
pub fn disk_of(alloc: Global, line: &str) -> Result<NamedDisk> {
    let (name, rest) = line.split_once('|').context("a name")?;
    let (failing, bytes) = rest.split_once('|').context("failing calls")?;
    let failing = failing.trim();
    let fuse = match failing.strip_prefix("fuse ") {
        Some(passes) => Some(passes.parse::<u64>().context("how many calls")?),
        None => None,
    };
    Ok(NamedDisk {
        name: String::from_str(alloc, name.trim())?,
        failing: if fuse.is_some() {
            Vec::new(alloc)
        } else {
            calls_of(alloc, failing)?
        },
        fuse,
        bytes: bytes_of(alloc, bytes.trim())?,
    })
}

fn calls_of(alloc: Global, text: &str) -> Result<Vec<u64>> {
    let mut calls = Vec::new(alloc);
    for word in text.split_whitespace() {
        if word != "-" {
            calls.push(word.parse::<u64>().context("the number of a call")?)?;
        }
    }
    Ok(calls)
}
