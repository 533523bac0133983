//! Command words run over disks in memory.

ghost use Rattle.std.specs.Prelude.{◌≡◌, length, map, IfOk};
ghost use Rattle.std.specs.String.{string_bytes};
ghost use Rattle.script_commands.specs.Command.{disk_names};
ghost use Rattle.service_run.specs.Checks.{AreNamed};

use crate::disk::{NamedDisk, disk_called};
use anyhow::{Result, bail};
use base_io::{MemSink, MemSource};
use base_types::NoMemory;
use disk_device::MemDisk;
use script_commands::disk_names;
use service_run::{Gate, run};
use std::alloc::Global;
use std::sync::Wait;
use std::thread::Threads;

/// What a run gave.
#[derive(Drop)]
pub struct Ran {
    /// Its status.
    pub status: u8,
    /// What it wrote.
    pub output: Vec<u8>,
    /// The disks that its words name, with what they hold now.
    pub left: Vec<NamedDisk>,
}

/// Runs these words over the disks that they name.
pub fn run_over(
    rt: &(impl AllocGlobal + Threads + Wait + Sync),
    disks: &[NamedDisk],
    words: &[String],
    mut source: MemSource,
    mut sink: MemSink,
    gate: &(impl Gate + Sync),
) -> Result<Ran> {
    let alloc = rt.alloc();
    let mut made = disks_for(alloc, disks, words)?;
    let outcome = run(rt, alloc, words, &mut source, &mut sink, &mut made, gate);
    let status = outcome.status.code();
    drop(outcome);
    Ok(Ran {
        status,
        output: Vec::from_slice(alloc, sink.bytes())?,
        left: left_by(alloc, words, made.as_slice())?,
    })
}

// The disks that the words of a row name.
fn disks_for(alloc: Global, disks: &[NamedDisk], words: &[String]) -> Result<Vec<MemDisk>>
    ensures { IfOk result (λ made. AreNamed (disk_names (map string_bytes words.now)) (length made.items)) }
{
    match disk_names(alloc, words) {
        Ok(Some(names)) => made(alloc, disks, names.as_slice()),
        Ok(None) => Ok(Vec::new(alloc)),
        Err(NoMemory) => bail!("memory ran out"),
    }
}

// The disks with these names.
fn made(alloc: Global, disks: &[NamedDisk], names: &[String]) -> Result<Vec<MemDisk>>
    ensures { IfOk result (λ made. length made.items ≡ length names.now) }
{
    let mut made = Vec::new(alloc);
    for name in names {
        made.push(disk_called(disks, name.as_str())?.made(alloc)?)?;
    }
    Ok(made)
}

// The disks that the words name, as a run left them.
fn left_by(alloc: Global, words: &[String], made: &[MemDisk]) -> Result<Vec<NamedDisk>> {
    let mut left = Vec::new(alloc);
    let Ok(Some(names)) = disk_names(alloc, words) else {
        return Ok(left);
    };
    for (name, disk) in names.iter().zip(made.iter()) {
        left.push(NamedDisk::after(alloc, name.as_str(), disk.bytes())?)?;
    }
    Ok(left)
}
