// Logs that are made and mounted, and their pages.
ghost use Rattle.std.specs.Prelude.{◌≡◌, length, OnOk, IfOk};
ghost use Rattle.disk_classes_tests.specs.Ready.{IsReady};

use crate::watch::{Watched, watching};
use anyhow::{Result, bail};
use base_types::Disk;
use disk_classes::{ClassFault, Classes};
use disk_device::MemDisk;
use disk_log::Log;
use std::alloc::Global;

// How many pages rows put, from 1 on.
pub const PAGES: usize = 8;

// What rows read of these pages: the byte that each is filled with, and 255 where its bytes differ.
pub type Fills = [u8; PAGES];

fn bytes_of(alloc: Global, disk: &MemDisk) -> Result<Vec<u8>> {
    Ok(Vec::from_slice(alloc, disk.bytes())?)
}

// The bytes of a new log, of one block and 1,059 pages.
pub fn new_log(alloc: Global) -> Result<Vec<u8>> {
    let blank = MemDisk::new(alloc, &[])?;
    let Ok(log) = Log::format(alloc, blank, 1, 1) else {
        bail!("no log");
    };
    let disk = log.into_disk();
    let bytes = bytes_of(alloc, &disk);
    drop(disk);
    bytes
}

// Classes over the log on a disk that tells nothing.
pub fn opened<D: Disk + Drop>(alloc: Global, disk: D) -> Result<Classes<D>, ClassFault>
    requires { D.tells → ⊥ }
    ensures { IfOk result (λ classes. IsReady D.tells D.view classes) }
{
    match Log::mount(alloc, disk) {
        Ok(log) => Ok(Classes::new(alloc, log)),
        Err((disk, _fault)) => {
            drop(disk);
            Err(ClassFault::Failed)
        }
    }
}

// How many calls a mount makes.
pub fn calls_of_mount(alloc: Global, start: &[u8]) -> Result<usize> {
    let Ok(classes) = opened(alloc, watching(alloc, start, None)?) else {
        bail!("no log");
    };
    let disk = classes.into_log().into_disk();
    let calls = disk.seen.len();
    drop(disk);
    Ok(calls)
}

fn fill_of(bytes: &[u8]) -> u8 {
    let first = bytes.first().copied().unwrap_or(0);
    if bytes.iter().all(|byte| *byte == first) {
        first
    } else {
        255
    }
}

// What a page is filled with.
pub fn filled<D: Disk>(classes: &mut Classes<D>, page: usize) -> Result<u8, ClassFault>
    requires { IsReady D.tells D.view classes.old }
    ensures { IsReady D.tells D.view classes.new }
{
    if PAGES <= page {
        return Ok(0);
    }
    let mut out = [0; 512];
    classes.page(1 + page as u32, &mut out)?;
    Ok(fill_of(&out))
}

// What all pages are filled with.
pub fn all_filled<D: Disk>(classes: &mut Classes<D>) -> Result<Fills, ClassFault>
    requires { IsReady D.tells D.view classes.old }
    ensures { IsReady D.tells D.view classes.new }
{
    let mut fills = [0; PAGES];
    for page in 0..PAGES {
        fills[page] = filled(classes, page)?;
    }
    Ok(fills)
}

// What a disk of these bytes is mounted with.
pub fn pages_left(alloc: Global, bytes: &[u8]) -> Result<Fills> {
    let disk = watching(alloc, bytes, None)?;
    let Ok(mut classes) = opened(alloc, disk) else {
        bail!("no log was left");
    };
    let fills = all_filled(&mut classes);
    drop(classes);
    match fills {
        Ok(fills) => Ok(fills),
        Err(_) => bail!("no pages were left"),
    }
}
