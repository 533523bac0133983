// Disks over files by example.
use crate::disks::{push_calls, worked};
use crate::words::push_plain;
use anyhow::{Result, bail};
use base_types::Disk;
use disk_device::{FileDisk, FileFault};
use std::alloc::Global;
use std::fs::File;
use std::rt::Files;
use tree_test_words::Text;

fn push_worked(text: &mut Text, disk: &mut FileDisk) {
    let (done, read) = worked(disk);
    push_calls(text, &done, &read);
}

// Writes how many bytes a file has, and its first eight.
fn push_kept(text: &mut Text, disk: &mut FileDisk) {
    let mut read = [b'?'; 8];
    let length = disk.length().unwrap_or(0);
    let _ = disk.read(0, &mut read);
    text.number("", length);
    text.word(" ");
    push_plain(text, &read);
}

// Writes whether a byte is written, two are read, which ones, whether a sync succeeds, and whether they are read then.
fn push_swallowed(text: &mut Text, disk: &mut FileDisk) {
    let mut read = [b'?'; 2];
    let written = disk.write_at(0, b"x").is_ok();
    let first = disk.read(0, &mut read).is_ok();
    let synced = disk.sync().is_ok();
    let mut again = [b'?'; 2];
    let second = disk.read(0, &mut again).is_ok();
    let length = disk.length().is_ok();
    push_calls(text, &[written, first, synced, second, length], &read);
}

fn is_opened(disk: Result<FileDisk, FileFault>) -> bool {
    disk.is_ok()
}

// Writes whether a file that is open as a disk can be opened again: to be written, and to be read.
fn push_again(text: &mut Text, rt: &impl Files<File = File>, name: &str) {
    let written = is_opened(FileDisk::open_or_make(rt, name));
    let read = is_opened(FileDisk::open_to_read(rt, name));
    push_calls(text, &[written, read], b"");
}

// The file of a row, opened as it says.
fn disk_of(rt: &impl Files<File = File>, kind: &str, name: &str) -> Result<FileDisk, FileFault> {
    match kind {
        "read" | "both_read" => FileDisk::open_to_read(rt, name),
        _ => FileDisk::open_or_make(rt, name),
    }
}

fn tell_fault(alloc: Global, fault: FileFault, text: &mut Text) -> Result<()> {
    let said = format!(in alloc; "{fault}")?;
    text.word(said.as_str());
    Ok(())
}

// Writes what a row about a file that is open is answered.
fn tell_open(
    rt: &impl Files<File = File>,
    disk: &mut FileDisk,
    kind: &str,
    name: &str,
    text: &mut Text,
) -> Result<()> {
    match kind {
        "file" => push_worked(text, disk),
        "kept" | "read" => push_kept(text, disk),
        "device" => push_swallowed(text, disk),
        "written_twice" | "both_read" => push_again(text, rt, name),
        _ => bail!("no row: {kind}"),
    }
    Ok(())
}

// Writes what a row about a file is answered.
pub fn tell_file(
    rt: &(impl AllocGlobal + Files<File = File>),
    kind: &str,
    name: &str,
    text: &mut Text,
) -> Result<()> {
    match disk_of(rt, kind, name) {
        Ok(mut disk) => {
            let told = tell_open(rt, &mut disk, kind, name, text);
            drop(disk);
            told
        }
        Err(fault) => tell_fault(rt.alloc(), fault, text),
    }
}

// Removes a file.
pub fn remove_file(rt: &(impl AllocGlobal + Files<File = File>), name: &str) -> Result<()> {
    std::fs::remove_file(rt, name)?;
    Ok(())
}
