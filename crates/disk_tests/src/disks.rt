// Disks in memory by example.
use crate::words::{first, large, numbers, push_plain, text};
use anyhow::{Result, bail};
use base_outside::{read_byte, write_through};
use base_types::{Disk, Failed};
use disk_device::MemDisk;
use std::alloc::Global;
use tree_test_words::Text;

// Seven calls of a disk, of which a write is the first, third and fourth, and a sync the second and sixth. Answers
// which ones succeeded, and what the last one read from place 4 on.
pub fn worked<D: Disk>(disk: &mut D) -> ([bool; 7], [u8; 5]) {
    let mut read = [b'?'; 5];
    let first = disk.write_at(2, b"abc").is_ok();
    let second = disk.sync().is_ok();
    let third = disk.write_at(0, b"xy").is_ok();
    let fourth = disk.write_at(4, b"Z!").is_ok();
    let fifth = disk.length().is_ok();
    let sixth = disk.sync().is_ok();
    let seventh = disk.read(4, &mut read).is_ok();
    ([first, second, third, fourth, fifth, sixth, seventh], read)
}

// Writes calls that succeeded as `+`, others as `-`; and what was read.
pub fn push_calls(text: &mut Text, done: &[bool], read: &[u8]) {
    for one in done {
        text.word(if *one { "+" } else { "-" });
    }
    text.word(" ");
    push_plain(text, read);
}

fn push_worked(text: &mut Text, disk: &mut MemDisk) {
    let (done, read) = worked(disk);
    push_calls(text, &done, &read);
    text.word(" ");
    push_plain(text, disk.bytes());
    text.number(" ", disk.calls());
    text.number(" ", disk.refused());
}

fn written<D: Disk>(disk: &mut D) -> Result<u8, Failed> {
    disk.sync()?;
    write_through(disk, 1, b"pq")?;
    read_byte(disk, 2)
}

fn push_written(text: &mut Text, disk: &mut MemDisk) {
    match written(disk) {
        Ok(byte) => text.plain("", &[byte]),
        Err(_) => text.word("-"),
    }
    text.number(" ", disk.calls());
}

fn fuse_told(alloc: Global, bytes: &str, limit: &str, said: &mut Text) -> Result<()> {
    let mut disk = MemDisk::fuse(alloc, text(bytes), large(limit))?;
    push_worked(said, &mut disk);
    drop(disk);
    Ok(())
}

fn calls_told(alloc: Global, bytes: &str, failing: &[u64], said: &mut Text) -> Result<()> {
    let mut disk = MemDisk::of(alloc, text(bytes), failing)?;
    push_worked(said, &mut disk);
    drop(disk);
    Ok(())
}

fn through_told(alloc: Global, failing: &[u64], said: &mut Text) -> Result<()> {
    let mut disk = MemDisk::new(alloc, failing)?;
    push_written(said, &mut disk);
    drop(disk);
    Ok(())
}

// Of a disk of which the listed calls fail.
fn failing_told(alloc: Global, bytes: &str, failing: &str, said: &mut Text) -> Result<()> {
    let failing = numbers(alloc, failing)?;
    let told = calls_told(alloc, bytes, failing.as_slice(), said);
    drop(failing);
    told
}

fn failing_through_told(alloc: Global, failing: &str, said: &mut Text) -> Result<()> {
    let failing = numbers(alloc, failing)?;
    let told = through_told(alloc, failing.as_slice(), said);
    drop(failing);
    told
}

// Writes what a row about a disk in memory is answered.
pub fn tell_disk(alloc: Global, kind: &str, words: &str, said: &mut Text) -> Result<()> {
    let (bytes, limit) = first(words);
    match kind {
        "fuse" => fuse_told(alloc, bytes, limit, said),
        "calls" => failing_told(alloc, bytes, limit, said),
        "through" => failing_through_told(alloc, bytes, said),
        _ => bail!("no row: {kind}"),
    }
}
