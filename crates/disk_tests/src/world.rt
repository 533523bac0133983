// The bytes of a disk, and what rows do to them and ask of them.
use crate::disks::tell_disk;
use crate::files::{remove_file, tell_file};
use crate::images::{disk_of, edit_by, lay_entries, lay_stale};
use crate::layout::tell_layout;
use crate::logs::{Answers, formatted, over};
use crate::looks::only;
use crate::stops::{tell_formats, tell_stops};
use crate::watch::{Seen, Watched, counts, watching};
use crate::words::{first, large, number, small};
use anyhow::{Result, bail};
use base_types::Disk;
use disk_device::{FileDisk, MemDisk};
use disk_layout::PAGE;
use disk_log::{LogFault, found_superblock, is_blank, settled_pages};
use std::alloc::Global;
use std::fs::File;
use std::rt::Files;
use tree_test_words::Text;

// The file that stands for a disk in memory where a row begins with `on_file`.
const FILE: &str = "an_aggregate";

// A disk's bytes; and what the last row did to it.
#[derive(Drop)]
pub struct World {
    bytes: Vec<u8>,
    seen: Vec<Seen>,
}

fn tell_fault(alloc: Global, fault: LogFault, text: &mut Text) -> Result<()> {
    if let LogFault::NotALog(place) = fault {
        text.number("no log ", place);
        return Ok(());
    }
    let said = format!(in alloc; "{fault:?}")?;
    text.word(said.as_str());
    Ok(())
}

fn push_pages(text: &mut Text, pages: &[[u8; PAGE]]) {
    for page in pages.iter().take(5) {
        text.number("", u64::from(only(page)));
        text.word(" ");
    }
    text.number("of ", pages.len() as u64);
}

// Writes all pages of a disk, each with the byte that it is filled with: the first five, and how many there are.
fn tell_pages(alloc: Global, disk: &mut Watched<MemDisk>, text: &mut Text) -> Result<()> {
    match settled_pages(alloc, disk) {
        Ok(pages) => {
            push_pages(text, pages.as_slice());
            drop(pages);
            Ok(())
        }
        Err(fault) => tell_fault(alloc, fault, text),
    }
}

// Writes whether a disk is blank, and what its superblock says.
fn tell_front(disk: &mut Watched<MemDisk>, text: &mut Text) -> Result<()> {
    let Ok(blank) = is_blank(disk) else {
        bail!("the disk failed");
    };
    let Ok(found) = found_superblock(disk) else {
        bail!("the disk failed");
    };
    text.word(if blank { "true" } else { "false" });
    match found {
        Some(found) => {
            text.number(" ", u64::from(found.server));
            text.number(" ", u64::from(found.blocks));
        }
        None => text.word(" none"),
    }
    Ok(())
}

// Writes the fault of a mount.
fn tell_answers(alloc: Global, answers: &mut Answers) -> Result<()> {
    match answers.fault {
        Some(fault) => tell_fault(alloc, fault, &mut answers.text),
        None => Ok(()),
    }
}

impl World {
    pub fn new(alloc: Global) -> World {
        World {
            bytes: Vec::new(alloc),
            seen: Vec::new(alloc),
        }
    }

    // Keeps what a disk has, and what it saw.
    fn keep(&mut self, disk: &mut Watched<MemDisk>) -> Result<()> {
        self.bytes.clear();
        self.bytes.extend_from_slice(disk.disk.bytes())?;
        self.keep_seen(&disk.seen)
    }

    fn keep_seen(&mut self, seen: &[Seen]) -> Result<()> {
        self.seen.clear();
        self.seen.extend_from_slice(seen)?;
        Ok(())
    }

    // Starts with a disk that is formatted.
    fn format(&mut self, alloc: Global, server: u8, blocks: u32, text: &mut Text) -> Result<()> {
        let blank = watching(alloc, MemDisk::new(alloc, &[])?);
        let (mut disk, done) = formatted(alloc, blank, server, blocks);
        if !done {
            text.word("failed");
        }
        let kept = self.keep(&mut disk);
        drop(disk);
        kept
    }

    // Mounts the disk, and does acts to it.
    fn act(&mut self, alloc: Global, acts: &str, answers: &mut Answers) -> Result<()> {
        let mut disk = over(alloc, disk_of(alloc, &self.bytes)?, acts, answers);
        let kept = self.keep(&mut disk);
        drop(disk);
        kept
    }

    fn tell_settled(&mut self, alloc: Global, text: &mut Text) -> Result<()> {
        let mut disk = disk_of(alloc, &self.bytes)?;
        let told = tell_pages(alloc, &mut disk, text);
        let kept = self.keep_seen(&disk.seen);
        drop(disk);
        told?;
        kept
    }

    fn tell_front(&self, alloc: Global, text: &mut Text) -> Result<()> {
        let mut disk = disk_of(alloc, &self.bytes)?;
        let told = tell_front(&mut disk, text);
        drop(disk);
        told
    }

    // Writes how many reads, writes and syncs the last row made in a range, or how many writes.
    fn push_counts(&self, words: &str, all: bool, text: &mut Text) {
        let (from, up_to) = first(words);
        let [reads, writes, syncs] = counts(&self.seen, large(from), large(up_to));
        if all {
            text.number("", u64::from(reads));
            text.word(" ");
        }
        text.number("", u64::from(writes));
        if all {
            text.number(" ", u64::from(syncs));
        }
    }

    fn format_by(&mut self, alloc: Global, words: &str, text: &mut Text) -> Result<()> {
        let (server, blocks) = first(words);
        self.format(alloc, small(server), number(blocks), text)
    }

    // Changes the bytes, or starts with others.
    fn change(&mut self, alloc: Global, kind: &str, words: &str, text: &mut Text) -> Result<()> {
        match kind {
            "aggregate" => return self.format(alloc, 1, 200, text),
            "format" => return self.format_by(alloc, words, text),
            "edit" => return edit_by(alloc, &mut self.bytes, words),
            "shorten" => self.bytes.truncate(number(words) as usize),
            "entries" => lay_entries(&mut self.bytes, words),
            _ => lay_stale(&mut self.bytes, words),
        }
        Ok(())
    }

    // Writes what a row asks of the bytes, or of the calls that made them.
    fn look(&mut self, alloc: Global, kind: &str, words: &str, text: &mut Text) -> Result<()> {
        match kind {
            "counts" => self.push_counts(words, true, text),
            "writes" => self.push_counts(words, false, text),
            "salvage" => return self.tell_settled(alloc, text),
            "front" => return self.tell_front(alloc, text),
            "stops" => return tell_stops(alloc, &self.bytes, words, text),
            _ => return tell_formats(alloc, text),
        }
        Ok(())
    }

    // Does what a row says, or writes what it is answered.
    pub fn tell(&mut self, alloc: Global, row: &str, answers: &mut Answers) -> Result<()> {
        let (kind, words) = first(row);
        match kind {
            "aggregate" | "format" | "edit" | "shorten" | "entries" | "stale" => {
                self.change(alloc, kind, words, &mut answers.text)
            }
            "counts" | "writes" | "salvage" | "front" | "stops" | "stopped_formats" => {
                self.look(alloc, kind, words, &mut answers.text)
            }
            _ => self.act(alloc, row, answers),
        }
    }
}

// Formats the file.
fn format_file(alloc: Global, disk: FileDisk, text: &mut Text) {
    let (disk, done) = formatted(alloc, disk, 1, 200);
    if !done {
        text.word("failed");
    }
    drop(disk);
}

// Does acts to the log on a file, which is formatted first where the row says so.
fn on_file(
    rt: &(impl AllocGlobal + Files<File = File>),
    acts: &str,
    answers: &mut Answers,
) -> Result<()> {
    let Ok(disk) = FileDisk::open_or_make(rt, FILE) else {
        bail!("no file");
    };
    if acts == "aggregate" {
        format_file(rt.alloc(), disk, &mut answers.text);
    } else {
        drop(over(rt.alloc(), disk, acts, answers));
    }
    Ok(())
}

// Writes what a row about files, or about a disk of its own, is answered.
fn tell_other(
    rt: &(impl AllocGlobal + Files<File = File>),
    kind: &str,
    words: &str,
    answers: &mut Answers,
) -> Result<()> {
    match kind {
        "on_file" => on_file(rt, words, answers),
        "remove_file" => remove_file(rt, words),
        "fuse" | "calls" | "through" => tell_disk(rt.alloc(), kind, words, &mut answers.text),
        _ => tell_file(rt, kind, words, &mut answers.text),
    }
}

// Does what a row says, or writes what it is answered.
fn tell(
    rt: &(impl AllocGlobal + Files<File = File>),
    world: &mut World,
    row: &str,
    answers: &mut Answers,
) -> Result<()> {
    let (kind, words) = first(row);
    match kind {
        "numbers" | "pages_of" | "superblock" | "server_page" | "update" | "end_entry" | "half" => {
            tell_layout(kind, words, &mut answers.text)
        }
        "file"
        | "kept"
        | "read"
        | "device"
        | "written_twice"
        | "both_read"
        | "remove_file"
        | "on_file"
        | "fuse"
        | "calls"
        | "through" => tell_other(rt, kind, words, answers),
        _ => world.tell(rt.alloc(), row, answers),
    }
}

// What a row is answered.
pub fn told(
    rt: &(impl AllocGlobal + Files<File = File>),
    world: &mut World,
    row: &str,
) -> Result<String> {
    let mut answers = Answers::new(rt.alloc());
    tell(rt, world, row, &mut answers)?;
    tell_answers(rt.alloc(), &mut answers)?;
    answers.text.line()
}
