// Acts that are stopped at each of their writes, and what is mounted then.
use crate::acts::{Done, all_acted};
use crate::mounted::{Fills, calls_of_mount, opened, pages_left};
use crate::watch::{Seen, Watched, torn, watching};
use anyhow::{Result, bail};
use disk_device::MemDisk;
use std::alloc::Global;
use tree_test_words::Text;

// What a crash may leave of the ranges that aren't synced: what was written, or 1 in the bytes of each, or 255 in those
// of every other one.
const TEARS: [(u64, u8); 3] = [(0, 0), (!0, 1), (0x5555, 255)];

// The disk after acts over a log, which fails each call behind so many, and what was done.
fn over(
    alloc: Global,
    start: &[u8],
    acts: &str,
    passes: Option<u64>,
    done: &mut Done,
) -> Result<Watched<MemDisk>> {
    let disk = watching(alloc, start, passes)?;
    let Ok(mut classes) = opened(alloc, disk) else {
        bail!("no log");
    };
    let mut text = Text::new(alloc);
    all_acted(alloc, &mut classes, acts, done, &mut text);
    drop(text);
    Ok(classes.into_log().into_disk())
}

// Writes what pages 3 and 5 are filled with, behind how many forces answered.
fn push_fills(text: &mut Text, forces: u8, fills: &Fills) {
    text.number("", u64::from(forces));
    text.number(":", u64::from(fills[2]));
    text.number(",", u64::from(fills[4]));
    text.word(" ");
}

fn said(alloc: Global, forces: u8, fills: &Fills) -> Result<String> {
    let mut text = Text::new(alloc);
    push_fills(&mut text, forces, fills);
    text.line()
}

// Tells what pages 3 and 5 are filled with, where that isn't told yet.
fn tell_fills(alloc: Global, forces: u8, fills: &Fills, told: &mut String) -> Result<()> {
    let said = said(alloc, forces, fills)?;
    let mut noted = Ok(());
    if !told.as_str().contains(said.as_str()) {
        noted = told.push_str(said.as_str());
    }
    drop(said);
    Ok(noted?)
}

// As that, of what a crash may leave.
fn tell(
    alloc: Global,
    disk: &Watched<MemDisk>,
    forces: u8,
    tear: (u64, u8),
    told: &mut String,
) -> Result<()> {
    let (mask, byte) = tear;
    let bytes = torn(alloc, disk, mask, byte)?;
    let fills = pages_left(alloc, bytes.as_slice());
    drop(bytes);
    tell_fills(alloc, forces, &fills?, told)
}

fn tell_tears(alloc: Global, disk: &Watched<MemDisk>, forces: u8, told: &mut String) -> Result<()> {
    for tear in TEARS {
        tell(alloc, disk, forces, tear, told)?;
    }
    Ok(())
}

// Stops acts before a call.
fn stop(alloc: Global, start: &[u8], acts: &str, passes: u64, told: &mut String) -> Result<()> {
    let mut done = Done::nothing();
    let disk = over(alloc, start, acts, Some(passes), &mut done)?;
    let stopped = tell_tears(alloc, &disk, done.forces, told);
    drop(disk);
    stopped
}

// Stops acts before each of these calls that is a write or a sync, and at their end.
fn stop_each(
    alloc: Global,
    start: &[u8],
    acts: &str,
    seen: &[Seen],
    told: &mut String,
) -> Result<()> {
    let mounted = calls_of_mount(alloc, start)?;
    for (passes, call) in seen.iter().enumerate() {
        if mounted <= passes && !matches!(call, Seen::Read) {
            stop(alloc, start, acts, passes as u64, told)?;
        }
    }
    stop(alloc, start, acts, seen.len() as u64, told)
}

// Writes what crashes may leave of acts that are stopped.
pub fn tell_stops(alloc: Global, start: &[u8], acts: &str, text: &mut Text) -> Result<()> {
    let mut told = String::new(alloc);
    let whole = over(alloc, start, acts, None, &mut Done::nothing())?;
    let stopped = stop_each(alloc, start, acts, &whole.seen, &mut told);
    drop(whole);
    text.word(told.as_str().trim());
    drop(told);
    stopped
}
