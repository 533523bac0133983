// Disks that are stopped at each of their calls, and what is mounted of them.
use crate::images::disk_of;
use crate::logs::{Answers, formatted, over};
use crate::watch::{Seen, Watched, is_synced, torn, watching};
use anyhow::Result;
use disk_device::MemDisk;
use disk_log::LogFault;
use std::alloc::Global;
use tree_test_words::Text;

// What a crash may leave of the ranges that aren't synced: what was written, or 1 in the bytes of each, or 255 in those
// of every other one.
const TEARS: [(u64, u8); 3] = [(0, 0), (!0, 1), (0x5555, 255)];

// What a disk in memory has, or that there is no log on it.
fn contents(alloc: Global, bytes: &[u8]) -> Result<String> {
    let disk = disk_of(alloc, bytes)?;
    let mut answers = Answers::new(alloc);
    drop(over(alloc, disk, "pages", &mut answers));
    match answers.fault {
        Some(LogFault::NotALog(0)) => answers.text.word("none"),
        Some(_) => answers.text.word("fault"),
        None => {}
    }
    answers.text.line()
}

// Mounts bytes. Answers whether their contents are one of two, and writes them where they aren't.
fn is_either(
    alloc: Global,
    bytes: &[u8],
    one: &str,
    other: &str,
    wrong: &mut Text,
) -> Result<bool> {
    let found = contents(alloc, bytes)?;
    let is_either = found.as_str() == one || found.as_str() == other;
    if !is_either {
        wrong.word(found.as_str());
    }
    Ok(is_either)
}

// As that, of what a crash may leave of a disk.
fn is_tear_right(
    alloc: Global,
    disk: &Watched<MemDisk>,
    tear: (u64, u8),
    either: (&str, &str),
    wrong: &mut Text,
) -> Result<bool> {
    let bytes = torn(alloc, disk, tear.0, tear.1)?;
    let right = is_either(alloc, bytes.as_slice(), either.0, either.1, wrong);
    drop(bytes);
    right
}

// Mounts what a crash may leave of a disk. Answers whether each contents is one of two, and writes one that isn't.
fn is_right(
    alloc: Global,
    disk: &Watched<MemDisk>,
    either: (&str, &str),
    wrong: &mut Text,
) -> Result<bool> {
    for tear in TEARS {
        if (tear.0 == 0 || !is_synced(&disk.seen))
            && !is_tear_right(alloc, disk, tear, either, wrong)?
        {
            return Ok(false);
        }
    }
    Ok(true)
}

// A transaction is ended and forced, and a checkpoint made.
const WORK: &str = "fills 7 7 7; force; checkpoint";

const AFTER: &str = "7 7 7 9";

// What the pages may be after the work was stopped: as before it until the mount has answered, as after it once the
// force has, and all as before or all as after between.
fn either_after<'a>(answers: &Answers, before: &'a str) -> (&'a str, &'a str) {
    let first = if 2 <= answers.done { AFTER } else { before };
    let second = if answers.fault.is_none() {
        AFTER
    } else {
        before
    };
    (first, second)
}

// The disk after work that stops after so many calls, and what its pages may be.
fn worked<'a>(
    alloc: Global,
    disk: Watched<MemDisk>,
    before: &'a str,
    either: &mut (&'a str, &'a str),
) -> Watched<MemDisk> {
    let mut answers = Answers::new(alloc);
    let disk = over(alloc, disk, WORK, &mut answers);
    *either = either_after(&answers, before);
    drop(answers);
    disk
}

// Stops that work after so many calls.
fn is_stop_right(
    alloc: Global,
    bytes: &[u8],
    passes: u64,
    before: &str,
    wrong: &mut Text,
) -> Result<bool> {
    let disk = watching(alloc, MemDisk::fuse(alloc, bytes, passes)?);
    let mut either = (before, before);
    let disk = worked(alloc, disk, before, &mut either);
    let right = is_right(alloc, &disk, either, wrong);
    drop(disk);
    right
}

// Whether a stop before a call leaves what a stop before the last call did: that was a read, and this isn't a write.
fn is_repeated(last: Seen, call: Seen) -> bool {
    matches!(last, Seen::Read(_)) && !matches!(call, Seen::Wrote(_, _))
}

fn push_calls(wrong: &mut Text, passes: usize) {
    wrong.number(" after ", passes as u64);
    wrong.word(" calls");
}

// Stops the work at each of its calls. Answers whether all is right, and writes what is wrong first, and after how many
// calls.
fn is_each_right(
    alloc: Global,
    bytes: &[u8],
    seen: &[Seen],
    before: &str,
    wrong: &mut Text,
) -> Result<bool> {
    let mut last = Seen::Synced;
    for (passes, call) in seen.iter().enumerate() {
        if !is_repeated(last, *call)
            && !is_stop_right(alloc, bytes, passes as u64, before, wrong)?
        {
            push_calls(wrong, passes);
            return Ok(false);
        }
        last = *call;
    }
    Ok(true)
}

fn tell_stops_of(
    alloc: Global,
    bytes: &[u8],
    whole: &Watched<MemDisk>,
    before: &str,
    text: &mut Text,
) -> Result<()> {
    if is_each_right(alloc, bytes, &whole.seen, before, text)?
        && is_right(alloc, whole, (AFTER, AFTER), text)?
    {
        text.word("all or nothing");
    }
    Ok(())
}

// Stops the work at each of its calls, and at its end. Writes what is wrong first, or that nothing is.
pub fn tell_stops(alloc: Global, bytes: &[u8], before: &str, text: &mut Text) -> Result<()> {
    let mut either = (before, before);
    let whole = worked(alloc, disk_of(alloc, bytes)?, before, &mut either);
    let told = tell_stops_of(alloc, bytes, &whole, before, text);
    drop(whole);
    told
}

// Whether a stop of a format before a call tells more than one before the call before it: of the pages only the first
// and the last do.
fn is_telling(call: Seen) -> bool {
    match call {
        Seen::Read(at) => at == 1_024,
        Seen::Wrote(at, _) => at < 6_293_504 || 6_292_992 + 512 * 1_058 <= at,
        Seen::Synced => true,
    }
}

// Stops a format of a blank disk after so many calls: there is no log then, or the formatted one.
fn is_format_right(alloc: Global, passes: u64, wrong: &mut Text) -> Result<bool> {
    let disk = watching(alloc, MemDisk::fuse(alloc, &[], passes)?);
    let (disk, done) = formatted(alloc, disk, 3, 1);
    let right = is_right(alloc, &disk, ("none", "0 0 0 0"), wrong);
    drop(disk);
    Ok(right? && !done)
}

fn tell_formats_of(alloc: Global, seen: &[Seen], text: &mut Text) -> Result<()> {
    for (passes, call) in seen.iter().enumerate() {
        if is_telling(*call) && !is_format_right(alloc, passes as u64, text)? {
            push_calls(text, passes);
            return Ok(());
        }
    }
    text.word("no log or a new one");
    Ok(())
}

// Stops a format at each of its calls.
pub fn tell_formats(alloc: Global, text: &mut Text) -> Result<()> {
    let blank = watching(alloc, MemDisk::new(alloc, &[])?);
    let (whole, _) = formatted(alloc, blank, 3, 1);
    let told = tell_formats_of(alloc, &whole.seen, text);
    drop(whole);
    told
}
