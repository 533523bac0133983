// Many members at once.
ghost use Rattle.std.specs.Prelude.{◌≡◌, OnOk};
ghost use Rattle.disk_classes_tests.specs.Ready.{IsReady};

use crate::mounted::opened;
use crate::watch::{syncs, watching};
use anyhow::{Result, bail};
use base_types::Disk;
use disk_classes::{ClassFault, Classes, Member};
use std::alloc::Global;
use tree_test_words::Text;

// Pages that many members put, from 1 on.
const MANY_PAGES: u32 = 1_000;

// Puts a page, where the member may.
fn put_one<D: Disk>(
    classes: &mut Classes<D>,
    member: &mut Member,
    page: u32,
) -> Result<(), ClassFault>
    requires { IsReady D.tells D.view classes.old }
    ensures { IsReady D.tells D.view classes.new }
{
    if MANY_PAGES <= page || !classes.may_put(member, page) {
        return Ok(());
    }
    classes.put(member, page, &[7; 512])
}

// Puts a page by the member at a place.
fn put_by<D: Disk>(
    classes: &mut Classes<D>,
    members: &mut Vec<Member>,
    place: usize,
    page: u32,
) -> Result<(), ClassFault>
    requires { IsReady D.tells D.view classes.old }
    ensures { IsReady D.tells D.view classes.new }
{
    match members.as_mut_slice().get_mut(place) {
        Some(member) => put_one(classes, member, page),
        None => Ok(()),
    }
}

// Begins so many members, the first of which may put so many pages each, and the others none.
fn begin_many<D: Disk>(
    classes: &mut Classes<D>,
    members: &mut Vec<Member>,
    many: u32,
    putting: u32,
    pages: u32,
) -> Result<(), ClassFault>
    requires { IsReady D.tells D.view classes.old }
    ensures { IsReady D.tells D.view classes.new }
{
    for number in 0..many {
        let member = classes.begin(if number < putting { pages } else { 0 })?;
        if members.push(member).is_err() {
            return Err(ClassFault::Memory);
        }
    }
    Ok(())
}

// Each member puts one page: all the first, or each another one.
fn put_each<D: Disk>(
    classes: &mut Classes<D>,
    members: &mut Vec<Member>,
    apart: bool,
) -> Result<(), ClassFault>
    requires { IsReady D.tells D.view classes.old }
    ensures { IsReady D.tells D.view classes.new }
{
    for place in 0..members.len() {
        let page = if apart { (place % 999) as u32 } else { 0 };
        put_by(classes, members, place, 1 + page)?;
    }
    Ok(())
}

// Puts so many pages, by ten members in turn, each of which puts fifty in turn.
fn put_many<D: Disk>(
    classes: &mut Classes<D>,
    members: &mut Vec<Member>,
    puts: u32,
) -> Result<(), ClassFault>
    requires { IsReady D.tells D.view classes.old }
    ensures { IsReady D.tells D.view classes.new }
{
    for put in 0..puts {
        put_by(classes, members, (put % 10) as usize, 1 + put / 10 % 50)?;
    }
    Ok(())
}

fn end_one<D: Disk>(classes: &mut Classes<D>, member: Member)
    requires { IsReady D.tells D.view classes.old }
    ensures { IsReady D.tells D.view classes.new }
{
    if classes.is_open(&member) {
        classes.end(member);
    }
}

// Ends all members.
fn end_all<D: Disk>(classes: &mut Classes<D>, members: &mut Vec<Member>)
    requires { IsReady D.tells D.view classes.old }
    ensures { IsReady D.tells D.view classes.new }
{
    'all: for _ in 0..members.len() {
        if let Some(member) = members.pop() {
            end_one(classes, member);
        }
    }
}

// Many members put a page each, end, and are forced. Answers how many classes that were.
fn forced_at_once<D: Disk>(
    alloc: Global,
    classes: &mut Classes<D>,
    many: u32,
    apart: bool,
) -> Result<u32, ClassFault>
    requires { IsReady D.tells D.view classes.old }
{
    let mut members = Vec::new(alloc);
    begin_many(classes, &mut members, many, many, 1)?;
    put_each(classes, &mut members, apart)?;
    end_all(classes, &mut members);
    classes.force()
}

// How many syncs a mount takes.
fn syncs_before(alloc: Global, start: &[u8]) -> Result<usize> {
    let Ok(classes) = opened(alloc, watching(alloc, start, None)?) else {
        bail!("no log");
    };
    let disk = classes.into_log().into_disk();
    let before = syncs(&disk.seen);
    drop(disk);
    Ok(before)
}

// Writes how many classes so many members are, and how many syncs one force of all takes.
pub fn tell_syncs(alloc: Global, start: &[u8], words: &str, text: &mut Text) -> Result<()> {
    let (many, kind) = words.split_once(' ').unwrap_or((words, ""));
    let many = many.parse::<u32>().unwrap_or(0);
    let before = syncs_before(alloc, start)?;
    let Ok(mut classes) = opened(alloc, watching(alloc, start, None)?) else {
        bail!("no log");
    };
    let forced = forced_at_once(alloc, &mut classes, many, kind == "apart");
    let disk = classes.into_log().into_disk();
    let after = syncs(&disk.seen);
    drop(disk);
    match forced {
        Ok(count) => {
            text.number("", u64::from(count));
            text.number(" ", after.saturating_sub(before) as u64);
            Ok(())
        }
        Err(fault) => bail!("{fault:?}"),
    }
}

// So many members are open, of which ten put pages, fifty each in turn, so often in all.
fn put_by_ten<D: Disk>(
    alloc: Global,
    classes: &mut Classes<D>,
    many: u32,
    puts: u32,
) -> Result<(), ClassFault>
    requires { IsReady D.tells D.view classes.old }
{
    let mut members = Vec::new(alloc);
    begin_many(classes, &mut members, many, 10, 50)?;
    put_many(classes, &mut members, puts)
}

// Writes whether that is put.
pub fn tell_puts(alloc: Global, start: &[u8], words: &str, text: &mut Text) -> Result<()> {
    let (many, puts) = words.split_once(' ').unwrap_or((words, ""));
    let many = many.parse::<u32>().unwrap_or(0);
    let puts = puts.parse::<u32>().unwrap_or(0);
    let Ok(mut classes) = opened(alloc, watching(alloc, start, None)?) else {
        bail!("no log");
    };
    let put = put_by_ten(alloc, &mut classes, many, puts);
    drop(classes);
    match put {
        Ok(()) => text.word("put"),
        Err(fault) => bail!("{fault:?}"),
    }
    Ok(())
}
