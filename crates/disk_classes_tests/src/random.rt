// Random orders of begins, puts, ends and forces, beside a plain list.
ghost use Rattle.std.specs.Prelude.{◌≡◌, ◌<◌, OnOk};
ghost use Rattle.disk_classes_tests.specs.Ready.{IsReady};

use crate::mounted::{Fills, PAGES, all_filled, calls_of_mount, filled, opened, pages_left};
use crate::plain::{
    Plain, SLOTS, Slot, Standing, commit_ended, lowest, may_leave, may_put, new_plain, put, settle,
};
use crate::tried::{Named, begun, end_by, put_by};
use crate::watch::{Seen, Watched, torn, watching, write_from};
use anyhow::{Result, bail};
use base_types::Disk;
use disk_classes::{ClassFault, Classes};
use disk_device::MemDisk;
use std::alloc::Global;
use tree_test_words::Text;

// How many acts an order has.
const ACTS: usize = 40;

// Numbers that look random, after G. Marsaglia's xorshift.
#[derive(Clone, Copy)]
struct Random {
    state: u64,
}

impl Random {
    // A number below another.
    fn below(&mut self, end: u64) -> u64
        requires { 0 < end }
        ensures { result < end }
    {
        self.state ^= self.state << 13;
        self.state ^= self.state >> 7;
        self.state ^= self.state << 17;
        (self.state >> 11) % end
    }
}

// Begins a member, where there is a number for it.
fn begin_one<D: Disk>(
    classes: &mut Classes<D>,
    members: &mut Vec<Named>,
    plain: &mut Plain,
    limit: u32,
) -> Result<(), ClassFault>
    requires { IsReady D.tells D.view classes.old }
    ensures { IsReady D.tells D.view classes.new }
{
    let number = lowest(plain);
    if SLOTS <= number {
        return Ok(());
    }
    begun(classes, members, number as u32, limit)?;
    plain.slots[number] = Slot {
        standing: Standing::Open,
        limit,
        pages: 0,
    };
    Ok(())
}

// The number of the member at a place.
fn number_at(members: &[Named], place: usize) -> usize
    ensures { result < SLOTS }
{
    match members.get(place) {
        Some(named) => (named.number as usize).min(SLOTS - 1),
        None => SLOTS - 1,
    }
}

// Puts a page by one of the members, and reads it. Answers whether that was as it has to be.
fn put_one<D: Disk>(
    classes: &mut Classes<D>,
    members: &mut Vec<Named>,
    plain: &mut Plain,
    random: &mut Random,
) -> Result<bool, ClassFault>
    requires { IsReady D.tells D.view classes.old }
    ensures { IsReady D.tells D.view classes.new }
{
    if members.is_empty() {
        return Ok(true);
    }
    let place = random.below(members.len() as u64) as usize;
    let page = random.below(PAGES as u64) as usize;
    let byte = random.below(255) as u8;
    let number = number_at(members, place);
    let may = may_put(&plain.slots[number], page);
    let done = put_by(classes, members, place, page, byte)?;
    if done {
        put(plain, number, page, byte);
    }
    Ok(done == may && filled(classes, page)? == plain.fills[page])
}

// Ends one of the members.
fn end_one<D: Disk>(
    classes: &mut Classes<D>,
    members: &mut Vec<Named>,
    plain: &mut Plain,
    random: &mut Random,
)
    requires { IsReady D.tells D.view classes.old }
    ensures { IsReady D.tells D.view classes.new }
{
    if members.is_empty() {
        return;
    }
    let place = random.below(members.len() as u64) as usize;
    let number = number_at(members, place);
    plain.slots[number].standing = Standing::Ended;
    end_by(classes, members, place);
}

// Forces. Answers whether as many classes were committed as have ended.
fn force_one<D: Disk>(classes: &mut Classes<D>, plain: &mut Plain) -> Result<bool, ClassFault>
    requires { IsReady D.tells D.view classes.old }
    ensures { OnOk result (IsReady D.tells D.view classes.new) }
{
    let count = commit_ended(plain);
    let done = classes.force()?;
    settle(plain);
    Ok(done == count)
}

// Does a random act. Answers whether it was as it has to be.
fn act_one<D: Disk>(
    classes: &mut Classes<D>,
    members: &mut Vec<Named>,
    plain: &mut Plain,
    random: &mut Random,
) -> Result<bool, ClassFault>
    requires { IsReady D.tells D.view classes.old }
    ensures { OnOk result (IsReady D.tells D.view classes.new) }
{
    match random.below(12) {
        0..=2 => {
            let limit = random.below(5) as u32;
            begin_one(classes, members, plain, limit)?;
            Ok(true)
        }
        3..=7 => put_one(classes, members, plain, random),
        8..=10 => {
            end_one(classes, members, plain, random);
            Ok(true)
        }
        _ => force_one(classes, plain),
    }
}

// Does an order of acts, up to one that fails. Answers whether all was as it has to be.
fn all_done<D: Disk>(
    alloc: Global,
    classes: &mut Classes<D>,
    plain: &mut Plain,
    random: &mut Random,
) -> bool
    requires { IsReady D.tells D.view classes.old }
{
    let mut members = Vec::new(alloc);
    'acts: for _ in 0..ACTS {
        match act_one(classes, &mut members, plain, random) {
            Ok(true) => {}
            Ok(false) => return false,
            Err(fault) => return matches!(fault, ClassFault::Failed),
        }
    }
    match all_filled(classes) {
        Ok(fills) => fills == plain.fills,
        Err(fault) => matches!(fault, ClassFault::Failed),
    }
}

// The disk after an order over a log, which fails each call behind so many, and whether all was as it has to be.
fn ordered(
    alloc: Global,
    start: &[u8],
    passes: Option<u64>,
    plain: &mut Plain,
    random: &mut Random,
    well: &mut bool,
) -> Result<Watched<MemDisk>> {
    let disk = watching(alloc, start, passes)?;
    let Ok(mut classes) = opened(alloc, disk) else {
        bail!("no log");
    };
    *well = all_done(alloc, &mut classes, plain, random);
    Ok(classes.into_log().into_disk())
}

// How many calls stand before a random write behind those of the mount.
fn before_write(seen: &[Seen], mounted: usize, random: &mut Random) -> u64 {
    let many = seen.len().saturating_sub(mounted) as u64;
    let from = mounted.saturating_add(random.below(many.max(1)) as usize);
    write_from(seen, from) as u64
}

// Does an order. Answers how many calls stand before a random write of it, where all was as it has to be.
fn whole(alloc: Global, start: &[u8], mounted: usize, random: &mut Random) -> Result<Option<u64>> {
    let mut well = false;
    let mut plain = new_plain();
    let disk = ordered(alloc, start, None, &mut plain, random, &mut well)?;
    let passes = if well {
        Some(before_write(&disk.seen, mounted, random))
    } else {
        None
    };
    drop(disk);
    Ok(passes)
}

// What a crash leaves of a disk, by random tears.
fn left(alloc: Global, disk: &Watched<MemDisk>, random: &mut Random) -> Result<Fills> {
    let mask = random.below(1 << 40);
    let byte = random.below(255) as u8;
    let bytes = torn(alloc, disk, mask, byte)?;
    let left = pages_left(alloc, bytes.as_slice());
    drop(bytes);
    left
}

// Does an order that stops after so many calls. Answers whether all was as it has to be, and a crash left what it may.
fn is_well_stopped(
    alloc: Global,
    start: &[u8],
    passes: u64,
    random: &mut Random,
    again: &mut Random,
) -> Result<bool> {
    let mut well = false;
    let mut plain = new_plain();
    let disk = ordered(alloc, start, Some(passes), &mut plain, again, &mut well)?;
    let left = left(alloc, &disk, random);
    drop(disk);
    Ok(well && may_leave(&plain, &left?))
}

// An order, and the same one with a crash at a random write. Answers whether all was as it has to be.
fn is_well(alloc: Global, start: &[u8], mounted: usize, random: &mut Random) -> Result<bool> {
    let mut again = *random;
    match whole(alloc, start, mounted, random)? {
        Some(passes) => is_well_stopped(alloc, start, passes, random, &mut again),
        None => Ok(false),
    }
}

// Writes of so many random orders, from a seed on, the first that isn't well, or that all are.
pub fn tell_random(alloc: Global, start: &[u8], words: &str, text: &mut Text) -> Result<()> {
    let (orders, seed) = words.split_once(' ').unwrap_or((words, "1"));
    let orders = orders.parse::<u32>().unwrap_or(0);
    let mut random = Random {
        state: seed.parse::<u64>().unwrap_or(1) | 1,
    };
    let mounted = calls_of_mount(alloc, start)?;
    for order in 0..orders {
        if !is_well(alloc, start, mounted, &mut random)? {
            text.number("order ", u64::from(order));
            text.word(" isn't well");
            return Ok(());
        }
    }
    text.number("", u64::from(orders));
    text.word(" are well");
    Ok(())
}
