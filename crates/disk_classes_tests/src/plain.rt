// What classes are, by a plain list of members.
use crate::mounted::{Fills, PAGES};

// How many members there are at most.
pub const SLOTS: usize = 12;

// And how many stages of the pages.
pub const STAGES: usize = 13;

// How a number stands.
#[derive(Clone, Copy, PartialEq, Eq)]
pub enum Standing {
    Vacant,
    Open,
    Ended,
}

// What is known of a number: how many pages its member may put, and a bit for each that it put.
#[derive(Clone, Copy)]
pub struct Slot {
    pub standing: Standing,
    pub limit: u32,
    pub pages: u8,
}

// Members by their numbers; the pages with all puts, and as they are committed; and what a crash may leave: the pages
// as they are durable, and after each class that the force at hand commits.
#[derive(Clone, Copy)]
pub struct Plain {
    pub slots: [Slot; SLOTS],
    pub fills: Fills,
    pub committed: Fills,
    pub stages: [Fills; STAGES],
    pub last: usize,
}

const VACANT: Slot = Slot {
    standing: Standing::Vacant,
    limit: 0,
    pages: 0,
};

pub fn new_plain() -> Plain {
    Plain {
        slots: [VACANT; SLOTS],
        fills: [0; PAGES],
        committed: [0; PAGES],
        stages: [[0; PAGES]; STAGES],
        last: 0,
    }
}

// The lowest number that no member has; the end where there is none.
pub fn lowest(plain: &Plain) -> usize {
    for (number, slot) in plain.slots.iter().enumerate() {
        if slot.standing == Standing::Vacant {
            return number;
        }
    }
    SLOTS
}

// The bit of a page.
fn bit(page: usize) -> u8 {
    match page {
        0 => 1,
        1 => 2,
        2 => 4,
        3 => 8,
        4 => 16,
        5 => 32,
        6 => 64,
        _ => 128,
    }
}

// Whether a member may put a page.
pub fn may_put(slot: &Slot, page: usize) -> bool {
    slot.standing == Standing::Open
        && (slot.pages & bit(page) != 0 || slot.pages.count_ones() < slot.limit)
}

// A member put a page.
pub fn put(plain: &mut Plain, number: usize, page: usize, byte: u8) {
    if number < SLOTS && page < PAGES {
        plain.slots[number].pages |= bit(page);
        plain.fills[page] = byte;
    }
}

// Pages, and those of all members who put one of them.
fn joined(slots: &[Slot], pages: u8) -> u8 {
    let mut joined = pages;
    for slot in slots {
        if slot.pages & pages != 0 {
            joined |= slot.pages;
        }
    }
    joined
}

// The pages of the class of a member who put these.
fn class_of(slots: &[Slot], pages: u8) -> u8 {
    let mut pages = pages;
    for _ in 0..PAGES {
        pages = joined(slots, pages);
    }
    pages
}

// Whether a member is the least of its class, all of which has ended.
fn is_least(slots: &[Slot], number: usize, class: u8) -> bool {
    for (other, slot) in slots.iter().enumerate() {
        let is_of = other == number || slot.pages & class != 0;
        if is_of && (other < number || slot.standing != Standing::Ended) {
            return false;
        }
    }
    true
}

// The pages of a class are committed.
fn commit_pages(plain: &mut Plain, class: u8) {
    for page in 0..PAGES {
        if class & bit(page) != 0 {
            plain.committed[page] = plain.fills[page];
        }
    }
}

// And its members are gone.
fn vacate(plain: &mut Plain, number: usize, class: u8) {
    for other in 0..SLOTS {
        if other == number || plain.slots[other].pages & class != 0 {
            plain.slots[other] = VACANT;
        }
    }
}

// The pages as they are committed are one more stage.
fn stage(plain: &mut Plain) {
    let last = plain.last.saturating_add(1).min(SLOTS);
    plain.stages[last] = plain.committed;
    plain.last = last;
}

// Commits each class that has ended, in the order of their least members. Answers how many.
pub fn commit_ended(plain: &mut Plain) -> u32 {
    let mut count = 0u32;
    for number in 0..SLOTS {
        let class = class_of(&plain.slots, plain.slots[number].pages);
        if is_least(&plain.slots, number, class) {
            commit_pages(plain, class);
            vacate(plain, number, class);
            count = count.saturating_add(1);
            stage(plain);
        }
    }
    count
}

// All is durable that was committed.
pub fn settle(plain: &mut Plain) {
    plain.stages[0] = plain.committed;
    plain.last = 0;
}

// Whether pages are what a crash may leave.
pub fn may_leave(plain: &Plain, fills: &Fills) -> bool {
    for (stage, left) in plain.stages.iter().enumerate() {
        if stage <= plain.last && *left == *fills {
            return true;
        }
    }
    false
}
