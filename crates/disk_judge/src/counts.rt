// The counts of blocks, by one pass over all pointers.
ghost use Rattle.std.specs.Prelude.{◌≡◌, ◌≤◌, ◌<◌, ◌+◌, ◌-◌, ◌*◌, ◌/◌, ◌++◌, ◌∷◌, [], ◌==◌, ◌||◌, min, nat_le};
ghost use Rattle.std.specs.Prelude.{if◌then◌else◌, ℕ, List, IfOk, OnOk, length};
ghost use Rattle.std.proofs.Common.{get_or};
ghost use Rattle.disk_pages.specs.Words.{each_below};
ghost use Rattle.disk_image.specs.Joined.{joined};
ghost use Rattle.disk_image.specs.Counts.{is_count_place, is_count_page as is_count_page_there, count_fault};
ghost use Rattle.disk_image.specs.Counts.{uses_of};
ghost use Rattle.disk_image.specs.declared.found.Use.{Use as TheUse};
ghost use Rattle.disk_judge.specs.Metadata.{IsSized, over};
ghost use Rattle.disk_judge.specs.Marks.{IsMark, AreMarks, is_marked_so};

use crate::metadata::Metadata;
use disk_image::Use;
use disk_layout::u16_at;
use std::alloc::{AllocError, Global};

// The first page of counts, and how many stand in a page.
const COUNTS_PAGE: usize = 1_058;

const COUNTS: usize = 256;

const SLOTS: usize = 16;

/// What is noted of a block while all pointers are gone through. The numbers stop at their greatest.
#[derive(Clone, Copy)]
pub struct Mark {
    /// How many pointers to it count.
    pub counted: u32,
    /// How many are those of each slot.
    pub in_slots: [u8; SLOTS],
    /// Whether one names it as an indirect block.
    pub as_map: bool,
    /// Whether one names it as another block.
    pub as_other: bool,
}

const NO_MARK: Mark = Mark {
    counted: 0,
    in_slots: [0; SLOTS],
    as_map: false,
    as_other: false,
};

// A number, and one more where a test passes.
fn more(number: u32, is_more: bool) -> u32
    ensures { result ≡ min (number + (if is_more then 1 else 0)) 4294967295 }
{
    if is_more {
        number.saturating_add(1)
    } else {
        number
    }
}

// The numbers of all slots, with one more of a slot.
fn more_in(in_slots: [u8; SLOTS], slot: u8) -> [u8; SLOTS]
    ensures { (other : ℕ) → other < 16
        → get_or result other 0 ≡ min (get_or in_slots other 0 + (if slot == other then 1 else 0)) 255 }
{
    let mut next = in_slots;
    if (slot as usize) < SLOTS {
        next[slot as usize] = in_slots[slot as usize].saturating_add(1);
    }
    next
}

fn either(a: bool, b: bool) -> bool
    ensures { result ≡ (a || b) }
{
    a || b
}

// The mark of a block after one more pointer to it.
fn noted(mark: &Mark, one: &Use) -> Mark
    ensures { (uses : List TheUse) (block : ℕ) → IsMark uses block mark.now → one.now.pointer ≡ block + 1
        → IsMark (uses ++ one.now ∷ []) block result }
{
    Mark {
        counted: more(mark.counted, one.is_counted),
        in_slots: more_in(mark.in_slots, one.slot),
        as_map: either(mark.as_map, one.is_map),
        as_other: either(mark.as_other, !one.is_map),
    }
}

// Notes a pointer.
fn note(marks: &mut Vec<Mark>, one: &Use)
    requires { length marks.old.items ≤ 66560 }
    ensures { (uses : List TheUse) → AreMarks uses (length marks.old.items) marks.old.items
        → AreMarks (uses ++ one.now ∷ []) (length marks.old.items) marks.new.items }
{
    let pointer = one.pointer as usize;
    if 1 <= pointer && pointer <= marks.len() {
        let mark = noted(&marks[pointer - 1], one);
        marks[pointer - 1] = mark;
    }
}

/// The marks of so many blocks, by all pointers. The error is want of memory.
pub fn marks_of(alloc: Global, blocks: u32, uses: &[Use]) -> Result<Vec<Mark>, AllocError>
    requires { blocks ≤ 66560 }
    ensures { IfOk result (λ marks. AreMarks uses.now blocks marks.items) }
{
    let mut marks = vec![in alloc; NO_MARK; blocks as usize]?;
    for one in uses {
        note(&mut marks, one);
    }
    Ok(marks)
}

// Whether a slot has at most one pointer to a block.
fn is_few(mark: &Mark, slot: usize) -> bool
    requires { slot < 16 }
    ensures { result ≡ nat_le (get_or mark.now.in_slots slot 0) 1 }
{
    mark.in_slots[slot] <= 1
}

// Whether each slot has.
fn is_single(mark: &Mark) -> bool
    ensures { result ≡ each_below (λ (slot : ℕ). nat_le (get_or mark.now.in_slots slot 0) 1) 16 }
{
    for slot in 0..SLOTS {
        if !is_few(mark, slot) {
            return false;
        }
    }
    true
}

// Whether all is well with the count of a block.
fn is_count(mark: &Mark, count: u16) -> bool
    ensures { result ≡ is_marked_so mark.now count }
{
    mark.counted == u32::from(count) && is_single(mark) && !(mark.as_map && mark.as_other)
}

// Whether all is well with count k of a page.
fn is_count_at(metadata: &Metadata, marks: &[Mark], p: usize, k: usize) -> bool
    requires sized { IsSized metadata.now }
    requires size { length marks.now ≡ metadata.now.blocks }
    requires page { 1058 + p < length metadata.now.pages.items }
    requires count { k < 256 }
    ensures { (image : List ℕ) → AreMarks (uses_of (over metadata.now image)) metadata.now.blocks marks.now
        → result ≡ is_count_place (over metadata.now image) p k }
{
    let count = u16_at(metadata.page(COUNTS_PAGE + p), 2 * k);
    let block = COUNTS * p + k;
    if block < marks.len() {
        is_count(&marks[block], count)
    } else {
        count == 0
    }
}

/// Whether all is well with page p of the counts.
#[tactic(auto, unfolding(disk_image::specs::Counts::is_count_page))]
pub fn is_count_page(metadata: &Metadata, marks: &[Mark], p: usize) -> bool
    requires sized { IsSized metadata.now }
    requires size { length marks.now ≡ metadata.now.blocks }
    requires page { 1058 + p < length metadata.now.pages.items }
    ensures { (image : List ℕ) → AreMarks (uses_of (over metadata.now image)) metadata.now.blocks marks.now
        → result ≡ is_count_page_there (over metadata.now image) p }
{
    for k in 0..COUNTS {
        if !is_count_at(metadata, marks, p, k) {
            return false;
        }
    }
    true
}
