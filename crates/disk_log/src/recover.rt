// What recovery makes of the pages that a log's entries name, each of them once, and where it is written.
ghost use Rattle.std.specs.Prelude.{◌≡◌, ◌<◌, ◌≤◌, ◌∷◌, ◌++◌, [], ℕ, List, Option, Some, None, false, length, get_or};
ghost use Rattle.std.specs.Prelude.{IsSome, IfOk, OnOk};
ghost use Rattle.base_types.specs.Crash.{IsSettled, ChangesBy};
ghost use Rattle.disk_layout.specs.declared.entry.Entry.{Entry as TheEntry};
ghost use Rattle.disk_layout.specs.Places.{in_place};
ghost use Rattle.disk_layout.specs.Pages.{undone, is_named, SameButPages};
ghost use Rattle.disk_log.specs.Blame.{IsBlamed};
ghost use Rattle.disk_log.specs.Pages.{AreKept};
ghost use Rattle.disk_log.specs.Recovered.{AreEnds, AreRecovered};

use crate::kept::{keep, repeated};
use base_types::{Disk, Failed, Items};
use disk_layout::{Entry, PAGE, PAGES_START};
use std::alloc::{AllocError, Global};
use std::collections::BTreeSet;

// Notes the transaction that an entry ends.
fn note_end(ended: &mut BTreeSet<u64>, entry: &Entry) -> Result<(), AllocError>
    ensures { OnOk result
        ((before : List TheEntry) → AreEnds ended.old before → AreEnds ended.new (before ++ entry.now ∷ [])) }
{
    if let Entry::End { transaction } = entry {
        ended.insert(*transaction)?;
    }
    Ok(())
}

// The transactions that have an end entry.
fn ends_of(alloc: Global, entries: &[Entry]) -> Result<BTreeSet<u64>, AllocError>
    ensures { IfOk result (λ ended. AreEnds ended entries.now) }
{
    let mut ended = BTreeSet::new(alloc);
    for entry in entries {
        note_end(&mut ended, entry)?;
    }
    Ok(ended)
}

// Puts the old value of an update in its page where its transaction has no end.
fn undo_one(pages: &mut Items<Option<[u8; PAGE]>>, entry: &Entry, ended: &BTreeSet<u64>)
    ensures size { length pages.new ≡ length pages.old }
    ensures kept { (all rest : List TheEntry) (known : ℕ → List ℕ) → AreEnds ended.now all →
        AreKept pages.old (undone all rest known) → AreKept pages.new (undone all (entry.now ∷ rest) known) }
    ensures held { (p : ℕ) → IsSome (get_or pages.old p None) → IsSome (get_or pages.new p None) }
    ensures others { (p : ℕ) → is_named p (entry.now ∷ []) ≡ false → get_or pages.new p None ≡ get_or pages.old p None }
{
    match entry {
        Entry::Update {
            transaction,
            page,
            old,
            ..
        } => {
            if !ended.contains(transaction) {
                pages.put(*page as usize, Some(*old));
            }
        }
        Entry::End { .. } => {}
    }
}

// Undoes the updates whose transactions have no end, from the last entry back.
fn undo(pages: &mut Items<Option<[u8; PAGE]>>, entries: &[Entry], ended: &BTreeSet<u64>)
    requires { AreEnds ended.now entries.now }
    ensures size { length pages.new ≡ length pages.old }
    ensures kept { (known : ℕ → List ℕ)
        → AreKept pages.old known → AreKept pages.new (undone entries.now entries.now known) }
    ensures held { (p : ℕ) → IsSome (get_or pages.old p None) → IsSome (get_or pages.new p None) }
    ensures others { (p : ℕ) → is_named p entries.now ≡ false → get_or pages.new p None ≡ get_or pages.old p None }
{
    for i in 0..entries.len() {
        let last = entries.len() - 1 - i;
        undo_one(pages, &entries[last], ended);
    }
}

// What recovery makes of the pages that the entries name, by page, and none for the others.
pub fn recovered(
    alloc: Global,
    entries: &[Entry],
    pages: u32,
) -> Result<Items<Option<[u8; PAGE]>>, AllocError>
    ensures size { IfOk result (λ table. length table ≡ pages) }
    ensures recovered { IfOk result (λ table. AreRecovered entries.now table) }
{
    let ended = ends_of(alloc, entries)?;
    let mut table = repeated(alloc, None, pages as usize)?;
    keep(&mut table, entries);
    undo(&mut table, entries, &ended);
    Ok(table)
}

// Writes a page in its place, where there is one.
fn write_page<D: Disk>(disk: &mut D, place: usize, page: &Option<[u8; PAGE]>) -> Result<(), Failed>
    requires { place < 131072 }
    ensures written { D.tells
        → OnOk result ((bytes : List ℕ) → page.now ≡ Some bytes → in_place (D.view disk.new).image place ≡ bytes) }
    ensures same { D.tells
        → SameButPages (λ q. q ≡ place → page.now ≡ None) (D.view disk.old).image (D.view disk.new).image }
    ensures crash { ChangesBy (SameButPages (λ q. q ≡ place → page.now ≡ None)) (D.view disk.old) (D.view disk.new) }
    ensures blamed { IsBlamed result (D.view disk.old) (D.view disk.new) }
{
    match page {
        Some(bytes) => disk.write_at(PAGES_START + 512 * place as u64, bytes),
        None => Ok(()),
    }
}

// Writes each page that there is in its place, and syncs.
pub fn write_pages<D: Disk>(disk: &mut D, table: &[Option<[u8; PAGE]>]) -> Result<(), Failed>
    requires { length table.now ≤ 131072 }
    ensures written { D.tells → OnOk result
        ((p : ℕ) (bytes : List ℕ) → get_or table.now p None ≡ Some bytes → in_place (D.view disk.new).image p ≡ bytes) }
    ensures same { D.tells
        → SameButPages (λ q. get_or table.now q None ≡ None) (D.view disk.old).image (D.view disk.new).image }
    ensures settled { OnOk result (IsSettled (D.view disk.new)) }
    ensures crash { ChangesBy (SameButPages (λ q. get_or table.now q None ≡ None)) (D.view disk.old) (D.view disk.new) }
    ensures blamed { IsBlamed result (D.view disk.old) (D.view disk.new) }
{
    for (place, page) in table.iter().enumerate() {
        write_page(disk, place, page)?;
    }
    disk.sync()
}
