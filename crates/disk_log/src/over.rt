// Entries and puts over a page's bytes.
ghost use Rattle.std.specs.Prelude.{◌≡◌, ◌+◌, ◌<◌, ◌≤◌, ◌∷◌, ◌++◌, [], ℕ, length, bit_or};
ghost use Rattle.std.proofs.Common.{get_or};
ghost use Rattle.disk_layout.specs.Pages.{redone};
ghost use Rattle.disk_log.specs.Puts.{overlaid, updates_of, run_of, or_of, count_of};
ghost use Rattle.std.specs.Vec.{vec_len, vec_capacity};

use crate::put::Put;
use disk_layout::{Entry, PAGE};

fn redo_one(entry: &Entry, page: u32, out: &mut [u8; PAGE])
    ensures { out.new ≡ redone (entry.now ∷ []) (λ q. out.old) page }
{
    match entry {
        Entry::Update {
            page: updated,
            new,
            ..
        } => {
            if *updated == page {
                *out = *new;
            }
        }
        Entry::End { .. } => {}
    }
}

// Redoes the updates of a page.
pub(crate) fn redo(entries: &[Entry], page: u32, out: &mut [u8; PAGE])
    ensures { out.new ≡ redone entries.now (λ q. out.old) page }
{
    for entry in entries {
        redo_one(entry, page, out);
    }
}

// Lays the put of a page over its bytes.
pub(crate) fn overlay(puts: &[Put], page: u32, out: &mut [u8; PAGE])
    ensures { out.new ≡ overlaid puts.now (λ q. out.old) page }
{
    for put in puts {
        if put.page == page {
            *out = put.new;
            return;
        }
    }
}

fn push_one(entries: &mut Vec<Entry>, put: &Put, slot: usize, name: u64)
    requires { vec_len entries.old + count_of slot (put.now ∷ []) ≤ vec_capacity entries.old }
    ensures items { entries.new.items ≡ entries.old.items ++ updates_of slot name (put.now ∷ []) }
    ensures len { vec_len entries.new ≡ vec_len entries.old + count_of slot (put.now ∷ []) }
    ensures capacity { vec_capacity entries.new ≡ vec_capacity entries.old }
{
    if put.slot == slot {
        entries.push_reserved(Entry::Update {
            transaction: name,
            page: put.page,
            old: put.old,
            new: put.new,
        });
    }
}

// Adds the entries of a transaction's puts and of its end.
pub(crate) fn push_run(entries: &mut Vec<Entry>, puts: &[Put], slot: usize)
    requires { vec_len entries.old + count_of slot puts.now < vec_capacity entries.old }
    ensures items { entries.new.items ≡ entries.old.items ++ run_of slot (length entries.old.items) puts.now }
    ensures len { vec_len entries.new ≡ vec_len entries.old + count_of slot puts.now + 1 }
    ensures capacity { vec_capacity entries.new ≡ vec_capacity entries.old }
{
    let name = entries.len() as u64;
    for put in puts {
        push_one(entries, put, slot, name);
    }
    entries.push_reserved(Entry::End { transaction: name });
}

fn or_page(new: &[u8; PAGE], out: &mut [u8; PAGE])
    ensures { (k : ℕ) → k < 512 → get_or out.new k 0 ≡ bit_or (get_or out.old k 0) (get_or new.now k 0) }
{
    for i in 0..PAGE {
        out[i] |= new[i];
    }
}

fn or_one(entry: &Entry, page: u32, out: &mut [u8; PAGE])
    ensures { (k : ℕ) → k < 512 → get_or out.new k 0 ≡ or_of (entry.now ∷ []) page k (get_or out.old k 0) }
{
    match entry {
        Entry::Update {
            page: updated,
            new,
            ..
        } => {
            if *updated == page {
                or_page(new, out);
            }
        }
        Entry::End { .. } => {}
    }
}

// Lays the updates of a page over its bytes by a bitwise or.
pub(crate) fn or_all(entries: &[Entry], page: u32, out: &mut [u8; PAGE])
    ensures { (k : ℕ) → k < 512 → get_or out.new k 0 ≡ or_of entries.now page k (get_or out.old k 0) }
{
    for entry in entries {
        or_one(entry, page, out);
    }
}
