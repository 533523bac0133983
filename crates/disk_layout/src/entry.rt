// Entries of the log and their bytes.
ghost use Rattle.std.specs.Prelude.{◌≡◌, ◌+◌, ◌≤◌, IfSome, length};
ghost use Rattle.base_types.specs.Image.{bytes_from};
ghost use Rattle.disk_layout.specs.Entry.{entry_of, Fits, Spells, kind_of, page_named, transaction_of, old_of, new_of};

use crate::half::Half;
use crate::numbers::{put_bytes, put_u32, put_u64, u32_at, u64_at};
use crate::places::{OPEN, PAGE};

/// Bytes of an entry: a page of words, the old value and the new one.
pub const ENTRY: usize = 1_536;

/// Entries of one half of the log.
pub const ENTRIES: usize = 2_048;

/// An entry of the log.
#[derive(Clone, Copy)]
pub enum Entry {
    /// The end of a transaction.
    End {
        transaction: u64,
    },
    /// A metadata page that a transaction put, with its values before and after.
    Update {
        transaction: u64,
        page: u32,
        old: [u8; PAGE],
        new: [u8; PAGE],
    },
}

const UPDATE: u8 = 1;

const END: u8 = 2;

/// The entry in these bytes of a half, where it counts.
pub fn read_entry(half: &Half, bytes: &[u8; ENTRY]) -> Option<Entry>
    ensures entry { result ≡ entry_of half.now bytes.now }
    ensures fits { IfSome result (λ entry. Fits half.now entry) }
{
    if bytes[0] != OPEN || u64_at(bytes, 8) != half.generation {
        return None;
    }
    let transaction = u64_at(bytes, 16);
    let page = u32_at(bytes, 4);
    match bytes[1] {
        END => Some(Entry::End { transaction }),
        UPDATE if page < half.pages => Some(Entry::Update {
            transaction,
            page,
            old: page_at(bytes, 512),
            new: page_at(bytes, 1_024),
        }),
        _ => None,
    }
}

/// The bytes of an entry, with its gate open.
pub fn entry_bytes(entry: &Entry, generation: u64) -> [u8; ENTRY]
    ensures { Spells entry.now generation result }
{
    let (kind, page, transaction) = words_of(entry);
    let (old, new) = values_of(entry);
    let mut bytes = [0; ENTRY];
    put_bytes(&mut bytes, 0, &[OPEN, kind]);
    put_u32(&mut bytes, 4, page);
    put_u64(&mut bytes, 8, generation);
    put_u64(&mut bytes, 16, transaction);
    put_bytes(&mut bytes, 512, &old);
    put_bytes(&mut bytes, 1_024, &new);
    bytes
}

fn page_at(bytes: &[u8; ENTRY], at: usize) -> [u8; PAGE]
    requires { at + 512 ≤ 1536 }
    ensures { result ≡ bytes_from bytes.now at 512 }
{
    let mut page = [0; PAGE];
    page.copy_from_slice(&bytes[at..at + PAGE]);
    page
}

fn words_of(entry: &Entry) -> (u8, u32, u64)
    ensures kind { result.0 ≡ kind_of entry.now }
    ensures page { result.1 ≡ page_named entry.now }
    ensures transaction { result.2 ≡ transaction_of entry.now }
{
    match entry {
        Entry::Update {
            transaction,
            page,
            ..
        } => (UPDATE, *page, *transaction),
        Entry::End { transaction } => (END, 0, *transaction),
    }
}

fn values_of(entry: &Entry) -> ([u8; PAGE], [u8; PAGE])
    ensures old { result.0 ≡ old_of entry.now }
    ensures new { result.1 ≡ new_of entry.now }
{
    match entry {
        Entry::Update { old, new, .. } => (*old, *new),
        Entry::End { .. } => ([0; PAGE], [0; PAGE]),
    }
}
