// What a log keeps in memory, and the calls that need no disk.
ghost use Rattle.std.specs.Prelude.{◌≡◌, ◌+◌, ◌*◌, ◌<◌, ◌≤◌, ◌∷◌, [], ℕ, List, length, OnOk, OnErr, IfOk, IfErr};
ghost use Rattle.std.specs.Prelude.{None, true, false, get_or, IsSome, replicate};
ghost use Rattle.std.specs.Vec.{vec_len, vec_capacity};
ghost use Rattle.disk_layout.specs.Places.{block_start};
ghost use Rattle.disk_layout.specs.Pages.{redone, is_named};
ghost use Rattle.disk_log.specs.Pages.{AreKept};
ghost use Rattle.disk_log.specs.declared.fault.LogFault.TheVariants.{Memory as NoMemory};

use crate::fault::LogFault;
use crate::over::push_run;
use crate::put::{Put, drop_puts, set_put};
use crate::slots::{free_slot, release};
use base_types::Items;
use disk_layout::{ENTRIES, Entry, Half, PAGE, PAGES_START, Superblock};
use std::alloc::{AllocError, Global};

/// An open transaction.
#[derive(Drop)]
pub struct Tx {
    pub(crate) slot: usize,
}

// The entries of the used half, and behind the first `forced` of them those that ended since the last force; what the
// open transactions put; the entries that they reserved, by slot, and in all; and the pages that were read, each as
// the last force left it.
#[derive(Drop)]
pub struct Kept {
    pub superblock: Superblock,
    pub half: Half,
    pub entries: Vec<Entry>,
    pub forced: usize,
    pub puts: Vec<Put>,
    pub reservations: Items<usize>,
    pub reserved: usize,
    pub pages: Items<Option<[u8; PAGE]>>,
    ghost room: { vec_len entries + reserved ≤ vec_capacity entries },
}

// A list of equal values.
pub fn repeated<T: Copy>(alloc: Global, value: T, n: usize) -> Result<Items<T>, AllocError>
    ensures { IfOk result (λ values. values ≡ replicate n value) }
{
    let mut values = Vec::new(alloc);
    values.resize(n, value)?;
    Ok(Items::from_vec(values))
}

// Keeps the page that an entry names as the entry leaves it.
fn keep_one(pages: &mut Items<Option<[u8; PAGE]>>, entry: &Entry)
    ensures size { length pages.new ≡ length pages.old }
    ensures kept { (known : ℕ → List ℕ) → AreKept pages.old known → AreKept pages.new (redone (entry.now ∷ []) known) }
    ensures named { (p : ℕ) → p < length pages.old
        → is_named p (entry.now ∷ []) ≡ true → IsSome (get_or pages.new p None) }
    ensures others { (p : ℕ) → is_named p (entry.now ∷ []) ≡ false → get_or pages.new p None ≡ get_or pages.old p None }
{
    match entry {
        Entry::Update { page, new, .. } => pages.put(*page as usize, Some(*new)),
        Entry::End { .. } => {}
    }
}

// Keeps the pages that entries name as these leave them.
pub fn keep(pages: &mut Items<Option<[u8; PAGE]>>, entries: &[Entry])
    ensures size { length pages.new ≡ length pages.old }
    ensures kept { (known : ℕ → List ℕ) → AreKept pages.old known → AreKept pages.new (redone entries.now known) }
    ensures named { (p : ℕ) → p < length pages.old → is_named p entries.now ≡ true → IsSome (get_or pages.new p None) }
    ensures others { (p : ℕ) → is_named p entries.now ≡ false → get_or pages.new p None ≡ get_or pages.old p None }
{
    for entry in entries {
        keep_one(pages, entry);
    }
}

impl Kept {
    ghost use Rattle.disk_log.specs.Log.{state_in, slot_of};
    ghost use Rattle.disk_log.specs.State.{IsOpen, HasNoOpen, HasRoom, free_in, with_put, closed, ended, fresh_state};
    ghost use Rattle.disk_log.specs.Begin.{IsBegun};

    // What a log keeps at first, whose half has no entries.
    pub fn fresh(alloc: Global, superblock: Superblock, half: Half) -> Result<Kept, LogFault>
        ensures state { IfOk result (λ kept. state_in kept ≡ fresh_state superblock half) }
        ensures pages { IfOk result (λ kept. kept.pages ≡ replicate half.pages None) }
        ensures only { IfErr result (λ fault. fault ≡ NoMemory) }
    {
        let entries = Vec::with_capacity(alloc, ENTRIES)?;
        let reservations = repeated(alloc, 0, ENTRIES)?;
        let pages = repeated(alloc, None, half.pages as usize)?;
        Ok(Kept {
            superblock,
            half,
            entries,
            forced: 0,
            puts: Vec::new(alloc),
            reservations,
            reserved: 0,
            pages,
        })
    }

    // Entries that are free.
    pub fn free(&self) -> u32
        requires { HasRoom (state_in self.now) }
        ensures { result ≡ free_in (state_in self.now) }
    {
        (ENTRIES - self.entries.len() - self.reserved) as u32
    }

    // Begins a transaction that may put so many pages.
    pub fn begin(&mut self, pages: u32) -> Result<Tx, LogFault>
        requires { HasRoom (state_in self.old) }
        ensures begun { IsBegun (2 * pages + 1) result (state_in self.old) (state_in self.new) }
        ensures pages { self.new.pages ≡ self.old.pages }
    {
        let free = self.free();
        let needed = 2 * pages as u64 + 1;
        if (free as u64) < needed {
            return Err(LogFault::Full { free, needed });
        }
        self.entries.reserve(self.reserved + needed as usize)?;
        let slot = free_slot(self.reservations.as_slice());
        self.reservations.set(slot, needed as usize);
        self.reserved += needed as usize;
        Ok(Tx { slot })
    }

    // Puts a page in place of an earlier put of it.
    pub fn put(&mut self, put: Put) -> Result<(), LogFault>
        ensures ok { OnOk result (state_in self.new ≡ with_put (state_in self.old) put) }
        ensures err { OnErr result (state_in self.new ≡ state_in self.old) }
        ensures only { IfErr result (λ fault. fault ≡ NoMemory) }
        ensures pages { self.new.pages ≡ self.old.pages }
    {
        self.puts.reserve(1)?;
        set_put(&mut self.puts, put);
        Ok(())
    }

    // Ends a transaction.
    pub fn end(&mut self, tx: Tx)
        requires room { HasRoom (state_in self.old) }
        requires opened { IsOpen (state_in self.old) (slot_of tx) }
        ensures state { state_in self.new ≡ ended (state_in self.old) (slot_of tx) }
        ensures pages { self.new.pages ≡ self.old.pages }
    {
        push_run(&mut self.entries, &self.puts, tx.slot);
        drop_puts(&mut self.puts, tx.slot);
        release(&mut self.reservations, &mut self.reserved, tx.slot);
    }

    // Undoes a transaction.
    pub fn undo(&mut self, tx: Tx)
        requires room { HasRoom (state_in self.old) }
        requires opened { IsOpen (state_in self.old) (slot_of tx) }
        ensures state { state_in self.new ≡ closed (state_in self.old) (slot_of tx) }
        ensures pages { self.new.pages ≡ self.old.pages }
    {
        drop_puts(&mut self.puts, tx.slot);
        release(&mut self.reservations, &mut self.reserved, tx.slot);
    }

    // Starts anew in a half that has no entries, where no transaction is open.
    pub fn restart(&mut self, half: Half)
        requires room { HasRoom (state_in self.old) }
        requires none_open { HasNoOpen (state_in self.old) }
        ensures state { state_in self.new ≡ fresh_state self.old.superblock half }
        ensures pages { self.new.pages ≡ self.old.pages }
    {
        self.half = half;
        self.entries.clear();
        self.forced = 0;
    }

    // Where a block stands.
    pub fn block_place(&self, block: u32) -> u64
        requires { self.now.half.pages ≤ 131072 }
        ensures { result ≡ block_start self.now.half.pages block }
    {
        PAGES_START + 512 * self.half.pages as u64 + 1_024 * block as u64
    }
}
