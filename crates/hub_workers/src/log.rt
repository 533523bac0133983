//! The list, and the work of one turn.
ghost use Rattle.std.specs.Prelude.{◌≡◌, [], ◌∷◌, ◌++◌, length};

use hub_cell::{Counted, Work};
use std::alloc::Global;
use std::marker::Model;

/// An entry of the list.
#[derive(Clone, Copy, PartialEq, Eq)]
pub struct Entry {
    /// The number of the worker that made it, from 0.
    pub worker: u32,
    /// Which of that worker's entries it is, from 0.
    pub number: u32,
}

/// A list of entries that only grows. Contracts see it as that list.
#[derive(Drop)]
pub struct Log {
    entries: Vec<Entry>,
}

impl Model for Log {
    ghost use Rattle.std.specs.Prelude.{List};
    ghost use Rattle.hub_workers.specs.declared.log.Entry.{Entry};

    ghost Value = { List Entry };

    ghost view = { λ l. l.entries.items };
}

impl Log {
    /// The empty list. It takes no memory.
    pub fn new(alloc: Global) -> Log
        ensures { result ≡ [] }
    {
        Log {
            entries: Vec::new(alloc),
        }
    }

    /// The entries. It takes no memory.
    pub fn into_entries(self) -> Vec<Entry>
        ensures { result.items ≡ self }
    {
        self.entries
    }
}

impl Counted for Log {
    type Entry = Entry;

    ghost list = { λ l. l };

    ghost stays = { λ first now. Unit {0} };

    fn count(&self) -> u64 {
        self.entries.len() as u64
    }
}

/// The work of a turn that adds an entry; where memory runs out it is not added.
#[derive(Drop)]
pub struct Add {
    pub entry: Entry,
    /// Whether the last turn added the entry.
    pub added: bool,
}

impl Work<Log> for Add {
    ghost use Rattle.hub_workers.specs.Rows.{Adds};

    ghost may = { λ w l. Unit {0} };

    ghost does = { Adds };

    fn work(&mut self, value: &mut Log) {
        self.added = value.entries.push(self.entry).is_ok();
    }
}
