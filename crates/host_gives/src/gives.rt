ghost use Rattle.std.specs.Prelude.{◌≡◌, ◌==◌, IsTrue, [], length, option_copied, OnOk, OnErr};
ghost use Rattle.std.specs.List.{list_any};
ghost use Rattle.host_gives.specs.Counters.{last_of};
ghost use Rattle.host_gives.specs.Giving.{names, is_of_file, outstanding, is_next};
ghost use Rattle.host_gives.specs.Giving.{after_add, gone, after_gone, IsSound};
ghost use Rattle.host_gives.specs.Giving.{is_numbered, taken_out, after_take_out};
ghost use Rattle.host_gives.specs.Slots.{held_in};

use crate::counters::{Counter, last_of};
use crate::slots::{Slots, number_of};
use base_types::{Fid, FilesetId, Items, NoMemory};
use message_types::Message;
use std::alloc::Global;
use std::marker::Model;
use token_types::TokenId;

/// The give-backs that were made and aren't known as applied, in the order in which they were made, and the number of
/// the last one that was made of each fileset. The first one of a fileset is outstanding: only it is sent.
#[derive(Drop)]
pub struct Gives {
    gives: Slots,
    counters: Items<Counter>,
}

impl Model for Gives {
    ghost use Rattle.host_gives.specs.Giving.{Giving, IsSound};

    ghost Value = { Giving };

    ghost view = { λ g. record { gives = g.gives; counters = g.counters } };

    ghost invariant = { λ g. IsSound (record { gives = g.gives; counters = g.counters }) };
}

impl Gives {
    /// No give-back was made. It takes no memory.
    pub fn new(alloc: Global) -> Gives
        ensures { result ≡ record { gives = []; counters = [] } }
    {
        Gives {
            gives: Slots::new(alloc),
            counters: Items::new(alloc),
        }
    }

    /// What holds of all give-backs: all messages give back, and the numbers of those of one fileset rise, up to the
    /// last one that was made at most. It does nothing.
    pub fn laws(&self)
        ensures { IsSound self.now }
    {
        let _gives = &self.gives;
    }

    /// Adds a give-back that was made: the next one of its fileset. The only error is that memory ran out; then nothing
    /// changes.
    pub fn add(&mut self, give: &Message) -> Result<(), NoMemory>
        requires { IsTrue (is_next self.old give.now) }
        ensures after { OnOk result (self.new ≡ after_add self.old give.now) }
        ensures err { OnErr result (self.new ≡ self.old) }
    {
        self.gives.add(give, &mut self.counters)
    }

    /// The give-back of a fileset that is outstanding; None where there is none. It takes no memory.
    pub fn outstanding(&self, fileset: FilesetId) -> Option<&Message>
        ensures { option_copied result ≡ outstanding self.now fileset }
    {
        self.gives.first_of(fileset)
    }

    /// Takes out the give-back of a fileset that is outstanding: it is known as applied. It answers None where this
    /// number isn't the outstanding one; then nothing changes. It takes no memory.
    pub fn gone(&mut self, fileset: FilesetId, number: u64) -> Option<Message>
        ensures gone { result ≡ gone self.old fileset number }
        ensures after { self.new ≡ after_gone self.old fileset number }
    {
        let Some(first) = self.gives.first_of(fileset) else {
            return None;
        };
        if number_of(first) != number {
            return None;
        }
        self.gives.take(fileset, number)
    }

    /// Takes out the give-back of a fileset with this number, outstanding or not: it is known as applied. It answers
    /// None where there is none; then nothing changes. It takes no memory.
    pub fn take_out(&mut self, fileset: FilesetId, number: u64) -> Option<Message>
        ensures taken { result ≡ taken_out self.old fileset number }
        ensures after { self.new ≡ after_take_out self.old fileset number }
    {
        self.gives.take(fileset, number)
    }

    /// Whether the give-back of a fileset with this number was made and isn't known as applied. It takes no memory.
    pub fn is_open(&self, fileset: FilesetId, number: u64) -> bool
        ensures { result ≡ list_any (is_numbered fileset number) self.now.gives }
    {
        self.gives.has(fileset, number)
    }

    /// Whether one of the give-backs names a token. It takes no memory.
    pub fn names(&self, id: TokenId) -> bool
        ensures { result ≡ list_any (names id) self.now.gives }
    {
        self.gives.names(id)
    }

    /// Whether one of the give-backs is of a file. It takes no memory.
    pub fn of_file(&self, fid: Fid) -> bool
        ensures { result ≡ list_any (is_of_file fid) self.now.gives }
    {
        self.gives.of_file(fid)
    }

    /// The number of the last give-back that was made of a fileset; 0 where none was. It takes no memory.
    pub fn last(&self, fileset: FilesetId) -> u64
        ensures { result ≡ last_of self.now.counters fileset }
    {
        last_of(self.counters.as_slice(), fileset)
    }

    /// Whether no give-back was made that isn't known as applied. It takes no memory.
    pub fn is_empty(&self) -> bool
        ensures { result ≡ (length self.now.gives == 0) }
    {
        self.gives.is_empty()
    }

    /// The give-backs, each in a slot, in the order in which they were made, between slots that are empty. It takes no
    /// memory.
    pub fn slots(&self) -> &[Option<Message>]
        ensures { held_in result.now ≡ self.now.gives }
    {
        self.gives.slots()
    }
}
