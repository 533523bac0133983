//! A store that is tried, with what is known of it.
ghost use Rattle.std.specs.Prelude.{◌≡◌, ◌≤◌, ◌<◌, IsTrue, true, IfOk, OnOk};
ghost use Rattle.message_types.specs.Soundness.{IsPart, IsServer};
ghost use Rattle.store_memory.specs.Sound.{IsLeavingOf};
ghost use Rattle.store_test_rows.specs.declared.tried.TheConstants.{BATCHES_MAX};

use crate::doing::push_dones;
use crate::everything::tell_all;
use crate::sound::{are_acts, is_call, is_for, is_host, is_leaving, is_move};
use anyhow::{Result, bail};
use base_types::{FilesetId, HostId, OBJECTS_MAX, ServerId};
use store_memory::{Act, Store, StoreFault};
use tree_calls::{Call, Mover, Reply, Roster, ShipPart};
use tree_test_words::Text;

/// The batches that a table may have.
pub const BATCHES_MAX: u64 = 1_000_000;

/// A store, and how many batches it was given.
#[derive(Drop)]
pub struct Tried<S: Store + Drop> {
    pub(crate) server: ServerId,
    pub(crate) store: S,
    batches: u64,
}

/// A part of a fileset that is sent.
#[derive(Drop)]
pub struct Sent {
    pub from: ServerId,
    pub ship: u64,
    pub fileset: FilesetId,
    pub moves: u32,
    pub at: u32,
    pub part: ShipPart,
}

impl<S: Store + Drop> Tried<S> {
    ghost use Rattle.store_test_rows.specs.Standing.{IsUsable, Stays, IsMendable, Stands};

    /// The store of a server of a roster, before its first batch.
    pub fn new(server: ServerId, roster: &Roster, store: S) -> Tried<S>
        requires server { (S.view store).state.server ≡ server }
        requires roster { (S.view store).state.roster ≡ roster.now }
        requires ready { (S.view store).ready }
        requires mendable { (S.view store).mendable }
        requires wear { (S.view store).wear ≤ 9 }
        ensures store { result.store ≡ store }
        ensures stands { Stands S.view roster.now result }
    {
        Tried {
            server,
            store,
            batches: 1,
        }
    }

    /// The store alone.
    pub fn into_store(self) -> S
        ensures { result ≡ self.store }
    {
        let Tried {
            server: _server,
            store,
            batches: _batches,
        } = self;
        store
    }

    /// Does acts, if a store may be given them, and writes what became of them, or which fault came. Answers whether
    /// none came; after one it has to be opened anew.
    pub fn apply(&mut self, roster: &Roster, batch: &[Act], text: &mut Text) -> Result<bool>
        requires stands { Stands S.view roster.now self.old }
        ensures mendable { OnOk result (IsMendable S.view roster.now self.new) }
        ensures stands { IfOk result (λ passed. IsTrue passed → Stands S.view roster.now self.new) }
    {
        if BATCHES_MAX <= self.batches || !are_acts(roster, self.server, batch) {
            bail!("no acts for a store");
        }
        self.batches += 1;
        match self.store.apply(batch) {
            Ok(dones) => {
                push_dones(text, &dones);
                drop(dones);
                Ok(true)
            }
            Err(fault) => {
                text.word(fault_word(fault));
                Ok(false)
            }
        }
    }

    /// Opens the store anew.
    pub fn reopen(&mut self, roster: &Roster) -> Result<()>
        requires mendable { IsMendable S.view roster.now self.old }
        ensures stands { OnOk result (Stands S.view roster.now self.new) }
    {
        if BATCHES_MAX <= self.batches {
            bail!("too many batches");
        }
        self.batches += 1;
        self.store.reopen()?;
        Ok(())
    }

    /// What a call would get, if a store may be asked that.
    pub fn would(&mut self, roster: &Roster, host: HostId, call: &Call) -> Result<Reply>
        requires stands { Stands S.view roster.now self.old }
        ensures stands { OnOk result (Stands S.view roster.now self.new) }
    {
        if !is_host(roster, host)
            || !is_call(roster, call)
            || !is_for(self.server, call)
            || is_move(call)
        {
            bail!("no call for a store");
        }
        let reply = self.store.would(host, call)?;
        Ok(reply)
    }

    /// Writes all that the store tells.
    pub fn tell_all(&mut self, roster: &Roster, text: &mut Text) -> Result<()>
        requires stands { Stands S.view roster.now self.old }
        ensures stands { OnOk result (Stands S.view roster.now self.new) }
    {
        tell_all(&mut self.store, text)
    }

    // Whether a part of a fileset may be sent.
    fn may_send(&mut self, roster: &Roster, fileset: FilesetId, at: u32) -> Result<bool>
        requires stands { Stands S.view roster.now self.old }
        ensures stands { OnOk result (Stands S.view roster.now self.new) }
        ensures leaving { IfOk result (λ may. IsTrue may → S.tells
            → IsLeavingOf (S.view self.new.store).state fileset at) }
    {
        let slots = self.store.slots()?;
        Ok(is_leaving(slots.as_slice(), fileset, at))
    }

    /// A part of a fileset that is leaving, if this store may be asked for it.
    pub fn part(
        &mut self,
        roster: &Roster,
        fileset: FilesetId,
        at: u32,
        mover: &Mover,
    ) -> Result<ShipPart>
        requires stands { Stands S.view roster.now self.old }
        ensures stands { OnOk result (Stands S.view roster.now self.new) }
        ensures part { IfOk result (λ part. IsPart roster.now at part) }
    {
        if !is_host(roster, mover.host) || !is_call(roster, &mover.call) || !is_move(&mover.call) {
            bail!("no mover");
        }
        if OBJECTS_MAX < at || !self.may_send(roster, fileset, at)? {
            bail!("no part");
        }
        let part = self.store.ship_part(fileset, at, mover)?;
        Ok(part)
    }

    /// Whether it may be given a further batch.
    pub fn has_room(&self) -> bool
        ensures { IsTrue result → self.now.batches < BATCHES_MAX }
    {
        self.batches < BATCHES_MAX
    }

    /// Takes a part of a fileset, and writes what became of it, or which fault came. Answers whether none came.
    pub fn take(&mut self, roster: &Roster, sent: Sent, text: &mut Text) -> bool
        requires stands { Stands S.view roster.now self.old }
        requires room { self.old.batches < BATCHES_MAX }
        requires from { IsServer roster.now sent.from }
        requires part { IsPart roster.now sent.at sent.part }
        ensures mendable { IsMendable S.view roster.now self.new }
        ensures stands { IsTrue result → Stands S.view roster.now self.new }
    {
        let batch = [Act::Part {
            from: sent.from,
            ship: sent.ship,
            fileset: sent.fileset,
            moves: sent.moves,
            at: sent.at,
            part: sent.part,
        }];
        self.batches += 1;
        let dones = self.store.apply(&batch);
        drop(batch);
        match dones {
            Ok(dones) => {
                push_dones(text, &dones);
                drop(dones);
                true
            }
            Err(fault) => {
                text.word(fault_word(fault));
                false
            }
        }
    }
}

fn fault_word(fault: StoreFault) -> &'static str {
    match fault {
        StoreFault::Failed => "failed",
        StoreFault::Memory => "memory",
    }
}
