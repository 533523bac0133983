ghost use Rattle.std.specs.Prelude.{
  ◌≡◌,
  ◌≤◌,
  ◌<◌,
  ◌+◌,
  ◌-◌,
  ◌^◌,
  ⊤,
  ℕ,
  take,
  length,
  IsTrue,
  [],
  IfOk,
  OnOk,
  OnErr,
};
ghost use Rattle.store_acts.specs.Acts.{act_done, state_after, dones_of};
ghost use Rattle.store_state.specs.Capacity.{capacity_of};
ghost use Rattle.store_acts.specs.Single.{KeepsLimits-prop};
ghost use Rattle.store_acts.specs.Sound.{AreActs, HasNext, IsAct, KeepsLimits};
ghost use Rattle.store_state.specs.State.{new_state};

use crate::reading::{
    bytes, entries, files, host_state, kept, last_of, look_up, ship_part, slots_told, status,
};
use crate::store::{Store, StoreFault};
use crate::told::{Kept, Looked, Slot};
use base_types::{Fid, FilesetId, HostId, Items, Name, NoMemory, ServerId, Span, User};
use std::alloc::Global;
use store_acts::{Act, apply_act};
use store_state::{Done, HostState, StoreState};
use tree_calls::{Call, DirEntry, Mover, Place, Reply, Roster, ShipPart, Status};

// Does acts in their order.
#[tactic(auto, using(store_acts::proofs::Next::has_next))]
fn do_all(state: &mut StoreState, batch: &[Act]) -> Result<Items<Done>, NoMemory>
    requires acts { AreActs state.old.roster state.old.server batch.now }
    requires limits { KeepsLimits state.old }
    requires counts { state.old.epoch + state.old.ship < 2 ^ 47 }
    ensures dones { IfOk result (λ dones. dones ≡ dones_of state.old batch.now) }
    ensures state { OnOk result (state.new ≡ state_after state.old batch.now) }
    ensures fault { OnErr result
        ((k : ℕ) × (k ≤ length batch.now) × (state.new ≡ state_after state.old (take k batch.now))) }
    ensures server { state.new.server ≡ state.old.server }
    ensures roster { state.new.roster ≡ state.old.roster }
    ensures limits { KeepsLimits state.new }
    ensures counts { state.new.epoch + state.new.ship ≤ state.old.epoch + state.old.ship + length batch.now }
{
    let mut dones = Items::new(state.slots.alloc());
    for act in batch {
        let done = apply_act(state, act)?;
        dones.push(done)?;
    }
    Ok(dones)
}

// Does one act.
fn do_one(state: &mut StoreState, act: &Act) -> Result<Done, NoMemory>
    requires act { IsAct state.old.roster state.old.server act.now }
    requires part { HasNext act.now }
    requires limits { KeepsLimits state.old }
    requires epoch { state.old.epoch < 2 ^ 64 - 1 }
    requires ship { state.old.ship < 2 ^ 64 - 1 }
    ensures done { IfOk result (λ done. done ≡ (act_done state.old act.now).done) }
    ensures state { OnOk result (state.new ≡ (act_done state.old act.now).state) }
    ensures err { OnErr result (state.new ≡ state.old) }
    ensures limits { KeepsLimits state.new }
{
    apply_act(state, act)
}

/// A store in memory. It never fails, but for want of memory, and it is always ready.
#[derive(Drop)]
pub struct MapStore {
    state: StoreState,
    ghost limits: { KeepsLimits state } by { KeepsLimits-prop state },
}

impl MapStore {
    ghost use Rattle.store_memory.specs.MapStores.{kept_in};

    /// The store of a server of a roster before its first act, with the capacity that the roster gives the server.
    /// `NoMemory` comes where memory runs out.
    #[tactic(auto, using(store_acts::proofs::Limits::new_fits))]
    pub fn new(alloc: Global, server: ServerId, roster: &Roster) -> Result<MapStore, NoMemory>
        ensures { IfOk result (λ store. kept_in store ≡ new_state server (capacity_of roster.now server) roster.now) }
    {
        Ok(MapStore {
            state: StoreState::new(alloc, server, roster)?,
        })
    }

    /// The store with this record, which is within the limits.
    pub fn from_state(state: StoreState) -> MapStore
        requires { KeepsLimits state }
        ensures { kept_in result ≡ state }
    {
        MapStore { state }
    }

    /// Does one act, and answers what became of it. `NoMemory` leaves the store as it was.
    #[tactic(auto, using(store_acts::proofs::Next::has_next))]
    pub fn do_act(&mut self, act: &Act) -> Result<Done, NoMemory>
        requires act { IsAct (kept_in self.old).roster (kept_in self.old).server act.now }
        requires epoch { (kept_in self.old).epoch < 2 ^ 64 - 1 }
        requires ship { (kept_in self.old).ship < 2 ^ 64 - 1 }
        ensures done { IfOk result (λ done. done ≡ (act_done (kept_in self.old) act.now).done) }
        ensures state { OnOk result (kept_in self.new ≡ (act_done (kept_in self.old) act.now).state) }
        ensures err { OnErr result (kept_in self.new ≡ kept_in self.old) }
    {
        do_one(&mut self.state, act)
    }

    /// What it keeps.
    pub fn state(&self) -> &StoreState
        ensures kept { result.now ≡ kept_in self.now }
        ensures limits { KeepsLimits result.now }
    {
        &self.state
    }
}

impl Store for MapStore {
    ghost use Rattle.store_memory.specs.MapStores.{map_view};

    ghost tells = { ⊤ };

    ghost view = { map_view };

    fn apply(&mut self, batch: &[Act]) -> Result<Items<Done>, StoreFault> {
        let dones = do_all(&mut self.state, batch)?;
        Ok(dones)
    }

    fn reopen(&mut self) -> Result<(), StoreFault> {
        Ok(())
    }

    fn epoch(&self) -> u64 {
        self.state.epoch
    }

    fn host(&self, host: HostId) -> HostState {
        host_state(&self.state, host)
    }

    fn last_give(&self, host: HostId, fileset: FilesetId) -> u64 {
        last_of(&self.state, host, fileset).give
    }

    fn last_change(&self, host: HostId, fileset: FilesetId) -> u64 {
        last_of(&self.state, host, fileset).change
    }

    fn would(&mut self, host: HostId, call: &Call) -> Result<Reply, StoreFault> {
        let reply = self.state.would(host, call)?;
        Ok(reply)
    }

    fn kept(&mut self) -> Result<Kept, StoreFault> {
        let kept = kept(&self.state)?;
        Ok(kept)
    }

    fn find(&mut self, name: &Name) -> Result<Option<FilesetId>, StoreFault> {
        Ok(self.state.find(name))
    }

    fn files(&mut self, fileset: FilesetId) -> Result<Items<Fid>, StoreFault> {
        let files = files(&self.state, fileset)?;
        Ok(files)
    }

    fn walk(&mut self, user: &User, place: &Place) -> Result<Looked, StoreFault> {
        Ok(look_up(&self.state, user, place))
    }

    fn status(&mut self, fid: Fid) -> Result<Option<Status>, StoreFault> {
        let status = status(&self.state, fid)?;
        Ok(status)
    }

    fn bytes(&mut self, fid: Fid, span: Span) -> Result<Items<u8>, StoreFault> {
        let bytes = bytes(&self.state, fid, span)?;
        Ok(bytes)
    }

    fn entries(&mut self, fid: Fid) -> Result<Items<DirEntry>, StoreFault> {
        let entries = entries(&self.state, fid)?;
        Ok(entries)
    }

    fn slots(&mut self) -> Result<Items<Slot>, StoreFault> {
        let slots = slots_told(&self.state)?;
        Ok(slots)
    }

    fn ship_part(
        &mut self,
        fileset: FilesetId,
        at: u32,
        mover: &Mover,
    ) -> Result<ShipPart, StoreFault> {
        let part = ship_part(&self.state, fileset, at, mover)?;
        Ok(part)
    }
}
