// The store of a server, on its disk.
ghost use Rattle.std.specs.Prelude.{◌≡◌, ◌≤◌, ◌<◌, ◌+◌, ◌^◌, ℕ, true, [], length, take, IfOk, OnOk, OnErr};
ghost use Rattle.base_types.specs.declared.limits.TheConstants.{BATCH_ACTS_MAX, FILE_BYTES_MAX, OBJECTS_MAX};
ghost use Rattle.base_outside.specs.Runs.{LeavesOnly};
ghost use Rattle.message_types.specs.Soundness.{Each, IsCall, IsHost, IsMove, IsPart, IsTold, NamesRise};
ghost use Rattle.store_memory.specs.Reading.{
  bytes_told,
  entries_told,
  files_of,
  kept_of,
  looked_up,
  shipped,
  slots_from,
  status_told,
};
ghost use Rattle.store_memory.specs.Sound.{IsLeavingOf, IsMover, IsSlot};
ghost use Rattle.store_memory.specs.Views.{IsAsked, IsBlamed, IsSameStore, Leaves, IsFirstOf};
ghost use Rattle.store_state.specs.Rows.{answer_to, found_named};
ghost use Rattle.store_acts.specs.Acts.{dones_of, state_after};
ghost use Rattle.store_acts.specs.Sound.{AllFit, AreActs, IsFor};

use crate::aggregate::Aggregate;
use crate::refused::store_fault;
use base_types::{Disk, Fid, FilesetId, HostId, Items, Name, Span, User};
use store_acts::Act;
use store_memory::{Kept, Looked, Slot, Store, StoreFault, tells_part};
use store_state::{Done, HostState};
use tree_calls::{Call, DirEntry, Mover, Place, Reply, ShipPart, Status};

impl<D: Disk> Store for Aggregate<D> {
    ghost use Rattle.disk_aggregate.specs.Applying.{IsDurable, IsLeftOfBatch};
    ghost use Rattle.disk_aggregate.specs.Records.{HasRecord};
    ghost use Rattle.disk_aggregate.specs.Stands.{disk_in};
    ghost use Rattle.disk_aggregate.specs.StoreView.{aggregate_view as seen};

    ghost tells = { D.tells };

    ghost view = { seen D.tells D.view };

    /// Does up to `BATCH_ACTS_MAX` acts, in their order, and answers what became of each. All are durable after `Ok`.
    /// A crash at any moment of the call leaves what a crash before could leave, or what the first acts of the batch
    /// made, up to one of them. The errors are `Failed`, only where the disk failed, and `Memory`, also where an act
    /// doesn't fit, or where fewer blocks are free than it may need. After either the disk has what the first acts
    /// made, up to one of them, and `reopen` has to succeed before anything else is asked.
    fn apply(&mut self, batch: &[Act]) -> Result<Items<Done>, StoreFault>
        requires acts { AreActs (seen D.tells D.view self.old).state.roster
            (seen D.tells D.view self.old).state.server batch.now }
        requires ready { (seen D.tells D.view self.old).ready }
        requires wear { (seen D.tells D.view self.old).wear < 2 ^ 47 }
        ensures dones { D.tells → AllFit (seen D.tells D.view self.old).state batch.now
            → IfOk result (λ dones. dones ≡ dones_of (seen D.tells D.view self.old).state batch.now) }
        ensures state { D.tells → AllFit (seen D.tells D.view self.old).state batch.now → OnOk result
            ((seen D.tells D.view self.new).state ≡ state_after (seen D.tells D.view self.old).state batch.now) }
        ensures fault { D.tells → AllFit (seen D.tells D.view self.old).state batch.now → OnErr result ((k : ℕ)
            × (k ≤ length batch.now) × ((seen D.tells D.view self.new).state
            ≡ state_after (seen D.tells D.view self.old).state (take k batch.now))) }
        ensures leaves { D.tells → Leaves (IsFirstOf (seen D.tells D.view self.old).state batch.now)
            (seen D.tells D.view self.old) (seen D.tells D.view self.new) }
        ensures same { IsSameStore (seen D.tells D.view self.old) (seen D.tells D.view self.new) }
        ensures ready { OnOk result (seen D.tells D.view self.new).ready }
        ensures mendable { (seen D.tells D.view self.new).mendable }
        ensures wear { (seen D.tells D.view self.new).wear ≤ (seen D.tells D.view self.old).wear + BATCH_ACTS_MAX + 1 }
        ensures blame { IsBlamed result (seen D.tells D.view self.old) (seen D.tells D.view self.new) }
        ensures durable { D.tells → OnOk result
            (IsDurable (seen D.tells D.view self.new).state (D.view (disk_in self.new))) }
        ensures made { D.tells → (k : ℕ) × (k ≤ length batch.now) × ((seen D.tells D.view self.new).state
            ≡ state_after (seen D.tells D.view self.old).state (take k batch.now)) }
        ensures crash { D.tells → LeavesOnly
            (IsLeftOfBatch (seen D.tells D.view self.new).wear (seen D.tells D.view self.old).state batch.now)
            (D.view (disk_in self.old)) (D.view (disk_in self.new)) }
    {
        match self.do_batch(batch) {
            Ok(dones) => Ok(dones),
            Err(fault) => Err(store_fault(fault)),
        }
    }

    /// Mounts its own disk again, whatever happened, and reads back what it holds. The errors are `Failed`, only where
    /// the disk failed, and `Memory`; after either it is to be opened again. How worn the disk is isn't judged. A crash
    /// at any moment of the call leaves what a crash before could leave, or the same record again.
    fn reopen(&mut self) -> Result<(), StoreFault>
        requires mendable { (seen D.tells D.view self.old).mendable }
        requires wear { (seen D.tells D.view self.old).wear < 2 ^ 47 }
        ensures state { D.tells → (seen D.tells D.view self.new).state ≡ (seen D.tells D.view self.old).state }
        ensures leaves { D.tells → Leaves (IsFirstOf (seen D.tells D.view self.old).state [])
            (seen D.tells D.view self.old) (seen D.tells D.view self.new) }
        ensures same { IsSameStore (seen D.tells D.view self.old) (seen D.tells D.view self.new) }
        ensures ready { OnOk result (seen D.tells D.view self.new).ready }
        ensures mendable { (seen D.tells D.view self.new).mendable }
        ensures wear { (seen D.tells D.view self.new).wear ≤ (seen D.tells D.view self.old).wear + BATCH_ACTS_MAX + 1 }
        ensures blame { IsBlamed result (seen D.tells D.view self.old) (seen D.tells D.view self.new) }
        ensures crash { D.tells → LeavesOnly (HasRecord (seen D.tells D.view self.old).state)
            (D.view (disk_in self.old)) (D.view (disk_in self.new)) }
    {
        match self.open_again() {
            Ok(()) => Ok(()),
            Err(fault) => Err(store_fault(fault)),
        }
    }

    fn epoch(&self) -> u64 {
        self.store.epoch()
    }

    fn host(&self, host: HostId) -> HostState {
        self.store.host(host)
    }

    fn last_give(&self, host: HostId, fileset: FilesetId) -> u64 {
        self.store.last_give(host, fileset)
    }

    fn last_change(&self, host: HostId, fileset: FilesetId) -> u64 {
        self.store.last_change(host, fileset)
    }

    // What is asked is told by the store in memory, so that the disk stays as it is.
    fn would(&mut self, host: HostId, call: &Call) -> Result<Reply, StoreFault>
        requires host { IsHost (seen D.tells D.view self.old).state.roster host }
        requires call { IsCall (seen D.tells D.view self.old).state.roster call.now }
        requires own { IsFor (seen D.tells D.view self.old).state.server call.now }
        requires stays { IsMove call.now → ⊥ }
        requires ready { (seen D.tells D.view self.old).ready }
        ensures reply { D.tells
            → IfOk result (λ reply. reply ≡ (answer_to (seen D.tells D.view self.old).state host call.now).reply) }
        ensures asked { IsAsked D.tells result (seen D.tells D.view self.old) (seen D.tells D.view self.new) }
        ensures still { disk_in self.new ≡ disk_in self.old }
    {
        self.store.would(host, call)
    }

    fn kept(&mut self) -> Result<Kept, StoreFault>
        requires ready { (seen D.tells D.view self.old).ready }
        ensures kept { D.tells → IfOk result (λ kept. kept ≡ kept_of (seen D.tells D.view self.old).state) }
        ensures asked { IsAsked D.tells result (seen D.tells D.view self.old) (seen D.tells D.view self.new) }
        ensures still { disk_in self.new ≡ disk_in self.old }
    {
        self.store.kept()
    }

    fn find(&mut self, name: &Name) -> Result<Option<FilesetId>, StoreFault>
        requires ready { (seen D.tells D.view self.old).ready }
        ensures found { D.tells
            → IfOk result (λ found. found ≡ found_named (seen D.tells D.view self.old).state name.now) }
        ensures asked { IsAsked D.tells result (seen D.tells D.view self.old) (seen D.tells D.view self.new) }
        ensures still { disk_in self.new ≡ disk_in self.old }
    {
        self.store.find(name)
    }

    fn files(&mut self, fileset: FilesetId) -> Result<Items<Fid>, StoreFault>
        requires ready { (seen D.tells D.view self.old).ready }
        ensures files { D.tells → IfOk result (λ files. files ≡ files_of (seen D.tells D.view self.old).state fileset) }
        ensures few { IfOk result (λ files. length files ≤ OBJECTS_MAX) }
        ensures own { IfOk result (λ files. Each (λ fid. fid.fileset ≡ fileset) files) }
        ensures asked { IsAsked D.tells result (seen D.tells D.view self.old) (seen D.tells D.view self.new) }
        ensures still { disk_in self.new ≡ disk_in self.old }
    {
        self.store.files(fileset)
    }

    fn walk(&mut self, user: &User, place: &Place) -> Result<Looked, StoreFault>
        requires ready { (seen D.tells D.view self.old).ready }
        ensures looked { D.tells
            → IfOk result (λ looked. looked ≡ looked_up (seen D.tells D.view self.old).state user.now place.now) }
        ensures asked { IsAsked D.tells result (seen D.tells D.view self.old) (seen D.tells D.view self.new) }
        ensures still { disk_in self.new ≡ disk_in self.old }
    {
        self.store.walk(user, place)
    }

    fn status(&mut self, fid: Fid) -> Result<Option<Status>, StoreFault>
        requires ready { (seen D.tells D.view self.old).ready }
        ensures status { D.tells
            → IfOk result (λ status. status ≡ status_told (seen D.tells D.view self.old).state fid) }
        ensures sound { IfOk result (λ status. IsTold status [] []) }
        ensures asked { IsAsked D.tells result (seen D.tells D.view self.old) (seen D.tells D.view self.new) }
        ensures still { disk_in self.new ≡ disk_in self.old }
    {
        self.store.status(fid)
    }

    fn bytes(&mut self, fid: Fid, span: Span) -> Result<Items<u8>, StoreFault>
        requires ready { (seen D.tells D.view self.old).ready }
        ensures bytes { D.tells
            → IfOk result (λ bytes. bytes ≡ bytes_told (seen D.tells D.view self.old).state fid span) }
        ensures sound { IfOk result (λ bytes. span.from + length bytes ≤ FILE_BYTES_MAX) }
        ensures asked { IsAsked D.tells result (seen D.tells D.view self.old) (seen D.tells D.view self.new) }
        ensures still { disk_in self.new ≡ disk_in self.old }
    {
        self.store.bytes(fid, span)
    }

    fn entries(&mut self, fid: Fid) -> Result<Items<DirEntry>, StoreFault>
        requires ready { (seen D.tells D.view self.old).ready }
        ensures entries { D.tells
            → IfOk result (λ entries. entries ≡ entries_told (seen D.tells D.view self.old).state fid) }
        ensures few { IfOk result (λ entries. length entries ≤ OBJECTS_MAX) }
        ensures order { IfOk result (λ entries. NamesRise entries) }
        ensures asked { IsAsked D.tells result (seen D.tells D.view self.old) (seen D.tells D.view self.new) }
        ensures still { disk_in self.new ≡ disk_in self.old }
    {
        self.store.entries(fid)
    }

    fn slots(&mut self) -> Result<Items<Slot>, StoreFault>
        requires ready { (seen D.tells D.view self.old).ready }
        ensures slots { D.tells
            → IfOk result (λ slots. slots ≡ slots_from 0 (seen D.tells D.view self.old).state.slots) }
        ensures sound { IfOk result (λ slots. Each (IsSlot (seen D.tells D.view self.old).state.roster) slots) }
        ensures asked { IsAsked D.tells result (seen D.tells D.view self.old) (seen D.tells D.view self.new) }
        ensures still { disk_in self.new ≡ disk_in self.old }
    {
        self.store.slots()
    }

    // Over a disk that isn't told the fileset may be missing, and `Memory` is the answer.
    fn ship_part(
        &mut self,
        fileset: FilesetId,
        at: u32,
        mover: &Mover,
    ) -> Result<ShipPart, StoreFault>
        requires leaving { D.tells → IsLeavingOf (seen D.tells D.view self.old).state fileset at }
        requires limit { at ≤ OBJECTS_MAX }
        requires mover { IsMover (seen D.tells D.view self.old).state.roster mover.now }
        requires ready { (seen D.tells D.view self.old).ready }
        ensures part { D.tells
            → IfOk result (λ part. part ≡ shipped (seen D.tells D.view self.old).state fileset at mover.now) }
        ensures sound { IfOk result (λ part. IsPart (seen D.tells D.view self.old).state.roster at part) }
        ensures asked { IsAsked D.tells result (seen D.tells D.view self.old) (seen D.tells D.view self.new) }
        ensures still { disk_in self.new ≡ disk_in self.old }
    {
        if !tells_part(self.store.state(), fileset, at) {
            return Err(StoreFault::Memory);
        }
        self.store.ship_part(fileset, at, mover)
    }
}
