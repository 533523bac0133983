ghost use Rattle.std.specs.Prelude.{◌≡◌, ◌≤◌, ◌<◌, ◌+◌, ◌^◌, ℕ, [], length, take, IfOk, OnOk, OnErr};
ghost use Rattle.base_types.specs.declared.limits.TheConstants.{OBJECTS_MAX, FILE_BYTES_MAX, BATCH_ACTS_MAX};
ghost use Rattle.message_types.specs.Soundness.{Each, IsHost, IsCall, IsPart, IsTold, NamesRise, IsMove};
ghost use Rattle.store_acts.specs.Acts.{state_after, dones_of};
ghost use Rattle.store_memory.specs.Reading.{
  host_state,
  last_of,
  files_of,
  looked_up,
  status_told,
  bytes_told,
  entries_told,
  kept_of,
  slots_from,
  shipped,
};
ghost use Rattle.store_state.specs.Rows.{answer_to, found_named};
ghost use Rattle.store_memory.specs.Sound.{IsMover, IsLeavingOf, IsSlot};
ghost use Rattle.store_acts.specs.Sound.{AreActs, AllFit, IsFor};
ghost use Rattle.store_memory.specs.Views.{View, IsBlamed, IsSameStore, IsAsked, Leaves, IsFirstOf};
ghost use Rattle.store_memory.specs.declared.store.StoreFault.TheVariants.{Memory};

use crate::told::{Kept, Looked, Slot};
use base_types::{Fid, FilesetId, HostId, Items, Name, NoMemory, Span, User};
use store_acts::Act;
use store_state::{Done, HostState};
use thiserror::Error;
use tree_calls::{Call, DirEntry, Mover, Place, Reply, ShipPart, Status};

/// Why a store didn't do what was asked.
#[derive(Clone, Copy, Debug, PartialEq, Error)]
pub enum StoreFault {
    /// Its disk failed.
    #[error("the disk failed")]
    Failed,
    /// Memory ran out.
    #[error("memory ran out")]
    Memory,
}

impl From<NoMemory> for StoreFault {
    ghost from_gives = { λ _ error. error ≡ Memory };

    fn from(_error: NoMemory) -> StoreFault {
        StoreFault::Memory
    }
}

/// Where a file server keeps its filesets. It does acts in their order, each number of a host on a fileset at most
/// once.
///
/// Of a fault: `Memory` of a call that only tells something leaves the store as it was. After another fault `reopen`
/// has to succeed before anything else is asked. After a fault of `apply` the store holds what the first acts of the
/// batch made, up to one of them, and that is what a crash at any moment of the call leaves, or what one could have
/// left before. `Failed` comes only where the disk's count of faults rose and its last call failed.
///
/// The acts and what they leave are this project's own; that a server keeps what it replies, and replies it again, is
/// after Kazar et al., "DEcorum File System Architectural Overview", 1990.
pub trait Store {
    /// Whether a store of this type tells what it keeps. If not, it is over a disk of which nothing is known, and what
    /// is said of answers is within what a message may carry.
    ghost tells: { Type 0 };

    /// What is seen of it.
    ghost view: { Self → View };

    /// Does up to `BATCH_ACTS_MAX` acts, in their order, and answers what became of each.
    fn apply(&mut self, batch: &[Act]) -> Result<Items<Done>, StoreFault>
        requires acts { AreActs (view self.old).state.roster (view self.old).state.server batch.now }
        requires ready { (view self.old).ready }
        requires wear { (view self.old).wear < 2 ^ 47 }
        ensures dones { tells → AllFit (view self.old).state batch.now
            → IfOk result (λ dones. dones ≡ dones_of (view self.old).state batch.now) }
        ensures state { tells → AllFit (view self.old).state batch.now
            → OnOk result ((view self.new).state ≡ state_after (view self.old).state batch.now) }
        ensures fault { tells → AllFit (view self.old).state batch.now → OnErr result ((k : ℕ)
            × (k ≤ length batch.now) × ((view self.new).state ≡ state_after (view self.old).state (take k batch.now))) }
        ensures leaves { tells → Leaves (IsFirstOf (view self.old).state batch.now) (view self.old) (view self.new) }
        ensures same { IsSameStore (view self.old) (view self.new) }
        ensures ready { OnOk result (view self.new).ready }
        ensures mendable { (view self.new).mendable }
        ensures wear { (view self.new).wear ≤ (view self.old).wear + BATCH_ACTS_MAX + 1 }
        ensures blame { IsBlamed result (view self.old) (view self.new) };

    /// Makes the store ready again after a fault.
    fn reopen(&mut self) -> Result<(), StoreFault>
        requires mendable { (view self.old).mendable }
        requires wear { (view self.old).wear < 2 ^ 47 }
        ensures state { tells → (view self.new).state ≡ (view self.old).state }
        ensures leaves { tells → Leaves (IsFirstOf (view self.old).state []) (view self.old) (view self.new) }
        ensures same { IsSameStore (view self.old) (view self.new) }
        ensures ready { OnOk result (view self.new).ready }
        ensures mendable { (view self.new).mendable }
        ensures wear { (view self.new).wear ≤ (view self.old).wear + BATCH_ACTS_MAX + 1 }
        ensures blame { IsBlamed result (view self.old) (view self.new) };

    /// How often the server has started, over all runs.
    fn epoch(&self) -> u64
        requires ready { (view self.now).ready }
        ensures { tells → result ≡ (view self.now).state.epoch };

    /// What is known of a host.
    fn host(&self, host: HostId) -> HostState
        requires ready { (view self.now).ready }
        ensures { tells → result ≡ host_state (view self.now).state host };

    /// The number of a host's last give-back on a fileset that was applied; 0 for none, and where the fileset isn't
    /// here.
    fn last_give(&self, host: HostId, fileset: FilesetId) -> u64
        requires ready { (view self.now).ready }
        ensures { tells → result ≡ last_of (view self.now).state host fileset (λ kept. kept.give) };

    /// The number of a host's last change on a fileset that was decided; 0 for none, and where the fileset isn't here.
    fn last_change(&self, host: HostId, fileset: FilesetId) -> u64
        requires ready { (view self.now).ready }
        ensures { tells → result ≡ last_of (view self.now).state host fileset (λ kept. kept.change) };

    /// The reply to a call of a host on what is kept, while nothing is locked or open. Nothing is done.
    fn would(&mut self, host: HostId, call: &Call) -> Result<Reply, StoreFault>
        requires host { IsHost (view self.old).state.roster host }
        requires call { IsCall (view self.old).state.roster call.now }
        requires own { IsFor (view self.old).state.server call.now }
        requires stays { IsMove call.now → ⊥ }
        requires ready { (view self.old).ready }
        ensures reply { tells → IfOk result (λ reply. reply ≡ (answer_to (view self.old).state host call.now).reply) }
        ensures asked { IsAsked tells result (view self.old) (view self.new) };

    /// The filesets that are here or leaving.
    fn kept(&mut self) -> Result<Kept, StoreFault>
        requires ready { (view self.old).ready }
        ensures kept { tells → IfOk result (λ kept. kept ≡ kept_of (view self.old).state) }
        ensures asked { IsAsked tells result (view self.old) (view self.new) };

    /// The fileset of a name that is here.
    fn find(&mut self, name: &Name) -> Result<Option<FilesetId>, StoreFault>
        requires ready { (view self.old).ready }
        ensures found { tells → IfOk result (λ found. found ≡ found_named (view self.old).state name.now) }
        ensures asked { IsAsked tells result (view self.old) (view self.new) };

    /// The objects of a fileset that is here, its directories too, in the order of their anodes; at most `OBJECTS_MAX`.
    fn files(&mut self, fileset: FilesetId) -> Result<Items<Fid>, StoreFault>
        requires ready { (view self.old).ready }
        ensures files { tells → IfOk result (λ files. files ≡ files_of (view self.old).state fileset) }
        ensures few { IfOk result (λ files. length files ≤ OBJECTS_MAX) }
        ensures own { IfOk result (λ files. Each (λ fid. fid.fileset ≡ fileset) files) }
        ensures asked { IsAsked tells result (view self.old) (view self.new) };

    /// Where a place leads a user, in the fileset of the place's name that is here.
    fn walk(&mut self, user: &User, place: &Place) -> Result<Looked, StoreFault>
        requires ready { (view self.old).ready }
        ensures looked { tells → IfOk result (λ looked. looked ≡ looked_up (view self.old).state user.now place.now) }
        ensures asked { IsAsked tells result (view self.old) (view self.new) };

    /// What is told of an object; none where it isn't there.
    fn status(&mut self, fid: Fid) -> Result<Option<Status>, StoreFault>
        requires ready { (view self.old).ready }
        ensures status { tells → IfOk result (λ status. status ≡ status_told (view self.old).state fid) }
        ensures sound { IfOk result (λ status. IsTold status [] []) }
        ensures asked { IsAsked tells result (view self.old) (view self.new) };

    /// The bytes of a file in a span, as many as there are; none of a directory, or where the file isn't there.
    fn bytes(&mut self, fid: Fid, span: Span) -> Result<Items<u8>, StoreFault>
        requires ready { (view self.old).ready }
        ensures bytes { tells → IfOk result (λ bytes. bytes ≡ bytes_told (view self.old).state fid span) }
        ensures sound { IfOk result (λ bytes. span.from + length bytes ≤ FILE_BYTES_MAX) }
        ensures asked { IsAsked tells result (view self.old) (view self.new) };

    /// The entries of a directory, in the order of their names; none of a file, or where the directory isn't there.
    fn entries(&mut self, fid: Fid) -> Result<Items<DirEntry>, StoreFault>
        requires ready { (view self.old).ready }
        ensures entries { tells → IfOk result (λ entries. entries ≡ entries_told (view self.old).state fid) }
        ensures few { IfOk result (λ entries. length entries ≤ OBJECTS_MAX) }
        ensures order { IfOk result (λ entries. NamesRise entries) }
        ensures asked { IsAsked tells result (view self.old) (view self.new) };

    /// The slots that are used, in the order of the table.
    fn slots(&mut self) -> Result<Items<Slot>, StoreFault>
        requires ready { (view self.old).ready }
        ensures slots { tells → IfOk result (λ slots. slots ≡ slots_from 0 (view self.old).state.slots) }
        ensures sound { IfOk result (λ slots. Each (IsSlot (view self.old).state.roster) slots) }
        ensures asked { IsAsked tells result (view self.old) (view self.new) };

    /// A part of a fileset that is leaving: part 0 is its head with the mover, part `i` its anode `i`.
    fn ship_part(
        &mut self,
        fileset: FilesetId,
        at: u32,
        mover: &Mover,
    ) -> Result<ShipPart, StoreFault>
        requires leaving { tells → IsLeavingOf (view self.old).state fileset at }
        requires limit { at ≤ OBJECTS_MAX }
        requires mover { IsMover (view self.old).state.roster mover.now }
        requires ready { (view self.old).ready }
        ensures part { tells → IfOk result (λ part. part ≡ shipped (view self.old).state fileset at mover.now) }
        ensures sound { IfOk result (λ part. IsPart (view self.old).state.roster at part) }
        ensures asked { IsAsked tells result (view self.old) (view self.new) };
}
