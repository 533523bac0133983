ghost use Rattle.std.specs.Prelude.{◌≡◌, ◌≤◌, ◌+◌, ◌^◌, [], length, IfOk, OnOk, OnErr};
ghost use Rattle.base_types.specs.declared.limits.TheConstants.{FILE_BYTES_MAX, OBJECTS_MAX};
ghost use Rattle.message_types.specs.Soundness.{IsCall, IsHost, IsMove, IsTold, NamesRise};
ghost use Rattle.store_acts.specs.Sound.{IsFor};
ghost use Rattle.store_memory.specs.Reading.{bytes_told, entries_told, files_of, looked_up, status_told};
ghost use Rattle.store_state.specs.Rows.{answer_to, found_named};
ghost use Rattle.server_looks.specs.Keepers.{HasAsked, HasMended, IsFit, IsWorn, answer_of};

use crate::fault::ExporterFault;
use base_types::{Fid, FilesetId, HostId, Items, Name, NoMemory, Span, User};
use store_memory::{Looked, Store, StoreFault};
use tree_calls::{Call, DirEntry, Place, Reply, Status};

/// How often a store may be written and opened anew, over all runs of a machine.
const TIMES_MAX: u64 = 4_398_046_511_104;

// The answer of a store, for a machine.
fn answer_of<T>(answer: Result<T, StoreFault>) -> Result<T, ExporterFault>
    ensures { result ≡ answer_of answer }
{
    match answer {
        Ok(value) => Ok(value),
        Err(fault) => Err(ExporterFault::from(fault)),
    }
}

/// A server's store, for its machine. Where the disk fails it is opened anew, and asked or given the same once more.
/// How often it is written or opened is counted, so that it is never worn out.
#[derive(Drop)]
pub struct Keeper<S> {
    pub store: S,
    /// How often it may still be written, or opened anew.
    pub left: u64,
}

impl<S: Store> Keeper<S> {
    /// A store that is ready.
    pub fn new(store: S) -> Keeper<S>
        requires ready { (S.view store).ready }
        requires mendable { (S.view store).mendable }
        requires wear { (S.view store).wear ≤ 2 ^ 46 }
        ensures store { result.store ≡ store }
        ensures fit { IsFit (S.view result.store) result.left }
    {
        Keeper {
            store,
            left: TIMES_MAX,
        }
    }

    /// The store comes back.
    pub fn into_store(self) -> S
        ensures { result ≡ self.store }
    {
        self.store
    }

    // Counts a write or an opening.
    pub(crate) fn spend(&mut self) -> Result<(), NoMemory>
        ensures store { self.new.store ≡ self.old.store }
        ensures ok { OnOk result (self.new.left + 1 ≡ self.old.left) }
        ensures err { OnErr result (self.new.left ≡ self.old.left) }
    {
        if self.left == 0 {
            return Err(NoMemory);
        }
        self.left -= 1;
        Ok(())
    }

    // Makes the store ready again after a fault.
    pub(crate) fn mend(&mut self) -> Result<(), ExporterFault>
        requires mendable { (S.view self.old.store).mendable }
        requires wear { IsWorn (S.view self.old.store) self.old.left }
        ensures mended { HasMended S.tells result (S.view self.old.store) (S.view self.new.store) self.new.left }
    {
        self.spend()?;
        self.store.reopen()?;
        Ok(())
    }

    /// What would be replied to a call of a host.
    pub fn would(&mut self, host: HostId, call: &Call) -> Result<Reply, ExporterFault>
        requires fit { IsFit (S.view self.old.store) self.old.left }
        requires host { IsHost (S.view self.old.store).state.roster host }
        requires call { IsCall (S.view self.old.store).state.roster call.now }
        requires own { IsFor (S.view self.old.store).state.server call.now }
        requires stays { IsMove call.now → ⊥ }
        ensures reply { S.tells
            → IfOk result (λ reply. reply ≡ (answer_to (S.view self.old.store).state host call.now).reply) }
        ensures asked { HasAsked S.tells result (S.view self.old.store) (S.view self.new.store) self.new.left }
    {
        match self.store.would(host, call) {
            Err(StoreFault::Failed) => {
                self.mend()?;
                answer_of(self.store.would(host, call))
            }
            answer => answer_of(answer),
        }
    }

    /// The fileset of a name.
    pub fn find(&mut self, name: &Name) -> Result<Option<FilesetId>, ExporterFault>
        requires fit { IsFit (S.view self.old.store) self.old.left }
        ensures found { S.tells → IfOk result (λ found. found ≡ found_named (S.view self.old.store).state name.now) }
        ensures asked { HasAsked S.tells result (S.view self.old.store) (S.view self.new.store) self.new.left }
    {
        match self.store.find(name) {
            Err(StoreFault::Failed) => {
                self.mend()?;
                answer_of(self.store.find(name))
            }
            answer => answer_of(answer),
        }
    }

    /// The objects of a fileset.
    pub fn files(&mut self, fileset: FilesetId) -> Result<Items<Fid>, ExporterFault>
        requires fit { IsFit (S.view self.old.store) self.old.left }
        ensures files { S.tells → IfOk result (λ files. files ≡ files_of (S.view self.old.store).state fileset) }
        ensures asked { HasAsked S.tells result (S.view self.old.store) (S.view self.new.store) self.new.left }
    {
        match self.store.files(fileset) {
            Err(StoreFault::Failed) => {
                self.mend()?;
                answer_of(self.store.files(fileset))
            }
            answer => answer_of(answer),
        }
    }

    /// Where a place leads a user.
    pub fn walk(&mut self, user: &User, place: &Place) -> Result<Looked, ExporterFault>
        requires fit { IsFit (S.view self.old.store) self.old.left }
        ensures looked { S.tells
            → IfOk result (λ looked. looked ≡ looked_up (S.view self.old.store).state user.now place.now) }
        ensures asked { HasAsked S.tells result (S.view self.old.store) (S.view self.new.store) self.new.left }
    {
        match self.store.walk(user, place) {
            Err(StoreFault::Failed) => {
                self.mend()?;
                answer_of(self.store.walk(user, place))
            }
            answer => answer_of(answer),
        }
    }

    /// What is told of an object.
    pub fn status(&mut self, fid: Fid) -> Result<Option<Status>, ExporterFault>
        requires fit { IsFit (S.view self.old.store) self.old.left }
        ensures status { S.tells → IfOk result (λ status. status ≡ status_told (S.view self.old.store).state fid) }
        ensures sound { IfOk result (λ status. IsTold status [] []) }
        ensures asked { HasAsked S.tells result (S.view self.old.store) (S.view self.new.store) self.new.left }
    {
        match self.store.status(fid) {
            Err(StoreFault::Failed) => {
                self.mend()?;
                answer_of(self.store.status(fid))
            }
            answer => answer_of(answer),
        }
    }

    /// The bytes of a file in a span.
    pub fn bytes(&mut self, fid: Fid, span: Span) -> Result<Items<u8>, ExporterFault>
        requires fit { IsFit (S.view self.old.store) self.old.left }
        ensures bytes { S.tells → IfOk result (λ bytes. bytes ≡ bytes_told (S.view self.old.store).state fid span) }
        ensures sound { IfOk result (λ bytes. span.from + length bytes ≤ FILE_BYTES_MAX) }
        ensures asked { HasAsked S.tells result (S.view self.old.store) (S.view self.new.store) self.new.left }
    {
        match self.store.bytes(fid, span) {
            Err(StoreFault::Failed) => {
                self.mend()?;
                answer_of(self.store.bytes(fid, span))
            }
            answer => answer_of(answer),
        }
    }

    /// The entries of a directory.
    pub fn entries(&mut self, fid: Fid) -> Result<Items<DirEntry>, ExporterFault>
        requires fit { IsFit (S.view self.old.store) self.old.left }
        ensures entries { S.tells
            → IfOk result (λ entries. entries ≡ entries_told (S.view self.old.store).state fid) }
        ensures few { IfOk result (λ entries. length entries ≤ OBJECTS_MAX) }
        ensures order { IfOk result (λ entries. NamesRise entries) }
        ensures asked { HasAsked S.tells result (S.view self.old.store) (S.view self.new.store) self.new.left }
    {
        match self.store.entries(fid) {
            Err(StoreFault::Failed) => {
                self.mend()?;
                answer_of(self.store.entries(fid))
            }
            answer => answer_of(answer),
        }
    }
}
