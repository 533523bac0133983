//! Stores that are watched.
ghost use Rattle.std.specs.Prelude.{ℕ};
ghost use Rattle.service_watch.specs.Gone.{HasGone};
ghost use Rattle.service_watch.specs.Unseen.{unseen};
ghost use Rattle.store_memory.specs.Views.{View};

use crate::plain::plain_acts;
use base_types::{Fid, FilesetId, HostId, Items, Name, Span, User};
use std::marker::{Brand, PhantomData};
use store_acts::Act;
use store_memory::{Kept, Looked, Slot, Store, StoreFault};
use store_state::{Done, HostState};
use tree_calls::{Call, DirEntry, Mover, Place, Reply, ShipPart, Status};

/// What was first seen of the store of the server of each number. It is known to proofs alone: who watches stores picks
/// it.
pub trait Origin {
    ghost from: { ℕ → View };
}

impl Origin for Brand {
    ghost from = { λ number. unseen };
}

/// A store that is watched: it has done some acts since it was first seen, and a crash at any moment since may leave
/// what the first of them made, and perhaps some of one batch more. It is for servers between which no fileset moves:
/// an act by which one begins to leave, or a part of one that arrives, isn't done, nor is what is behind it in its
/// batch; `Memory` is the answer.
#[derive(Drop)]
pub struct Watched<S: Store, O: Origin> {
    pub(crate) store: S,
    pub(crate) origin: PhantomData<O>,
    ghost went: { S.tells → ∥ HasGone (O.from (S.view store).state.server.0) (S.view store) ∥₁ },
}

impl<S: Store, O: Origin> Watched<S, O> {
    ghost use Rattle.std.specs.Prelude.{◌≡◌};
    ghost use Rattle.service_watch.specs.Watching.{store_in};

    /// The store, which isn't watched any more.
    pub fn into_store(self) -> S
        ensures is { result ≡ store_in self }
        ensures went { S.tells → ∥ HasGone (O.from (S.view result).state.server.0) (S.view result) ∥₁ }
    {
        self.store
    }
}

impl<S: Store, O: Origin> Store for Watched<S, O> {
    ghost use Rattle.service_watch.specs.Watching.{store_in};

    ghost tells = { S.tells };

    ghost view = { λ watched. S.view (store_in watched) };

    #[tactic(auto, using(crate::proofs::Fitting::first_fault, crate::proofs::Fitting::first_leaves))]
    fn apply(&mut self, batch: &[Act]) -> Result<Items<Done>, StoreFault> {
        let count = plain_acts(batch);
        let dones = self.store.apply(&batch[..count])?;
        if count < batch.len() {
            return Err(StoreFault::Memory);
        }
        Ok(dones)
    }

    fn reopen(&mut self) -> Result<(), StoreFault> {
        self.store.reopen()
    }

    fn epoch(&self) -> u64 {
        self.store.epoch()
    }

    fn host(&self, host: HostId) -> HostState {
        self.store.host(host)
    }

    fn last_give(&self, host: HostId, fileset: FilesetId) -> u64 {
        self.store.last_give(host, fileset)
    }

    fn last_change(&self, host: HostId, fileset: FilesetId) -> u64 {
        self.store.last_change(host, fileset)
    }

    fn would(&mut self, host: HostId, call: &Call) -> Result<Reply, StoreFault> {
        self.store.would(host, call)
    }

    fn kept(&mut self) -> Result<Kept, StoreFault> {
        self.store.kept()
    }

    fn find(&mut self, name: &Name) -> Result<Option<FilesetId>, StoreFault> {
        self.store.find(name)
    }

    fn files(&mut self, fileset: FilesetId) -> Result<Items<Fid>, StoreFault> {
        self.store.files(fileset)
    }

    fn walk(&mut self, user: &User, place: &Place) -> Result<Looked, StoreFault> {
        self.store.walk(user, place)
    }

    fn status(&mut self, fid: Fid) -> Result<Option<Status>, StoreFault> {
        self.store.status(fid)
    }

    fn bytes(&mut self, fid: Fid, span: Span) -> Result<Items<u8>, StoreFault> {
        self.store.bytes(fid, span)
    }

    fn entries(&mut self, fid: Fid) -> Result<Items<DirEntry>, StoreFault> {
        self.store.entries(fid)
    }

    fn slots(&mut self) -> Result<Items<Slot>, StoreFault> {
        self.store.slots()
    }

    fn ship_part(
        &mut self,
        fileset: FilesetId,
        at: u32,
        mover: &Mover,
    ) -> Result<ShipPart, StoreFault> {
        self.store.ship_part(fileset, at, mover)
    }
}
