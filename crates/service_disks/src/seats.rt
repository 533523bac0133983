ghost use Rattle.std.specs.Prelude.{◌≤◌, ◌<◌, ℕ};
ghost use Rattle.store_memory.specs.MapStores.{kept_in};
ghost use Rattle.disk_aggregate.specs.StoreView.{aggregate_view};

use base_types::{Disk, Fid, FilesetId, HostId, Items, Name, Span, User};
use disk_aggregate::Aggregate;
use std::marker::{Brand, PhantomData};
use store_acts::Act;
use store_memory::{Kept, Looked, MapStore, Slot, Store, StoreFault, tells_part};
use store_state::{Done, HostState};
use tree_calls::{Call, DirEntry, Mover, Place, Reply, ShipPart, Status};

/// How many servers have a disk, those in front. It is known to proofs alone: who seats stores picks it.
pub trait Count {
    ghost disks: { ℕ };
}

impl Count for Brand {
    ghost disks = { 0 };
}

/// The store of a server on its disk, which the server has by its number.
#[derive(Drop)]
pub struct DiskSeat<D: Disk, C: Count> {
    pub(crate) store: Aggregate<D>,
    pub(crate) count: PhantomData<C>,
    ghost some: { 0 < C.disks },
    ghost within: { (aggregate_view D.tells D.view store).state.server.0 ≤ C.disks },
}

/// The store of a server in memory, which has no disk by its number.
#[derive(Drop)]
pub struct MemorySeat<C: Count> {
    pub(crate) store: MapStore,
    pub(crate) count: PhantomData<C>,
    ghost beyond: { C.disks < (kept_in store).server.0 },
}

/// The store of a server, where it is settled by the server's number whether it is on a disk. So whatever a run does to
/// stores of which it knows no more than that, the disks are there again behind it.
#[derive(Drop)]
pub enum Seat<D: Disk, C: Count> {
    /// On the server's disk.
    Disk(DiskSeat<D, C>),
    /// In memory, where the server has no disk.
    Memory(MemorySeat<C>),
}

impl<D: Disk, C: Count> Seat<D, C> {
    ghost use Rattle.service_disks.specs.Seats.{store_in};
    ghost use Rattle.service_disks.specs.View.{disk_under};
    ghost use Rattle.std.specs.Prelude.{◌≡◌};

    /// The disk of the server, where it has one. What is kept in memory is gone.
    pub fn into_disk(self) -> Option<D>
        ensures { result ≡ disk_under (store_in self) }
    {
        match self {
            Seat::Disk(seat) => Some(seat.store.into_disk()),
            Seat::Memory(_seat) => None,
        }
    }
}

impl<D: Disk, C: Count> Store for Seat<D, C> {
    ghost use Rattle.service_disks.specs.Seats.{seat_tells, seat_view};

    ghost tells = { seat_tells D.tells C.disks };

    ghost view = { seat_view D.tells D.view };

    fn apply(&mut self, batch: &[Act]) -> Result<Items<Done>, StoreFault> {
        match self {
            Seat::Disk(seat) => seat.store.apply(batch),
            Seat::Memory(seat) => seat.store.apply(batch),
        }
    }

    fn reopen(&mut self) -> Result<(), StoreFault> {
        match self {
            Seat::Disk(seat) => seat.store.reopen(),
            Seat::Memory(seat) => seat.store.reopen(),
        }
    }

    fn epoch(&self) -> u64 {
        match self {
            Seat::Disk(seat) => seat.store.epoch(),
            Seat::Memory(seat) => seat.store.epoch(),
        }
    }

    fn host(&self, host: HostId) -> HostState {
        match self {
            Seat::Disk(seat) => seat.store.host(host),
            Seat::Memory(seat) => seat.store.host(host),
        }
    }

    fn last_give(&self, host: HostId, fileset: FilesetId) -> u64 {
        match self {
            Seat::Disk(seat) => seat.store.last_give(host, fileset),
            Seat::Memory(seat) => seat.store.last_give(host, fileset),
        }
    }

    fn last_change(&self, host: HostId, fileset: FilesetId) -> u64 {
        match self {
            Seat::Disk(seat) => seat.store.last_change(host, fileset),
            Seat::Memory(seat) => seat.store.last_change(host, fileset),
        }
    }

    fn would(&mut self, host: HostId, call: &Call) -> Result<Reply, StoreFault> {
        match self {
            Seat::Disk(seat) => seat.store.would(host, call),
            Seat::Memory(seat) => seat.store.would(host, call),
        }
    }

    fn kept(&mut self) -> Result<Kept, StoreFault> {
        match self {
            Seat::Disk(seat) => seat.store.kept(),
            Seat::Memory(seat) => seat.store.kept(),
        }
    }

    fn find(&mut self, name: &Name) -> Result<Option<FilesetId>, StoreFault> {
        match self {
            Seat::Disk(seat) => seat.store.find(name),
            Seat::Memory(seat) => seat.store.find(name),
        }
    }

    fn files(&mut self, fileset: FilesetId) -> Result<Items<Fid>, StoreFault> {
        match self {
            Seat::Disk(seat) => seat.store.files(fileset),
            Seat::Memory(seat) => seat.store.files(fileset),
        }
    }

    fn walk(&mut self, user: &User, place: &Place) -> Result<Looked, StoreFault> {
        match self {
            Seat::Disk(seat) => seat.store.walk(user, place),
            Seat::Memory(seat) => seat.store.walk(user, place),
        }
    }

    fn status(&mut self, fid: Fid) -> Result<Option<Status>, StoreFault> {
        match self {
            Seat::Disk(seat) => seat.store.status(fid),
            Seat::Memory(seat) => seat.store.status(fid),
        }
    }

    fn bytes(&mut self, fid: Fid, span: Span) -> Result<Items<u8>, StoreFault> {
        match self {
            Seat::Disk(seat) => seat.store.bytes(fid, span),
            Seat::Memory(seat) => seat.store.bytes(fid, span),
        }
    }

    fn entries(&mut self, fid: Fid) -> Result<Items<DirEntry>, StoreFault> {
        match self {
            Seat::Disk(seat) => seat.store.entries(fid),
            Seat::Memory(seat) => seat.store.entries(fid),
        }
    }

    fn slots(&mut self) -> Result<Items<Slot>, StoreFault> {
        match self {
            Seat::Disk(seat) => seat.store.slots(),
            Seat::Memory(seat) => seat.store.slots(),
        }
    }

    // Where disks aren't told the fileset may be missing, and `Memory` is the answer.
    fn ship_part(
        &mut self,
        fileset: FilesetId,
        at: u32,
        mover: &Mover,
    ) -> Result<ShipPart, StoreFault> {
        match self {
            Seat::Disk(seat) => seat.store.ship_part(fileset, at, mover),
            Seat::Memory(seat) => {
                if !tells_part(seat.store.state(), fileset, at) {
                    return Err(StoreFault::Memory);
                }
                seat.store.ship_part(fileset, at, mover)
            }
        }
    }
}
