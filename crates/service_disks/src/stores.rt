ghost use Rattle.std.specs.Prelude.{◌≡◌};

use base_types::Disk;
use disk_aggregate::Aggregate;
use store_memory::MapStore;

/// The store of a server.
#[derive(Drop)]
pub enum ServerStore<D: Disk> {
    /// On the server's disk.
    Disk(Aggregate<D>),
    /// In memory, where the server has no disk.
    Memory(MapStore),
}

impl<D: Disk> ServerStore<D> {
    ghost use Rattle.service_disks.specs.View.{disk_under};

    /// The disk of the server, where it has one. What is kept in memory is gone.
    pub fn into_disk(self) -> Option<D>
        ensures { result ≡ disk_under self }
    {
        match self {
            ServerStore::Disk(store) => Some(store.into_disk()),
            ServerStore::Memory(_store) => None,
        }
    }
}
