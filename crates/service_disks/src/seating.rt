//! Stores are given their seats for a run, and leave them.
ghost use Rattle.std.specs.Prelude.{◌≡◌, ◌≤◌, ◌+◌, ◌++◌, length, vec_capacity, IfOk, IfErr};
ghost use Rattle.service_disks.specs.Seats.{store_in, stores_in, IsSeated, AreSeated};
ghost use Rattle.service_disks.specs.Stores.{disks_of};

use crate::disks::put_first;
use crate::seats::{Count, DiskSeat, MemorySeat, Seat};
use crate::stores::ServerStore;
use base_types::Disk;
use std::alloc::Global;
use std::marker::PhantomData;

// Gives a store its seat.
fn seat<D: Disk, C: Count>(store: ServerStore<D>) -> Seat<D, C>
    requires seated { IsSeated D.tells D.view C.disks store }
    ensures { store_in result ≡ store }
{
    match store {
        ServerStore::Disk(store) => Seat::Disk(DiskSeat {
            store,
            count: PhantomData,
        }),
        ServerStore::Memory(store) => Seat::Memory(MemorySeat {
            store,
            count: PhantomData,
        }),
    }
}

/// Gives stores their seats, in their order. The only error is want of memory, and gives the stores back.
pub fn seat_stores<D: Disk + Drop, C: Count>(
    alloc: Global,
    stores: Vec<ServerStore<D>>,
) -> Result<Vec<Seat<D, C>>, Vec<ServerStore<D>>>
    requires seated { AreSeated D.tells D.view C.disks stores.items }
    ensures seated { IfOk result (λ seats. stores_in seats.items ≡ stores.items) }
    ensures back { IfErr result (λ back. back.items ≡ stores.items) }
{
    let Ok(mut seats) = Vec::with_capacity(alloc, stores.len()) else {
        return Err(stores);
    };
    let mut stores = stores;
    while let Some(store) = stores.pop() {
        put_first(&mut seats, seat(store));
    }
    Ok(seats)
}

/// Puts the disks of seated stores before others, in the order of the stores. What is kept in memory is gone. It takes
/// no memory.
pub fn close_seats<D: Disk + Drop, C: Count>(disks: &mut Vec<D>, seats: Vec<Seat<D, C>>)
    requires room { length disks.old.items + length seats.items ≤ vec_capacity disks.old }
    ensures back { disks.new.items ≡ disks_of (stores_in seats.items) ++ disks.old.items }
    ensures room { vec_capacity disks.old ≤ vec_capacity disks.new }
{
    let mut seats = seats;
    while let Some(seat) = seats.pop() {
        if let Some(disk) = seat.into_disk() {
            put_first(disks, disk);
        }
    }
}
