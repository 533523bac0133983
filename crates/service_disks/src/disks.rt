// The disks of a service: opened one after the other, and handed back.
ghost use Rattle.std.specs.Prelude.{
  ◌≡◌,
  ◌≤◌,
  ◌<◌,
  ◌+◌,
  true,
  List,
  [],
  ◌∷◌,
  ◌++◌,
  length,
  vec_capacity,
  IfOk,
  IfErr,
  OnOk,
  OnErr,
};
ghost use Rattle.base_types.specs.declared.limits.TheConstants.{SERVERS_MAX, CAPACITY_MIN, CAPACITY_MAX};
ghost use Rattle.tree_calls.specs.Limits.{keeps_limits};
ghost use Rattle.message_types.specs.Soundness.{IsServer};
ghost use Rattle.store_state.specs.Capacity.{capacity_of};
ghost use Rattle.service_disks.specs.Steps.{TakesFirst, RefusesFirst, StopsAt};
ghost use Rattle.service_disks.specs.Stores.{AreOpen, AreBack, IsStopped, disks_of};

use crate::opening::open_disk;
use crate::stores::ServerStore;
use base_types::{Disk, NoMemory, ServerId};
use disk_aggregate::{Aggregate, MountRefused};
use std::alloc::Global;
use store_memory::MapStore;
use tree_calls::Roster;

/// Why the stores of a service weren't opened.
#[derive(Clone, Copy)]
pub enum StoresRefused {
    /// The disk of this number, from 1, wasn't opened, and why.
    Refused(u8, MountRefused),
    /// Memory ran out.
    Memory,
}

// Puts a value before others, where there is room for it.
#[tactic(auto, using(crate::proofs::Lists::put_at_front))]
pub(crate) fn put_first<T: Drop>(items: &mut Vec<T>, item: T)
    requires { length items.old.items < vec_capacity items.old }
    ensures items { items.new.items ≡ item ∷ items.old.items }
    ensures room { vec_capacity items.old ≤ vec_capacity items.new }
{
    let _room = items.insert(0, item);
}

// Puts a value behind others, where there is room for it.
fn put_last<T: Drop>(items: &mut Vec<T>, item: T)
    requires { length items.old.items < vec_capacity items.old }
    ensures items { items.new.items ≡ items.old.items ++ item ∷ [] }
    ensures room { vec_capacity items.old ≤ vec_capacity items.new }
{
    let _room = items.push(item);
}

// Opens the first of these disks, which leaves the list. Where it is refused it is the first again.
fn open_first<D: Disk + Drop>(
    alloc: Global,
    disks: &mut Vec<D>,
    server: ServerId,
    roster: &Roster,
) -> Result<Aggregate<D>, MountRefused>
    requires some { 0 < length disks.old.items }
    requires room { length disks.old.items ≤ vec_capacity disks.old }
    requires declared { IsServer roster.now server }
    requires servers { length roster.now.capacity ≤ SERVERS_MAX }
    requires least { CAPACITY_MIN ≤ capacity_of roster.now server }
    requires most { capacity_of roster.now server ≤ CAPACITY_MAX }
    ensures opened { IfOk result
        (λ store. TakesFirst D.tells D.view roster.now server store disks.old.items disks.new.items) }
    ensures refused { IfErr result
        (λ why. RefusesFirst D.tells D.view roster.now server why disks.old.items disks.new.items) }
    ensures room { vec_capacity disks.old ≤ vec_capacity disks.new }
{
    let disk = disks.remove(0);
    match open_disk(alloc, disk, server, roster) {
        Ok(store) => Ok(store),
        Err((disk, why)) => {
            put_first(disks, disk);
            Err(why)
        }
    }
}

// Opens these disks in their order, the first as that of server 1, up to the first that is refused.
fn open_disks<D: Disk + Drop>(
    alloc: Global,
    disks: &mut Vec<D>,
    roster: &Roster,
    stores: &mut Vec<ServerStore<D>>,
) -> Result<(), StoresRefused>
    requires limits { keeps_limits roster.now ≡ true }
    requires few { length disks.old.items ≤ length roster.now.capacity }
    requires none { stores.old.items ≡ [] }
    requires room { length disks.old.items ≤ vec_capacity disks.old }
    requires stores_room { length disks.old.items ≤ vec_capacity stores.old }
    ensures opened { OnOk result (AreOpen D.tells D.view roster.now 1 disks.old.items stores.new.items) }
    ensures count { OnOk result (length stores.new.items ≡ length disks.old.items) }
    ensures taken { OnOk result (disks.new.items ≡ []) }
    ensures stopped { IfErr result (λ refused.
        StopsAt D.tells D.view roster.now refused stores.new.items disks.old.items disks.new.items) }
    ensures room { vec_capacity disks.old ≤ vec_capacity disks.new }
    ensures stores_room { vec_capacity stores.old ≤ vec_capacity stores.new }
{
    let count = disks.len() as u8;
    for k in 0..count {
        match open_first(alloc, disks, ServerId(k + 1), roster) {
            Ok(store) => put_last(stores, ServerStore::Disk(store)),
            Err(why) => return Err(StoresRefused::Refused(k + 1, why)),
        }
    }
    Ok(())
}

// Adds new stores in memory, for the servers that have no disk.
fn add_memory<D: Disk + Drop>(
    alloc: Global,
    roster: &Roster,
    stores: &mut Vec<ServerStore<D>>,
) -> Result<(), NoMemory>
    requires servers { length roster.now.capacity ≤ SERVERS_MAX }
    requires few { length stores.old.items ≤ length roster.now.capacity }
    requires room { length roster.now.capacity ≤ vec_capacity stores.old }
    ensures opened { (disks : List D) → AreOpen D.tells D.view roster.now 1 disks stores.old.items
        → AreOpen D.tells D.view roster.now 1 disks stores.new.items }
    ensures count { OnOk result (length stores.new.items ≡ length roster.now.capacity) }
    ensures few { length stores.new.items ≤ length roster.now.capacity }
{
    let first = stores.len() as u8;
    let servers = roster.capacity.len() as u8;
    for k in first..servers {
        let store = MapStore::new(alloc, ServerId(k + 1), roster)?;
        put_last(stores, ServerStore::Memory(store));
    }
    Ok(())
}

/// Puts the disks of stores before others, in the order of the stores. What is kept in memory is gone. It takes no
/// memory.
pub fn close_stores<D: Disk + Drop>(disks: &mut Vec<D>, stores: Vec<ServerStore<D>>)
    requires room { length disks.old.items + length stores.items ≤ vec_capacity disks.old }
    ensures back { disks.new.items ≡ disks_of stores.items ++ disks.old.items }
    ensures room { vec_capacity disks.old ≤ vec_capacity disks.new }
{
    let mut stores = stores;
    while let Some(store) = stores.pop() {
        if let Some(disk) = store.into_disk() {
            put_first(disks, disk);
        }
    }
}

/// Opens the stores of the servers of a roster, on these disks in their order, the first as that of server 1; a server
/// without a disk gets a new store in memory. The disks leave their list, in which room is made for as many as there
/// are servers, so that `close_stores` can put them back. At the first disk that isn't opened the stores are closed,
/// and no further one is looked at: it answers `Refused`, with the number of that disk, from 1. `Memory` is want of
/// memory. After each error all disks are in the list again, in their order.
pub fn open_stores<D: Disk + Drop>(
    alloc: Global,
    disks: &mut Vec<D>,
    roster: &Roster,
) -> Result<Vec<ServerStore<D>>, StoresRefused>
    requires limits { keeps_limits roster.now ≡ true }
    requires few { length disks.old.items ≤ length roster.now.capacity }
    ensures opened { IfOk result
        (λ stores. AreOpen D.tells D.view roster.now 1 disks.old.items stores.items) }
    ensures count { IfOk result (λ stores. length stores.items ≡ length roster.now.capacity) }
    ensures taken { OnOk result (disks.new.items ≡ []) }
    ensures room { OnOk result (length roster.now.capacity ≤ vec_capacity disks.new) }
    ensures back { OnErr result (AreBack D.tells D.view roster.now 1 disks.old.items disks.new.items) }
    ensures stopped { IfErr result
        (λ refused. IsStopped D.tells D.view roster.now refused disks.old.items disks.new.items) }
{
    let servers = roster.capacity.len();
    let Ok(mut stores) = Vec::with_capacity(alloc, servers) else {
        return Err(StoresRefused::Memory);
    };
    if disks.reserve(servers).is_err() {
        return Err(StoresRefused::Memory);
    }
    if let Err(refused) = open_disks(alloc, disks, roster, &mut stores) {
        close_stores(disks, stores);
        return Err(refused);
    }
    if let Err(NoMemory) = add_memory(alloc, roster, &mut stores) {
        close_stores(disks, stores);
        return Err(StoresRefused::Memory);
    }
    Ok(stores)
}
