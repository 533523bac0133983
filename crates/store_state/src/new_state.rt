//! A store before its first act.
ghost use Rattle.std.specs.Prelude.{◌≡◌, ◌+◌, replicate, None, IfOk};
ghost use Rattle.base_types.specs.declared.limits.TheConstants.{HOSTS_MAX, SERVERS_MAX, FILESETS_MAX};
ghost use Rattle.store_state.specs.Capacity.{capacity_of};
ghost use Rattle.store_state.specs.State.{new_state, no_ship};
ghost use Rattle.store_state.specs.declared.state.HostState.TheVariants.{Unknown};

use crate::numbers::no_records;
use crate::state::{Holding, HostState, StoreState, TakenShip};
use base_types::{FILESETS_MAX, HOSTS_MAX, Items, NoMemory, Plain, SERVERS_MAX, ServerId};
use std::alloc::Global;
use tree_calls::Roster;

/// Where no ship was taken.
pub const NO_SHIP: TakenShip = TakenShip { ship: 0, code: 0 };

// A table of free slots.
fn free_slots(alloc: Global) -> Result<Items<Option<Holding>>, NoMemory>
    ensures { IfOk result (λ slots. slots ≡ replicate FILESETS_MAX None) }
{
    let mut slots = Items::new(alloc);
    for _ in 0..FILESETS_MAX {
        slots.push(None)?;
    }
    Ok(slots)
}

// What is known of hosts before one came.
fn unknown_hosts(alloc: Global) -> Result<Items<HostState>, NoMemory>
    ensures { IfOk result (λ hosts. hosts ≡ replicate (HOSTS_MAX + 1) Unknown) }
{
    Items::from_slice(alloc, &[HostState::Unknown; HOSTS_MAX as usize + 1])
}

// No ship of any server.
fn no_ships(alloc: Global) -> Result<Items<TakenShip>, NoMemory>
    ensures { IfOk result (λ ships. ships ≡ replicate SERVERS_MAX no_ship) }
{
    Items::from_slice(alloc, &[NO_SHIP; SERVERS_MAX as usize])
}

// The capacity of a server.
fn capacity_of(roster: &Roster, server: ServerId) -> u32
    ensures { result ≡ capacity_of roster.now server }
{
    match roster.capacity.at(server.0.saturating_sub(1) as usize) {
        Some(capacity) => *capacity,
        None => 0,
    }
}

impl StoreState {
    /// What a server of a roster keeps before its first act, with the capacity that the roster gives the server.
    /// `NoMemory` comes where memory runs out.
    pub fn new(alloc: Global, server: ServerId, roster: &Roster) -> Result<StoreState, NoMemory>
        ensures { IfOk result (λ state. state ≡ new_state server (capacity_of roster.now server) roster.now) }
    {
        Ok(StoreState {
            server,
            roster: roster.copy()?,
            capacity: capacity_of(roster, server),
            next: 1,
            slots: free_slots(alloc)?,
            records: no_records(alloc)?,
            hosts: unknown_hosts(alloc)?,
            epoch: 0,
            ship: 0,
            taken: no_ships(alloc)?,
        })
    }
}
