// The record of a store.
ghost use Rattle.std.specs.Prelude.{◌≡◌, length, IfOk, IfSome};
ghost use Rattle.base_types.specs.Image.{byte_at};
ghost use Rattle.tree_calls.specs.declared.roster.Roster.{Roster as TheRoster};
ghost use Rattle.base_types.specs.declared.limits.TheConstants.{FILESETS_MAX};
ghost use Rattle.message_types.specs.Soundness.{Each};
ghost use Rattle.store_acts.specs.Sound.{KeepsLimits, IsHolding};
ghost use Rattle.store_state.specs.declared.state.StoreState.{StoreState as State};
ghost use Rattle.disk_log.specs.Log.{IsSoundLog};
ghost use Rattle.disk_fileset.specs.Reading.{Looks};
ghost use Rattle.disk_records.specs.Loading.{KeepsRecord, IsOf, state_with};

use crate::server::{hosts_in, records_in, ships_in};
use crate::slot::held_in;
use base_types::{Disk, FILESETS_MAX, Items, NoMemory, Plain, ServerId};
use disk_anode::NodeFault;
use disk_layout::PAGE;
use disk_log::Log;
use disk_pages::{is_numbers_page, server_of};
use std::alloc::Global;
use store_state::{Holding, StoreState};
use tree_calls::Roster;

// Blocks that are not offered to promises.
const SPARE: u32 = 1_024;

// The table of filesets, at a server with this page and so many servers declared.
fn slots_in<D: Disk>(
    alloc: Global,
    log: &mut Log<D>,
    home: ServerId,
    servers: usize,
    server: &[u8; PAGE],
) -> Result<Items<Option<Holding>>, NodeFault>
    requires sound { IsSoundLog D.tells D.view log.old }
    ensures slots { D.tells → byte_at server.now 29 ≡ 2 → (state : State) → KeepsRecord D.view state log.old
        → home ≡ state.server → IfOk result (λ slots. slots ≡ state.slots) }
    ensures size { IfOk result (λ slots. length slots ≡ FILESETS_MAX) }
    ensures limits { (roster : TheRoster) → servers ≡ length roster.capacity
        → IfOk result (λ slots. Each (λ slot. IfSome slot (IsHolding roster)) slots) }
    ensures looks { Looks D.tells D.view result log.old log.new }
{
    let mut slots = Items::new(alloc);
    for slot in 0..FILESETS_MAX as u32 {
        let held = held_in(alloc, log, home, servers, server, slot)?;
        match slots.push(held) {
            Ok(()) => {}
            Err(NoMemory) => return Err(NodeFault::Memory),
        }
    }
    Ok(slots)
}

// The record with this table, by the pages of the server and of its call numbers.
fn state_with(
    alloc: Global,
    server: ServerId,
    roster: &Roster,
    blocks: u32,
    page: &[u8; PAGE],
    numbers: &[u8; PAGE],
    slots: Items<Option<Holding>>,
) -> Result<StoreState, NoMemory>
    ensures { IfOk result
        (λ state. state ≡ state_with server roster.now blocks page.now numbers.now slots) }
{
    let facts = server_of(page);
    Ok(StoreState {
        server,
        roster: roster.copy()?,
        capacity: blocks.saturating_sub(SPARE),
        next: facts.next,
        slots,
        records: records_in(alloc, numbers)?,
        hosts: hosts_in(alloc, &facts)?,
        epoch: facts.epoch,
        ship: facts.ship,
        taken: ships_in(alloc, &facts.taken)?,
    })
}

/// The record of a server's store that the log of its aggregate holds, in format 2. The errors are `Failed`, after
/// which the log is to be mounted again, and `Memory`, the second also where the pages hold no record of a store or
/// name a server that the roster doesn't declare.
pub fn state_in<D: Disk>(
    alloc: Global,
    log: &mut Log<D>,
    server: ServerId,
    roster: &Roster,
) -> Result<StoreState, NodeFault>
    requires sound { IsSoundLog D.tells D.view log.old }
    ensures state { D.tells → (state : State) → KeepsRecord D.view state log.old
        → IsOf server roster.now state log.old → IfOk result (λ found. found ≡ state) }
    ensures own { IfOk result (λ found. (found.server ≡ server) × (found.roster ≡ roster.now)) }
    ensures limits { IfOk result (λ found. KeepsLimits found) }
    ensures looks { Looks D.tells D.view result log.old log.new }
{
    let mut page = [0; PAGE];
    log.page(0, &mut page)?;
    let mut numbers = [0; PAGE];
    log.page(1, &mut numbers)?;
    if !is_numbers_page(&numbers) {
        return Err(NodeFault::Memory);
    }
    let slots = slots_in(alloc, log, server, roster.capacity.len(), &page)?;
    let count = log.blocks();
    match state_with(alloc, server, roster, count, &page, &numbers, slots) {
        Ok(state) => Ok(state),
        Err(NoMemory) => Err(NodeFault::Memory),
    }
}
