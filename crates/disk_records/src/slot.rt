// What a slot holds.
ghost use Rattle.std.specs.Prelude.{◌≡◌, ◌≤◌, ◌<◌, ◌&&◌, true, length, IfOk, IfSome};
ghost use Rattle.base_types.specs.Image.{byte_at};
ghost use Rattle.tree_calls.specs.declared.roster.Roster.{Roster as TheRoster};
ghost use Rattle.store_acts.specs.Sound.{IsHolding};
ghost use Rattle.store_state.specs.State.{held_at};
ghost use Rattle.store_state.specs.declared.state.StoreState.{StoreState as State};
ghost use Rattle.disk_layout.specs.Numbers.{number_at};
ghost use Rattle.disk_log.specs.Log.{IsSoundLog};
ghost use Rattle.disk_pages.specs.Header.{is_limit, state_of as state_in};
ghost use Rattle.disk_pages.specs.Numbers.{is_numbers_page};
ghost use Rattle.disk_pages.specs.Words.{is_name_at};
ghost use Rattle.disk_image.specs.Image.{is_clone};
ghost use Rattle.disk_fileset.specs.Reading.{Looks};
ghost use Rattle.disk_records.specs.Loading.{KeepsRecord, count_held, holding_in, is_other_declared};

use crate::saying::stay_of;
use crate::server::records_in;
use base_types::{Disk, Items, NoMemory, ServerId};
use disk_anode::NodeFault;
use disk_fileset::kept_anodes;
use disk_layout::{PAGE, u32_at};
use disk_log::Log;
use disk_pages::{SlotState, is_limit, is_name_at, is_numbers_page, read_header, state_of};
use std::alloc::Global;
use store_state::Holding;
use tree_filesets::Fileset;
use tree_objects::Anode;

// Where parts of a header stand, in bytes.
const OBJECTS_AT: usize = 8;

const NAME_AT: usize = 12;

const OTHER_AT: usize = 73;

const PARTS_AT: usize = 88;

// Anodes of a slot.
const ANODES: u32 = 64;

// How many anodes are held in a slot.
fn count_held(server: &[u8; PAGE], header: &[u8; PAGE]) -> u32
    ensures count { result ≡ count_held server.now header.now }
    ensures few { result ≤ 64 }
{
    match state_of(server, header) {
        SlotState::Arriving => ANODES.min(u32_at(header, PARTS_AT).saturating_sub(1)),
        SlotState::Writable | SlotState::Clone | SlotState::Leaving => {
            ANODES.min(u32_at(header, OBJECTS_AT))
        }
        SlotState::Gone | SlotState::Free | SlotState::Unknown => 0,
    }
}

// Whether another server that a header names is one of so many.
fn is_other_declared(servers: usize, state: SlotState, other: u8) -> bool
    ensures { result ≡ is_other_declared servers state other }
{
    match state {
        SlotState::Writable | SlotState::Clone => true,
        SlotState::Leaving
        | SlotState::Arriving
        | SlotState::Gone
        | SlotState::Free
        | SlotState::Unknown => 1 <= other && other as usize <= servers,
    }
}

// Whether what is held in a slot with these pages is within limits.
fn are_limits(
    servers: usize,
    server: &[u8; PAGE],
    header: &[u8; PAGE],
    numbers: &[u8; PAGE],
) -> bool
    ensures { result ≡ (is_name_at 12 header.now && is_limit (number_at 4 8 header.now)
        && is_numbers_page numbers.now
        && is_other_declared servers (state_in server.now header.now) (byte_at header.now 73)) }
{
    is_name_at(header, NAME_AT)
        && is_limit(u32_at(header, OBJECTS_AT))
        && is_numbers_page(numbers)
        && is_other_declared(servers, state_of(server, header), header[OTHER_AT])
}

fn is_clone(state: SlotState) -> bool
    ensures { result ≡ is_clone state }
{
    matches!(state, SlotState::Clone)
}

// What is held in a slot with these pages and anodes.
fn holding_in(
    alloc: Global,
    home: ServerId,
    server: &[u8; PAGE],
    header: &[u8; PAGE],
    numbers: &[u8; PAGE],
    anodes: Items<Anode>,
) -> Result<Holding, NoMemory>
    requires { is_name_at 12 header.now ≡ true }
    ensures { IfOk result (λ holding. holding ≡ holding_in home server.now header.now numbers.now anodes) }
{
    let said = read_header(alloc, server, header)?;
    let records = records_in(alloc, numbers)?;
    Ok(Holding {
        stay: stay_of(&said),
        fileset: Fileset {
            server: home,
            id: said.id,
            name: said.name,
            read_only: is_clone(said.state),
            objects: said.objects,
            moves: said.moves,
            anodes,
        },
        records,
    })
}

/// What is held in a slot, at a server with this page and so many servers declared. It lacks memory also where its
/// pages hold nothing that any program wrote.
pub(crate) fn held_in<D: Disk>(
    alloc: Global,
    log: &mut Log<D>,
    home: ServerId,
    servers: usize,
    server: &[u8; PAGE],
    slot: u32,
) -> Result<Option<Holding>, NodeFault>
    requires sound { IsSoundLog D.tells D.view log.old }
    requires slot { slot < 16 }
    ensures held { D.tells → byte_at server.now 29 ≡ 2 → (state : State) → KeepsRecord D.view state log.old
        → home ≡ state.server → IfOk result (λ held. held ≡ held_at state.slots slot) }
    ensures limits { (roster : TheRoster) → servers ≡ length roster.capacity
        → IfOk result (λ held. IfSome held (IsHolding roster)) }
    ensures looks { Looks D.tells D.view result log.old log.new }
{
    let mut header = [0; PAGE];
    log.page(2 + 66 * slot, &mut header)?;
    if header[0] == 0 {
        return Ok(None);
    }
    let mut numbers = [0; PAGE];
    log.page(3 + 66 * slot, &mut numbers)?;
    if !are_limits(servers, server, &header, &numbers) {
        return Err(NodeFault::Memory);
    }
    let anodes = kept_anodes(alloc, log, slot, count_held(server, &header))?;
    match holding_in(alloc, home, server, &header, &numbers, anodes) {
        Ok(holding) => Ok(Some(holding)),
        Err(NoMemory) => Err(NodeFault::Memory),
    }
}
