//! Filesets that are leaving the stores of servers.
ghost use Rattle.std.specs.Prelude.{◌≡◌, ◌≤◌, ◌+◌, ◌^◌, [], None, IfOk, IfErr, IfSome, OnOk, option_copied};
ghost use Rattle.std.specs.List.{find};
ghost use Rattle.std.specs.Option.{option_map};
ghost use Rattle.store_memory.specs.Reading.{slots_from};
ghost use Rattle.store_memory.specs.Sound.{IsSlot};
ghost use Rattle.store_memory.specs.Views.{IsFirstOf, Leaves};
ghost use Rattle.message_types.specs.Soundness.{Each, IsServer};
ghost use Rattle.store_state.specs.State.{held_so, is_leaving, is_of};
ghost use Rattle.service_moves.specs.Batches.{batch_wear};
ghost use Rattle.service_moves.specs.Ships.{is_slot_of, CarriesOf, IsNextShip, IsShipIn, IsSoundShip};
ghost use Rattle.service_moves.specs.Steps.{GoesOn, StopsAt};

use crate::asking::slots_by;
use crate::stopped::{RunStopped, stopped_at};
use base_types::{FilesetId, Items, Name, NoMemory, Plain, ServerId};
use store_memory::{Slot, Stay, Store, StoreFault};

/// A fileset that is leaving the store of a server.
#[derive(Drop)]
pub(crate) struct Ship {
    /// The server.
    pub from: ServerId,
    /// The server that it is leaving for.
    pub to: ServerId,
    /// The number of the ship among those of its server.
    pub number: u64,
    /// The fileset.
    pub fileset: FilesetId,
    /// Its name.
    pub name: Name,
    /// How many objects it may have.
    pub objects: u32,
    /// How often it has moved once it arrives.
    pub moves: u32,
}

// The ship for a slot, if its fileset is leaving. One that moved as often as can be counted has none: `NoMemory`.
fn ship_in(from: ServerId, slot: Option<&Slot>) -> Result<Option<Ship>, NoMemory>
    ensures { IfOk result (IsShipIn from (option_copied slot.entry)) }
{
    let Some(slot) = slot else { return Ok(None) };
    let Stay::Leaving { to, ship } = slot.stay else {
        return Ok(None)
    };
    let Some(moves) = slot.moves.checked_add(1) else {
        return Err(NoMemory)
    };
    Ok(Some(Ship {
        from,
        to,
        number: ship,
        fileset: slot.fileset,
        name: slot.name.copy()?,
        objects: slot.objects,
        moves,
    }))
}

fn slot_of(slots: &[Slot], fileset: FilesetId) -> Option<&Slot>
    ensures { option_copied result ≡ find (is_slot_of fileset) slots.now }
{
    slots.iter().find(|slot| slot.fileset == fileset)
}

// The first fileset that is leaving.
fn leaving_in(slots: &[Slot]) -> Option<FilesetId>
    ensures { result ≡ option_map (λ slot. slot.fileset) (find (λ slot. is_leaving slot.stay) slots.now) }
{
    slots
        .iter()
        .find(|slot| matches!(slot.stay, Stay::Leaving { .. }))
        .map(|slot| slot.fileset)
}

/// The ship of a fileset, if that is leaving the store of a server.
pub(crate) fn ship_of<S: Store>(
    store: &mut S,
    from: ServerId,
    fileset: FilesetId,
) -> Result<Option<Ship>, RunStopped>
    requires ready { (S.view store.old).ready }
    requires wear { (S.view store.old).wear + batch_wear ≤ 2 ^ 47 }
    ensures ship { S.tells → IfOk result (CarriesOf from (held_so (is_of fileset) (S.view store.new).state.slots)) }
    ensures sound { IfOk result (λ ship. IfSome ship (IsSoundShip (S.view store.old).state.roster from)) }
    ensures state { S.tells → (S.view store.new).state ≡ (S.view store.old).state }
    ensures leaves { S.tells → Leaves (IsFirstOf (S.view store.old).state []) (S.view store.old) (S.view store.new) }
    ensures goes_on { GoesOn batch_wear result (S.view store.old) (S.view store.new) }
    ensures stopped { IfErr result (StopsAt from (S.view store.old) (S.view store.new)) }
{
    match slots_by(store) {
        Ok(slots) => Ok(ship_in(from, slot_of(slots.as_slice(), fileset))?),
        Err(fault) => Err(stopped_at(from, fault)),
    }
}

/// The ship of the first fileset that is leaving the store of a server.
pub(crate) fn next_ship<S: Store>(store: &mut S, from: ServerId) -> Result<Option<Ship>, RunStopped>
    requires ready { (S.view store.old).ready }
    requires wear { (S.view store.old).wear + batch_wear ≤ 2 ^ 47 }
    ensures ship { S.tells → IfOk result (IsNextShip from (S.view store.new).state (find (λ slot. is_leaving slot.stay)
        (slots_from 0 (S.view store.new).state.slots))) }
    ensures sound { IfOk result (λ ship. IfSome ship (IsSoundShip (S.view store.old).state.roster from)) }
    ensures state { S.tells → (S.view store.new).state ≡ (S.view store.old).state }
    ensures leaves { S.tells → Leaves (IsFirstOf (S.view store.old).state []) (S.view store.old) (S.view store.new) }
    ensures goes_on { GoesOn batch_wear result (S.view store.old) (S.view store.new) }
    ensures stopped { IfErr result (StopsAt from (S.view store.old) (S.view store.new)) }
{
    let slots = match slots_by(store) {
        Ok(slots) => slots,
        Err(fault) => return Err(stopped_at(from, fault)),
    };
    match leaving_in(slots.as_slice()) {
        Some(fileset) => Ok(ship_in(from, slot_of(slots.as_slice(), fileset))?),
        None => Ok(None),
    }
}
