//! How filesets arrive in a store.
ghost use Rattle.std.specs.Prelude.{◌≡◌, ◌<◌, ◌^◌, ◌-◌, map, IfOk, OnOk, OnErr};
ghost use Rattle.std.specs.Option.{option_map};
ghost use Rattle.tree_calls.specs.declared.reply.Reply.TheVariants.{Refused};
ghost use Rattle.store_acts.specs.Moving.{
  taken_from,
  with_taken,
  arrival_slot,
  arrival,
  arriving,
  held_arriving,
  head_outcome,
  head_once,
  held_with,
  received,
  anode_outcome,
  part_outcome,
};
ghost use Rattle.store_state.specs.Outcomes.{now_done};
ghost use Rattle.store_state.specs.declared.state.Stay.TheVariants.{Arriving};

use crate::parts::anode_of_part;
use base_types::{FilesetId, Items, Name, NoMemory, Plain, ServerId};
use std::alloc::Global;
use store_state::{
    Coming, Done, Holding, NO_SHIP, Noted, Sought, Stay, StoreState, TakenShip, free_slot,
    has_some, note_in, reply_code, reply_of, slot_of,
};
use tree_calls::{Mover, Record, Refusal, Reply, ShipPart};
use tree_filesets::{Fileset, OBJECT_BLOCKS};
use tree_objects::Anode;

// Puts the next anode to those that were taken.
fn add_anode_at(slot: &mut Option<Holding>, coming: Coming, anode: Anode) -> Result<(), NoMemory>
    requires { coming.at < 2 ^ 32 - 1 }
    ensures ok { OnOk result (slot.new ≡ option_map (held_with coming.from coming.ship coming.at anode) slot.old) }
    ensures err { OnErr result (slot.new ≡ slot.old) }
{
    if let Some(holding) = slot {
        holding.fileset.anodes.push(anode)?;
        holding.stay = if coming.at == holding.fileset.objects {
            Stay::Writable
        } else {
            Stay::Arriving {
                from: coming.from,
                ship: coming.ship,
                parts: coming.at + 1,
            }
        };
    }
    Ok(())
}

// The last ship that was taken from a server.
fn taken_from(state: &StoreState, from: ServerId) -> TakenShip
    ensures { result ≡ taken_from state.now from }
{
    match state.taken.at(from.0.saturating_sub(1) as usize) {
        Some(taken) => *taken,
        None => NO_SHIP,
    }
}

// Notes that a ship was taken, with this reply to its head.
fn note_ship(state: &mut StoreState, from: ServerId, ship: u64, reply: &Reply)
    ensures { state.new ≡ with_taken state.old from ship reply.now }
{
    let taken = TakenShip {
        ship,
        code: reply_code(reply),
    };
    state.taken.put(from.0.saturating_sub(1) as usize, taken);
}

// The slot for a fileset that arrives.
fn arrival_slot(state: &StoreState, id: FilesetId) -> usize
    ensures { result ≡ arrival_slot state.now id }
{
    let own = slot_of(&state.slots, &Sought::Of(id));
    if own < state.slots.len() {
        own
    } else {
        free_slot(&state.slots)
    }
}

// Whether a fileset may arrive, and its slot.
fn arrival(state: &StoreState, id: FilesetId, name: &Name, objects: u32) -> Result<usize, Refusal>
    ensures { result ≡ arrival state.now id name.now objects }
{
    if has_some(&state.slots, &Sought::Other(id, name)) {
        return Err(Refusal::Exists);
    }
    state.slot_for(arrival_slot(state, id), OBJECT_BLOCKS * u64::from(objects))
}

// A head.
#[derive(Clone, Copy)]
struct Head<'a> {
    name: &'a Name,
    objects: u32,
    records: &'a Items<Record>,
    mover: &'a Mover,
}

// Takes or refuses a head.
#[tactic(auto, unfolding(crate::specs::Moving::head_outcome))]
fn take_head(state: &mut StoreState, coming: Coming, head: &Head) -> Result<Done, NoMemory>
    ensures done { IfOk result (λ done. done ≡
        (head_outcome state.old coming.from coming.ship coming.id coming.moves head.now.name.now head.now.objects
        head.now.records.now head.now.mover.now).done) }
    ensures state { OnOk result (state.new ≡
        (head_outcome state.old coming.from coming.ship coming.id coming.moves head.now.name.now head.now.objects
        head.now.records.now head.now.mover.now).state) }
    ensures err { OnErr result (state.new ≡ state.old) }
{
    let slot = match arrival(state, coming.id, head.name, head.objects) {
        Ok(slot) => slot,
        Err(refusal) => return Ok(refuse_head(state, coming, refusal)),
    };
    let alloc = state.slots.alloc();
    let fileset = arriving(alloc, state.server, coming, head.name, head.objects)?;
    let holding = held_arriving(coming, fileset, head.records, head.mover)?;
    note_ship(state, coming.from, coming.ship, &Reply::Ok);
    state.slots.put(slot, Some(holding));
    Ok(Done::now(Reply::Ok))
}

// Refuses a head.
fn refuse_head(state: &mut StoreState, coming: Coming, refusal: Refusal) -> Done
    ensures done { result ≡ now_done (Refused refusal) }
    ensures state { state.new ≡ with_taken state.old coming.from coming.ship (Refused refusal) }
{
    let reply = Reply::Refused(refusal);
    note_ship(state, coming.from, coming.ship, &reply);
    Done::now(reply)
}

// A head that comes: one that comes too late changes nothing, nor one of a ship that was taken.
fn head_once(state: &mut StoreState, coming: Coming, head: &Head) -> Result<Done, NoMemory>
    ensures done { IfOk result (λ done. done ≡
        (head_once state.old coming.from coming.ship coming.id coming.moves (head_outcome state.old coming.from
        coming.ship coming.id coming.moves head.now.name.now head.now.objects head.now.records.now
        head.now.mover.now)).done) }
    ensures state { OnOk result (state.new ≡
        (head_once state.old coming.from coming.ship coming.id coming.moves (head_outcome state.old coming.from
        coming.ship coming.id coming.moves head.now.name.now head.now.objects head.now.records.now
        head.now.mover.now)).state) }
    ensures err { OnErr result (state.new ≡ state.old) }
{
    if has_some(&state.slots, &Sought::Past(coming.id, coming.moves)) {
        return Ok(Done::not_fresh(Reply::Ok));
    }
    let taken = taken_from(state, coming.from);
    if taken.ship < coming.ship {
        take_head(state, coming, head)
    } else {
        Ok(Done::not_fresh(reply_of(taken.code, 0)))
    }
}

// An anode that comes.
#[tactic(auto, using(base_types::proofs::ChangedLists::changes))]
fn take_anode(state: &mut StoreState, coming: Coming, anode: Anode) -> Result<Done, NoMemory>
    requires { coming.at < 2 ^ 32 - 1 }
    ensures done { IfOk result (λ done. done ≡
        (anode_outcome state.old coming.from coming.ship coming.id coming.moves coming.at anode).done) }
    ensures state { OnOk result (state.new ≡
        (anode_outcome state.old coming.from coming.ship coming.id coming.moves coming.at anode).state) }
    ensures err { OnErr result (state.new ≡ state.old) }
{
    let place = slot_of(&state.slots, &Sought::Awaiting(coming));
    if place < state.slots.len() {
        add_anode_at(state.slots.get_mut(place), coming, anode)?;
        Ok(Done::now(Reply::Ok))
    } else {
        Ok(Done::not_fresh(Reply::Ok))
    }
}

/// A part of a fileset that comes from another server.
#[tactic(auto, unfolding(crate::specs::Moving::part_outcome))]
pub(crate) fn take_part(
    state: &mut StoreState,
    coming: Coming,
    part: &ShipPart,
) -> Result<Done, NoMemory>
    requires { coming.at < 2 ^ 32 - 1 }
    ensures done { IfOk result (λ done. done ≡
        (part_outcome state.old coming.from coming.ship coming.id coming.moves coming.at part.now).done) }
    ensures state { OnOk result (state.new ≡
        (part_outcome state.old coming.from coming.ship coming.id coming.moves coming.at part.now).state) }
    ensures err { OnErr result (state.new ≡ state.old) }
{
    match part {
        ShipPart::Head {
            name,
            objects,
            records,
            mover,
        } => {
            let head = Head {
                name,
                objects: *objects,
                records,
                mover,
            };
            if coming.at == 0 {
                head_once(state, coming, &head)
            } else {
                Ok(Done::not_fresh(Reply::Ok))
            }
        }
        ShipPart::Object {
            anode: _,
            unique,
            status,
            pieces,
            entries,
        } => {
            let anode = anode_of_part(*unique, status, pieces, entries)?;
            take_anode(state, coming, anode)
        }
    }
}

// A fileset that arrives, before its first object.
fn arriving(
    alloc: Global,
    server: ServerId,
    coming: Coming,
    name: &Name,
    objects: u32,
) -> Result<Fileset, NoMemory>
    ensures { IfOk result (λ fileset. fileset ≡ arriving server coming.id name.now objects coming.moves) }
{
    Ok(Fileset {
        server,
        id: coming.id,
        name: name.copy()?,
        read_only: false,
        objects,
        moves: coming.moves,
        anodes: Items::new(alloc),
    })
}

// A record that came.
fn received_one(kept: Record) -> Record
    ensures { result ≡ received kept }
{
    let right = if kept.code == 6 { kept.right } else { 0 };
    Record { right, ..kept }
}

// The records that came.
fn received(records: &Items<Record>) -> Result<Items<Record>, NoMemory>
    ensures { IfOk result (λ copies. copies ≡ map received records.now) }
{
    let mut copies = Items::new(records.alloc());
    for kept in records.as_slice() {
        copies.push(received_one(*kept))?;
    }
    Ok(copies)
}

// What is held of it: its records come with it, and its mover's call is done.
fn held_arriving(
    coming: Coming,
    fileset: Fileset,
    records: &Items<Record>,
    mover: &Mover,
) -> Result<Holding, NoMemory>
    ensures { IfOk result
        (λ holding. holding ≡ held_arriving (Arriving coming.from coming.ship 1) fileset records.now mover.now) }
{
    let mut records = received(records)?;
    note_in(
        &mut records,
        mover.host,
        &Noted::Change(mover.number, &Reply::Ok),
    );
    let stay = Stay::Arriving {
        from: coming.from,
        ship: coming.ship,
        parts: 1,
    };
    Ok(Holding {
        stay,
        fileset,
        records,
    })
}
