//! What each act makes of a store.
ghost use Rattle.std.specs.Prelude.{◌≡◌, ◌<◌, ◌^◌, ◌-◌, map, IfOk, OnOk, OnErr};
ghost use Rattle.std.specs.Option.{option_map};
ghost use Rattle.store_acts.specs.Acts.{held_booted, booted, do_outcome, refuse_outcome, act_done};
ghost use Rattle.store_acts.specs.Sound.{HasNext};
ghost use Rattle.store_state.specs.Outcomes.{decided};
ghost use Rattle.store_state.specs.Rows.{answer_to};

use crate::act::Act;
use crate::arriving::take_part;
use crate::leaving::{back, leave, left, settle};
use base_types::{FilesetId, HostId, Items, NoMemory};
use store_state::{Coming, Done, Holding, HostState, NO_RECORD, NO_SHIP, Noted, StoreState, fill};
use tree_calls::{Call, Refusal, Reply};

fn forget_at(slot: &mut Option<Holding>)
    ensures { slot.new ≡ option_map held_booted slot.old }
{
    if let Some(holding) = slot {
        fill(&mut holding.records, NO_RECORD);
    }
}

#[tactic(auto, using(store_state::proofs::Mapped::maps))]
fn forget_slots(slots: &mut Items<Option<Holding>>)
    ensures { slots.new ≡ map (option_map held_booted) slots.old }
{
    for place in 0..slots.len() {
        forget_at(slots.get_mut(place));
    }
}

fn boot(state: &mut StoreState)
    requires { state.old.epoch < 2 ^ 64 - 1 }
    ensures { state.new ≡ booted state.old }
{
    forget_slots(&mut state.slots);
    fill(&mut state.records, NO_RECORD);
    fill(&mut state.hosts, HostState::Unknown);
    state.epoch += 1;
    fill(&mut state.taken, NO_SHIP);
}

// A call is decided under its number.
#[tactic(auto, unfolding(crate::specs::Acts::do_outcome))]
fn do_call(state: &mut StoreState, host: HostId, number: u64, call: &Call) -> Result<Done, NoMemory>
    ensures done { IfOk result (λ done. done ≡ (do_outcome state.old host number call.now).done) }
    ensures state { OnOk result (state.new ≡ (do_outcome state.old host number call.now).state) }
    ensures err { OnErr result (state.new ≡ state.old) }
{
    let Some(id) = state.numbered_id(call) else {
        return Ok(Done::not_fresh(Reply::Refused(Refusal::NoFileset)));
    };
    match state.decided_before(id, host, number) {
        Some(done) => Ok(done),
        None => do_now(state, id, host, number, call),
    }
}

// A call is decided now, under a number on a fileset.
fn do_now(
    state: &mut StoreState,
    id: FilesetId,
    host: HostId,
    number: u64,
    call: &Call,
) -> Result<Done, NoMemory>
    ensures done { IfOk result (λ done. done ≡ (decided id host number (answer_to state.old host call.now)).done) }
    ensures state { OnOk result (state.new ≡ (decided id host number (answer_to state.old host call.now)).state) }
    ensures err { OnErr result (state.new ≡ state.old) }
{
    let reply = state.answer(host, call)?;
    state.note(id, host, &Noted::Change(number, &reply));
    Ok(Done::now(reply))
}

// A call is refused under a number.
#[tactic(auto, unfolding(crate::specs::Acts::refuse_outcome))]
fn refuse(
    state: &mut StoreState,
    host: HostId,
    number: u64,
    id: FilesetId,
    refusal: Refusal,
) -> Done
    ensures done { result ≡ (refuse_outcome state.old host number id refusal).done }
    ensures state { state.new ≡ (refuse_outcome state.old host number id refusal).state }
{
    if let Some(done) = state.decided_before(id, host, number) {
        return done;
    }
    let reply = Reply::Refused(refusal);
    state.note(id, host, &Noted::Change(number, &reply));
    Done::now(reply)
}

/// Does one act, whole or not at all. `NoMemory` comes where memory runs out, and leaves all as it was.
///
/// The acts are this project's own; that a server keeps what it replies, and replies it again, is after Kazar et al.,
/// "DEcorum File System Architectural Overview", 1990.
#[tactic(auto, unfolding(crate::specs::Acts::act_done))]
pub fn apply_act(state: &mut StoreState, act: &Act) -> Result<Done, NoMemory>
    requires epoch { state.old.epoch < 2 ^ 64 - 1 }
    requires ship { state.old.ship < 2 ^ 64 - 1 }
    requires part { HasNext act.now }
    ensures done { IfOk result (λ done. done ≡ (act_done state.old act.now).done) }
    ensures state { OnOk result (state.new ≡ (act_done state.old act.now).state) }
    ensures err { OnErr result (state.new ≡ state.old) }
{
    match act {
        Act::Boot => {
            boot(state);
            Ok(Done::now(Reply::Ok))
        }
        Act::Epoch => {
            state.epoch += 1;
            Ok(Done::now(Reply::Ok))
        }
        Act::Host { host, state: known } => {
            state.hosts.put(host.0 as usize, *known);
            Ok(Done::now(Reply::Ok))
        }
        Act::Do { host, number, call } => do_call(state, *host, *number, call),
        Act::Refuse {
            host,
            fileset,
            number,
            refusal,
        } => Ok(refuse(state, *host, *number, *fileset, *refusal)),
        Act::Give {
            host,
            number,
            fid,
            pieces,
            length,
        } => state.give(*host, *number, *fid, pieces.as_slice(), *length),
        Act::Leave { fileset, to } => Ok(leave(state, *fileset, *to)),
        Act::Back {
            host,
            number,
            fileset,
            refusal,
        } => Ok(back(state, *host, *number, *fileset, *refusal)),
        Act::Left { fileset } => Ok(left(state, *fileset)),
        Act::Settle { fileset } => Ok(settle(state, *fileset)),
        Act::Part {
            from,
            ship,
            fileset,
            moves,
            at,
            part,
        } => {
            let coming = Coming {
                id: *fileset,
                from: *from,
                ship: *ship,
                moves: *moves,
                at: *at,
            };
            take_part(state, coming, part)
        }
    }
}
