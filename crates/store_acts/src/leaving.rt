//! How filesets leave a store.
ghost use Rattle.std.specs.Prelude.{◌≡◌, ◌<◌, ◌^◌, ◌-◌, if◌then◌else◌};
ghost use Rattle.std.specs.Option.{option_map};
ghost use Rattle.store_acts.specs.Moving.{
  stay_of,
  with_holding,
  turned,
  leave_outcome,
  back_outcome,
  stay_left,
  left_outcome,
  is_unsettled,
  stay_settled,
  settle_outcome,
};
ghost use Rattle.tree_calls.specs.declared.reply.Reply.TheVariants.{Ok as Accepted};
ghost use Rattle.store_state.specs.Outcomes.{now_done, not_fresh};

use base_types::{FilesetId, HostId, Items, ServerId};
use store_state::{
    Done, Holding, NO_RECORD, Noted, Sought, Stay, StoreState, fill, has_some, held, slot_of,
};
use tree_calls::{Refusal, Reply};

/// What becomes of a fileset that is here or on its way.
#[derive(Clone, Copy)]
pub(crate) enum Turn {
    /// It leaves for a server, under a ship number.
    Leaves(ServerId, u64),
    /// It comes back, if it was leaving.
    Returns,
    /// It has left, if it was leaving.
    HasLeft,
    /// Its move is undone.
    Settles,
}

// Whether a fileset is on its way: leaving, or arriving with more than its head.
fn is_unsettled(stay: Stay) -> bool
    ensures { result ≡ is_unsettled stay }
{
    match stay {
        Stay::Leaving { .. } => true,
        Stay::Arriving { parts, .. } => parts != 1,
        Stay::Writable | Stay::Clone | Stay::Gone { .. } => false,
    }
}

// How it stays once its move is undone.
fn settled(stay: Stay) -> Stay
    ensures { result ≡ stay_settled stay }
{
    match stay {
        Stay::Leaving { .. } => Stay::Writable,
        Stay::Arriving { from, ship, .. } => Stay::Arriving {
            from,
            ship,
            parts: 1,
        },
        Stay::Writable | Stay::Clone | Stay::Gone { .. } => stay,
    }
}

// How it stays once it has left.
fn left_stay(stay: Stay) -> Stay
    ensures { result ≡ stay_left stay }
{
    match stay {
        Stay::Leaving { to, .. } => Stay::Gone { to },
        Stay::Writable | Stay::Clone | Stay::Arriving { .. } | Stay::Gone { .. } => stay,
    }
}

fn turn_held(holding: &mut Holding, change: Turn)
    ensures { holding.new ≡ turned change holding.old }
{
    match change {
        Turn::Leaves(to, ship) => holding.stay = Stay::Leaving { to, ship },
        Turn::Returns => {
            if holding.stay.is_leaving() {
                holding.stay = Stay::Writable;
            }
        }
        Turn::HasLeft => {
            holding.stay = left_stay(holding.stay);
            holding.fileset.anodes = Items::new(holding.fileset.anodes.alloc());
            fill(&mut holding.records, NO_RECORD);
        }
        Turn::Settles => {
            if holding.stay.is_arriving() {
                holding.fileset.anodes = Items::new(holding.fileset.anodes.alloc());
            }
            holding.stay = settled(holding.stay);
        }
    }
}

fn turn_at(slot: &mut Option<Holding>, change: Turn)
    ensures { slot.new ≡ option_map (turned change) slot.old }
{
    if let Some(holding) = slot {
        turn_held(holding, change);
    }
}

#[tactic(auto, using(base_types::proofs::ChangedLists::changes))]
fn turn_of(state: &mut StoreState, id: FilesetId, change: Turn)
    ensures { state.new ≡ with_holding state.old id (turned change) }
{
    let place = slot_of(&state.slots, &Sought::Of(id));
    if place < state.slots.len() {
        turn_at(state.slots.get_mut(place), change);
    }
}

// An act that is done where a condition held.
fn done_where(condition: bool) -> Done
    ensures { result ≡ (if condition then now_done Accepted else not_fresh Accepted) }
{
    if condition {
        Done::now(Reply::Ok)
    } else {
        Done::not_fresh(Reply::Ok)
    }
}

// How a fileset stays.
fn stay_of(state: &StoreState, id: FilesetId) -> Option<Stay>
    ensures { result ≡ stay_of state.now id }
{
    match held(&state.slots, &Sought::Of(id)) {
        Some(holding) => Some(holding.stay),
        None => None,
    }
}

/// A fileset begins to leave.
#[tactic(auto, unfolding(crate::specs::Moving::leave_outcome))]
pub(crate) fn leave(state: &mut StoreState, id: FilesetId, to: ServerId) -> Done
    requires { state.old.ship < 2 ^ 64 - 1 }
    ensures done { result ≡ (leave_outcome state.old id to).done }
    ensures state { state.new ≡ (leave_outcome state.old id to).state }
{
    let may = stay_of(state, id).is_some_and(|stay| stay.is_writable())
        && !has_some(&state.slots, &Sought::Leaving);
    if may {
        let ship = state.ship + 1;
        turn_of(state, id, Turn::Leaves(to, ship));
        state.ship = ship;
    }
    done_where(may)
}

/// A fileset that was leaving comes back.
#[tactic(auto, unfolding(crate::specs::Moving::back_outcome))]
pub(crate) fn back(
    state: &mut StoreState,
    host: HostId,
    number: u64,
    id: FilesetId,
    refusal: Refusal,
) -> Done
    ensures done { result ≡ (back_outcome state.old host number id refusal).done }
    ensures state { state.new ≡ (back_outcome state.old host number id refusal).state }
{
    if let Some(done) = state.decided_before(id, host, number) {
        return done;
    }
    turn_of(state, id, Turn::Returns);
    let reply = Reply::Refused(refusal);
    state.note(id, host, &Noted::Change(number, &reply));
    Done::now(reply)
}

/// A fileset that was leaving has left.
#[tactic(auto, unfolding(crate::specs::Moving::left_outcome))]
pub(crate) fn left(state: &mut StoreState, id: FilesetId) -> Done
    ensures done { result ≡ (left_outcome state.old id).done }
    ensures state { state.new ≡ (left_outcome state.old id).state }
{
    let may = stay_of(state, id).is_some_and(|stay| stay.is_leaving());
    if may {
        turn_of(state, id, Turn::HasLeft);
    }
    done_where(may)
}

/// An unfinished move is undone.
#[tactic(auto, unfolding(crate::specs::Moving::settle_outcome))]
pub(crate) fn settle(state: &mut StoreState, id: FilesetId) -> Done
    ensures done { result ≡ (settle_outcome state.old id).done }
    ensures state { state.new ≡ (settle_outcome state.old id).state }
{
    let may = stay_of(state, id).is_some_and(|stay| is_unsettled(stay));
    if may {
        turn_of(state, id, Turn::Settles);
    }
    done_where(may)
}
