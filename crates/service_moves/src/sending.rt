//! A fileset that is leaving a store arrives at another one, whole, and has left.
ghost use Rattle.std.specs.Prelude.{◌≡◌, ◌≢◌, ◌≤◌, ◌⊎◌, ◌+◌, ◌-◌, ◌*◌, ◌^◌, ℕ, [], ◌∷◌, slice_get, Some};
ghost use Rattle.std.specs.Prelude.{IfErr, OnOk};
ghost use Rattle.base_types.specs.declared.limits.TheConstants.{OBJECTS_MAX};
ghost use Rattle.store_memory.specs.Reading.{shipped};
ghost use Rattle.store_memory.specs.Sound.{IsLeavingOf};
ghost use Rattle.store_memory.specs.Views.{DoesActs};
ghost use Rattle.store_acts.specs.Acts.{act_done, state_after};
ghost use Rattle.store_acts.specs.Sound.{Fits};
ghost use Rattle.store_acts.specs.declared.act.Act.TheVariants.{Left};
ghost use Rattle.store_laws.specs.Moves.{all_parts};
ghost use Rattle.store_state.specs.declared.state.Holding.{Holding};
ghost use Rattle.service_moves.specs.Again.{IsRepeatable};
ghost use Rattle.service_moves.specs.Batches.{batch_wear};
ghost use Rattle.service_moves.specs.Doing.{DoSteps};
ghost use Rattle.service_moves.specs.Plans.{ship_steps};
ghost use Rattle.service_moves.specs.Ships.{part_act, two_set, IsSent, MayMove, MaySend, MayTake};
ghost use Rattle.service_moves.specs.Steps.{AllGoOn, GoesOn, StopsAt};
ghost use Rattle.service_moves.specs.Stores.{states_of};

use crate::asking::part_by;
use crate::ships::Ship;
use crate::steps::do_act;
use crate::stopped::{RunStopped, stopped_at};
use store_memory::{Act, Store};
use tree_calls::Mover;

// A part of a fileset goes from one store to the other.
fn send_part<S: Store>(
    sender: &mut S,
    receiver: &mut S,
    ship: &Ship,
    at: u32,
    mover: &Mover,
) -> Result<(), RunStopped>
    requires may { MayTake (S.view sender.old) (S.view receiver.old) (2 ^ 46 + 2 ^ 15) ship.now mover.now }
    requires leaving { S.tells → IsLeavingOf (S.view sender.old).state ship.now.fileset at }
    requires limit { at ≤ OBJECTS_MAX }
    ensures sender { S.tells → DoesActs result [] (S.view sender.old) (S.view sender.new) }
    ensures receiver { S.tells → Fits (S.view receiver.old).state
        (part_act ship.now at (shipped (S.view sender.old).state ship.now.fileset at mover.now))
        → IsRepeatable (S.view receiver.old).state
        (part_act ship.now at (shipped (S.view sender.old).state ship.now.fileset at mover.now))
        → DoesActs result
        (part_act ship.now at (shipped (S.view sender.old).state ship.now.fileset at mover.now) ∷ [])
        (S.view receiver.old) (S.view receiver.new) }
    ensures first { GoesOn batch_wear result (S.view sender.old) (S.view sender.new) }
    ensures second { GoesOn batch_wear result (S.view receiver.old) (S.view receiver.new) }
    ensures stopped { IfErr result (λ stopped.
        StopsAt ship.now.from (S.view sender.old) (S.view sender.new) stopped
        ⊎ StopsAt ship.now.to (S.view receiver.old) (S.view receiver.new) stopped) }
{
    match part_by(sender, ship.fileset, at, mover) {
        Ok(part) => do_act(
            receiver,
            ship.to,
            Act::Part {
                from: ship.from,
                ship: ship.number,
                fileset: ship.fileset,
                moves: ship.moves,
                at,
                part,
            },
        ),
        Err(fault) => Err(stopped_at(ship.from, fault)),
    }
}

// A fileset that is leaving one store arrives at the other, part by part, and has left.
fn send<S: Store>(
    sender: &mut S,
    receiver: &mut S,
    ship: &Ship,
    mover: &Mover,
) -> Result<(), RunStopped>
    requires may { MayTake (S.view sender.old) (S.view receiver.old) (2 ^ 46 + 2 ^ 14) ship.now mover.now }
    requires leaving { S.tells → (at : ℕ) → at ≤ ship.now.objects
        → IsLeavingOf (S.view sender.old).state ship.now.fileset at }
    requires limit { ship.now.objects ≤ OBJECTS_MAX }
    ensures { IsSent S.tells S.view result ship.now mover.now sender.old receiver.old sender.new receiver.new }
{
    for at in 0..ship.objects + 1 {
        send_part(sender, receiver, ship, at, mover)?;
    }
    do_act(
        sender,
        ship.from,
        Act::Left {
            fileset: ship.fileset,
        },
    )
}

/// A fileset that is leaving the store of a server arrives at that of the one that it is leaving for, and has left. One
/// that would be leaving for the server where it is stays there.
pub(crate) fn send_between<S: Store>(
    stores: &mut [S],
    ship: &Ship,
    mover: &Mover,
) -> Result<(), RunStopped>
    requires may { MayMove S.view (2 ^ 46 + 2 ^ 14) stores.old ship.now.from ship.now.to mover.now }
    requires leaving { S.tells → (sender : S) → slice_get stores.old (ship.now.from.0 - 1) ≡ Some sender → (at : ℕ)
        → at ≤ ship.now.objects → IsLeavingOf (S.view sender).state ship.now.fileset at }
    requires limit { ship.now.objects ≤ OBJECTS_MAX }
    ensures states { S.tells → (sender receiver : S) (holding : Holding) → ship.now.from.0 ≢ ship.now.to.0
        → slice_get stores.old (ship.now.from.0 - 1) ≡ Some sender
        → slice_get stores.old (ship.now.to.0 - 1) ≡ Some receiver
        → MaySend (S.view sender).state (S.view receiver).state holding ship.now mover.now
        → OnOk result (states_of S.view stores.new ≡ two_set (states_of S.view stores.old)
        (ship.now.from.0 - 1) (act_done (S.view sender).state (Left ship.now.fileset)).state
        (ship.now.to.0 - 1) (state_after (S.view receiver).state
        (all_parts holding ship.now.from ship.now.number mover.now))) }
    ensures does { S.tells → (sender receiver : S) (holding : Holding) → ship.now.from.0 ≢ ship.now.to.0
        → slice_get stores.old (ship.now.from.0 - 1) ≡ Some sender
        → slice_get stores.old (ship.now.to.0 - 1) ≡ Some receiver
        → MaySend (S.view sender).state (S.view receiver).state holding ship.now mover.now
        → DoSteps S.view result
        (ship_steps ship.now.from ship.now.to ship.now.fileset holding ship.now.number mover.now)
        stores.old stores.new }
    ensures goes_on { AllGoOn S.view (66 * batch_wear) result stores.old stores.new }
{
    let from = ship.from.0 as usize - 1;
    let to = ship.to.0 as usize - 1;
    if from < to {
        let (low, high) = stores.split_at_mut(to);
        return send(&mut low[from], &mut high[0], ship, mover);
    }
    if to < from {
        let (low, high) = stores.split_at_mut(from);
        return send(&mut high[0], &mut low[to], ship, mover);
    }
    Ok(())
}
