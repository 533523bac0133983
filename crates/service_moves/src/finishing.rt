//! Moves that an earlier run left unfinished.
ghost use Rattle.std.specs.Prelude.{◌≡◌, ◌≢◌, ◌≤◌, ◌+◌, ◌-◌, ◌*◌, ◌^◌, ℕ, true, List, [], length, slice_get, Some};
ghost use Rattle.std.specs.Prelude.{IfErr, IfOk, OnOk};
ghost use Rattle.base_types.specs.declared.limits.TheConstants.{OBJECTS_MAX, SERVERS_MAX};
ghost use Rattle.tree_calls.specs.Limits.{keeps_limits};
ghost use Rattle.tree_answers.specs.declared.tree.Tree.{Tree};
ghost use Rattle.service_starts.specs.UnderWay.{freed, KeepUnderWay};
ghost use Rattle.store_memory.specs.Sound.{IsLeavingOf};
ghost use Rattle.store_acts.specs.Acts.{act_done, state_after};
ghost use Rattle.store_acts.specs.declared.act.Act.TheVariants.{Left};
ghost use Rattle.store_laws.specs.Moves.{all_parts};
ghost use Rattle.store_state.specs.declared.state.Holding.{Holding};
ghost use Rattle.store_state.specs.declared.state.StoreState.{StoreState};
ghost use Rattle.service_moves.specs.Ships.{two_set, MayMove, MaySend};
ghost use Rattle.service_moves.specs.Batches.{batch_wear};
ghost use Rattle.service_moves.specs.Doing.{Step, DoSteps};
ghost use Rattle.service_moves.specs.Plans.{ship_steps, states_at, AreMoves};
ghost use Rattle.service_moves.specs.Finishing.{mover_again, HasFinished, HaveServer};
ghost use Rattle.service_moves.specs.Steps.{AllGoOn};
ghost use Rattle.service_moves.specs.Stopping.{IsStopped};
ghost use Rattle.service_moves.specs.Stores.{AreSame, AreStores, states_of};
ghost use Rattle.store_laws.specs.TreeKeeping.{KeepsOf};

use crate::sending::send_between;
use crate::ships::{Ship, next_ship};
use crate::stopped::RunStopped;
use base_types::{HostId, NoMemory, Plain, ServerId};
use store_memory::Store;
use tree_calls::{Call, Mover, Roster};

// The mover of a move that an earlier run left unfinished: nothing is kept of its call.
fn mover_again(ship: &Ship) -> Result<Mover, NoMemory>
    ensures { IfOk result (λ mover. mover ≡ mover_again ship.now) }
{
    Ok(Mover {
        host: HostId::SETUP,
        number: 0,
        k: 0,
        call: Call::MoveFileset {
            server: ship.from,
            fileset: ship.name.copy()?,
            to: ship.to,
        },
    })
}

// A ship goes once more.
fn send_again<S: Store>(stores: &mut [S], ship: &Ship) -> Result<(), RunStopped>
    requires may { MayMove S.view (2 ^ 46 + 2 ^ 14) stores.old ship.now.from ship.now.to (mover_again ship.now) }
    requires leaving { S.tells → (sender : S) → slice_get stores.old (ship.now.from.0 - 1) ≡ Some sender → (at : ℕ)
        → at ≤ ship.now.objects → IsLeavingOf (S.view sender).state ship.now.fileset at }
    requires limit { ship.now.objects ≤ OBJECTS_MAX }
    ensures states { S.tells → (sender receiver : S) (holding : Holding) → ship.now.from.0 ≢ ship.now.to.0
        → slice_get stores.old (ship.now.from.0 - 1) ≡ Some sender
        → slice_get stores.old (ship.now.to.0 - 1) ≡ Some receiver
        → MaySend (S.view sender).state (S.view receiver).state holding ship.now (mover_again ship.now)
        → OnOk result (states_of S.view stores.new ≡ two_set (states_of S.view stores.old)
        (ship.now.from.0 - 1) (act_done (S.view sender).state (Left ship.now.fileset)).state
        (ship.now.to.0 - 1) (state_after (S.view receiver).state
        (all_parts holding ship.now.from ship.now.number (mover_again ship.now)))) }
    ensures does { S.tells → (sender receiver : S) (holding : Holding) → ship.now.from.0 ≢ ship.now.to.0
        → slice_get stores.old (ship.now.from.0 - 1) ≡ Some sender
        → slice_get stores.old (ship.now.to.0 - 1) ≡ Some receiver
        → MaySend (S.view sender).state (S.view receiver).state holding ship.now (mover_again ship.now)
        → DoSteps S.view result
        (ship_steps ship.now.from ship.now.to ship.now.fileset holding ship.now.number (mover_again ship.now))
        stores.old stores.new }
    ensures goes_on { AllGoOn S.view (66 * batch_wear) result stores.old stores.new }
{
    match mover_again(ship) {
        Ok(mover) => {
            let sent = send_between(stores, ship, &mover);
            drop(mover);
            sent
        }
        Err(_) => Err(RunStopped::Memory),
    }
}

// The fileset that is leaving the store of a server, if there is one, arrives where it is leaving for, and has left.
fn finish_from<S: Store>(stores: &mut [S], from: ServerId) -> Result<(), RunStopped>
    requires have { HaveServer S.view (2 ^ 46 + 2 ^ 13) stores.old from }
    ensures finished { S.tells → (tree : Tree) → KeepUnderWay tree (states_of S.view stores.old)
        → OnOk result (HasFinished tree (from.0 - 1) (states_of S.view stores.old) (states_of S.view stores.new)) }
    ensures does { S.tells → (tree : Tree) → KeepUnderWay tree (states_of S.view stores.old)
        → (steps : List Step) × AreMoves (λ act. ⊥) (states_at S.view stores.old) steps
        × DoSteps S.view result steps stores.old stores.new }
    ensures goes_on { AllGoOn S.view (67 * batch_wear) result stores.old stores.new }
{
    let place = from.0 as usize - 1;
    let found = match next_ship(&mut stores[place], from) {
        Ok(found) => found,
        Err(stopped) => return Err(stopped),
    };
    match found {
        Some(ship) => send_again(stores, &ship),
        None => Ok(()),
    }
}

/// Each move that an earlier run left unfinished, and that goes on, is finished: the fileset that is leaving the store
/// of a server arrives whole at that of the other one, where that lacks it, and has left. The first store is that of
/// server 1. What a disk fails in is tried once more.
///
/// `Failed` comes where the disk of a server failed twice, and `Memory` where memory runs out, or where a fileset has
/// moved as often as can be counted. What isn't finished then is when a run starts from the stores again. Each store is
/// worn by 2,048 for each server at most.
pub fn finish_moves<S: Store>(stores: &mut [S], roster: &Roster) -> Result<(), RunStopped>
    requires limits { keeps_limits roster.now ≡ true }
    requires count { length stores.old ≡ length roster.now.capacity }
    requires stores { AreStores S.view roster.now (2 ^ 46) 1 stores.old }
    ensures kept { S.tells → (tree : Tree) → KeepUnderWay tree (states_of S.view stores.old)
        → OnOk result ((k : ℕ) (state : StoreState) → slice_get (states_of S.view stores.new) k ≡ Some state
        → KeepsOf (freed tree) state) }
    ensures does { S.tells → (tree : Tree) → KeepUnderWay tree (states_of S.view stores.old)
        → (steps : List Step) × AreMoves (λ act. ⊥) (states_at S.view stores.old) steps
        × DoSteps S.view result steps stores.old stores.new }
    ensures same { AreSame S.view stores.old stores.new }
    ensures stores { (worn : ℕ) → AreStores S.view roster.now worn 1 stores.old
        → OnOk result (AreStores S.view roster.now (worn + 2048 * SERVERS_MAX) 1 stores.new) }
    ensures stopped { IfErr result (IsStopped S.tells S.view [] stores.old stores.new) }
{
    for k in 0..roster.capacity.len() {
        match finish_from(stores, ServerId(k as u8 + 1)) {
            Ok(()) => {}
            Err(stopped) => return Err(stopped),
        }
    }
    Ok(())
}
