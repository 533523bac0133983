//! The stores of servers follow a move.
ghost use Rattle.std.specs.Prelude.{◌≡◌, ◌≤◌, ◌+◌, ◌-◌, ◌*◌, ◌^◌, ℕ, List, [], ◌∷◌, length, slice_get, Some};
ghost use Rattle.std.specs.Prelude.{IfErr, IfOk, IfSome, OnOk};
ghost use Rattle.base_types.specs.declared.ids.HostId.{HostId as HostNumber};
ghost use Rattle.tree_calls.specs.Limits.{is_between};
ghost use Rattle.tree_calls.specs.declared.call.Call.TheVariants.{MoveFileset};
ghost use Rattle.tree_calls.specs.declared.entry.Entry.TheVariants.{Call as Called};
ghost use Rattle.tree_calls.specs.declared.reply.Reply.TheVariants.{Ok as Accepted};
ghost use Rattle.tree_filesets.specs.declared.fileset.Fileset.{Fileset};
ghost use Rattle.tree_answers.specs.WellFormed.{IsWellFormed};
ghost use Rattle.store_laws.specs.Shape.{next_number};
ghost use Rattle.store_laws.specs.MoveKeeping.{KeepAll};
ghost use Rattle.message_types.specs.Soundness.{IsCall, IsHost, IsServer};
ghost use Rattle.store_acts.specs.Acts.{act_done, state_after};
ghost use Rattle.store_acts.specs.Sound.{Fits};
ghost use Rattle.store_acts.specs.declared.act.Act.TheVariants.{Leave, Left};
ghost use Rattle.store_memory.specs.Views.{DoesActs};
ghost use Rattle.store_laws.specs.Moves.{all_parts};
ghost use Rattle.store_state.specs.State.{held_so, is_of};
ghost use Rattle.store_state.specs.declared.state.Holding.{Holding};
ghost use Rattle.service_moves.specs.Again.{IsRepeatable};
ghost use Rattle.service_moves.specs.Batches.{batch_wear};
ghost use Rattle.service_moves.specs.Doing.{Step, DoSteps};
ghost use Rattle.service_moves.specs.Plans.{move_steps, states_at, AreMoves};
ghost use Rattle.service_moves.specs.Ships.{two_set, mover_of, CarriesOf, IsSoundShip, MayGo, MayMove};
ghost use Rattle.service_moves.specs.Steps.{AllGoOn, GoesOn, StopsAt};
ghost use Rattle.service_moves.specs.Stopping.{IsStopped};
ghost use Rattle.service_moves.specs.Stores.{AreSame, AreStores, states_of};
ghost use Rattle.store_laws.specs.KeptMoves.{Moves, after_move};

use crate::sending::send_between;
use crate::ships::{Ship, ship_of};
use crate::steps::do_act;
use crate::stopped::RunStopped;
use base_types::{FilesetId, HostId, Name, NoMemory, Plain, ServerId};
use store_memory::{Act, Store};
use tree_answers::Tree;
use tree_calls::{Call, Mover, Roster};

/// A call by which a host has a fileset moved, and its number.
#[derive(Drop)]
pub struct MoveRequest {
    /// The host.
    pub host: HostId,
    /// The number of the call among the host's calls.
    pub k: u32,
    /// The server that the call names.
    pub server: ServerId,
    /// The name of the fileset there.
    pub name: Name,
    /// The server that it moves to.
    pub to: ServerId,
}

impl MoveRequest {
    fn mover(&self) -> Result<Mover, NoMemory>
        ensures { IfOk result (λ mover. mover ≡ mover_of self.now) }
    {
        Ok(Mover {
            host: self.host,
            number: u64::from(self.k),
            k: self.k,
            call: Call::MoveFileset {
                server: self.server,
                fileset: self.name.copy()?,
                to: self.to,
            },
        })
    }
}

fn is_server(roster: &Roster, server: ServerId) -> bool
    ensures { result ≡ is_between 1 (length roster.now.capacity) server.0 }
{
    1 <= server.0 && usize::from(server.0) <= roster.capacity.len()
}

// A fileset begins to leave a store.
fn leave<S: Store>(
    store: &mut S,
    from: ServerId,
    fileset: FilesetId,
    to: ServerId,
) -> Result<Option<Ship>, RunStopped>
    requires to { IsServer (S.view store.old).state.roster to }
    requires ready { (S.view store.old).ready }
    requires wear { (S.view store.old).wear + 2 * batch_wear ≤ 2 ^ 47 }
    ensures does { S.tells → Fits (S.view store.old).state (Leave fileset to)
        → IsRepeatable (S.view store.old).state (Leave fileset to)
        → DoesActs result (Leave fileset to ∷ []) (S.view store.old) (S.view store.new) }
    ensures ship { S.tells → IfOk result (CarriesOf from (held_so (is_of fileset) (S.view store.new).state.slots)) }
    ensures sound { IfOk result (λ ship. IfSome ship (IsSoundShip (S.view store.old).state.roster from)) }
    ensures goes_on { GoesOn (2 * batch_wear) result (S.view store.old) (S.view store.new) }
    ensures stopped { IfErr result (StopsAt from (S.view store.old) (S.view store.new)) }
{
    do_act(store, from, Act::Leave { fileset, to })?;
    ship_of(store, from, fileset)
}

// A fileset goes from the store of a server to that of another one.
fn move_over<S: Store>(
    stores: &mut [S],
    from: ServerId,
    fileset: FilesetId,
    to: ServerId,
    mover: &Mover,
) -> Result<(), RunStopped>
    requires may { MayMove S.view (2 ^ 46) stores.old from to mover.now }
    ensures states { S.tells → (sender receiver : S) (holding : Holding)
        → slice_get stores.old (from.0 - 1) ≡ Some sender → slice_get stores.old (to.0 - 1) ≡ Some receiver
        → MayGo (S.view sender).state (S.view receiver).state from to fileset mover.now holding
        → OnOk result (states_of S.view stores.new ≡ two_set (states_of S.view stores.old)
        (from.0 - 1) (act_done (act_done (S.view sender).state (Leave fileset to)).state (Left fileset)).state
        (to.0 - 1) (state_after (S.view receiver).state
        (all_parts holding from ((S.view sender).state.ship + 1) mover.now))) }
    ensures does { S.tells → (sender receiver : S) (holding : Holding)
        → slice_get stores.old (from.0 - 1) ≡ Some sender → slice_get stores.old (to.0 - 1) ≡ Some receiver
        → MayGo (S.view sender).state (S.view receiver).state from to fileset mover.now holding
        → DoSteps S.view result (move_steps from to fileset holding ((S.view sender).state.ship + 1) mover.now)
        stores.old stores.new }
    ensures goes_on { AllGoOn S.view (68 * batch_wear) result stores.old stores.new }
{
    let place = from.0 as usize - 1;
    let found = match leave(&mut stores[place], from, fileset, to) {
        Ok(found) => found,
        Err(stopped) => return Err(stopped),
    };
    match found {
        Some(ship) => send_between(stores, &ship, mover),
        None => Ok(()),
    }
}

/// The stores keep what a move that was accepted made of the tree that they kept, and the `Left` behind it. The first
/// store is that of server 1. The store of the fileset's server does `Leave`; each part is asked of it and given to the
/// other store; and then the first does `Left`. What a disk fails in is tried once more.
///
/// `Failed` comes where the disk of a server failed twice, and `Memory` where memory runs out; what was begun of the
/// move is then settled or finished when a run starts from the stores again. Each store is worn by 2,048 at most.
pub fn keep_move<S: Store>(
    stores: &mut [S],
    tree: &Tree,
    request: &MoveRequest,
) -> Result<(), RunStopped>
    requires count { length stores.old ≡ length tree.now.roster.capacity }
    requires stores { AreStores S.view tree.now.roster (2 ^ 46) 1 stores.old }
    requires host { IsHost tree.now.roster request.now.host }
    requires call { IsCall tree.now.roster (MoveFileset request.now.server request.now.name request.now.to) }
    ensures kept { S.tells → (next : HostNumber → ℕ) (fileset : Fileset) → IsWellFormed tree.now
        → KeepAll next tree.now (states_of S.view stores.old)
        → Moves tree.now request.now.host request.now.server request.now.name request.now.to fileset
        → next request.now.host ≡ request.now.k
        → OnOk result (KeepAll (λ host. next_number host (next host) (Called request.now.host request.now.k
        (MoveFileset request.now.server request.now.name request.now.to) Accepted))
        (after_move tree.now request.now.host request.now.server request.now.name request.now.to fileset)
        (states_of S.view stores.new)) }
    ensures does { S.tells → (next : HostNumber → ℕ) (fileset : Fileset) → IsWellFormed tree.now
        → KeepAll next tree.now (states_of S.view stores.old)
        → Moves tree.now request.now.host request.now.server request.now.name request.now.to fileset
        → next request.now.host ≡ request.now.k
        → (steps : List Step)
        × AreMoves (λ act. act ≡ Leave fileset.id request.now.to) (states_at S.view stores.old) steps
        × DoSteps S.view result steps stores.old stores.new }
    ensures same { AreSame S.view stores.old stores.new }
    ensures stores { (worn : ℕ) → AreStores S.view tree.now.roster worn 1 stores.old
        → OnOk result (AreStores S.view tree.now.roster (worn + 2048) 1 stores.new) }
    ensures stopped { IfErr result (IsStopped S.tells S.view [] stores.old stores.new) }
{
    let Ok(fileset) = tree.fileset_named(request.server, &request.name) else {
        return Ok(())
    };
    if !is_server(&tree.roster, fileset.server) {
        return Ok(());
    }
    let mover = request.mover()?;
    let moved = move_over(stores, fileset.server, fileset.id, request.to, &mover);
    drop(mover);
    moved
}
