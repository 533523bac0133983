//! What a run made is kept by the stores.
ghost use Rattle.std.specs.Prelude.{
  ◌≡◌,
  ◌≤◌,
  ◌+◌,
  ◌*◌,
  ◌^◌,
  ℕ,
  List,
  [],
  ◌∷◌,
  length,
  take,
  drop,
  IfErr,
  OnOk,
};
ghost use Rattle.std.specs.List.{position};
ghost use Rattle.base_types.specs.declared.ids.HostId.{HostId as HostNumber};
ghost use Rattle.base_types.specs.declared.ids.ServerId.{ServerId as ServerNumber};
ghost use Rattle.tree_filesets.specs.declared.fileset.Fileset.{Fileset};
ghost use Rattle.store_acts.specs.declared.act.Act.TheVariants.{Leave};
ghost use Rattle.store_memory.specs.Views.{DoesActs, IsSameStore};
ghost use Rattle.tree_answers.specs.Histories.{IsHistory, after_history};
ghost use Rattle.tree_answers.specs.WellFormed.{IsWellFormed};
ghost use Rattle.store_laws.specs.Acts.{acts_of};
ghost use Rattle.store_laws.specs.HistoryLaws.{Happens, IsBehind, IsGiven};
ghost use Rattle.store_laws.specs.Shape.{number_after};
ghost use Rattle.store_laws.specs.Happening.{MayHappen};
ghost use Rattle.store_laws.specs.MoveKeeping.{KeepAll};
ghost use Rattle.store_laws.specs.MovedLaws.{move_entry, moves_one, numbers_after};
ghost use Rattle.message_types.specs.Soundness.{Each};
ghost use Rattle.service_moves.specs.Batches.{batch_wear};
ghost use Rattle.service_moves.specs.Doing.{Step, DoSteps};
ghost use Rattle.service_moves.specs.Plans.{states_at, AreMoves};
ghost use Rattle.service_stores.specs.Plans.{KeepsHistory};
ghost use Rattle.service_stores.specs.Steps.{MayBeAsked};
ghost use Rattle.service_stores.specs.Stopping.{IsStoppedAt};
ghost use Rattle.service_moves.specs.Stopping.{IsStopped};
ghost use Rattle.service_moves.specs.Stores.{AreSame, AreStores, IsStore, states_of};
ghost use Rattle.store_laws.specs.TreeKeeping.{KeepsOf};
ghost use Rattle.store_laws.specs.KeptMoves.{Moves, after_move};

use crate::acts::acts_of;
use base_types::{NoMemory, Plain, ServerId};
use service_moves::{MoveRequest, RunStopped, apply_all, keep_move, stopped_at};
use std::alloc::Global;
use store_memory::Store;
use tree_answers::Tree;
use tree_calls::{Call, Entry, Reply};

// The most entries that a history may have: more don't fit into memory.
const ENTRIES_MAX: usize = 4_294_967_296;

/// The stores keep what a history made of the tree that they kept. The first is that of server 1. Each does its acts in
/// the order of the history, in batches of up to `BATCH_ACTS_MAX`: a call that was done under its number, and what a
/// host stored under that of its write. At a move the store that the fileset leaves and the one that it comes to have
/// done all that came before. After `Ok` each may be asked, so that what it keeps is durable.
///
/// `Failed` comes where the disk of a server failed twice, and `Memory` where memory runs out, or where the history has
/// more than `ENTRIES_MAX` entries. Each store has done the first of its acts then, up to one and the same step.
pub fn keep<S: Store>(
    alloc: Global,
    stores: &mut [S],
    start: &Tree,
    history: &[Entry],
) -> Result<(), RunStopped>
    requires count { length stores.old ≡ length start.now.roster.capacity }
    requires stores { AreStores S.view start.now.roster (2 ^ 40) 1 stores.old }
    requires happens { MayHappen (λ host. 1) start.now history.now }
    ensures kept { S.tells → KeepAll (λ host. 1) start.now (states_of S.view stores.old)
        → OnOk result (KeepAll (λ host. number_after host 1 history.now) (after_history start.now history.now)
        (states_of S.view stores.new)) }
    ensures does { S.tells → KeepAll (λ host. 1) start.now (states_of S.view stores.old)
        → KeepsHistory S.view result start.now history.now stores.old stores.new }
    ensures ready { OnOk result (MayBeAsked S.view stores.new) }
    ensures same { AreSame S.view stores.old stores.new }
    ensures stopped { IfErr result (IsStopped S.tells S.view [] stores.old stores.new) }
{
    if history.len() > ENTRIES_MAX {
        return Err(RunStopped::Memory);
    }
    let mut tree = start.copy()?;
    keep_all(alloc, stores, &mut tree, history)
}

// The stores keep what a history made of a tree, piece by piece and move by move.
fn keep_all<S: Store>(
    alloc: Global,
    stores: &mut [S],
    tree: &mut Tree,
    history: &[Entry],
) -> Result<(), RunStopped>
    requires count { length stores.old ≡ length tree.old.roster.capacity }
    requires stores { AreStores S.view tree.old.roster (2 ^ 40) 1 stores.old }
    requires happens { MayHappen (λ host. 1) tree.old history.now }
    requires few { length history.now ≤ ENTRIES_MAX }
    ensures kept { S.tells → KeepAll (λ host. 1) tree.old (states_of S.view stores.old)
        → OnOk result (KeepAll (numbers_after (λ host. 1) history.now) (after_history tree.old history.now)
        (states_of S.view stores.new)) }
    ensures does { S.tells → KeepAll (λ host. 1) tree.old (states_of S.view stores.old)
        → KeepsHistory S.view result tree.old history.now stores.old stores.new }
    ensures ready { OnOk result (MayBeAsked S.view stores.new) }
    ensures same { AreSame S.view stores.old stores.new }
    ensures stopped { IfErr result (IsStopped S.tells S.view [] stores.old stores.new) }
{
    let mut from = 0;
    while let Some(place) = first_move(&history[from..]) {
        keep_to(alloc, stores, tree, &history[from..], place)?;
        from += place + 2;
    }
    keep_quiet(alloc, stores, tree, &history[from..])
}

// The place of the first entry that moved a fileset.
fn first_move(history: &[Entry]) -> Option<usize>
    ensures { result ≡ position moves_one history.now }
{
    history.iter().position(|entry| moves_one(entry))
}

// Whether an entry moved a fileset.
fn moves_one(entry: &Entry) -> bool
    ensures { result ≡ moves_one entry.now }
{
    matches!(
        entry,
        Entry::Call {
            call: Call::MoveFileset { .. },
            reply: Reply::Ok,
            ..
        }
    )
}

// The stores keep what the entries up to the first move made of a tree, that move, and that its fileset arrived; and
// the tree is the one behind it.
fn keep_to<S: Store>(
    alloc: Global,
    stores: &mut [S],
    tree: &mut Tree,
    history: &[Entry],
    place: usize,
) -> Result<(), RunStopped>
    requires count { length stores.old ≡ length tree.old.roster.capacity }
    requires stores { AreStores S.view tree.old.roster (2 ^ 45) 1 stores.old }
    requires happens { (next : HostNumber → ℕ) × MayHappen next tree.old history.now }
    requires few { length history.now ≤ ENTRIES_MAX }
    requires first { position moves_one history.now ≡ Some place }
    ensures kept { S.tells → (next : HostNumber → ℕ) → MayHappen next tree.old history.now
        → KeepAll next tree.old (states_of S.view stores.old)
        → OnOk result (KeepAll (numbers_after next (take (place + 2) history.now)) tree.new
        (states_of S.view stores.new)) }
    ensures does { S.tells → (next : HostNumber → ℕ) → MayHappen next tree.old history.now
        → KeepAll next tree.old (states_of S.view stores.old)
        → KeepsHistory S.view result tree.old (take (place + 2) history.now) stores.old stores.new }
    ensures tree { OnOk result (tree.new ≡ after_history tree.old (take (place + 2) history.now)) }
    ensures same { AreSame S.view stores.old stores.new }
    ensures stores { (worn : ℕ) → AreStores S.view tree.old.roster worn 1 stores.old
        → OnOk result (AreStores S.view tree.old.roster (worn + 2048 * (place + 2)) 1 stores.new) }
    ensures stopped { IfErr result (IsStopped S.tells S.view [] stores.old stores.new) }
{
    keep_quiet(alloc, stores, tree, &history[..place])?;
    follow_all(tree, &history[..place])?;
    keep_moved(stores, tree, &history[place])?;
    follow_all(tree, &history[place..place + 2])?;
    Ok(())
}

// Makes a tree what it is after a history.
fn follow_all(tree: &mut Tree, history: &[Entry]) -> Result<(), NoMemory>
    ensures { OnOk result (tree.new ≡ after_history tree.old history.now) }
{
    for entry in history {
        tree.follow(entry)?;
    }
    Ok(())
}

// The stores keep what an entry by which a fileset moved made of a tree, and that the fileset arrived.
fn keep_moved<S: Store>(stores: &mut [S], tree: &Tree, entry: &Entry) -> Result<(), RunStopped>
    requires count { length stores.old ≡ length tree.now.roster.capacity }
    requires stores { AreStores S.view tree.now.roster (2 ^ 46) 1 stores.old }
    requires given { IsGiven tree.now.roster entry.now }
    ensures kept { S.tells → (next : HostNumber → ℕ) (host : HostNumber) (k : ℕ) (server : ServerNumber)
        (name : List ℕ) (to : ServerNumber) (fileset : Fileset) → entry.now ≡ move_entry host k server name to
        → IsWellFormed tree.now → KeepAll next tree.now (states_of S.view stores.old)
        → Moves tree.now host server name to fileset → k ≡ next host
        → OnOk result (KeepAll (numbers_after next (entry.now ∷ []))
        (after_move tree.now host server name to fileset) (states_of S.view stores.new)) }
    ensures does { S.tells → (next : HostNumber → ℕ) (host : HostNumber) (k : ℕ) (server : ServerNumber)
        (name : List ℕ) (to : ServerNumber) (fileset : Fileset) → entry.now ≡ move_entry host k server name to
        → IsWellFormed tree.now → KeepAll next tree.now (states_of S.view stores.old)
        → Moves tree.now host server name to fileset → k ≡ next host
        → (steps : List Step) × AreMoves (λ act. act ≡ Leave fileset.id to) (states_at S.view stores.old) steps
        × DoSteps S.view result steps stores.old stores.new }
    ensures same { AreSame S.view stores.old stores.new }
    ensures stores { (worn : ℕ) → AreStores S.view tree.now.roster worn 1 stores.old
        → OnOk result (AreStores S.view tree.now.roster (worn + 2048) 1 stores.new) }
    ensures stopped { IfErr result (IsStopped S.tells S.view [] stores.old stores.new) }
{
    let Entry::Call {
        host,
        k,
        call,
        reply: _,
    } = entry
    else {
        return Ok(());
    };
    let Call::MoveFileset {
        server,
        fileset,
        to,
    } = call
    else {
        return Ok(());
    };
    let request = MoveRequest {
        host: *host,
        k: *k,
        server: *server,
        name: fileset.copy()?,
        to: *to,
    };
    keep_move(stores, tree, &request)
}

// The stores keep what a history made of a tree that moved nothing.
fn keep_quiet<S: Store>(
    alloc: Global,
    stores: &mut [S],
    tree: &Tree,
    history: &[Entry],
) -> Result<(), RunStopped>
    requires count { length stores.old ≡ length tree.now.roster.capacity }
    requires stores { AreStores S.view tree.now.roster (2 ^ 46) 1 stores.old }
    requires formed { IsWellFormed tree.now }
    requires legal { IsHistory tree.now history.now }
    requires given { Each (IsGiven tree.now.roster) history.now }
    requires few { length history.now ≤ ENTRIES_MAX }
    ensures kept { S.tells → (next : HostNumber → ℕ) → Happens next tree.now history.now
        → KeepAll next tree.now (states_of S.view stores.old)
        → OnOk result (KeepAll (numbers_after next history.now) (after_history tree.now history.now)
        (states_of S.view stores.new)) }
    ensures does { S.tells → (next : HostNumber → ℕ) → Happens next tree.now history.now
        → KeepAll next tree.now (states_of S.view stores.old)
        → KeepsHistory S.view result tree.now history.now stores.old stores.new }
    ensures same { AreSame S.view stores.old stores.new }
    ensures stores { (worn : ℕ) → AreStores S.view tree.now.roster worn 1 stores.old
        → OnOk result (AreStores S.view tree.now.roster (worn + 2048 * length history.now) 1 stores.new) }
    ensures stopped { IfErr result (IsStopped S.tells S.view [] stores.old stores.new) }
{
    for (k, store) in stores.iter_mut().enumerate() {
        keep_part(alloc, store, ServerId(k as u8 + 1), tree, history)?;
    }
    Ok(())
}

// The store of a server does the acts of a history that moved nothing.
fn keep_part<S: Store>(
    alloc: Global,
    store: &mut S,
    server: ServerId,
    tree: &Tree,
    history: &[Entry],
) -> Result<(), RunStopped>
    requires store { IsStore tree.now.roster (2 ^ 46) server.0 (S.view store.old) }
    requires formed { IsWellFormed tree.now }
    requires legal { IsHistory tree.now history.now }
    requires given { Each (IsGiven tree.now.roster) history.now }
    requires few { length history.now ≤ ENTRIES_MAX }
    ensures does { S.tells → (next : HostNumber → ℕ) → Happens next tree.now history.now
        → KeepsOf tree.now (S.view store.old).state → IsBehind next (S.view store.old).state
        → DoesActs result (acts_of server tree.now None history.now) (S.view store.old) (S.view store.new) }
    ensures same { IsSameStore (S.view store.old) (S.view store.new) }
    ensures ready { OnOk result (S.view store.new).ready }
    ensures mendable { (S.view store.new).mendable }
    ensures wear { (S.view store.new).wear ≤ (S.view store.old).wear + batch_wear * length history.now }
    ensures counted { (S.view store.old).faults ≤ (S.view store.new).faults }
    ensures stopped { IfErr result (IsStoppedAt server (S.view store.old) (S.view store.new)) }
{
    let acts = acts_of(alloc, server, tree, history)?;
    match apply_all(store, acts.as_slice()) {
        Ok(()) => Ok(()),
        Err(fault) => Err(stopped_at(server, fault)),
    }
}
