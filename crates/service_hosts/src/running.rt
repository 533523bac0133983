//! Hosts and servers run a script.
ghost use Rattle.std.specs.Prelude.{◌≡◌, ◌≤◌, ◌<◌, ◌+◌, ◌-◌, ◌^◌, ℕ, true, List, [], length, vec_capacity};
ghost use Rattle.std.specs.Prelude.{Err, IfErr, IfOk, IfSome, None, OnErr, OnOk};
ghost use Rattle.base_types.specs.declared.limits.TheConstants.{SERVERS_MAX};
ghost use Rattle.host_node.specs.Standing.{IsPlayable};
ghost use Rattle.hub_drive.specs.Driving.{beginning};
ghost use Rattle.hub_drive.specs.declared.driver.DriveFault.TheVariants.{Store as StoreFailed};
ghost use Rattle.hub_node.specs.Nodes.{Beginning};
ghost use Rattle.run_rules.specs.Runs.{IsValid};
ghost use Rattle.run_rules.specs.declared.journal.Journal.{Journal as JournalOf};
ghost use Rattle.script_lines.specs.Sound.{IsSound};
ghost use Rattle.service_hosts.specs.Homes.{may_host};
ghost use Rattle.service_hosts.specs.Hosting.{HasHosted, HasHostedSoFar, IsStopped, epochs_of, stopped_by};
ghost use Rattle.service_hosts.specs.Nodes.{AreFirst, AreOver, CanAll};
ghost use Rattle.service_hosts.specs.declared.running.HostsStopped.TheVariants.{Memory as OutOfMemory};
ghost use Rattle.service_moves.specs.Stores.{AreSame, AreStores, states_of};
ghost use Rattle.service_plain.specs.Played.{IsStart};
ghost use Rattle.service_stores.specs.Laws.{AreSayable};
ghost use Rattle.service_stores.specs.Starting.{HaveBegun};
ghost use Rattle.store_laws.specs.MoveKeeping.{KeepAll};

use crate::nodes::{NodeOf, epochs_of, hosts_for, take_stores, with_servers};
use base_types::{Items, NoMemory, ServerId};
use hub_drive::{DriveFault, Gate, Waiting, drive};
use run_rules::Journal;
use script_lines::Script;
use std::alloc::Global;
use std::sync::Wait;
use std::thread::Threads;
use store_memory::Store;
use tree_answers::Tree;

/// Why hosts and servers came to no end.
#[derive(Clone, Copy)]
pub enum HostsStopped {
    /// The store of this server failed, and failed again when that was tried once more.
    Failed(ServerId),
    /// All hosts and servers came to rest, and not all were done, as where one waits for a flag that nobody raises. One
    /// that isn't done is named, with its next line.
    Stuck(Waiting),
    /// Memory ran out.
    Memory,
}

/// What came of a run by hosts and servers, and the stores, in their order.
#[derive(Drop)]
pub struct Hosted<S> {
    pub stores: Vec<S>,
    pub result: Result<Journal, HostsStopped>,
    /// Where the run came to no end, its journal so far, as far as there was memory for it.
    pub so_far: Option<Journal>,
}

// What a fault of the driver means, where so many hosts are before the first server.
fn stopped_by(hosts: usize, fault: DriveFault) -> HostsStopped
    requires { (k : ℕ) → fault ≡ StoreFailed k → (hosts ≤ k) × (k - hosts < SERVERS_MAX) }
    ensures { result ≡ stopped_by hosts fault }
{
    match fault {
        DriveFault::Store(node) => HostsStopped::Failed(ServerId((node - hosts) as u8 + 1)),
        DriveFault::Stuck(waiting) => HostsStopped::Stuck(waiting),
        DriveFault::Memory => HostsStopped::Memory,
    }
}

// The epochs of stores, and all nodes, over the stores, which leave their list. Where memory runs out they are in it
// again.
fn nodes_over<'a, S: Store + Drop>(
    alloc: Global,
    script: &'a Script,
    stores: &mut Vec<S>,
) -> Result<(Items<u64>, Vec<NodeOf<'a, S>>), NoMemory>
    requires sound { IsSound script.now }
    requires count { length stores.old.items ≡ length script.now.roster.capacity }
    requires stores { AreStores S.view script.now.roster (2 ^ 40) 1 stores.old.items }
    requires stores_room { length stores.old.items ≤ vec_capacity stores.old }
    ensures epochs { S.tells → IfOk result (λ r. r.0 ≡ epochs_of S.view stores.old.items) }
    ensures count { IfOk result (λ r. length r.0 ≡ length stores.old.items) }
    ensures over { IfOk result (λ r. AreOver r.1.items (length script.now.roster.hosts + 1) stores.old.items) }
    ensures first { (run : Beginning) → run.script ≡ script.now → IsPlayable script.now
        → CanAll S.tells S.view run 1 stores.old.items
        → IfOk result (λ r. AreFirst S.tells S.view run r.1.items) }
    ensures taken { OnOk result (stores.new.items ≡ []) }
    ensures room { OnOk result (vec_capacity stores.old ≤ vec_capacity stores.new) }
    ensures back { OnErr result (stores.new.items ≡ stores.old.items) }
{
    let epochs = epochs_of(alloc, stores.as_slice())?;
    let nodes = hosts_for(alloc, script)?;
    match with_servers(script, stores, nodes) {
        Ok(nodes) => Ok((epochs, nodes)),
        Err(NoMemory) => Err(NoMemory),
    }
}

// The nodes are driven, and their stores taken back into a list that has room for them.
fn drive_all<S: Store + Drop + Send, R: Threads + Wait + Sync, G: Gate + Sync>(
    rt: &R,
    alloc: Global,
    script: &Script,
    start: Tree,
    epochs: Items<u64>,
    nodes: Vec<NodeOf<'_, S>>,
    room: Vec<S>,
    workers: u32,
    gate: &G,
) -> Hosted<S>
    requires sound { IsSound script.now }
    requires valid { IsValid start }
    requires roster { start.roster ≡ script.now.roster }
    requires epochs { length epochs ≡ length script.now.roster.capacity }
    requires over { (stores : List S) × (AreOver nodes.items (length script.now.roster.hosts + 1) stores
        × (AreStores S.view script.now.roster (2 ^ 40) 1 stores
        × (length stores ≡ length script.now.roster.capacity))) }
    requires first { AreFirst S.tells S.view (beginning script.now start epochs) nodes.items }
    requires none { room.items ≡ [] }
    requires room { length script.now.roster.capacity ≤ vec_capacity room }
    ensures same { (stores : List S) → AreOver nodes.entry.items (length script.now.roster.hosts + 1) stores
        → AreStores S.view script.now.roster (2 ^ 40) 1 stores → AreSame S.view stores result.stores.items }
    ensures hosted { (stores : List S) → AreOver nodes.entry.items (length script.now.roster.hosts + 1) stores
        → AreStores S.view script.now.roster (2 ^ 40) 1 stores → (S.tells → epochs ≡ epochs_of S.view stores)
        → IfOk result.result (HasHosted S.tells S.view script.now start stores result.stores.items) }
    ensures stopped { (stores : List S) → AreOver nodes.entry.items (length script.now.roster.hosts + 1) stores
        → IfErr result.result (IsStopped S.tells S.view script.now start stores result.stores.items) }
    ensures so_far { (stores : List S) → AreOver nodes.entry.items (length script.now.roster.hosts + 1) stores
        → (S.tells → epochs ≡ epochs_of S.view stores) → IfErr result.result (λ stopped. IfSome result.so_far
        (HasHostedSoFar S.tells S.view script.now start stores result.stores.items (Err stopped))) }
    ensures held { (stores : List S) → AreOver nodes.entry.items (length script.now.roster.hosts + 1) stores
        → (S.tells → epochs ≡ epochs_of S.view stores) → (journal : JournalOf)
        × HasHostedSoFar S.tells S.view script.now start stores result.stores.items result.result journal }
    ensures lacks { IfErr result.result (λ stopped. result.so_far ≡ None → stopped ≡ OutOfMemory) }
{
    let hosts = script.roster.hosts.len() + 1;
    let driven = drive(rt, alloc, script, start, epochs, nodes, workers, gate);
    let result = driven.result;
    let so_far = driven.so_far;
    drop(driven.left);
    let mut stores = room;
    take_stores(driven.nodes, &mut stores);
    match result {
        Ok(journal) => Hosted {
            stores,
            result: Ok(journal),
            so_far: None,
        },
        Err(fault) => Hosted {
            stores,
            result: Err(stopped_by(hosts, fault)),
            so_far,
        },
    }
}

/// Hosts and servers run a script from a tree, over the stores of the servers, which have begun the run, on so many
/// workers. The gate is told before one of them goes on at a line; nothing rests on what it does. The stores come back
/// in their order, whatever comes.
///
/// `Failed` comes only where the store of a server failed twice, and `Stuck` only where all hosts and servers have come
/// to rest: in its newest round each handed in nothing and was given nothing, and none has made anything; one that
/// isn't done by its own steps is named, with its next line. `Memory` may come at any time, as far as clauses say: it
/// is meant where memory runs out. It may wait for what never comes about.
///
/// However it ended there is a journal so far: as far as the stores tell what they keep it is a run of the script in
/// which what is due is done, and each change that was acknowledged in it is in its store. Beside them that has done
/// nothing or what further steps by its server's rules do; or, as where its server failed, acts for requests that aren't
/// answered there, or by which the server begins a newer epoch: in what order, how often each, and why a call was
/// refused, isn't said of these. Where all came to rest each store keeps what its server keeps by the rules after all
/// its steps in it. Where the run came to no end the journal comes back beside the cause, but where memory lacks for it,
/// and the cause is `Memory` then.
pub fn run_hosts<S: Store + Drop + Send, R: Threads + Wait + Sync, G: Gate + Sync>(
    rt: &R,
    alloc: Global,
    script: &Script,
    start: Tree,
    stores: Vec<S>,
    workers: u32,
    gate: &G,
) -> Hosted<S>
    requires sound { IsSound script.now }
    requires sayable { AreSayable script.now }
    requires start { IsStart script.now.roster start }
    requires homes { may_host script.now start ≡ true }
    requires count { length stores.items ≡ length script.now.roster.capacity }
    requires stores { AreStores S.view script.now.roster (2 ^ 40) 1 stores.items }
    requires kept { S.tells → KeepAll (λ host. 1) start (states_of S.view stores.items) }
    requires begun { S.tells → HaveBegun (states_of S.view stores.items) }
    ensures same { AreSame S.view stores.items result.stores.items }
    ensures hosted { IfOk result.result
        (HasHosted S.tells S.view script.now start stores.items result.stores.items) }
    ensures stopped { IfErr result.result
        (IsStopped S.tells S.view script.now start stores.items result.stores.items) }
    ensures so_far { IfErr result.result (λ stopped. IfSome result.so_far
        (HasHostedSoFar S.tells S.view script.now start stores.items result.stores.items (Err stopped))) }
    ensures held { (journal : JournalOf)
        × HasHostedSoFar S.tells S.view script.now start stores.items result.stores.items result.result journal }
    ensures lacks { IfErr result.result (λ stopped. result.so_far ≡ None → stopped ≡ OutOfMemory) }
{
    let mut stores = stores;
    match nodes_over(alloc, script, &mut stores) {
        Ok((epochs, nodes)) => drive_all(
            rt, alloc, script, start, epochs, nodes, stores, workers, gate,
        ),
        Err(NoMemory) => {
            drop(start);
            Hosted {
                stores,
                result: Err(HostsStopped::Memory),
                so_far: None,
            }
        }
    }
}
