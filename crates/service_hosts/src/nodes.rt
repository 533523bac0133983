//! The nodes of a script.
ghost use Rattle.std.specs.Prelude.{◌≡◌, ◌≤◌, ◌<◌, ◌+◌, ◌∷◌, ◌++◌, ◌^◌, ℕ, [], List, length, vec_capacity};
ghost use Rattle.std.specs.Prelude.{IfOk, OnErr, OnOk};
ghost use Rattle.hub_node.specs.Nodes.{Beginning};
ghost use Rattle.host_node.specs.Standing.{IsPlayable};
ghost use Rattle.script_lines.specs.Sound.{IsSound};
ghost use Rattle.service_hosts.specs.Hosting.{epochs_of};
ghost use Rattle.service_hosts.specs.Nodes.{AreFirst, AreOver, CanAll, store_under, stores_in};
ghost use Rattle.service_moves.specs.Stores.{AreStores};
ghost use Rattle.tree_calls.specs.declared.roster.Roster.{Roster};

use base_types::{HostId, Items, NoMemory, ServerId};
use host_node::HostNode;
use hub_node::AnyNode;
use script_lines::Script;
use server_node::ServerNode;
use std::alloc::Global;
use store_memory::Store;

/// A node over a store of this type.
pub(crate) type NodeOf<'a, S> = AnyNode<HostNode<'a>, ServerNode<'a, S>>;

/// The epochs of stores, in their order.
pub(crate) fn epochs_of<S: Store>(alloc: Global, stores: &[S]) -> Result<Items<u64>, NoMemory>
    requires ready { (roster : Roster) × ((worn : ℕ) × AreStores S.view roster worn 1 stores.now) }
    ensures epochs { S.tells → IfOk result (λ epochs. epochs ≡ epochs_of S.view stores.now) }
    ensures count { IfOk result (λ epochs. length epochs ≡ length stores.now) }
{
    let mut epochs = Items::new(alloc);
    for store in stores {
        epochs.push(store.epoch())?;
    }
    Ok(epochs)
}

/// Makes room for all nodes of a script, and the hosts, the setup host first. The only error is that memory ran out.
pub(crate) fn hosts_for<'a, S: Store + Drop>(
    alloc: Global,
    script: &'a Script,
) -> Result<Vec<NodeOf<'a, S>>, NoMemory>
    requires sound { IsSound script.now }
    ensures over { IfOk result (λ nodes. AreOver nodes.items (length script.now.roster.hosts + 1) []) }
    ensures first { (run : Beginning) → run.script ≡ script.now → IsPlayable script.now
        → IfOk result (λ nodes. AreFirst S.tells S.view run nodes.items) }
    ensures room { IfOk result (λ nodes.
        length nodes.items + length script.now.roster.capacity ≤ vec_capacity nodes) }
{
    let mut nodes = Vec::new(alloc);
    nodes.reserve(script.roster.hosts.len() + 1 + script.roster.capacity.len())?;
    add_hosts(script, &mut nodes)?;
    Ok(nodes)
}

// Puts a value before others, where there is room for it.
#[tactic(auto, using(crate::proofs::Places::put_at_front))]
fn put_first<T: Drop>(items: &mut Vec<T>, item: T)
    requires { length items.old.items < vec_capacity items.old }
    ensures items { items.new.items ≡ item ∷ items.old.items }
    ensures room { vec_capacity items.old ≤ vec_capacity items.new }
{
    let _room = items.insert(0, item);
}

// Adds the hosts of a script, the setup host first. There is room for them.
fn add_hosts<'a, S: Store + Drop>(
    script: &'a Script,
    nodes: &mut Vec<NodeOf<'a, S>>,
) -> Result<(), NoMemory>
    requires sound { IsSound script.now }
    requires none { nodes.old.items ≡ [] }
    requires room { length script.now.roster.hosts + 1 ≤ vec_capacity nodes.old }
    ensures over { OnOk result (AreOver nodes.new.items (length script.now.roster.hosts + 1) []) }
    ensures first { (run : Beginning) → run.script ≡ script.now → IsPlayable script.now
        → OnOk result (AreFirst S.tells S.view run nodes.new.items) }
    ensures room { vec_capacity nodes.new ≡ vec_capacity nodes.old }
{
    let count = script.roster.hosts.len() as u8;
    for before in 0..count + 1 {
        let node = HostNode::new(script, HostId(before))?;
        nodes.push_reserved(AnyNode::Host(node));
    }
    Ok(())
}

// Adds the servers of a script behind its hosts, each over its store, which leaves the list. There is room for them.
// Where memory runs out the stores of those that weren't made are in the list still.
fn add_servers<'a, S: Store + Drop>(
    script: &'a Script,
    stores: &mut Vec<S>,
    nodes: &mut Vec<NodeOf<'a, S>>,
) -> Result<(), NoMemory>
    requires sound { IsSound script.now }
    requires count { length stores.old.items ≡ length script.now.roster.capacity }
    requires stores { AreStores S.view script.now.roster (2 ^ 40) 1 stores.old.items }
    requires room { length nodes.old.items + length stores.old.items ≤ vec_capacity nodes.old }
    requires over { AreOver nodes.old.items (length script.now.roster.hosts + 1) [] }
    ensures over { (out : List S) × (AreOver nodes.new.items (length script.now.roster.hosts + 1) out
        × (out ++ stores.new.items ≡ stores.old.items)) }
    ensures all { OnOk result (stores.new.items ≡ []) }
    ensures first { (run : Beginning) → run.script ≡ script.now → CanAll S.tells S.view run 1 stores.old.items
        → AreFirst S.tells S.view run nodes.old.items → OnOk result (AreFirst S.tells S.view run nodes.new.items) }
    ensures room { vec_capacity stores.old ≤ vec_capacity stores.new }
{
    let count = stores.len() as u8;
    for before in 0..count {
        let store = stores.remove(0);
        match ServerNode::new(script, ServerId(before + 1), store) {
            Ok(node) => nodes.push_reserved(AnyNode::Server(node)),
            Err(store) => {
                put_first(stores, store);
                return Err(NoMemory);
            }
        }
    }
    Ok(())
}

// Takes the store of a node, where it is a server's, back into a list that has room for it, in front of those that are
// there.
fn take_store<S: Store + Drop>(node: NodeOf<'_, S>, stores: &mut Vec<S>)
    requires { length (store_under node) + length stores.old.items ≤ vec_capacity stores.old }
    ensures stores { stores.new.items ≡ store_under node.entry ++ stores.old.items }
    ensures room { vec_capacity stores.old ≤ vec_capacity stores.new }
{
    if let AnyNode::Server(server) = node {
        put_first(stores, server.into_store());
    }
}

/// Takes the stores of nodes back into a list that has room for them, in front of those that are there.
pub(crate) fn take_stores<S: Store + Drop>(nodes: Vec<NodeOf<'_, S>>, stores: &mut Vec<S>)
    requires { length (stores_in nodes.items) + length stores.old.items ≤ vec_capacity stores.old }
    ensures { stores.new.items ≡ stores_in nodes.entry.items ++ stores.old.items }
{
    let mut nodes = nodes;
    while let Some(node) = nodes.pop() {
        take_store(node, stores);
    }
}

/// The nodes of a script, where there is room for all, over these stores, which leave their list. Where memory runs out
/// they are in it again.
pub(crate) fn with_servers<'a, S: Store + Drop>(
    script: &'a Script,
    stores: &mut Vec<S>,
    nodes: Vec<NodeOf<'a, S>>,
) -> Result<Vec<NodeOf<'a, S>>, NoMemory>
    requires sound { IsSound script.now }
    requires count { length stores.old.items ≡ length script.now.roster.capacity }
    requires stores { AreStores S.view script.now.roster (2 ^ 40) 1 stores.old.items }
    requires room { length nodes.items + length stores.old.items ≤ vec_capacity nodes }
    requires stores_room { length stores.old.items ≤ vec_capacity stores.old }
    requires over { AreOver nodes.items (length script.now.roster.hosts + 1) [] }
    ensures over { IfOk result (λ all.
        AreOver all.items (length script.now.roster.hosts + 1) stores.old.items) }
    ensures first { (run : Beginning) → run.script ≡ script.now → CanAll S.tells S.view run 1 stores.old.items
        → AreFirst S.tells S.view run nodes.entry.items → IfOk result (λ all. AreFirst S.tells S.view run all.items) }
    ensures taken { OnOk result (stores.new.items ≡ []) }
    ensures room { OnOk result (vec_capacity stores.old ≤ vec_capacity stores.new) }
    ensures back { OnErr result (stores.new.items ≡ stores.old.items) }
{
    let mut nodes = nodes;
    match add_servers(script, stores, &mut nodes) {
        Ok(()) => Ok(nodes),
        Err(NoMemory) => {
            take_stores(nodes, stores);
            Err(NoMemory)
        }
    }
}
