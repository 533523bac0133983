//! How unsaved changes are stored, or lost, so that a history of the tree stays legal.
ghost use Rattle.std.specs.Prelude.{◌≡◌, true, IfOk, OnOk};
ghost use Rattle.tree_answers.specs.WellFormed.{IsWellFormed};
ghost use Rattle.tree_answers.specs.Histories.{after_history};
ghost use Rattle.tree_saving.specs.Unsaved.{all_contents, is_by_one};
ghost use Rattle.tree_saving.specs.Saving.{downs_from, StoresAll, DownsAll};

use crate::stores::own_stores;
use base_types::{HostId, Items, NoMemory, ServerId};
use std::alloc::Global;
use tree_answers::Tree;
use tree_calls::Entry;

/// Stores all that a host has unsaved, file by file, and tells the entries by which it did: one for each file in which
/// the host has something unsaved. The tree has to be well formed, and what each file has unsaved has to be one host's.
/// After `NoMemory` only some of it may be stored.
pub fn store_all(tree: &mut Tree, host: HostId) -> Result<Items<Entry>, NoMemory>
    requires formed { IsWellFormed tree.old }
    requires apart { all_contents is_by_one tree.old ≡ true }
    ensures { IfOk result (λ entries. StoresAll host tree.old entries tree.new) }
{
    let entries = own_stores(tree, host)?;
    follow(tree, entries.as_slice())?;
    Ok(entries)
}

/// Lets each server learn that a host is down, in their order: what the host hadn't stored is lost. Tells the entries,
/// one for each server. The tree has to be well formed, and what each file has unsaved has to be one host's. After
/// `NoMemory` only some servers may have learnt it.
pub fn down_all(tree: &mut Tree, host: HostId) -> Result<Items<Entry>, NoMemory>
    requires formed { IsWellFormed tree.old }
    requires apart { all_contents is_by_one tree.old ≡ true }
    ensures { IfOk result (λ entries. DownsAll host tree.old entries tree.new) }
{
    let servers = tree.roster.capacity.len() as u8;
    let entries = downs(tree.filesets.alloc(), host, servers)?;
    follow(tree, entries.as_slice())?;
    Ok(entries)
}

// A host is down at so many servers.
fn downs(alloc: Global, host: HostId, servers: u8) -> Result<Items<Entry>, NoMemory>
    ensures { IfOk result (λ entries. entries ≡ downs_from host 1 servers) }
{
    let mut entries = Items::new(alloc);
    for server in 0..servers {
        let server = ServerId(server + 1);
        entries.push(Entry::Down { host, server })?;
    }
    Ok(entries)
}

// Makes a tree what it is after these entries.
fn follow(tree: &mut Tree, entries: &[Entry]) -> Result<(), NoMemory>
    ensures { OnOk result (tree.new ≡ after_history tree.old entries.now) }
{
    for entry in entries {
        tree.follow(entry)?;
    }
    Ok(())
}
