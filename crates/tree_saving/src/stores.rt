//! What hosts have to store.
ghost use Rattle.std.specs.Prelude.{◌≡◌, ◌^◌, ◌<◌, ◌++◌, length, IfOk, OnOk};
ghost use Rattle.tree_answers.specs.WellFormed.{IsWellFormed};
ghost use Rattle.tree_saving.specs.Unsaved.{writer_of};
ghost use Rattle.tree_saving.specs.Stores.{
  store_of,
  own_store,
  anode_store,
  fileset_stores,
  own_stores,
};

use base_types::{Fid, HostId, Items, NoMemory};
use tree_answers::Tree;
use tree_calls::Entry;
use tree_filesets::Fileset;
use tree_objects::{Anode, Content, Object};

/// What a host has to store.
pub(crate) fn own_stores(tree: &Tree, host: HostId) -> Result<Items<Entry>, NoMemory>
    requires { IsWellFormed tree.now }
    ensures { IfOk result (λ entries. entries ≡ own_stores host tree.now) }
{
    let mut entries = Items::new(tree.filesets.alloc());
    for fileset in tree.filesets.as_slice() {
        push_stores(&mut entries, fileset, host)?;
    }
    Ok(entries)
}

fn push_stores(entries: &mut Items<Entry>, fileset: &Fileset, host: HostId) -> Result<(), NoMemory>
    requires { length fileset.now.anodes < 2 ^ 32 }
    ensures { OnOk result (entries.new ≡ entries.old ++ fileset_stores host fileset.now) }
{
    for (place, anode) in fileset.anodes.as_slice().iter().enumerate() {
        let fid = Fid {
            fileset: fileset.id,
            anode: place as u32 + 1,
            unique: anode.unique,
        };
        if let Some(entry) = anode_store(anode, host, fid)? {
            entries.push(entry)?;
        }
    }
    Ok(())
}

// What a host has to store of what stands at an anode.
fn anode_store(anode: &Anode, host: HostId, fid: Fid) -> Result<Option<Entry>, NoMemory>
    requires { fid.unique ≡ anode.now.unique }
    ensures { IfOk result (λ entry. entry ≡ anode_store host fid.fileset fid.anode anode.now) }
{
    match &anode.object {
        Some(object) => own_store(object, host, fid),
        None => Ok(None),
    }
}

fn own_store(object: &Object, host: HostId, fid: Fid) -> Result<Option<Entry>, NoMemory>
    ensures { IfOk result (λ entry. entry ≡ own_store host fid object.now) }
{
    match writer_of(&object.content) {
        Some(writer) if writer == host => Ok(Some(store_of(object, host, fid)?)),
        _ => Ok(None),
    }
}

// A host stores all that it has unsaved of a file.
fn store_of(object: &Object, host: HostId, fid: Fid) -> Result<Entry, NoMemory>
    ensures { IfOk result (λ entry. entry ≡ store_of host fid object.now.content) }
{
    Ok(Entry::Stored {
        host,
        fid,
        spans: object.own_spans(host)?,
        length: object.own_length(host),
    })
}

// The host that has something unsaved in a file, where there is one.
fn writer_of(content: &Content) -> Option<HostId>
    ensures { result ≡ writer_of content.now }
{
    let Content::File {
        list: _,
        kept: _,
        unsaved,
        length,
    } = content
    else {
        return None;
    };
    match unsaved.first() {
        Some(byte) => Some(byte.writer),
        None => match length {
            Some(unsaved) => Some(unsaved.writer),
            None => None,
        },
    }
}
