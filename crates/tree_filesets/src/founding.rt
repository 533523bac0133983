//! New filesets, clones, and filesets that move.
ghost use Rattle.std.specs.Prelude.{◌≡◌, ◌<◌, ◌-◌, ◌++◌, map, replicate, IfOk, OnOk};
ghost use Rattle.tree_filesets.specs.Founding.{
  three_entries,
  root_lists,
  unused_anode,
  new_anodes,
  new_fileset,
  control_check,
  anode_as_cloned,
  cloned,
  moved,
};
ghost use Rattle.tree_filesets.specs.declared.fileset.TheConstants.{MOVES_MAX};

use crate::checks::permission;
use crate::fileset::Fileset;
use base_types::{
    AccessEntry, AccessList, FilesetId, Items, ListRefused, Name, NoMemory, Plain, Rights,
    ServerId, User, Who,
};
use std::alloc::Global;
use tree_calls::Refusal;
use tree_objects::{Anode, Content, Object};

impl Fileset {
    /// A fileset of so many objects, at most `OBJECTS_MAX`, with an empty root that is owned by `owner` and the owner's
    /// first group. The root's lists are this project's own: `rwxcid` for the owner and `rx` for others in its own and
    /// in that of new directories, and `rwxc` and `r` in that of new files. `NoMemory` comes where memory runs out.
    #[tactic(auto, unfolding(crate::specs::Founding::new_fileset))]
    pub fn new(
        alloc: Global,
        server: ServerId,
        id: FilesetId,
        name: &Name,
        objects: u32,
        owner: &User,
    ) -> Result<Fileset, NoMemory>
        ensures { IfOk result (λ fileset. fileset ≡ new_fileset server id name.now objects owner.now) }
    {
        Ok(Fileset {
            server,
            id,
            name: name.copy()?,
            read_only: false,
            objects,
            moves: 0,
            anodes: new_anodes(alloc, owner, objects)?,
        })
    }

    /// Whether a user may clone or move the fileset, by this project's own rule: `ReadOnly` where it is a clone, and
    /// `Denied` where the user lacks control of its root.
    #[tactic(auto, unfolding(crate::specs::Founding::control_check))]
    pub fn control_check(&self, user: &User) -> Result<(), Refusal>
        ensures { result ≡ control_check self.now user.now }
    {
        if self.read_only {
            return Err(Refusal::ReadOnly);
        }
        let (_, root) = self.target(user, &[])?;
        permission(root, user, Rights::CONTROL)
    }

    /// A clone under this id and name: a read-only copy of all objects, in which what readers see now is kept (Chutani
    /// et al., "The Episode File System", 1992). `NoMemory` comes where memory runs out.
    #[tactic(auto, unfolding(crate::specs::Founding::cloned))]
    pub fn cloned(&self, id: FilesetId, name: &Name) -> Result<Fileset, NoMemory>
        ensures { IfOk result (λ clone. clone ≡ cloned self.now id name.now) }
    {
        Ok(Fileset {
            server: self.server,
            id,
            name: name.copy()?,
            read_only: true,
            objects: self.objects,
            moves: 0,
            anodes: anodes_as_cloned(&self.anodes)?,
        })
    }

    /// The fileset at another server, with one move more: what readers see now is kept. `NoMemory` comes where memory
    /// runs out.
    #[tactic(auto, unfolding(crate::specs::Founding::moved))]
    pub fn moved(&self, to: ServerId) -> Result<Fileset, NoMemory>
        requires { self.now.moves < MOVES_MAX }
        ensures { IfOk result (λ fileset. fileset ≡ moved self.now to) }
    {
        Ok(Fileset {
            server: to,
            id: self.id,
            name: self.name.copy()?,
            read_only: self.read_only,
            objects: self.objects,
            moves: self.moves + 1,
            anodes: anodes_as_cloned(&self.anodes)?,
        })
    }
}

// What a clone holds at these anodes.
fn anodes_as_cloned(anodes: &Items<Anode>) -> Result<Items<Anode>, NoMemory>
    ensures { IfOk result (λ copies. copies ≡ map anode_as_cloned anodes.now) }
{
    let mut copies = Items::new(anodes.alloc());
    for anode in anodes.as_slice() {
        copies.push(anode_as_cloned(anode)?)?;
    }
    Ok(copies)
}

// What a clone holds at an anode.
fn anode_as_cloned(anode: &Anode) -> Result<Anode, NoMemory>
    ensures { IfOk result (λ copy. copy ≡ anode_as_cloned anode.now) }
{
    let object = match &anode.object {
        Some(object) => Some(object.as_cloned()?),
        None => None,
    };
    Ok(Anode {
        unique: anode.unique,
        object,
    })
}

// The root, and behind it anodes that were never used.
fn new_anodes(alloc: Global, owner: &User, objects: u32) -> Result<Items<Anode>, NoMemory>
    ensures { IfOk result (λ anodes. anodes ≡ new_anodes owner.now objects) }
{
    let root = Object {
        owner: owner.name.copy()?,
        group: owner.first_group().copy()?,
        content: Content::Dir {
            entries: Items::new(alloc),
            lists: root_lists(alloc)?,
        },
    };
    let mut anodes = Items::new(alloc);
    anodes.push(Anode {
        unique: 1,
        object: Some(root),
    })?;
    push_unused(&mut anodes, objects.saturating_sub(1))?;
    Ok(anodes)
}

// Adds anodes that were never used.
fn push_unused(anodes: &mut Items<Anode>, count: u32) -> Result<(), NoMemory>
    ensures { OnOk result (anodes.new ≡ anodes.old ++ replicate count unused_anode) }
{
    for _ in 0..count {
        anodes.push(Anode {
            unique: 0,
            object: None,
        })?;
    }
    Ok(())
}

// The access lists of a new root.
fn root_lists(alloc: Global) -> Result<Items<AccessList>, NoMemory>
    ensures { IfOk result (λ lists. lists ≡ root_lists) }
{
    let (all, look) = (Rights::ALL, Rights::READ.union(Rights::EXECUTE));
    let (file, read) = (Rights::from_bits(15), Rights::READ);
    let mut lists = Items::new(alloc);
    lists.push(three_entries(alloc, all, look)?)?;
    lists.push(three_entries(alloc, file, read)?)?;
    lists.push(three_entries(alloc, all, look)?)?;
    Ok(lists)
}

// The access list with these rights of the owner, and these of the group and of others.
fn three_entries(alloc: Global, owner: Rights, others: Rights) -> Result<AccessList, NoMemory>
    ensures { IfOk result (λ list. list ≡ three_entries owner others others) }
{
    let entries = [
        AccessEntry {
            who: Who::UserObj,
            rights: owner,
        },
        AccessEntry {
            who: Who::GroupObj,
            rights: others,
        },
        AccessEntry {
            who: Who::OtherObj,
            rights: others,
        },
    ];
    match AccessList::new(alloc, &entries) {
        Ok(list) => Ok(list),
        Err(ListRefused::Memory) => Err(NoMemory),
        Err(ListRefused::BadList) => unreachable!(),
    }
}
