ghost use Rattle.std.specs.Prelude.{◌≡◌, ◌-◌, slice_get, slice_set};
ghost use Rattle.std.specs.Borrow.{LendsIf, sem};
ghost use Rattle.std.specs.Option.{option_copied, option_copied_mut};
ghost use Rattle.tree_filesets.specs.contracts.fileset.Fileset.{the_row};
ghost use Rattle.tree_objects.specs.contracts.content.Anode.{the_row as anode_row};
ghost use Rattle.tree_filesets.specs.Updates.{with_anode};
ghost use Rattle.tree_filesets.specs.Walk.{object_at};

use base_types::{FilesetId, Items, Name, NoMemory, Plain, ServerId};
use tree_objects::{Anode, Object};

/// How often a fileset can move; the limit is this project's own.
pub const MOVES_MAX: u32 = 4_294_967_295;

/// A fileset: a tree of objects, which stand at anodes (Chutani et al., "The Episode File System", 1992). No function
/// here requires that it is well formed; the laws say that a well formed one stays so.
pub struct Fileset {
    /// The server that it is at.
    pub server: ServerId,
    /// Its number.
    pub id: FilesetId,
    /// Its name, which no other fileset of the server has.
    pub name: Name,
    /// Whether it is a clone.
    pub read_only: bool,
    /// How many objects it may have, its root counted, at most `OBJECTS_MAX`.
    pub objects: u32,
    /// How often it has moved from one server to another, at most `MOVES_MAX`.
    pub moves: u32,
    /// As many anodes as it may have objects, which are counted from 1; the first is the root directory.
    pub anodes: Items<Anode>,
}

impl Drop for Fileset {
    fn drop(self) {
        let Fileset {
            server: _,
            id: _,
            name: _,
            read_only: _,
            objects: _,
            moves: _,
            anodes: _,
        } = self;
    }
}

impl Fileset {
    // The anode of this number, to be changed in place.
    pub(crate) fn anode_mut(&mut self, anode: u32) -> Option<&mut Anode>
        ensures* writes_back { sem 𝓛
            (LendsIf the_row anode_row self.entry result (with_anode self.entry.now anode) self.entry.now) }
        ensures value { option_copied_mut result ≡ slice_get self.old.anodes (anode - 1) }
    {
        let index = anode.saturating_sub(1) as usize;
        if index < self.anodes.len() {
            Some(self.anodes.get_mut(index))
        } else {
            None
        }
    }
}

/// What stands at an anode, which are counted from 1: none where it is free, or where there is none of this number.
pub fn object_at(anodes: &Items<Anode>, anode: u32) -> Option<&Object>
    ensures { option_copied result ≡ object_at anodes.now anode }
{
    if anode == 0 {
        return None;
    }
    match anodes.at(anode as usize - 1) {
        Some(anode) => anode.object.as_ref(),
        None => None,
    }
}

impl Plain for Fileset {
    fn copy(&self) -> Result<Fileset, NoMemory> {
        Ok(Fileset {
            server: self.server,
            id: self.id,
            name: self.name.copy()?,
            read_only: self.read_only,
            objects: self.objects,
            moves: self.moves,
            anodes: self.anodes.copy()?,
        })
    }
}
