ghost use Rattle.std.specs.Prelude.{◌≡◌, [], map, IfOk, OnOk};
ghost use Rattle.tree_answers.specs.Founding.{new_room, new_tree};

use base_types::{Fid, FilesetId, HostId, Items, Name, NoMemory, OpenKind, Plain, ServerId, Span};
use std::alloc::Global;
use tree_calls::Roster;
use tree_filesets::Fileset;

/// What a server has for further filesets.
#[derive(Clone, Copy)]
pub struct ServerRoom {
    /// The blocks that it offers to promises.
    pub capacity: u32,
    /// The number of its next fileset, from 1.
    pub next: u32,
}

/// A lock in use.
pub struct LockUse {
    /// The host that has it.
    pub host: HostId,
    /// The host's label of it.
    pub label: Name,
    /// The file.
    pub fid: Fid,
    /// Whether it is for writing, so that it excludes all others of its bytes.
    pub writing: bool,
    /// The bytes that are locked.
    pub span: Span,
}

impl Drop for LockUse {
    fn drop(self) {
        let LockUse {
            host: _,
            label: _,
            fid: _,
            writing: _,
            span: _,
        } = self;
    }
}

/// An open file.
pub struct OpenUse {
    /// The host that has it open.
    pub host: HostId,
    /// The host's label of it.
    pub label: Name,
    /// The file.
    pub fid: Fid,
    /// How it is open.
    pub kind: OpenKind,
}

impl Drop for OpenUse {
    fn drop(self) {
        let OpenUse {
            host: _,
            label: _,
            fid: _,
            kind: _,
        } = self;
    }
}

/// What a server notes of a fileset that moved away from it. A call with a place there still finds the fileset.
pub struct Away {
    /// The server.
    pub server: ServerId,
    /// The fileset.
    pub fileset: FilesetId,
    /// The fileset's name.
    pub name: Name,
    /// The server that it moved to from here. It may have moved on since.
    pub to: ServerId,
    /// Whether the blocks that the fileset is promised are still kept for it here: until the server learns that it has
    /// arrived.
    pub room_kept: bool,
}

impl Drop for Away {
    fn drop(self) {
        let Away {
            server: _,
            fileset: _,
            name: _,
            to: _,
            room_kept: _,
        } = self;
    }
}

/// The file tree of the whole service (Kazar et al., "DEcorum File System Architectural Overview", 1990; Chutani et
/// al., "The Episode File System", 1992).
pub struct Tree {
    /// Who takes part.
    pub roster: Roster,
    /// What each server has for further filesets, from the first server on.
    pub servers: Items<ServerRoom>,
    /// The filesets, in the order of their ids.
    pub filesets: Items<Fileset>,
    /// The records of filesets that moved away, by server and then by id; a server has at most one of a fileset.
    pub away: Items<Away>,
    /// The locks in use, by host and then by label.
    pub locks: Items<LockUse>,
    /// The open files, by host and then by label.
    pub opens: Items<OpenUse>,
}

impl Drop for Tree {
    fn drop(self) {
        let Tree {
            roster: _,
            servers: _,
            filesets: _,
            away: _,
            locks: _,
            opens: _,
        } = self;
    }
}

impl Plain for ServerRoom {
    fn copy(&self) -> Result<ServerRoom, NoMemory> {
        Ok(*self)
    }
}

impl Plain for LockUse {
    fn copy(&self) -> Result<LockUse, NoMemory> {
        Ok(LockUse {
            host: self.host,
            label: self.label.copy()?,
            fid: self.fid,
            writing: self.writing,
            span: self.span,
        })
    }
}

impl Plain for OpenUse {
    fn copy(&self) -> Result<OpenUse, NoMemory> {
        Ok(OpenUse {
            host: self.host,
            label: self.label.copy()?,
            fid: self.fid,
            kind: self.kind,
        })
    }
}

impl Plain for Away {
    fn copy(&self) -> Result<Away, NoMemory> {
        Ok(Away {
            server: self.server,
            fileset: self.fileset,
            name: self.name.copy()?,
            to: self.to,
            room_kept: self.room_kept,
        })
    }
}

impl Plain for Tree {
    fn copy(&self) -> Result<Tree, NoMemory> {
        Ok(Tree {
            roster: self.roster.copy()?,
            servers: self.servers.copy()?,
            filesets: self.filesets.copy()?,
            away: self.away.copy()?,
            locks: self.locks.copy()?,
            opens: self.opens.copy()?,
        })
    }
}

impl Tree {
    /// The tree of a roster, in which there is no fileset. `NoMemory` comes where memory runs out.
    pub fn new(alloc: Global, roster: &Roster) -> Result<Tree, NoMemory>
        ensures { IfOk result (λ tree. tree ≡ new_tree roster.now) }
    {
        Ok(Tree {
            roster: roster.copy()?,
            servers: rooms(alloc, &roster.capacity)?,
            filesets: Items::new(alloc),
            away: Items::new(alloc),
            locks: Items::new(alloc),
            opens: Items::new(alloc),
        })
    }
}

// What servers of these capacities have before their first filesets.
fn rooms(alloc: Global, capacity: &Items<u32>) -> Result<Items<ServerRoom>, NoMemory>
    ensures { IfOk result (λ rooms. rooms ≡ map new_room capacity.now) }
{
    let mut rooms = Items::new(alloc);
    for capacity in capacity.as_slice() {
        rooms.push(ServerRoom {
            capacity: *capacity,
            next: 1,
        })?;
    }
    Ok(rooms)
}
