//! The numbers by which nodes, filesets and files are named (Kazar et al., "DEcorum File System Architectural
//! Overview", 1990; Chutani et al., "The Episode File System", 1992).

ghost use Rattle.std.specs.Prelude.{◌≡◌};
ghost use Rattle.base_types.specs.Opens.{opens_conflict};

use crate::errors::NoMemory;
use crate::plain::Plain;

/// A host: 0 is the setup host, 1 to 16 are the client hosts, and 17 stands for a file server's exporter, which takes
/// tokens as a host of its own.
#[derive(Clone, Copy, Debug, PartialEq, Eq, PartialOrd, Ord)]
pub struct HostId(pub u8);

impl HostId {
    /// The setup host.
    pub const SETUP: HostId = HostId(0);

    /// The exporter of a file server.
    pub const EXPORTER: HostId = HostId(17);
}

/// A file server, 1 to 4.
#[derive(Clone, Copy, Debug, PartialEq, Eq, PartialOrd, Ord)]
pub struct ServerId(pub u8);

/// A node of the service.
#[derive(Clone, Copy, Debug, PartialEq, Eq)]
pub enum Node {
    /// A client host, or the setup host.
    Host(HostId),
    /// A file server.
    Server(ServerId),
}

/// A fileset: `server * 65_536 + number`, with numbers from 1. 0 stands for the server itself.
#[derive(Clone, Copy, Debug, PartialEq, Eq, PartialOrd, Ord)]
pub struct FilesetId(pub u32);

/// A file or directory: its fileset, its anode there, counted from 1, and the unique number of the anode's use. The
/// root of a fileset is anode 1 with unique number 1.
#[derive(Clone, Copy, Debug, PartialEq, Eq, PartialOrd, Ord)]
pub struct Fid {
    /// The fileset.
    pub fileset: FilesetId,
    /// The place in the fileset's table of anodes, from 1.
    pub anode: u32,
    /// How often the anode has been used, this use counted.
    pub unique: u32,
}

/// How a file is opened. Opens of two hosts conflict as `conflicts` says (the table is this project's own).
#[derive(Clone, Copy, Debug, PartialEq, Eq)]
pub enum OpenKind {
    /// For reading.
    Reading,
    /// For writing.
    Writing,
    /// For execution.
    Executing,
    /// For reading, while nobody else writes.
    Shared,
    /// For writing, while nobody else has it open.
    Exclusive,
}

impl OpenKind {
    /// Whether two hosts can't have one file open so: exclusive conflicts with each kind, and writing with executing
    /// and shared.
    pub fn conflicts(self, other: OpenKind) -> bool
        ensures { result ≡ opens_conflict self other }
    {
        match (self, other) {
            (OpenKind::Exclusive, _) | (_, OpenKind::Exclusive) => true,
            (OpenKind::Writing, OpenKind::Executing | OpenKind::Shared) => true,
            (OpenKind::Executing | OpenKind::Shared, OpenKind::Writing) => true,
            _ => false,
        }
    }
}

impl Plain for HostId {
    fn copy(&self) -> Result<HostId, NoMemory> {
        Ok(*self)
    }
}

impl Plain for ServerId {
    fn copy(&self) -> Result<ServerId, NoMemory> {
        Ok(*self)
    }
}

impl Plain for FilesetId {
    fn copy(&self) -> Result<FilesetId, NoMemory> {
        Ok(*self)
    }
}

impl Plain for Fid {
    fn copy(&self) -> Result<Fid, NoMemory> {
        Ok(*self)
    }
}

impl Plain for OpenKind {
    fn copy(&self) -> Result<OpenKind, NoMemory> {
        Ok(*self)
    }
}
