use base_types::{AccessList, Items, Name, NoMemory, Plain, Rights};

/// Why a call is refused. A refused call changes nothing.
#[derive(Clone, Copy, Debug, PartialEq, Eq)]
pub enum Refusal {
    /// A name of the path isn't in its directory.
    NoEntry,
    /// A directory is wanted, and the object is a file.
    NotDir,
    /// A file is wanted, and the object is a directory.
    IsDir,
    /// The name is there already.
    Exists,
    /// The directory to be removed has entries.
    NotEmpty,
    /// The caller lacks this right.
    Denied(Rights),
    /// The file, or the span, would end behind the last byte that a file can have.
    TooBig,
    /// No object, fileset, lock or open more is allowed.
    TooMany,
    /// The server's capacity is promised to others.
    NoRoom,
    /// The fileset is a clone.
    ReadOnly,
    /// Another host has a lock that excludes this one.
    Locked,
    /// Another host has the file open in a way that excludes this one.
    OpenConflict,
    /// The object is locked or open, or it is the root of a fileset.
    InUse,
    /// A directory can't be moved into itself.
    Loop,
    /// No fileset of this name is at the server, and none of this name left it.
    NoFileset,
    /// Both places of a move must be in one fileset.
    CrossFileset,
    /// The caller has no lock with this label.
    NotLocked,
    /// The caller has no open file with this label.
    NotOpened,
    /// The label of a lock, or some of its bytes, is taken by a lock of the caller.
    AlreadyLocked,
    /// The label of an open file is taken.
    AlreadyOpened,
    /// The fileset moved: it is at another server than the place names.
    NotHome,
}

/// What is told of an object.
#[derive(PartialEq)]
pub struct Facts {
    /// Whether it is a directory.
    pub dir: bool,
    /// The bytes of a file, or the entries of a directory.
    pub length: u32,
    /// The name of its owner.
    pub owner: Name,
    /// The rights that the caller has on it.
    pub rights: Rights,
}

impl Drop for Facts {
    fn drop(self) {
        let Facts {
            dir: _,
            length: _,
            owner: _,
            rights: _,
        } = self;
    }
}

/// The reply to a call.
#[derive(PartialEq)]
pub enum Reply {
    /// The call is done.
    Ok,
    /// The bytes that were read.
    Bytes(Items<u8>),
    /// The names in a directory, in the order of their bytes.
    Names(Items<Name>),
    /// What is told of an object.
    Facts(Facts),
    /// An access list.
    Access(AccessList),
    /// The call was refused, and nothing changed.
    Refused(Refusal),
}

impl Drop for Reply {
    fn drop(self) {
        match self {
            Reply::Ok => {}
            Reply::Bytes(_) => {}
            Reply::Names(_) => {}
            Reply::Facts(_) => {}
            Reply::Access(_) => {}
            Reply::Refused(_) => {}
        }
    }
}

impl Plain for Facts {
    fn copy(&self) -> Result<Facts, NoMemory> {
        Ok(Facts {
            dir: self.dir,
            length: self.length,
            owner: self.owner.copy()?,
            rights: self.rights,
        })
    }
}

impl Plain for Reply {
    fn copy(&self) -> Result<Reply, NoMemory> {
        Ok(match self {
            Reply::Ok => Reply::Ok,
            Reply::Bytes(bytes) => Reply::Bytes(bytes.to_items()?),
            Reply::Names(names) => Reply::Names(names.copy()?),
            Reply::Facts(facts) => Reply::Facts(facts.copy()?),
            Reply::Access(list) => Reply::Access(list.copy()?),
            Reply::Refused(refusal) => Reply::Refused(*refusal),
        })
    }
}
