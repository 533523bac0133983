use crate::unsaved::UnsavedBytes;
use base_types::{AccessList, HostId, Items, Name, NoMemory, Plain};
use tree_calls::DirEntry;

/// A byte of a file that a host has written and not stored yet.
#[derive(Clone, Copy)]
pub struct Unsaved {
    /// The position in the file, in bytes.
    pub at: u32,
    /// The byte.
    pub value: u8,
    /// The host that wrote it.
    pub writer: HostId,
}

/// A length of a file that a host has made and not stored yet.
#[derive(Clone, Copy)]
pub struct UnsavedLength {
    /// The length in bytes.
    pub length: u32,
    /// The host that made it.
    pub writer: HostId,
}

/// What an object contains. What readers see of a file, its present bytes and length, are the unsaved ones where there
/// are any, and else the kept ones.
pub enum Content {
    /// A directory.
    Dir {
        /// Its entries, in the order of their names.
        entries: Items<DirEntry>,
        /// Its own access list, that of new files and that of new directories.
        lists: Items<AccessList>,
    },
    /// A file.
    File {
        /// Its access list.
        list: AccessList,
        /// The bytes that are kept.
        kept: Items<u8>,
        /// The bytes that aren't stored yet.
        unsaved: UnsavedBytes,
        /// The length that isn't stored yet.
        length: Option<UnsavedLength>,
    },
}

impl Drop for Content {
    fn drop(self) {
        match self {
            Content::Dir {
                entries: _,
                lists: _,
            } => {}
            Content::File {
                list: _,
                kept: _,
                unsaved: _,
                length: _,
            } => {}
        }
    }
}

/// A file or a directory.
pub struct Object {
    /// The name of its owner.
    pub owner: Name,
    /// The group that it belongs to.
    pub group: Name,
    /// What it contains.
    pub content: Content,
}

impl Drop for Object {
    fn drop(self) {
        let Object {
            owner: _,
            group: _,
            content: _,
        } = self;
    }
}

/// A place for an object in a fileset.
pub struct Anode {
    /// How often it has been used, the present use counted.
    pub unique: u32,
    /// The object of the present use.
    pub object: Option<Object>,
}

impl Drop for Anode {
    fn drop(self) {
        let Anode {
            unique: _,
            object: _,
        } = self;
    }
}

impl Plain for Content {
    fn copy(&self) -> Result<Content, NoMemory> {
        Ok(match self {
            Content::Dir { entries, lists } => Content::Dir {
                entries: entries.copy()?,
                lists: lists.copy()?,
            },
            Content::File {
                list,
                kept,
                unsaved,
                length,
            } => Content::File {
                list: list.copy()?,
                kept: kept.to_items()?,
                unsaved: unsaved.copy()?,
                length: *length,
            },
        })
    }
}

impl Plain for Object {
    fn copy(&self) -> Result<Object, NoMemory> {
        Ok(Object {
            owner: self.owner.copy()?,
            group: self.group.copy()?,
            content: self.content.copy()?,
        })
    }
}

impl Plain for Anode {
    fn copy(&self) -> Result<Anode, NoMemory> {
        Ok(Anode {
            unique: self.unique,
            object: self.object.copy()?,
        })
    }
}
