use base_types::{AccessList, Items, Name, NoMemory, Plain};

/// Bytes of a file, from a position on.
pub struct Piece {
    /// The position of the first byte.
    pub from: u32,
    /// The bytes.
    pub bytes: Items<u8>,
}

impl Drop for Piece {
    fn drop(self) {
        let Piece { from: _, bytes: _ } = self;
    }
}

/// A name in a directory, and the anode that it leads to.
pub struct DirEntry {
    /// The name.
    pub name: Name,
    /// The anode in the directory's fileset, from 1.
    pub anode: u32,
    /// The unique number of the anode's use.
    pub unique: u32,
}

impl Drop for DirEntry {
    fn drop(self) {
        let DirEntry {
            name: _,
            anode: _,
            unique: _,
        } = self;
    }
}

/// What a host caches of an object beside its bytes and entries.
pub struct Status {
    /// Whether it is a directory.
    pub dir: bool,
    /// Whether its fileset is a clone.
    pub read_only: bool,
    /// The bytes of a file, or the entries of a directory.
    pub length: u32,
    /// The name of its owner.
    pub owner: Name,
    /// The group that it belongs to.
    pub group: Name,
    /// The one list of a file, or the three of a directory in the order of `Which`.
    pub lists: Items<AccessList>,
}

impl Drop for Status {
    fn drop(self) {
        let Status {
            dir: _,
            read_only: _,
            length: _,
            owner: _,
            group: _,
            lists: _,
        } = self;
    }
}

impl Plain for Piece {
    fn copy(&self) -> Result<Piece, NoMemory> {
        Ok(Piece {
            from: self.from,
            bytes: self.bytes.to_items()?,
        })
    }
}

impl Plain for DirEntry {
    fn copy(&self) -> Result<DirEntry, NoMemory> {
        Ok(DirEntry {
            name: self.name.copy()?,
            anode: self.anode,
            unique: self.unique,
        })
    }
}

impl Plain for Status {
    fn copy(&self) -> Result<Status, NoMemory> {
        Ok(Status {
            dir: self.dir,
            read_only: self.read_only,
            length: self.length,
            owner: self.owner.copy()?,
            group: self.group.copy()?,
            lists: self.lists.copy()?,
        })
    }
}
