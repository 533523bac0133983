use base_types::{Fid, FilesetId, Items, NoMemory, Plain};
use token_types::Need;
use tree_calls::Call;

/// What a host needs of one object.
pub struct Fetch {
    /// Its number among the Fetches of the host and the fileset, from 1.
    pub number: u64,
    /// The object.
    pub fid: Fid,
    /// What the host lacks of it, at most `NEEDS_MAX`.
    pub needs: Items<Need>,
}

impl Drop for Fetch {
    fn drop(self) {
        let Fetch {
            number: _,
            fid: _,
            needs: _,
        } = self;
    }
}

/// A call that the server is to decide.
pub struct Change {
    /// Its number among the Changes of the host and the fileset, from 1.
    pub number: u64,
    /// The fileset under which it is numbered: 0 for the calls about filesets themselves, but for a move.
    pub fileset: FilesetId,
    /// The object that the host found at the path of a lock or an open; else none, which is three zeros.
    pub fid: Fid,
    /// Whether the host only enters the fileset, to learn its number.
    pub enter: bool,
    /// The number of the call among the host's, from 1.
    pub k: u32,
    /// The call itself.
    pub call: Call,
}

impl Drop for Change {
    fn drop(self) {
        let Change {
            number: _,
            fileset: _,
            fid: _,
            enter: _,
            k: _,
            call: _,
        } = self;
    }
}

impl Plain for Fetch {
    fn copy(&self) -> Result<Fetch, NoMemory> {
        Ok(Fetch {
            number: self.number,
            fid: self.fid,
            needs: self.needs.to_items()?,
        })
    }
}

impl Plain for Change {
    fn copy(&self) -> Result<Change, NoMemory> {
        Ok(Change {
            number: self.number,
            fileset: self.fileset,
            fid: self.fid,
            enter: self.enter,
            k: self.k,
            call: self.call.copy()?,
        })
    }
}
