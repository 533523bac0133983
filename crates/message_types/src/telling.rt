use base_types::{Fid, FilesetId, Items, NoMemory, Plain, ServerId};
use token_types::Token;
use tree_calls::{DirEntry, Piece, Reply, Status};

/// What an answer brings: tokens on one object, under a stamp.
pub struct Bring {
    /// The number of the request that it answers.
    pub number: u64,
    /// The object; none, which is three zeros, where a Done brings no token.
    pub fid: Fid,
    /// The serial stamp, counted per file and epoch; 0 where a Done brings no token.
    pub stamp: u64,
    /// The tokens.
    pub tokens: Items<Token>,
}

impl Drop for Bring {
    fn drop(self) {
        let Bring {
            number: _,
            fid: _,
            stamp: _,
            tokens: _,
        } = self;
    }
}

/// The answer to a Fetch.
pub struct Grant {
    /// What it brings.
    pub bring: Bring,
    /// The status of the object; none where it isn't there.
    pub status: Option<Status>,
    /// The bytes of a file under the tokens.
    pub pieces: Items<Piece>,
    /// The entries of a directory.
    pub entries: Items<DirEntry>,
}

impl Drop for Grant {
    fn drop(self) {
        let Grant {
            bring: _,
            status: _,
            pieces: _,
            entries: _,
        } = self;
    }
}

/// What became of a Change.
pub enum DoneIs {
    /// The call has this reply.
    Reply(Reply),
    /// The fileset has this number.
    Known(FilesetId),
    /// The token is granted, and the host answers the call under it.
    Granted,
    /// The host is to start the call anew.
    Again,
    /// The fileset moved to this server.
    Elsewhere(ServerId),
}

impl Drop for DoneIs {
    fn drop(self) {
        match self {
            DoneIs::Reply(_) => {}
            DoneIs::Known(_) => {}
            DoneIs::Granted => {}
            DoneIs::Again => {}
            DoneIs::Elsewhere(_) => {}
        }
    }
}

/// The answer to a Change.
pub struct Done {
    /// The fileset under which the Change was numbered.
    pub fileset: FilesetId,
    /// What became of it.
    pub outcome: DoneIs,
    /// What it brings.
    pub bring: Bring,
}

impl Drop for Done {
    fn drop(self) {
        let Done {
            fileset: _,
            outcome: _,
            bring: _,
        } = self;
    }
}

impl Plain for Bring {
    fn copy(&self) -> Result<Bring, NoMemory> {
        Ok(Bring {
            number: self.number,
            fid: self.fid,
            stamp: self.stamp,
            tokens: self.tokens.to_items()?,
        })
    }
}

impl Plain for Grant {
    fn copy(&self) -> Result<Grant, NoMemory> {
        Ok(Grant {
            bring: self.bring.copy()?,
            status: self.status.copy()?,
            pieces: self.pieces.copy()?,
            entries: self.entries.copy()?,
        })
    }
}

impl Plain for DoneIs {
    fn copy(&self) -> Result<DoneIs, NoMemory> {
        Ok(match self {
            DoneIs::Reply(reply) => DoneIs::Reply(reply.copy()?),
            DoneIs::Known(fileset) => DoneIs::Known(*fileset),
            DoneIs::Granted => DoneIs::Granted,
            DoneIs::Again => DoneIs::Again,
            DoneIs::Elsewhere(server) => DoneIs::Elsewhere(*server),
        })
    }
}

impl Plain for Done {
    fn copy(&self) -> Result<Done, NoMemory> {
        Ok(Done {
            fileset: self.fileset,
            outcome: self.outcome.copy()?,
            bring: self.bring.copy()?,
        })
    }
}
