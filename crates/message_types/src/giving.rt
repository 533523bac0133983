use base_types::{Fid, FilesetId, Items, NoMemory, Plain};
use token_types::{Token, TokenId};
use tree_calls::{Call, Piece};

/// The call that a give-back answers: the end of a lock, or of an open, whose token was pinned.
pub struct Ends {
    /// The number of the call among the host's, from 1.
    pub k: u32,
    /// The call itself, an `Unlock` or a `CloseFile`.
    pub call: Call,
}

impl Drop for Ends {
    fn drop(self) {
        let Ends { k: _, call: _ } = self;
    }
}

/// What a host gives back of one file.
pub struct Give {
    /// Its number among those of the host and the fileset, from 1. It goes on over epochs and moves.
    pub number: u64,
    /// The file.
    pub fid: Fid,
    /// The tokens that leave the host with it.
    pub ids: Items<TokenId>,
    /// The bytes to be kept.
    pub pieces: Items<Piece>,
    /// The length to be kept, in bytes.
    pub length: Option<u32>,
    /// The call that it answers, where it answers one.
    pub ends: Option<Ends>,
}

impl Drop for Give {
    fn drop(self) {
        let Give {
            number: _,
            fid: _,
            ids: _,
            pieces: _,
            length: _,
            ends: _,
        } = self;
    }
}

/// A give-back that was applied.
#[derive(Clone, Copy, PartialEq)]
pub struct AppliedGive {
    /// The fileset under which it is numbered.
    pub fileset: FilesetId,
    /// Its number.
    pub number: u64,
}

/// What a host has outstanding at a fileset.
#[derive(Clone, Copy, PartialEq)]
pub struct Outstanding {
    /// The fileset.
    pub fileset: FilesetId,
    /// How often the fileset has moved, as the host knows it.
    pub moves: u32,
    /// The number of the give-back, 0 for none.
    pub give: u64,
    /// The number of the Change, 0 for none.
    pub change: u64,
}

/// What a host claims from a server that has restarted.
pub struct Reclaim {
    /// The tokens that the server granted in earlier epochs, and that the host has.
    pub tokens: Items<Token>,
    /// What is outstanding at each fileset that the claim names.
    pub numbers: Items<Outstanding>,
}

impl Drop for Reclaim {
    fn drop(self) {
        let Reclaim {
            tokens: _,
            numbers: _,
        } = self;
    }
}

/// What a server says of a claim.
pub struct Reclaimed {
    /// Of the outstanding give-backs those that were applied.
    pub applied: Items<AppliedGive>,
    /// The tokens that aren't granted again.
    pub left_out: Items<TokenId>,
}

impl Drop for Reclaimed {
    fn drop(self) {
        let Reclaimed {
            applied: _,
            left_out: _,
        } = self;
    }
}

impl Plain for Ends {
    fn copy(&self) -> Result<Ends, NoMemory> {
        Ok(Ends {
            k: self.k,
            call: self.call.copy()?,
        })
    }
}

impl Plain for Give {
    fn copy(&self) -> Result<Give, NoMemory> {
        Ok(Give {
            number: self.number,
            fid: self.fid,
            ids: self.ids.to_items()?,
            pieces: self.pieces.copy()?,
            length: self.length,
            ends: self.ends.copy()?,
        })
    }
}

impl Plain for AppliedGive {
    fn copy(&self) -> Result<AppliedGive, NoMemory> {
        Ok(*self)
    }
}

impl Plain for Outstanding {
    fn copy(&self) -> Result<Outstanding, NoMemory> {
        Ok(*self)
    }
}

impl Plain for Reclaim {
    fn copy(&self) -> Result<Reclaim, NoMemory> {
        Ok(Reclaim {
            tokens: self.tokens.to_items()?,
            numbers: self.numbers.to_items()?,
        })
    }
}

impl Plain for Reclaimed {
    fn copy(&self) -> Result<Reclaimed, NoMemory> {
        Ok(Reclaimed {
            applied: self.applied.to_items()?,
            left_out: self.left_out.to_items()?,
        })
    }
}
