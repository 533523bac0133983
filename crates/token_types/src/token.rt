ghost use Rattle.std.specs.Prelude.{◌≡◌};

use base_types::{Fid, HostId, NoMemory, OpenKind, Plain, ServerId, Span};

/// The number of a token: the server that granted it, the server's epoch then, and the place in the order of its
/// grants of that epoch. It is never used again, and stays the same when the token is reclaimed.
#[derive(Clone, Copy, PartialEq)]
pub struct TokenId {
    pub server: ServerId,
    pub epoch: u64,
    pub seq: u64,
}

/// What a token lets its host do with an object. Spans are in bytes.
#[derive(Clone, Copy, PartialEq)]
pub enum Kind {
    /// To cache these bytes of a file, or the entries of a directory, for reading or for update.
    Bytes { update: bool, span: Span },
    /// To cache the status of the object, for reading or for update.
    Status { update: bool },
    /// To lock these bytes of a file, for reading or for writing.
    Lock { writing: bool, span: Span },
    /// To have the file open in this way.
    Opening(OpenKind),
}

/// A token as a server granted it to a host.
#[derive(Clone, Copy, PartialEq)]
pub struct Token {
    pub id: TokenId,
    pub host: HostId,
    pub fid: Fid,
    pub kind: Kind,
}

/// What a host wants to do with an object.
#[derive(Clone, Copy, PartialEq)]
pub struct Need {
    pub fid: Fid,
    pub kind: Kind,
}

impl Token {
    ghost use Rattle.token_types.specs.Conflicts.{need_of};

    /// The need that the token meets.
    pub fn need(&self) -> Need
        ensures { result ≡ need_of self.now }
    {
        Need {
            fid: self.fid,
            kind: self.kind,
        }
    }
}

impl Plain for TokenId {
    fn copy(&self) -> Result<TokenId, NoMemory> {
        Ok(*self)
    }
}

impl Plain for Token {
    fn copy(&self) -> Result<Token, NoMemory> {
        Ok(*self)
    }
}

impl Plain for Need {
    fn copy(&self) -> Result<Need, NoMemory> {
        Ok(*self)
    }
}
