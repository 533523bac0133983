ghost use Rattle.std.specs.Prelude.{◌≡◌};

use base_types::{Fid, FilesetId, HostId, Items, ServerId, Span};
use message_types::{Change, Fetch, Ship};
use token_types::{Need, Token};
use tree_calls::{Call, Mover, Reply};

/// Why a token leaves its host.
#[derive(Clone, Copy, PartialEq, Eq)]
pub enum Why {
    /// The server asked for it.
    Revoked,
    /// The host cached more tokens than it may.
    Evicted,
    /// A call of the host asks for it: a Sync, or the last unlock or close of a pinned token.
    ForCall,
    /// The host's lines have gone.
    Ended,
    /// The host stopped.
    Stopped,
}

/// A token that leaves its host.
#[derive(Clone, Copy)]
pub struct Leave {
    /// The token.
    pub token: Token,
    /// Why it leaves.
    pub why: Why,
}

/// The reply to a call of a host.
pub struct Answer {
    /// The host.
    pub host: HostId,
    /// The number of the call among the host's, from 1.
    pub k: u32,
    /// The call.
    pub call: Call,
    /// The reply.
    pub reply: Reply,
    /// Whether it comes in the step that begins the call.
    pub first: bool,
}

impl Drop for Answer {
    fn drop(self) {
        let Answer {
            host: _,
            k: _,
            call: _,
            reply: _,
            first: _,
        } = self;
    }
}

/// A Change that a server writes down, with its reply.
pub struct Written {
    /// The fileset under which the Change is numbered.
    pub fileset: FilesetId,
    /// Its number among the Changes of the host and the fileset.
    pub number: u64,
    /// The reply to its call.
    pub answer: Answer,
}

impl Drop for Written {
    fn drop(self) {
        let Written {
            fileset: _,
            number: _,
            answer: _,
        } = self;
    }
}

/// A request of a host, which a server is to decide.
pub enum Request {
    /// Tokens are asked for.
    Fetch(Fetch),
    /// A call is to be decided.
    Change(Change),
}

impl Drop for Request {
    fn drop(self) {
        match self {
            Request::Fetch(_) => {}
            Request::Change(_) => {}
        }
    }
}

/// What a request of a host wants, from now on: a want stands in its server's queue, behind all earlier ones.
pub struct Wanted {
    /// The host.
    pub host: HostId,
    /// The request.
    pub request: Request,
    /// How often its fileset had moved, as the host knew it.
    pub moves: u32,
    /// What is needed before the request can be decided.
    pub needs: Items<Need>,
}

impl Wanted {
    /// The request alone.
    pub fn into_request(self) -> Request
        ensures { result ≡ self.request }
    {
        let Wanted {
            host: _,
            request,
            moves: _,
            needs: _,
        } = self;
        request
    }
}

impl Drop for Wanted {
    fn drop(self) {
        let Wanted {
            host: _,
            request: _,
            moves: _,
            needs: _,
        } = self;
    }
}

/// The head of a fileset that comes from another server, and what becomes of the call that moves it.
pub struct Head {
    /// The server from which it comes.
    pub from: ServerId,
    /// How often the fileset has moved, once it is here.
    pub moves: u32,
    /// The part itself, which is the head.
    pub ship: Ship,
    /// The call that moves it, with its reply. The fileset is taken where that isn't a refusal.
    pub written: Written,
}

impl Drop for Head {
    fn drop(self) {
        let Head {
            from: _,
            moves: _,
            ship: _,
            written: _,
        } = self;
    }
}

/// What becomes, at a server, of a fileset that moves.
pub enum Move {
    /// It begins to leave for another server.
    Leaves {
        /// The fileset.
        fileset: FilesetId,
        /// The server to which it moves.
        to: ServerId,
        /// The number of the shipment among those of this server, from 1.
        ship: u64,
        /// Whose call moves it.
        mover: Mover,
    },
    /// Its head is taken, or refused: now the call that moves it has its reply.
    Arrives(Head),
    /// A part of it is taken.
    Part {
        /// The fileset.
        fileset: FilesetId,
        /// Whether it is the last one, with which the fileset is here.
        last: bool,
    },
    /// Its head was refused. It stays, and the call that moves it has this reply.
    Back(Written),
    /// It has left: all its parts were taken.
    Left {
        /// The fileset.
        fileset: FilesetId,
        /// The server to which it moved.
        to: ServerId,
    },
}

impl Drop for Move {
    fn drop(self) {
        match self {
            Move::Leaves {
                fileset: _,
                to: _,
                ship: _,
                mover: _,
            } => {}
            Move::Arrives(_) => {}
            Move::Part {
                fileset: _,
                last: _,
            } => {}
            Move::Back(_) => {}
            Move::Left { fileset: _, to: _ } => {}
        }
    }
}

/// What a server decided, stored or learnt.
pub enum Applied {
    /// Bytes of a give-back became kept in these spans, and its length where it has one.
    Stored {
        /// The host whose they were.
        host: HostId,
        /// The file.
        fid: Fid,
        /// Where its bytes became kept.
        spans: Items<Span>,
        /// The length that became kept, in bytes.
        length: Option<u32>,
    },
    /// The reply to the call that a give-back ends.
    Replied(Answer),
    /// The host is down.
    IsDown(HostId),
    /// A request makes a want, or makes its want anew.
    Wants(Wanted),
    /// A Change is decided and written down.
    Done(Written),
    /// What becomes of a fileset that moves.
    Moves(Move),
}

impl Drop for Applied {
    fn drop(self) {
        match self {
            Applied::Stored {
                host: _,
                fid: _,
                spans: _,
                length: _,
            } => {}
            Applied::Replied(_) => {}
            Applied::IsDown(_) => {}
            Applied::Wants(_) => {}
            Applied::Done(_) => {}
            Applied::Moves(_) => {}
        }
    }
}

/// Tokens that are granted again to the host that claims them.
pub struct Admission {
    /// The host.
    pub host: HostId,
    /// The tokens.
    pub tokens: Items<Token>,
}

impl Drop for Admission {
    fn drop(self) {
        let Admission { host: _, tokens: _ } = self;
    }
}
