use crate::asking::{Change, Fetch};
use crate::giving::{AppliedGive, Give, Reclaim, Reclaimed};
use crate::moving::{NotHere, Ship, Shipped};
use crate::telling::{Done, Grant};
use crate::tokens::{Named, Revoke};
use base_types::{HostId, NoMemory, Plain, ServerId};

/// From whom to whom a message goes.
#[derive(Clone, Copy, PartialEq, Eq)]
pub enum Direction {
    /// From its host to its server.
    ToServer,
    /// From its server to its host.
    ToHost,
    /// From its server to the server that its body names first.
    BetweenServers,
}

/// What a message says.
pub enum Body {
    /// A host greets a server.
    Hello,
    /// A host asks for tokens on an object.
    Fetch(Fetch),
    /// The tokens that a Fetch asked for, and what they show.
    Grant(Grant),
    /// A host asks the server to decide a call.
    Change(Change),
    /// What became of a Change.
    Done(Done),
    /// A server asks for tokens back.
    Revoke(Revoke),
    /// Tokens come back that have nothing to save, or aren't held.
    Returned(Named),
    /// Tokens are in use, and the host keeps them.
    Kept(Named),
    /// What a host has to save of a file, with tokens that leave.
    GiveBack(Give),
    /// A give-back was applied.
    Gone(AppliedGive),
    /// A host claims its tokens from a server that has restarted.
    Reclaim(Reclaim),
    /// What became of a claim, or of a greeting.
    Reclaimed(Reclaimed),
    /// A server says that it has restarted.
    Restarted,
    /// A host has stopped.
    Down,
    /// A host has ended, or a server knows that it has.
    Bye,
    /// The fileset that a request is about has moved to another server.
    NotHere(NotHere),
    /// A part of a fileset that moves.
    Ship(Ship),
    /// A part has been taken, or refused.
    Shipped(Shipped),
}

impl Drop for Body {
    fn drop(self) {
        match self {
            Body::Hello => {}
            Body::Fetch(_) => {}
            Body::Grant(_) => {}
            Body::Change(_) => {}
            Body::Done(_) => {}
            Body::Revoke(_) => {}
            Body::Returned(_) => {}
            Body::Kept(_) => {}
            Body::GiveBack(_) => {}
            Body::Gone(_) => {}
            Body::Reclaim(_) => {}
            Body::Reclaimed(_) => {}
            Body::Restarted => {}
            Body::Down => {}
            Body::Bye => {}
            Body::NotHere(_) => {}
            Body::Ship(_) => {}
            Body::Shipped(_) => {}
        }
    }
}

/// A message between a host and a server, or between two servers.
pub struct Message {
    /// From whom to whom it goes.
    pub direction: Direction,
    /// The host; the setup host between servers.
    pub host: HostId,
    /// The server; between servers the one that sends.
    pub server: ServerId,
    /// The server's epoch, as the sender knows it; 0 between servers.
    pub epoch: u64,
    /// How often the fileset that it speaks of has moved between servers, as the sender knows it; 0 where it speaks of
    /// none.
    pub moves: u32,
    /// What it says.
    pub body: Body,
}

impl Drop for Message {
    fn drop(self) {
        let Message {
            direction: _,
            host: _,
            server: _,
            epoch: _,
            moves: _,
            body: _,
        } = self;
    }
}

impl Plain for Body {
    fn copy(&self) -> Result<Body, NoMemory> {
        Ok(match self {
            Body::Hello => Body::Hello,
            Body::Fetch(fetch) => Body::Fetch(fetch.copy()?),
            Body::Grant(grant) => Body::Grant(grant.copy()?),
            Body::Change(change) => Body::Change(change.copy()?),
            Body::Done(done) => Body::Done(done.copy()?),
            Body::Revoke(revoke) => Body::Revoke(revoke.copy()?),
            Body::Returned(named) => Body::Returned(named.copy()?),
            Body::Kept(named) => Body::Kept(named.copy()?),
            Body::GiveBack(give) => Body::GiveBack(give.copy()?),
            Body::Gone(applied) => Body::Gone(*applied),
            Body::Reclaim(reclaim) => Body::Reclaim(reclaim.copy()?),
            Body::Reclaimed(reclaimed) => Body::Reclaimed(reclaimed.copy()?),
            Body::Restarted => Body::Restarted,
            Body::Down => Body::Down,
            Body::Bye => Body::Bye,
            Body::NotHere(not_here) => Body::NotHere(*not_here),
            Body::Ship(ship) => Body::Ship(ship.copy()?),
            Body::Shipped(shipped) => Body::Shipped(shipped.copy()?),
        })
    }
}

impl Plain for Message {
    fn copy(&self) -> Result<Message, NoMemory> {
        Ok(Message {
            direction: self.direction,
            host: self.host,
            server: self.server,
            epoch: self.epoch,
            moves: self.moves,
            body: self.body.copy()?,
        })
    }
}
