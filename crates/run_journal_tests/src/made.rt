//! The journal, put together.

use anyhow::Result;
use base_types::{Fid, FilesetId, HostId, Items, Name, Node, ServerId, User};
use message_types::{AppliedGive, Body, Direction, Ends, Give, Message};
use run_rules::{Answer, Applied, Cause, Journal, Step};
use std::alloc::Global;
use token_types::TokenId;
use tree_answers::{ServerRoom, Tree};
use tree_calls::{Call, HostLine, Piece, Place, Reply, Roster};

/// A tree with a server and no fileset; and then the steps.
pub fn journal(alloc: Global) -> Result<Journal> {
    let mut start = Items::new(alloc);
    start.push(tree(alloc)?)?;
    let mut epochs = Items::new(alloc);
    epochs.push(1)?;
    let mut steps = Items::new(alloc);
    steps.push(reading(alloc)?)?;
    steps.push(taking(alloc)?)?;
    Ok(Journal {
        start,
        epochs,
        steps,
    })
}

fn name(alloc: Global, text: &str) -> Result<Name> {
    Ok(Name::new(alloc, text.as_bytes())?)
}

fn names(alloc: Global, text: &str) -> Result<Items<Name>> {
    let mut names = Items::new(alloc);
    names.push(name(alloc, text)?)?;
    Ok(names)
}

fn tree(alloc: Global) -> Result<Tree> {
    let mut servers = Items::new(alloc);
    servers.push(ServerRoom {
        capacity: 64,
        next: 1,
    })?;
    Ok(Tree {
        roster: roster(alloc)?,
        servers,
        filesets: Items::new(alloc),
        away: Items::new(alloc),
        locks: Items::new(alloc),
        opens: Items::new(alloc),
    })
}

fn roster(alloc: Global) -> Result<Roster> {
    let mut hosts = Items::new(alloc);
    hosts.push(HostLine { user: 0, limit: 4 })?;
    let mut capacity = Items::new(alloc);
    capacity.push(64)?;
    let mut users = Items::new(alloc);
    users.push(User {
        name: name(alloc, "ann")?,
        groups: names(alloc, "staff")?,
    })?;
    Ok(Roster {
        users,
        hosts,
        capacity,
    })
}

fn step(alloc: Global, node: Node, cause: Cause) -> Step {
    Step {
        node,
        cause,
        asked: None,
        taken: Items::new(alloc),
        answers: Items::new(alloc),
        wrote: None,
        begun: Items::new(alloc),
        made: Items::new(alloc),
        dropped: Items::new(alloc),
        applied: Items::new(alloc),
        admitted: Items::new(alloc),
        sent: Items::new(alloc),
        shipped: Items::new(alloc),
        reserved: Items::new(alloc),
    }
}

// Line 7: a read whose reply is a 0, a quote, a backslash, a line feed and 200.
fn reading(alloc: Global) -> Result<Step> {
    let bytes = Items::from_slice(alloc, &[0, 34, 92, 10, 200])?;
    let call = Call::Read {
        place: Place {
            server: ServerId(1),
            fileset: name(alloc, "f")?,
            path: names(alloc, "a b")?,
        },
        from: 0,
        len: 5,
    };
    let mut answers = Items::new(alloc);
    answers.push(Answer {
        host: HostId(1),
        k: 1,
        call,
        reply: Reply::Bytes(bytes),
        first: true,
    })?;
    let mut step = step(alloc, Node::Host(HostId(1)), Cause::Line(7));
    step.answers = answers;
    Ok(step)
}

fn fid() -> Fid {
    Fid {
        fileset: FilesetId(65_537),
        anode: 2,
        unique: 3,
    }
}

fn unlock(alloc: Global) -> Result<Call> {
    Ok(Call::Unlock {
        label: name(alloc, "l")?,
    })
}

fn message(direction: Direction, body: Body) -> Message {
    Message {
        direction,
        host: HostId(1),
        server: ServerId(1),
        epoch: 1,
        moves: 0,
        body,
    }
}

fn give(alloc: Global) -> Result<Give> {
    let mut ids = Items::new(alloc);
    ids.push(TokenId {
        server: ServerId(1),
        epoch: 1,
        seq: 18_446_744_073_709_551_615,
    })?;
    let mut pieces = Items::new(alloc);
    pieces.push(Piece {
        from: 1,
        bytes: Items::from_slice(alloc, b"x")?,
    })?;
    Ok(Give {
        number: 1,
        fid: fid(),
        ids,
        pieces,
        length: Some(2),
        ends: Some(Ends {
            k: 2,
            call: unlock(alloc)?,
        }),
    })
}

// The server takes the give-back, has its reply, and says that it is applied.
fn taking(alloc: Global) -> Result<Step> {
    let mut applied = Items::new(alloc);
    applied.push(Applied::Replied(Answer {
        host: HostId(1),
        k: 2,
        call: unlock(alloc)?,
        reply: Reply::Ok,
        first: false,
    }))?;
    let gone = AppliedGive {
        fileset: FilesetId(65_537),
        number: 1,
    };
    let mut sent = Items::new(alloc);
    sent.push(message(Direction::ToHost, Body::Gone(gone)))?;
    let came = message(Direction::ToServer, Body::GiveBack(give(alloc)?));
    let mut step = step(alloc, Node::Server(ServerId(1)), Cause::Message(came));
    step.applied = applied;
    step.sent = sent;
    Ok(step)
}
