//! Messages by the names of their kinds. A message is known by its epoch, and says as little as its kind allows.

use crate::fault::Fault;
use base_types::{Fid, FilesetId, HostId, Items, Name, Node, ServerId};
use message_types::{
    AppliedGive, Body, Bring, Change, Direction, Done, DoneIs, Fetch, Give, Grant, Message, Named,
    NotHere, Reclaim, Reclaimed, Revoke, Ship, Shipped,
};
use std::alloc::Global;
use tree_calls::{Call, Reply, ShipPart};

/// What a message is to be: its kind by its number, from whom, to whom, and by which number it is known.
#[derive(Clone, Copy)]
pub struct Letter {
    pub kind: u8,
    pub from: Node,
    pub to: Node,
    pub number: u64,
}

// The names of the kinds, in the order of their numbers.
const KINDS: [&str; 18] = [
    "hello",
    "fetch",
    "grant",
    "change",
    "done",
    "revoke",
    "returned",
    "kept",
    "giveback",
    "gone",
    "reclaim",
    "reclaimed",
    "restarted",
    "down",
    "bye",
    "nothere",
    "ship",
    "shipped",
];

/// The number of a kind, from 1.
pub fn kind_of(word: &str) -> Option<u8> {
    let place = KINDS.iter().position(|kind| *kind == word)?;
    Some(place as u8 + 1)
}

/// A node by its name, as `c1` or `s2`.
pub fn node_of(word: &str) -> Option<Node> {
    if let Some(number) = word.strip_prefix("c") {
        return Some(Node::Host(HostId(number.parse::<u8>().ok()?)));
    }
    let number = word.strip_prefix("s")?;
    Some(Node::Server(ServerId(number.parse::<u8>().ok()?)))
}

/// The letter `KIND FROM TO NUMBER`.
pub fn letter_of(words: &str) -> Option<Letter> {
    let mut words = words.split_whitespace();
    Some(Letter {
        kind: kind_of(words.next()?)?,
        from: node_of(words.next()?)?,
        to: node_of(words.next()?)?,
        number: words.next()?.parse::<u64>().ok()?,
    })
}

// Between whom a message goes: the host, the server that the envelope names, and the one that a body between servers
// names.
#[derive(Clone, Copy)]
struct Ends {
    direction: Direction,
    host: HostId,
    server: ServerId,
    last: ServerId,
}

fn ends_of(letter: Letter) -> Ends {
    match (letter.from, letter.to) {
        (Node::Host(host), Node::Server(server)) => between(
            Direction::ToServer,
            host,
            server,
            server,
        ),
        (Node::Server(server), Node::Host(host)) => between(
            Direction::ToHost,
            host,
            server,
            server,
        ),
        (Node::Server(server), Node::Server(last)) => {
            between(Direction::BetweenServers, HostId(0), server, last)
        }
        (Node::Host(host), Node::Host(_)) => between(
            Direction::ToServer,
            host,
            ServerId(0),
            ServerId(0),
        ),
    }
}

fn between(direction: Direction, host: HostId, server: ServerId, last: ServerId) -> Ends {
    Ends {
        direction,
        host,
        server,
        last,
    }
}

/// Adds the message that a letter says.
pub fn add_message(alloc: Global, list: &mut Items<Message>, letter: Letter) -> Result<(), Fault> {
    let label = Name::new(alloc, b"l")?;
    list.push(message_of(alloc, letter, label))?;
    Ok(())
}

/// The message that a letter says; the label is for a call in it.
pub fn message_of(alloc: Global, letter: Letter, label: Name) -> Message {
    let ends = ends_of(letter);
    Message {
        direction: ends.direction,
        host: ends.host,
        server: ends.server,
        epoch: letter.number,
        moves: 0,
        body: body_of(alloc, letter.kind, ends.last, label),
    }
}

const FID: Fid = Fid {
    fileset: FilesetId(65_537),
    anode: 1,
    unique: 1,
};

fn body_of(alloc: Global, kind: u8, last: ServerId, label: Name) -> Body {
    match kind {
        2 | 4 | 9 | 11 => asking(alloc, kind, label),
        3 | 5 | 6 | 12 => telling(alloc, kind),
        7 => Body::Returned(named(alloc)),
        8 => Body::Kept(named(alloc)),
        10 => Body::Gone(AppliedGive {
            fileset: FID.fileset,
            number: 1,
        }),
        13 => Body::Restarted,
        14 => Body::Down,
        15 => Body::Bye,
        16 => Body::NotHere(NotHere {
            fileset: FID.fileset,
            to: last,
        }),
        17 | 18 => moving(alloc, kind, last),
        _ => Body::Hello,
    }
}

fn named(alloc: Global) -> Named {
    Named {
        fid: FID,
        ids: Items::new(alloc),
    }
}

fn asking(alloc: Global, kind: u8, label: Name) -> Body {
    match kind {
        2 => Body::Fetch(Fetch {
            number: 1,
            fid: FID,
            needs: Items::new(alloc),
        }),
        4 => Body::Change(Change {
            number: 1,
            fileset: FID.fileset,
            fid: FID,
            enter: false,
            k: 1,
            call: Call::Unlock { label },
        }),
        9 => Body::GiveBack(Give {
            number: 1,
            fid: FID,
            ids: Items::new(alloc),
            pieces: Items::new(alloc),
            length: None,
            ends: None,
        }),
        _ => Body::Reclaim(Reclaim {
            tokens: Items::new(alloc),
            numbers: Items::new(alloc),
        }),
    }
}

fn bring(alloc: Global) -> Bring {
    Bring {
        number: 1,
        fid: FID,
        stamp: 1,
        tokens: Items::new(alloc),
    }
}

fn telling(alloc: Global, kind: u8) -> Body {
    match kind {
        3 => Body::Grant(Grant {
            bring: bring(alloc),
            status: None,
            pieces: Items::new(alloc),
            entries: Items::new(alloc),
        }),
        5 => Body::Done(Done {
            fileset: FID.fileset,
            outcome: DoneIs::Granted,
            bring: bring(alloc),
        }),
        6 => Body::Revoke(Revoke {
            fid: FID,
            stamp: 1,
            ids: Items::new(alloc),
        }),
        _ => Body::Reclaimed(Reclaimed {
            applied: Items::new(alloc),
            left_out: Items::new(alloc),
        }),
    }
}

fn moving(alloc: Global, kind: u8, last: ServerId) -> Body {
    match kind {
        17 => Body::Ship(Ship {
            to: last,
            ship: 1,
            fileset: FID.fileset,
            at: 1,
            part: ShipPart::Object {
                anode: 1,
                unique: 0,
                status: None,
                pieces: Items::new(alloc),
                entries: Items::new(alloc),
            },
        }),
        _ => Body::Shipped(Shipped {
            to: last,
            ship: 1,
            at: 1,
            reply: Reply::Ok,
        }),
    }
}
