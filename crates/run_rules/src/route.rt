ghost use Rattle.std.specs.Prelude.{◌≡◌, ◌≤◌};
ghost use Rattle.run_rules.specs.Plans.{kind_of, receiver, resender, says_down, sender, shipped_to};

use base_types::{Node, ServerId};
use message_types::{Body, Direction, Message};

/// The kind of a message, as plan lines number it.
pub fn kind_of(body: &Body) -> u8
    ensures kind { result ≡ kind_of body.now }
    ensures few { result ≤ 18 }
{
    match body {
        Body::Hello => 1,
        Body::Fetch(_) => 2,
        Body::Grant(_) => 3,
        Body::Change(_) => 4,
        Body::Done(_) => 5,
        Body::Revoke(_) => 6,
        Body::Returned(_) => 7,
        Body::Kept(_) => 8,
        Body::GiveBack(_) => 9,
        Body::Gone(_) => 10,
        Body::Reclaim(_) => 11,
        Body::Reclaimed(_) => 12,
        Body::Restarted => 13,
        Body::Down => 14,
        Body::Bye => 15,
        Body::NotHere(_) => 16,
        Body::Ship(_) => 17,
        Body::Shipped(_) => 18,
    }
}

/// Whether it says that a host has stopped. Such a message is never lost, held or delayed.
pub fn says_down(message: &Message) -> bool
    ensures { result ≡ says_down message.now }
{
    kind_of(&message.body) == 14
}

fn shipped_to(message: &Message) -> ServerId
    ensures { result ≡ shipped_to message.now }
{
    match &message.body {
        Body::Ship(ship) => ship.to,
        Body::Shipped(shipped) => shipped.to,
        _ => message.server,
    }
}

/// Who sends a message.
pub fn sender(message: &Message) -> Node
    ensures { result ≡ sender message.now }
{
    match message.direction {
        Direction::ToServer => Node::Host(message.host),
        Direction::ToHost => Node::Server(message.server),
        Direction::BetweenServers => Node::Server(message.server),
    }
}

/// To whom a message goes.
pub fn receiver(message: &Message) -> Node
    ensures { result ≡ receiver message.now }
{
    match message.direction {
        Direction::ToServer => Node::Server(message.server),
        Direction::ToHost => Node::Host(message.host),
        Direction::BetweenServers => Node::Server(shipped_to(message)),
    }
}

/// Who sends again where a message is lost: the side that waits for an answer.
pub fn resender(message: &Message) -> Node
    ensures { result ≡ resender message.now }
{
    match &message.body {
        Body::Revoke(_) | Body::Returned(_) | Body::Kept(_) => Node::Server(message.server),
        Body::Restarted | Body::Ship(_) => Node::Server(message.server),
        Body::Shipped(shipped) => Node::Server(shipped.to),
        _ => Node::Host(message.host),
    }
}
