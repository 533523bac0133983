ghost use Rattle.std.specs.Prelude.{◌≡◌, ◌≤◌, ◌++◌, IfOk, OnOk};
ghost use Rattle.message_spelling.specs.Messages.{
  Decodes,
  OneSpelling,
  ReadsBack,
  spelling,
  spell_message,
  message_at,
  direction_code,
  direction_of,
  goes_to_host,
  goes_between,
  least_direction,
  most_direction,
  most_host,
  most_epoch,
};
ghost use Rattle.message_parts.specs.Reading.{Gives, number_at};
ghost use Rattle.message_parts.specs.Words.{coded_at, host_of};

use crate::body::{body_of, body_tag, write_body};
use base_types::{HostId, Items, NoMemory, ServerId};
use message_parts::{Part, Stopped, number_at, push_number};
use message_types::{Direction, Message};
use std::alloc::Global;
use thiserror::Error;

/// Why bytes were not decoded.
#[derive(Clone, Copy, Debug, PartialEq, Eq, Error)]
pub enum DecodeRefused {
    /// No message begins the bytes. So many of them, and no more, begin some message.
    #[error("no message")]
    BadMessage(usize),
    /// Memory ran out.
    #[error("memory ran out")]
    Memory,
}

/// Writes the one spelling of a message. It is read back where the message is spellable: the host is at most 17 and the
/// server 1 to 4, it goes the way that its body goes, between servers its host and epoch are 0, it has moves only where
/// its body speaks of a fileset, each list has room for its count, pieces have at most 65,536 bytes together, a status
/// has one access list for a file and three for a directory, rights are below 64, and the call that a give-back answers
/// is an `Unlock` or a `CloseFile`. It fails only for want of memory.
pub fn encode(alloc: Global, message: &Message) -> Result<Vec<u8>, NoMemory>
    ensures { IfOk result (λ bytes. bytes.items ≡ spelling message.now) }
{
    let mut out = Items::new(alloc);
    write_message(message, &mut out)?;
    Ok(out.into_vec())
}

/// Reads the message at the front of the bytes, and its length in bytes. Memory is taken as the bytes come, whatever
/// their counts say. `BadMessage` comes exactly where no message stands there, with the number of bytes up to the first
/// after which none goes on; `Memory` only where memory ran out.
pub fn decode(alloc: Global, bytes: &[u8]) -> Result<(Message, usize), DecodeRefused>
    ensures { Decodes result bytes.now }
{
    match message_at(alloc, bytes) {
        Ok((message, rest)) => Ok((message, bytes.len() - rest.len())),
        Err(Stopped::Bad(left)) => Err(DecodeRefused::BadMessage(bytes.len() - left)),
        Err(Stopped::Memory) => Err(DecodeRefused::Memory),
    }
}

/// No spelling is a prefix of another's, and two messages with one spelling are equal.
pub fn one_spelling()
    ensures { OneSpelling }
{}

/// What was written is read back, whatever follows.
pub fn reads_back()
    ensures { ReadsBack }
{}

#[tactic(auto, unfolding(crate::specs::Messages::spell_message, message_parts::specs::Words::coded, message_parts::specs::Spelled::number))]
fn write_message(message: &Message, out: &mut Items<u8>) -> Result<(), NoMemory>
    ensures { OnOk result (out.new ≡ out.old ++ (spell_message message.now).bytes) }
{
    push_number(out, 1, body_tag(&message.body))?;
    push_number(out, 1, direction_code(message.direction))?;
    push_number(out, 1, message.host.0 as u64)?;
    message.server.write(out)?;
    push_number(out, 8, message.epoch)?;
    write_body(message.moves, &message.body, out)
}

#[tactic(auto, unfolding(crate::specs::Messages::message_at))]
fn message_at(alloc: Global, bytes: &[u8]) -> Result<(Message, &[u8]), Stopped>
    ensures { Gives (λ x. (x.0, x.1.now)) result (message_at bytes.now) }
{
    let (tag, rest) = number_at(bytes, 1, 1, 18)?;
    let (direction, rest) = direction_at(tag, rest)?;
    let (host, rest) = host_at(direction, rest)?;
    let (server, rest) = ServerId::read(alloc, rest)?;
    let (epoch, rest) = number_at(rest, 8, 0, most_epoch(direction))?;
    let ((moves, body), rest) = body_of(alloc, tag, rest)?;
    Ok((
        Message {
            direction,
            host,
            server,
            epoch,
            moves,
            body,
        },
        rest,
    ))
}

/// Reads which way a message of the kind with this number goes.
#[tactic(auto, unfolding(message_parts::specs::Words::coded_at))]
fn direction_at(tag: u64, bytes: &[u8]) -> Result<(Direction, &[u8]), Stopped>
    ensures { let direction_at = coded_at (least_direction tag) (most_direction tag) direction_of in
        Gives (λ x. (x.0, x.1.now)) result (direction_at bytes.now) }
{
    let (code, rest) = number_at(bytes, 1, least_direction(tag), most_direction(tag))?;
    Ok((direction_of(code), rest))
}

fn least_direction(tag: u64) -> u64
    ensures value { result ≡ least_direction tag }
    ensures order { result ≤ most_direction tag }
{
    if goes_between(tag) {
        2
    } else if goes_to_host(tag) {
        1
    } else {
        0
    }
}

fn most_direction(tag: u64) -> u64
    ensures value { result ≡ most_direction tag }
    ensures few { result ≤ 2 }
{
    if goes_between(tag) {
        2
    } else if goes_to_host(tag) || tag == 15 {
        1
    } else {
        0
    }
}

fn goes_between(tag: u64) -> bool
    ensures { result ≡ goes_between tag }
{
    tag == 17 || tag == 18
}

fn goes_to_host(tag: u64) -> bool
    ensures { result ≡ goes_to_host tag }
{
    tag == 3 || tag == 5 || tag == 6 || tag == 10 || tag == 12 || tag == 13 || tag == 16
}

/// Reads the host of a message that goes this way.
#[tactic(auto, unfolding(message_parts::specs::Words::coded_at))]
fn host_at(direction: Direction, bytes: &[u8]) -> Result<(HostId, &[u8]), Stopped>
    ensures { Gives (λ x. (x.0, x.1.now)) result (coded_at 0 (most_host direction) host_of bytes.now) }
{
    let (number, rest) = number_at(bytes, 1, 0, most_host(direction))?;
    Ok((HostId(number as u8), rest))
}

fn most_host(direction: Direction) -> u64
    ensures value { result ≡ most_host direction }
    ensures few { result ≤ 17 }
{
    match direction {
        Direction::ToServer => 17,
        Direction::ToHost => 17,
        Direction::BetweenServers => 0,
    }
}

fn most_epoch(direction: Direction) -> u64
    ensures { result ≡ most_epoch direction }
{
    match direction {
        Direction::ToServer => u64::MAX,
        Direction::ToHost => u64::MAX,
        Direction::BetweenServers => 0,
    }
}

fn direction_code(direction: Direction) -> u64
    ensures { result ≡ direction_code direction }
{
    match direction {
        Direction::ToServer => 0,
        Direction::ToHost => 1,
        Direction::BetweenServers => 2,
    }
}

fn direction_of(code: u64) -> Direction
    ensures { result ≡ direction_of code }
{
    match code {
        0 => Direction::ToServer,
        1 => Direction::ToHost,
        _ => Direction::BetweenServers,
    }
}
