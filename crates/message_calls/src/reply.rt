ghost use Rattle.std.specs.Prelude.{◌≡◌, ◌++◌, OnOk};
ghost use Rattle.message_parts.specs.Reading.{Gives};
ghost use Rattle.message_calls.specs.Replies.{
  spell_facts,
  facts_at,
  spell_refusal,
  refusal_at,
  spell_reply,
  reply_at,
  refusal_tag,
  refusal_fields,
  refusal_of,
  reply_tag,
  reply_fields,
  reply_of,
  reply_bytes_at,
  reply_names_at,
  reply_facts_of_at,
  reply_access_at,
  reply_refused_at,
  refusal_denied_at,
};

use base_types::{AccessList, Items, Name, NoMemory, Rights};
use message_parts::{
    Part, Stopped, bits_at, bytes_at, number_at, push_number, short_at, write_bytes, write_short,
};
use std::alloc::Global;
use tree_calls::{Facts, Refusal, Reply};

/// Writes facts at the end.
#[tactic(auto, unfolding(crate::specs::Replies::spell_facts))]
pub fn write_facts(facts: &Facts, out: &mut Items<u8>) -> Result<(), NoMemory>
    ensures { OnOk result (out.new ≡ out.old ++ (spell_facts facts.now).bytes) }
{
    facts.dir.write(out)?;
    facts.length.write(out)?;
    facts.owner.write(out)?;
    facts.rights.write(out)
}

/// Reads facts at the front.
#[tactic(auto, unfolding(crate::specs::Replies::facts_at))]
pub fn facts_at(alloc: Global, bytes: &[u8]) -> Result<(Facts, &[u8]), Stopped>
    ensures { Gives (λ x. (x.0, x.1.now)) result (facts_at bytes.now) }
{
    let (dir, rest) = bool::read(alloc, bytes)?;
    let (length, rest) = u32::read(alloc, rest)?;
    let (owner, rest) = Name::read(alloc, rest)?;
    let (bits, rest) = bits_at(rest)?;
    Ok((
        Facts {
            dir,
            length,
            owner,
            rights: Rights::from_bits(bits),
        },
        rest,
    ))
}

/// The number of its kind.
fn refusal_tag(refusal: &Refusal) -> u64
    ensures { result ≡ refusal_tag refusal.now }
{
    match refusal {
        Refusal::NoEntry => 1,
        Refusal::NotDir => 2,
        Refusal::IsDir => 3,
        Refusal::Exists => 4,
        Refusal::NotEmpty => 5,
        Refusal::Denied(_) => 6,
        Refusal::TooBig => 7,
        Refusal::TooMany => 8,
        Refusal::NoRoom => 9,
        Refusal::ReadOnly => 10,
        Refusal::Locked => 11,
        Refusal::OpenConflict => 12,
        Refusal::InUse => 13,
        Refusal::Loop => 14,
        Refusal::NoFileset => 15,
        Refusal::CrossFileset => 16,
        Refusal::NotLocked => 17,
        Refusal::NotOpened => 18,
        Refusal::AlreadyLocked => 19,
        Refusal::AlreadyOpened => 20,
        Refusal::NotHome => 21,
    }
}

/// Writes its fields at the end.
#[tactic(auto, unfolding(crate::specs::Replies::refusal_fields))]
fn write_refusal_fields(refusal: &Refusal, out: &mut Items<u8>) -> Result<(), NoMemory>
    ensures { OnOk result (out.new ≡ out.old ++ (refusal_fields refusal.now).bytes) }
{
    match refusal {
        Refusal::NoEntry => Ok(()),
        Refusal::NotDir => Ok(()),
        Refusal::IsDir => Ok(()),
        Refusal::Exists => Ok(()),
        Refusal::NotEmpty => Ok(()),
        Refusal::Denied(rights) => rights.write(out),
        Refusal::TooBig => Ok(()),
        Refusal::TooMany => Ok(()),
        Refusal::NoRoom => Ok(()),
        Refusal::ReadOnly => Ok(()),
        Refusal::Locked => Ok(()),
        Refusal::OpenConflict => Ok(()),
        Refusal::InUse => Ok(()),
        Refusal::Loop => Ok(()),
        Refusal::NoFileset => Ok(()),
        Refusal::CrossFileset => Ok(()),
        Refusal::NotLocked => Ok(()),
        Refusal::NotOpened => Ok(()),
        Refusal::AlreadyLocked => Ok(()),
        Refusal::AlreadyOpened => Ok(()),
        Refusal::NotHome => Ok(()),
    }
}

#[tactic(auto, unfolding(crate::specs::Replies::refusal_denied_at))]
fn refusal_denied_at(_alloc: Global, bytes: &[u8]) -> Result<(Refusal, &[u8]), Stopped>
    ensures { Gives (λ x. (x.0, x.1.now)) result (refusal_denied_at bytes.now) }
{
    let (bits, rest) = bits_at(bytes)?;
    Ok((Refusal::Denied(Rights::from_bits(bits)), rest))
}

/// Reads the fields of the kind with this number.
#[tactic(auto, unfolding(crate::specs::Replies::refusal_of))]
fn refusal_of(alloc: Global, tag: u64, bytes: &[u8]) -> Result<(Refusal, &[u8]), Stopped>
    ensures { Gives (λ x. (x.0, x.1.now)) result (refusal_of tag bytes.now) }
{
    match tag {
        1 => Ok((Refusal::NoEntry, bytes)),
        2 => Ok((Refusal::NotDir, bytes)),
        3 => Ok((Refusal::IsDir, bytes)),
        4 => Ok((Refusal::Exists, bytes)),
        5 => Ok((Refusal::NotEmpty, bytes)),
        6 => refusal_denied_at(alloc, bytes),
        7 => Ok((Refusal::TooBig, bytes)),
        8 => Ok((Refusal::TooMany, bytes)),
        9 => Ok((Refusal::NoRoom, bytes)),
        10 => Ok((Refusal::ReadOnly, bytes)),
        11 => Ok((Refusal::Locked, bytes)),
        12 => Ok((Refusal::OpenConflict, bytes)),
        13 => Ok((Refusal::InUse, bytes)),
        14 => Ok((Refusal::Loop, bytes)),
        15 => Ok((Refusal::NoFileset, bytes)),
        16 => Ok((Refusal::CrossFileset, bytes)),
        17 => Ok((Refusal::NotLocked, bytes)),
        18 => Ok((Refusal::NotOpened, bytes)),
        19 => Ok((Refusal::AlreadyLocked, bytes)),
        20 => Ok((Refusal::AlreadyOpened, bytes)),
        _ => Ok((Refusal::NotHome, bytes)),
    }
}

/// Writes a refusal at the end.
#[tactic(auto, unfolding(crate::specs::Replies::spell_refusal, message_parts::specs::Spelled::number))]
pub fn write_refusal(refusal: &Refusal, out: &mut Items<u8>) -> Result<(), NoMemory>
    ensures { OnOk result (out.new ≡ out.old ++ (spell_refusal refusal.now).bytes) }
{
    push_number(out, 1, refusal_tag(refusal))?;
    write_refusal_fields(refusal, out)
}

/// Reads a refusal at the front.
#[tactic(auto, unfolding(crate::specs::Replies::refusal_at))]
pub fn refusal_at(alloc: Global, bytes: &[u8]) -> Result<(Refusal, &[u8]), Stopped>
    ensures { Gives (λ x. (x.0, x.1.now)) result (refusal_at bytes.now) }
{
    let (tag, rest) = number_at(bytes, 1, 1, 21)?;
    refusal_of(alloc, tag, rest)
}

/// The number of its kind.
fn reply_tag(reply: &Reply) -> u64
    ensures { result ≡ reply_tag reply.now }
{
    match reply {
        Reply::Ok => 0,
        Reply::Bytes(_) => 1,
        Reply::Names(_) => 2,
        Reply::Facts(_) => 3,
        Reply::Access(_) => 4,
        Reply::Refused(_) => 5,
    }
}

/// Writes its fields at the end.
#[tactic(auto, unfolding(crate::specs::Replies::reply_fields))]
fn write_reply_fields(reply: &Reply, out: &mut Items<u8>) -> Result<(), NoMemory>
    ensures { OnOk result (out.new ≡ out.old ++ (reply_fields reply.now).bytes) }
{
    match reply {
        Reply::Ok => Ok(()),
        Reply::Bytes(bytes) => write_bytes(bytes, out),
        Reply::Names(names) => write_short(names, out),
        Reply::Facts(facts) => write_facts(facts, out),
        Reply::Access(list) => list.write(out),
        Reply::Refused(refusal) => write_refusal(refusal, out),
    }
}

#[tactic(auto, unfolding(crate::specs::Replies::reply_bytes_at))]
fn reply_bytes_at(alloc: Global, bytes: &[u8]) -> Result<(Reply, &[u8]), Stopped>
    ensures { Gives (λ x. (x.0, x.1.now)) result (reply_bytes_at bytes.now) }
{
    let (bytes, rest) = bytes_at(alloc, bytes, u32::MAX)?;
    Ok((Reply::Bytes(bytes), rest))
}

#[tactic(auto, unfolding(crate::specs::Replies::reply_names_at))]
fn reply_names_at(alloc: Global, bytes: &[u8]) -> Result<(Reply, &[u8]), Stopped>
    ensures { Gives (λ x. (x.0, x.1.now)) result (reply_names_at bytes.now) }
{
    let (names, rest) = short_at(alloc, bytes)?;
    Ok((Reply::Names(names), rest))
}

#[tactic(auto, unfolding(crate::specs::Replies::reply_facts_of_at))]
fn reply_facts_of_at(alloc: Global, bytes: &[u8]) -> Result<(Reply, &[u8]), Stopped>
    ensures { Gives (λ x. (x.0, x.1.now)) result (reply_facts_of_at bytes.now) }
{
    let (facts, rest) = facts_at(alloc, bytes)?;
    Ok((Reply::Facts(facts), rest))
}

#[tactic(auto, unfolding(crate::specs::Replies::reply_access_at))]
fn reply_access_at(alloc: Global, bytes: &[u8]) -> Result<(Reply, &[u8]), Stopped>
    ensures { Gives (λ x. (x.0, x.1.now)) result (reply_access_at bytes.now) }
{
    let (list, rest) = AccessList::read(alloc, bytes)?;
    Ok((Reply::Access(list), rest))
}

#[tactic(auto, unfolding(crate::specs::Replies::reply_refused_at))]
fn reply_refused_at(alloc: Global, bytes: &[u8]) -> Result<(Reply, &[u8]), Stopped>
    ensures { Gives (λ x. (x.0, x.1.now)) result (reply_refused_at bytes.now) }
{
    match refusal_at(alloc, bytes) {
        Ok((refusal, rest)) => Ok((Reply::Refused(refusal), rest)),
        Err(stopped) => Err(stopped),
    }
}

/// Reads the fields of the kind with this number.
#[tactic(auto, unfolding(crate::specs::Replies::reply_of))]
fn reply_of(alloc: Global, tag: u64, bytes: &[u8]) -> Result<(Reply, &[u8]), Stopped>
    ensures { Gives (λ x. (x.0, x.1.now)) result (reply_of tag bytes.now) }
{
    match tag {
        0 => Ok((Reply::Ok, bytes)),
        1 => reply_bytes_at(alloc, bytes),
        2 => reply_names_at(alloc, bytes),
        3 => reply_facts_of_at(alloc, bytes),
        4 => reply_access_at(alloc, bytes),
        _ => reply_refused_at(alloc, bytes),
    }
}

/// Writes a reply at the end.
#[tactic(auto, unfolding(crate::specs::Replies::spell_reply, message_parts::specs::Spelled::number))]
pub fn write_reply(reply: &Reply, out: &mut Items<u8>) -> Result<(), NoMemory>
    ensures { OnOk result (out.new ≡ out.old ++ (spell_reply reply.now).bytes) }
{
    push_number(out, 1, reply_tag(reply))?;
    write_reply_fields(reply, out)
}

/// Reads a reply at the front.
#[tactic(auto, unfolding(crate::specs::Replies::reply_at))]
pub fn reply_at(alloc: Global, bytes: &[u8]) -> Result<(Reply, &[u8]), Stopped>
    ensures { Gives (λ x. (x.0, x.1.now)) result (reply_at bytes.now) }
{
    let (tag, rest) = number_at(bytes, 1, 0, 5)?;
    reply_of(alloc, tag, rest)
}
