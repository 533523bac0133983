ghost use Rattle.std.specs.Prelude.{◌≡◌, ◌++◌, OnOk};
ghost use Rattle.message_parts.specs.Reading.{Gives};
ghost use Rattle.message_spelling.specs.Bodies.{spell_grant, outcome_tag, outcome_fields, spell_outcome, spell_done};
ghost use Rattle.message_spelling.specs.Readings.{
  grant_at,
  outcome_reply_at,
  outcome_known_at,
  outcome_elsewhere_at,
  outcome_of,
  outcome_at,
  done_at,
};

use base_types::{Fid, FilesetId, Items, NoMemory, ServerId};
use message_calls::{reply_at, write_reply};
use message_parts::{
    Part, Stopped, long_at, number_at, pieces_at, push_number, short_at, write_long, write_pieces,
    write_short,
};
use message_types::{Bring, Done, DoneIs, Grant};
use std::alloc::Global;

/// Writes the answer to a Fetch.
#[tactic(auto, unfolding(crate::specs::Bodies::spell_grant))]
pub fn write_grant(grant: &Grant, out: &mut Items<u8>) -> Result<(), NoMemory>
    ensures { OnOk result (out.new ≡ out.old ++ (spell_grant grant.now).bytes) }
{
    grant.bring.number.write(out)?;
    grant.bring.fid.write(out)?;
    grant.bring.stamp.write(out)?;
    grant.status.write(out)?;
    write_long(&grant.bring.tokens, out)?;
    write_pieces(&grant.pieces, out)?;
    write_short(&grant.entries, out)
}

/// Reads the answer to a Fetch.
#[tactic(auto, unfolding(crate::specs::Readings::grant_at))]
pub fn grant_at(alloc: Global, bytes: &[u8]) -> Result<(Grant, &[u8]), Stopped>
    ensures { Gives (λ x. (x.0, x.1.now)) result (grant_at bytes.now) }
{
    let (number, rest) = u64::read(alloc, bytes)?;
    let (fid, rest) = Fid::read(alloc, rest)?;
    let (stamp, rest) = u64::read(alloc, rest)?;
    let (status, rest) = Option::read(alloc, rest)?;
    let (tokens, rest) = long_at(alloc, rest)?;
    let (pieces, rest) = pieces_at(alloc, rest)?;
    let (entries, rest) = short_at(alloc, rest)?;
    let bring = Bring {
        number,
        fid,
        stamp,
        tokens,
    };
    Ok((
        Grant {
            bring,
            status,
            pieces,
            entries,
        },
        rest,
    ))
}

/// The number of its kind.
fn outcome_tag(outcome: &DoneIs) -> u64
    ensures { result ≡ outcome_tag outcome.now }
{
    match outcome {
        DoneIs::Reply(_) => 0,
        DoneIs::Known(_) => 1,
        DoneIs::Granted => 2,
        DoneIs::Again => 3,
        DoneIs::Elsewhere(_) => 4,
    }
}

/// Writes its fields at the end.
#[tactic(auto, unfolding(crate::specs::Bodies::outcome_fields))]
fn write_outcome_fields(outcome: &DoneIs, out: &mut Items<u8>) -> Result<(), NoMemory>
    ensures { OnOk result (out.new ≡ out.old ++ (outcome_fields outcome.now).bytes) }
{
    match outcome {
        DoneIs::Reply(reply) => write_reply(reply, out),
        DoneIs::Known(fileset) => fileset.write(out),
        DoneIs::Granted => Ok(()),
        DoneIs::Again => Ok(()),
        DoneIs::Elsewhere(server) => server.write(out),
    }
}

/// Writes what became of a Change.
#[tactic(auto, unfolding(crate::specs::Bodies::spell_outcome, message_parts::specs::Spelled::number))]
fn write_outcome(outcome: &DoneIs, out: &mut Items<u8>) -> Result<(), NoMemory>
    ensures { OnOk result (out.new ≡ out.old ++ (spell_outcome outcome.now).bytes) }
{
    push_number(out, 1, outcome_tag(outcome))?;
    write_outcome_fields(outcome, out)
}

#[tactic(auto, unfolding(crate::specs::Readings::outcome_reply_at))]
fn outcome_reply_at(alloc: Global, bytes: &[u8]) -> Result<(DoneIs, &[u8]), Stopped>
    ensures { Gives (λ x. (x.0, x.1.now)) result (outcome_reply_at bytes.now) }
{
    let (reply, rest) = reply_at(alloc, bytes)?;
    Ok((DoneIs::Reply(reply), rest))
}

#[tactic(auto, unfolding(crate::specs::Readings::outcome_known_at))]
fn outcome_known_at(alloc: Global, bytes: &[u8]) -> Result<(DoneIs, &[u8]), Stopped>
    ensures { Gives (λ x. (x.0, x.1.now)) result (outcome_known_at bytes.now) }
{
    let (fileset, rest) = FilesetId::read(alloc, bytes)?;
    Ok((DoneIs::Known(fileset), rest))
}

#[tactic(auto, unfolding(crate::specs::Readings::outcome_elsewhere_at))]
fn outcome_elsewhere_at(alloc: Global, bytes: &[u8]) -> Result<(DoneIs, &[u8]), Stopped>
    ensures { Gives (λ x. (x.0, x.1.now)) result (outcome_elsewhere_at bytes.now) }
{
    let (server, rest) = ServerId::read(alloc, bytes)?;
    Ok((DoneIs::Elsewhere(server), rest))
}

/// Reads the fields of the kind with this number.
#[tactic(auto, unfolding(crate::specs::Readings::outcome_of))]
fn outcome_of(alloc: Global, tag: u64, bytes: &[u8]) -> Result<(DoneIs, &[u8]), Stopped>
    ensures { Gives (λ x. (x.0, x.1.now)) result (outcome_of tag bytes.now) }
{
    match tag {
        0 => outcome_reply_at(alloc, bytes),
        1 => outcome_known_at(alloc, bytes),
        2 => Ok((DoneIs::Granted, bytes)),
        3 => Ok((DoneIs::Again, bytes)),
        _ => outcome_elsewhere_at(alloc, bytes),
    }
}

/// Reads what became of a Change.
#[tactic(auto, unfolding(crate::specs::Readings::outcome_at))]
fn outcome_at(alloc: Global, bytes: &[u8]) -> Result<(DoneIs, &[u8]), Stopped>
    ensures { Gives (λ x. (x.0, x.1.now)) result (outcome_at bytes.now) }
{
    let (tag, rest) = number_at(bytes, 1, 0, 4)?;
    outcome_of(alloc, tag, rest)
}

/// Writes the answer to a Change.
#[tactic(auto, unfolding(crate::specs::Bodies::spell_done))]
pub fn write_done(done: &Done, out: &mut Items<u8>) -> Result<(), NoMemory>
    ensures { OnOk result (out.new ≡ out.old ++ (spell_done done.now).bytes) }
{
    done.bring.number.write(out)?;
    done.fileset.write(out)?;
    write_outcome(&done.outcome, out)?;
    done.bring.fid.write(out)?;
    done.bring.stamp.write(out)?;
    write_long(&done.bring.tokens, out)
}

/// Reads the answer to a Change.
#[tactic(auto, unfolding(crate::specs::Readings::done_at))]
pub fn done_at(alloc: Global, bytes: &[u8]) -> Result<(Done, &[u8]), Stopped>
    ensures { Gives (λ x. (x.0, x.1.now)) result (done_at bytes.now) }
{
    let (number, rest) = u64::read(alloc, bytes)?;
    let (fileset, rest) = FilesetId::read(alloc, rest)?;
    let (outcome, rest) = outcome_at(alloc, rest)?;
    let (fid, rest) = Fid::read(alloc, rest)?;
    let (stamp, rest) = u64::read(alloc, rest)?;
    let (tokens, rest) = long_at(alloc, rest)?;
    let bring = Bring {
        number,
        fid,
        stamp,
        tokens,
    };
    Ok((
        Done {
            fileset,
            outcome,
            bring,
        },
        rest,
    ))
}
