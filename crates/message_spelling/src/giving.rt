ghost use Rattle.std.specs.Prelude.{◌≡◌, ◌++◌, OnOk};
ghost use Rattle.message_parts.specs.Reading.{Gives};
ghost use Rattle.message_parts.specs.Words.{spell_optional, optional_at};
ghost use Rattle.message_spelling.specs.Bodies.{spell_ends, spell_give, spell_gone, spell_reclaim, spell_reclaimed};
ghost use Rattle.message_spelling.specs.Readings.{ends_at, give_at, gone_at, reclaim_at, reclaimed_at};

use base_types::{Fid, FilesetId, Items, NoMemory};
use message_calls::{ending_at, write_ending};
use message_parts::{Part, Stopped, long_at, pieces_at, write_long, write_pieces};
use message_types::{AppliedGive, Ends, Give, Reclaim, Reclaimed};
use std::alloc::Global;

/// Writes the call that a give-back answers.
#[tactic(auto, unfolding(crate::specs::Bodies::spell_ends))]
fn write_ends(ends: &Ends, out: &mut Items<u8>) -> Result<(), NoMemory>
    ensures { OnOk result (out.new ≡ out.old ++ (spell_ends ends.now).bytes) }
{
    ends.k.write(out)?;
    write_ending(&ends.call, out)
}

/// Reads the call that a give-back answers.
#[tactic(auto, unfolding(crate::specs::Readings::ends_at))]
fn ends_at(alloc: Global, bytes: &[u8]) -> Result<(Ends, &[u8]), Stopped>
    ensures { Gives (λ x. (x.0, x.1.now)) result (ends_at bytes.now) }
{
    let (k, rest) = u32::read(alloc, bytes)?;
    let (call, rest) = ending_at(alloc, rest)?;
    Ok((Ends { k, call }, rest))
}

/// Writes whether a give-back answers a call, and which.
#[tactic(auto, unfolding(message_parts::specs::Words::spell_optional))]
fn write_some_ends(ends: &Option<Ends>, out: &mut Items<u8>) -> Result<(), NoMemory>
    ensures { OnOk result (out.new ≡ out.old ++ (spell_optional spell_ends ends.now).bytes) }
{
    match ends {
        Some(ends) => {
            true.write(out)?;
            write_ends(ends, out)
        }
        None => false.write(out),
    }
}

/// Reads whether a give-back answers a call, and which.
#[tactic(auto, unfolding(message_parts::specs::Words::optional_at))]
fn some_ends_at(alloc: Global, bytes: &[u8]) -> Result<(Option<Ends>, &[u8]), Stopped>
    ensures { Gives (λ x. (x.0, x.1.now)) result (optional_at ends_at bytes.now) }
{
    let (there, rest) = bool::read(alloc, bytes)?;
    if !there {
        return Ok((None, rest));
    }
    let (ends, rest) = ends_at(alloc, rest)?;
    Ok((Some(ends), rest))
}

/// Writes what is given back of a file.
#[tactic(auto, unfolding(crate::specs::Bodies::spell_give))]
pub fn write_give(give: &Give, out: &mut Items<u8>) -> Result<(), NoMemory>
    ensures { OnOk result (out.new ≡ out.old ++ (spell_give give.now).bytes) }
{
    give.number.write(out)?;
    give.fid.write(out)?;
    write_long(&give.ids, out)?;
    write_pieces(&give.pieces, out)?;
    give.length.write(out)?;
    write_some_ends(&give.ends, out)
}

/// Reads what is given back of a file.
#[tactic(auto, unfolding(crate::specs::Readings::give_at))]
pub fn give_at(alloc: Global, bytes: &[u8]) -> Result<(Give, &[u8]), Stopped>
    ensures { Gives (λ x. (x.0, x.1.now)) result (give_at bytes.now) }
{
    let (number, rest) = u64::read(alloc, bytes)?;
    let (fid, rest) = Fid::read(alloc, rest)?;
    let (ids, rest) = long_at(alloc, rest)?;
    let (pieces, rest) = pieces_at(alloc, rest)?;
    let (length, rest) = Option::read(alloc, rest)?;
    let (ends, rest) = some_ends_at(alloc, rest)?;
    Ok((
        Give {
            number,
            fid,
            ids,
            pieces,
            length,
            ends,
        },
        rest,
    ))
}

/// Writes which give-back was applied: its number, and then its fileset.
#[tactic(auto, unfolding(crate::specs::Bodies::spell_gone))]
pub fn write_gone(gone: &AppliedGive, out: &mut Items<u8>) -> Result<(), NoMemory>
    ensures { OnOk result (out.new ≡ out.old ++ (spell_gone gone.now).bytes) }
{
    gone.number.write(out)?;
    gone.fileset.write(out)
}

/// Reads which give-back was applied: its number, and then its fileset.
#[tactic(auto, unfolding(crate::specs::Readings::gone_at))]
pub fn gone_at(alloc: Global, bytes: &[u8]) -> Result<(AppliedGive, &[u8]), Stopped>
    ensures { Gives (λ x. (x.0, x.1.now)) result (gone_at bytes.now) }
{
    let (number, rest) = u64::read(alloc, bytes)?;
    let (fileset, rest) = FilesetId::read(alloc, rest)?;
    Ok((AppliedGive { fileset, number }, rest))
}

/// Writes a claim.
#[tactic(auto, unfolding(crate::specs::Bodies::spell_reclaim))]
pub fn write_reclaim(claim: &Reclaim, out: &mut Items<u8>) -> Result<(), NoMemory>
    ensures { OnOk result (out.new ≡ out.old ++ (spell_reclaim claim.now).bytes) }
{
    write_long(&claim.tokens, out)?;
    write_long(&claim.numbers, out)
}

/// Reads a claim.
#[tactic(auto, unfolding(crate::specs::Readings::reclaim_at))]
pub fn reclaim_at(alloc: Global, bytes: &[u8]) -> Result<(Reclaim, &[u8]), Stopped>
    ensures { Gives (λ x. (x.0, x.1.now)) result (reclaim_at bytes.now) }
{
    let (tokens, rest) = long_at(alloc, bytes)?;
    let (numbers, rest) = long_at(alloc, rest)?;
    Ok((Reclaim { tokens, numbers }, rest))
}

/// Writes the answer to a claim.
#[tactic(auto, unfolding(crate::specs::Bodies::spell_reclaimed))]
pub fn write_reclaimed(said: &Reclaimed, out: &mut Items<u8>) -> Result<(), NoMemory>
    ensures { OnOk result (out.new ≡ out.old ++ (spell_reclaimed said.now).bytes) }
{
    write_long(&said.applied, out)?;
    write_long(&said.left_out, out)
}

/// Reads the answer to a claim.
#[tactic(auto, unfolding(crate::specs::Readings::reclaimed_at))]
pub fn reclaimed_at(alloc: Global, bytes: &[u8]) -> Result<(Reclaimed, &[u8]), Stopped>
    ensures { Gives (λ x. (x.0, x.1.now)) result (reclaimed_at bytes.now) }
{
    let (applied, rest) = long_at(alloc, bytes)?;
    let (left_out, rest) = long_at(alloc, rest)?;
    Ok((Reclaimed { applied, left_out }, rest))
}
