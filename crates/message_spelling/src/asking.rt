ghost use Rattle.std.specs.Prelude.{◌≡◌, ◌++◌, OnOk};
ghost use Rattle.message_parts.specs.Reading.{Gives};
ghost use Rattle.message_spelling.specs.Bodies.{spell_fetch, spell_change};
ghost use Rattle.message_spelling.specs.Readings.{fetch_at, change_at};

use base_types::{Fid, FilesetId, Items, NoMemory};
use message_calls::{call_at, write_call};
use message_parts::{Part, Stopped, short_at, write_short};
use message_types::{Change, Fetch};
use std::alloc::Global;

/// Writes what a host needs of an object.
#[tactic(auto, unfolding(crate::specs::Bodies::spell_fetch))]
pub fn write_fetch(fetch: &Fetch, out: &mut Items<u8>) -> Result<(), NoMemory>
    ensures { OnOk result (out.new ≡ out.old ++ (spell_fetch fetch.now).bytes) }
{
    fetch.number.write(out)?;
    fetch.fid.write(out)?;
    write_short(&fetch.needs, out)
}

/// Reads what a host needs of an object.
#[tactic(auto, unfolding(crate::specs::Readings::fetch_at))]
pub fn fetch_at(alloc: Global, bytes: &[u8]) -> Result<(Fetch, &[u8]), Stopped>
    ensures { Gives (λ x. (x.0, x.1.now)) result (fetch_at bytes.now) }
{
    let (number, rest) = u64::read(alloc, bytes)?;
    let (fid, rest) = Fid::read(alloc, rest)?;
    let (needs, rest) = short_at(alloc, rest)?;
    Ok((Fetch { number, fid, needs }, rest))
}

/// Writes a call that the server is to decide.
#[tactic(auto, unfolding(crate::specs::Bodies::spell_change))]
pub fn write_change(change: &Change, out: &mut Items<u8>) -> Result<(), NoMemory>
    ensures { OnOk result (out.new ≡ out.old ++ (spell_change change.now).bytes) }
{
    change.number.write(out)?;
    change.fileset.write(out)?;
    change.fid.write(out)?;
    change.enter.write(out)?;
    change.k.write(out)?;
    write_call(&change.call, out)
}

/// Reads a call that the server is to decide.
#[tactic(auto, unfolding(crate::specs::Readings::change_at))]
pub fn change_at(alloc: Global, bytes: &[u8]) -> Result<(Change, &[u8]), Stopped>
    ensures { Gives (λ x. (x.0, x.1.now)) result (change_at bytes.now) }
{
    let (number, rest) = u64::read(alloc, bytes)?;
    let (fileset, rest) = FilesetId::read(alloc, rest)?;
    let (fid, rest) = Fid::read(alloc, rest)?;
    let (enter, rest) = bool::read(alloc, rest)?;
    let (k, rest) = u32::read(alloc, rest)?;
    let (call, rest) = call_at(alloc, rest)?;
    Ok((
        Change {
            number,
            fileset,
            fid,
            enter,
            k,
            call,
        },
        rest,
    ))
}
