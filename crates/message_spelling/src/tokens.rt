ghost use Rattle.std.specs.Prelude.{◌≡◌, ◌++◌, OnOk};
ghost use Rattle.message_parts.specs.Reading.{Gives};
ghost use Rattle.message_spelling.specs.Bodies.{spell_revoke, spell_named};
ghost use Rattle.message_spelling.specs.Readings.{revoke_at, named_at};

use base_types::{Fid, Items, NoMemory};
use message_parts::{Part, Stopped, long_at, write_long};
use message_types::{Named, Revoke};
use std::alloc::Global;

/// Writes which tokens a server asks back.
#[tactic(auto, unfolding(crate::specs::Bodies::spell_revoke))]
pub fn write_revoke(revoke: &Revoke, out: &mut Items<u8>) -> Result<(), NoMemory>
    ensures { OnOk result (out.new ≡ out.old ++ (spell_revoke revoke.now).bytes) }
{
    revoke.fid.write(out)?;
    revoke.stamp.write(out)?;
    write_long(&revoke.ids, out)
}

/// Reads which tokens a server asks back.
#[tactic(auto, unfolding(crate::specs::Readings::revoke_at))]
pub fn revoke_at(alloc: Global, bytes: &[u8]) -> Result<(Revoke, &[u8]), Stopped>
    ensures { Gives (λ x. (x.0, x.1.now)) result (revoke_at bytes.now) }
{
    let (fid, rest) = Fid::read(alloc, bytes)?;
    let (stamp, rest) = u64::read(alloc, rest)?;
    let (ids, rest) = long_at(alloc, rest)?;
    Ok((Revoke { fid, stamp, ids }, rest))
}

/// Writes the names of tokens.
#[tactic(auto, unfolding(crate::specs::Bodies::spell_named))]
pub fn write_named(named: &Named, out: &mut Items<u8>) -> Result<(), NoMemory>
    ensures { OnOk result (out.new ≡ out.old ++ (spell_named named.now).bytes) }
{
    named.fid.write(out)?;
    write_long(&named.ids, out)
}

/// Reads the names of tokens.
#[tactic(auto, unfolding(crate::specs::Readings::named_at))]
pub fn named_at(alloc: Global, bytes: &[u8]) -> Result<(Named, &[u8]), Stopped>
    ensures { Gives (λ x. (x.0, x.1.now)) result (named_at bytes.now) }
{
    let (fid, rest) = Fid::read(alloc, bytes)?;
    let (ids, rest) = long_at(alloc, rest)?;
    Ok((Named { fid, ids }, rest))
}
