//! A Read of the file that was read last: as long as nothing changed but the order of use, and that by Reads of this
//! file alone, its way isn't walked again, and to mark what it used would change nothing.
ghost use Rattle.std.specs.Prelude.{◌≡◌, [], IfSome, MatchOption, length};
ghost use Rattle.host_calls.specs.Looking.{AreSized, AreUses};
ghost use Rattle.host_tells.specs.Knows.{IsFound, IsKnown, IsLast, IsWithin, LeadsThere, ReadsIt};
ghost use Rattle.host_tells.specs.Spoken.{SpeaksAtOnce, StaysSilent};
ghost use Rattle.tree_calls.specs.declared.call.Call.TheVariants.{Read};

use crate::at_once::{answer_into, answer_so, spell_bytes};
use crate::last::{Known, Last, within};
use base_types::{Rights, Span};
use host_calls::{Verdict, root_of};
use host_tables::{Tables, home_of};
use host_walk::{Sight, blocks_around, bytes_need, bytes_to_read};
use tree_calls::{Call, Place};

/// Answers a Read, Stat, List or GetAcl whose need is covered: puts the reply's spelling into `out`, marks what the
/// call used, counts it, and answers the spelling's length. It takes no memory. Of the file that was read last nothing
/// has changed but the order in which tokens were used, and that by this function alone.
///
/// None, and then no table changes, where the call isn't one of these, or lacks a token, or the reply has no spelling
/// (it has too many names), or `out` is too short for it, or 2^32 - 1 calls were begun.
pub fn answer_again(
    tables: &mut Tables,
    last: &mut Last,
    call: &Call,
    out: &mut [u8],
) -> Option<usize>
    requires { IsLast tables.old last.old }
    ensures told { AreUses tables.old → AreSized tables.old.cache → MatchOption result
        (StaysSilent tables.old tables.new call.now (length out.old))
        (λ count. SpeaksAtOnce tables.old tables.new call.now out.new count) }
    ensures last { IsLast tables.new last.new }
{
    match call {
        Call::Read { place, from, len } => read(tables, last, call, place, *from, *len, out),
        _ => {
            last.forget();
            answer_into(tables, call, out)
        }
    }
}

// A Read, of the file that was read last or of another.
fn read(
    tables: &mut Tables,
    last: &mut Last,
    call: &Call,
    place: &Place,
    from: u32,
    len: u32,
    out: &mut [u8],
) -> Option<usize>
    requires call { call.now ≡ Read place.now from len }
    requires last { IsLast tables.old last.old }
    ensures told { AreUses tables.old → AreSized tables.old.cache → MatchOption result
        (StaysSilent tables.old tables.new call.now (length out.old))
        (λ count. SpeaksAtOnce tables.old tables.new call.now out.new count) }
    ensures last { IsLast tables.new last.new }
{
    if let Some((known, span)) = last.again(place, from, len) {
        return read_known(tables, call, place, known, span, out);
    }
    last.forget();
    match found(tables, place, from, len) {
        Some((known, span)) => {
            let count = read_found(tables, call, place, known, span, out)?;
            last.keep(place, known);
            Some(count)
        }
        None => answer_into(tables, call, out),
    }
}

// What is found at a place, and the bytes of it that are read; None where the tokens don't cover that, or there are no
// such bytes.
fn found(tables: &Tables, place: &Place, from: u32, len: u32) -> Option<(Known, Span)>
    ensures found { IfSome result (λ it. IsFound tables.now place.now it.0) }
    ensures span { IfSome result (λ it. IsWithin it.0 from len it.1) }
{
    let known = found_at(tables, place, from, len)?;
    let span = within(known, from, len)?;
    if tables
        .cache
        .covers(&bytes_need(known.fid, false, known.blocks))
    {
        return Some((known, span));
    }
    None
}

// So, where the blocks may lack.
fn found_at(tables: &Tables, place: &Place, from: u32, len: u32) -> Option<Known>
    ensures { IfSome result (LeadsThere tables.now place.now) }
{
    let fileset = home_of(tables.homes.as_slice(), place.server, &place.fileset)?;
    let root = root_of(fileset);
    let sight = Sight {
        cache: &tables.cache,
        user: &tables.user,
    };
    let Ok((fid, status)) = sight.file(root, place.path.as_slice()) else {
        return None;
    };
    let Ok(()) = sight.permitted(status, Rights::READ) else {
        return None;
    };
    let length = status.length;
    let span = bytes_to_read(from, len, length);
    Some(Known {
        root,
        fid,
        length,
        blocks: blocks_around(span.from, span.to),
    })
}

// A Read of a file that is known.
fn read_known(
    tables: &mut Tables,
    call: &Call,
    place: &Place,
    known: Known,
    span: Span,
    out: &mut [u8],
) -> Option<usize>
    requires call { ReadsIt call.now place.now known span }
    requires known { IsKnown tables.old place.now known }
    ensures told { AreUses tables.old → AreSized tables.old.cache → MatchOption result
        (StaysSilent tables.old tables.new call.now (length out.old))
        (λ count. SpeaksAtOnce tables.old tables.new call.now out.new count) }
    ensures known { IsKnown tables.new place.now known }
{
    let begun = tables.begun.checked_add(1)?;
    let count = spell_bytes(tables, known.fid, span, out)?;
    begin(tables, begun);
    Some(count)
}

// A Read of a file that was found, which marks what it used.
fn read_found(
    tables: &mut Tables,
    call: &Call,
    place: &Place,
    known: Known,
    span: Span,
    out: &mut [u8],
) -> Option<usize>
    requires call { ReadsIt call.now place.now known span }
    requires found { IsFound tables.old place.now known }
    ensures told { AreUses tables.old → AreSized tables.old.cache → MatchOption result
        (StaysSilent tables.old tables.new call.now (length out.old))
        (λ count. SpeaksAtOnce tables.old tables.new call.now out.new count) }
    ensures known { IfSome result (λ count. IsKnown tables.new place.now known) }
{
    let begun = tables.begun.checked_add(1)?;
    let verdict = Ok(Verdict::Reads(known.fid, span));
    let count = answer_so(
        tables,
        call,
        known.root,
        place.path.as_slice(),
        &verdict,
        out,
    )?;
    begin(tables, begun);
    Some(count)
}

// Counts a call, which takes no notice of files that were lost.
fn begin(tables: &mut Tables, begun: u32)
    ensures { tables.new ≡ record tables.old { begun = begun; lost = [] } }
{
    tables.begun = begun;
    tables.lost.truncate(0);
}
