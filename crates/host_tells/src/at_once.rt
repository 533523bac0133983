//! Calls that are answered at once from what the host sees, without memory.
ghost use Rattle.std.specs.Prelude.{◌≡◌, ◌≤◌, ◌++◌, ◌-◌, IfSome, MatchOption, None, Ok, Some, false, length, true};
ghost use Rattle.base_types.specs.Image.{AreBytes};
ghost use Rattle.host_calls.specs.Answering.{MarksUsed};
ghost use Rattle.host_calls.specs.Looking.{AreSized, AreUses, CanRead, IsFresh, access_of, facts_of, meant, of_seen};
ghost use Rattle.host_tables.specs.Tables.{content, held_of};
ghost use Rattle.host_tells.specs.Spoken.{Puts, SpeaksAlong, SpeaksAtOnce, SpeaksCounted, Spells, StaysSilent};
ghost use Rattle.host_tells.specs.Spoken.{facts_told, told_place};
ghost use Rattle.host_walk.specs.Bytes.{bytes_seen};
ghost use Rattle.host_walk.specs.Views.{nature_told};
ghost use Rattle.message_parts.specs.Words.{spell_bytes, spell_u32};
ghost use Rattle.need_host.specs.Calls.{reply_now};
ghost use Rattle.token_types.specs.Covers.{CoversBetween};
ghost use Rattle.tree_calls.specs.declared.call.Call.{Call as CallOf};
ghost use Rattle.tree_calls.specs.declared.reply.Reply.TheVariants.{Access, Bytes, Facts, Names, Refused};
ghost use Rattle.tree_laws.specs.Parts.Part.{Entries};
ghost use Rattle.tree_objects.specs.Entries.{names_of};

use crate::fitting::{access_fits, facts_fit, names_fit, refusal_fits};
use crate::putting::{put_byte, put_number};
use crate::spelling::{put_access, put_facts, put_names, put_refusal};
use base_types::{AccessList, Fid, Name, Span, User};
use host_calls::{Start, Verdict, in_place, mark_used, walked};
use host_tables::Tables;
use host_walk::{Stop, list_of};
use tree_calls::{Call, Place, Refusal, Status, Which};

/// Answers a Read, Stat, List or GetAcl whose need is covered: puts the reply's spelling into `out`, marks what the
/// call used, counts it, and answers the spelling's length. It takes no memory.
///
/// None, and then no table changes, where the call isn't one of these, or lacks a token, or the reply has no spelling
/// (it has too many names), or `out` is too short for it, or 2^32 - 1 calls were begun.
pub(crate) fn answer_into(tables: &mut Tables, call: &Call, out: &mut [u8]) -> Option<usize>
    ensures { AreUses tables.old → AreSized tables.old.cache → MatchOption result
        (StaysSilent tables.old tables.new call.now (length out.old))
        (λ count. SpeaksAtOnce tables.old tables.new call.now out.new count) }
{
    let place = told_place(call)?;
    let begun = tables.begun.checked_add(1)?;
    match in_place(tables, place) {
        Start::Walks(root, path) => answer_counted(tables, call, root, path, begun, out),
        Start::Ends(_) => None,
    }
}

// The place of a call that only tells of an object.
fn told_place(call: &Call) -> Option<&Place>
    ensures { MatchOption result (told_place call.now ≡ None) (λ place. told_place call.now ≡ Some place.now) }
{
    match call {
        Call::Read { place, .. }
        | Call::Stat { place }
        | Call::List { place }
        | Call::GetAcl { place, .. } => Some(place),
        _ => None,
    }
}

// So with a call that goes from a root along a path, and counts it.
fn answer_counted(
    tables: &mut Tables,
    call: &Call,
    root: Fid,
    path: &[Name],
    begun: u32,
    out: &mut [u8],
) -> Option<usize>
    requires { IsFresh tables.old call.now }
    ensures { SpeaksCounted tables.old call.now root path.now begun out.old out.new tables.new result }
{
    let count = answer_along(tables, call, root, path, out)?;
    tables.begun = begun;
    tables.lost.truncate(0);
    Some(count)
}

fn answer_along(
    tables: &mut Tables,
    call: &Call,
    root: Fid,
    path: &[Name],
    out: &mut [u8],
) -> Option<usize>
    requires { IsFresh tables.old call.now }
    ensures { SpeaksAlong tables.old call.now root path.now out.old out.new tables.new result }
{
    match walked(tables, call, root, path) {
        Err(Stop::Lacks(_need)) => None,
        Err(Stop::Refused(refusal)) => answer_so(tables, call, root, path, &Err(refusal), out),
        Ok(verdict) => answer_so(tables, call, root, path, &Ok(verdict), out),
    }
}

/// So with one that comes to a verdict.
pub(crate) fn answer_so(
    tables: &mut Tables,
    call: &Call,
    root: Fid,
    path: &[Name],
    verdict: &Result<Verdict, Refusal>,
    out: &mut [u8],
) -> Option<usize>
    requires { CanRead tables.old verdict.now }
    ensures spells { Spells (reply_now (meant tables.old call.now verdict.now)) out.old out.new result }
    ensures marks { MatchOption result (tables.new ≡ tables.old)
        (λ count. MarksUsed tables.old call.now root path.now verdict.now tables.new) }
{
    let count = spell(tables, verdict, out)?;
    mark_used(tables, call, root, path, verdict);
    Some(count)
}

// Puts the spelling of a reply into room, and answers its length; None where there isn't room for it, or it has none,
// or there is no reply.
fn spell(tables: &Tables, verdict: &Result<Verdict, Refusal>, out: &mut [u8]) -> Option<usize>
    requires { CanRead tables.now verdict.now }
    ensures { (call : CallOf) → Spells (reply_now (meant tables.now call verdict.now)) out.old out.new result }
{
    match verdict {
        Err(refusal) => spell_refused(*refusal, out),
        Ok(verdict) => spell_by(tables, *verdict, out),
    }
}

fn spell_by(tables: &Tables, verdict: Verdict, out: &mut [u8]) -> Option<usize>
    requires { CanRead tables.now (Ok verdict) }
    ensures { (call : CallOf) → Spells (reply_now (meant tables.now call (Ok verdict))) out.old out.new result }
{
    match verdict {
        Verdict::Reads(fid, span) => spell_bytes(tables, fid, span, out),
        Verdict::Lists(fid) => spell_names(tables, fid, out),
        Verdict::Tells(fid) => spell_facts(tables, fid, out),
        Verdict::Shows(fid, which) => spell_list(tables, fid, which, out),
        Verdict::Syncs(_) => None,
        Verdict::Gives => None,
        Verdict::Asks(_) => None,
        _ => put_byte(out, 0, 0),
    }
}

fn spell_refused(refusal: Refusal, out: &mut [u8]) -> Option<usize>
    ensures { Spells (Some (Refused refusal)) out.old out.new result }
{
    if !refusal_fits(&refusal) {
        return None;
    }
    let at = put_byte(out, 0, 5)?;
    put_refusal(out, at, &refusal)
}

pub(crate) fn spell_bytes(tables: &Tables, fid: Fid, span: Span, out: &mut [u8]) -> Option<usize>
    requires { CoversBetween (held_of tables.now) fid false span.from span.to }
    ensures { Spells (Some (Bytes (bytes_seen (content tables.now.cache) fid span.from (span.to - span.from))))
        out.old out.new result }
{
    let at = put_byte(out, 0, 1)?;
    put_bytes(tables, fid, span, at, out)
}

// Puts the bytes of a file behind their count into room from a place on.
fn put_bytes(tables: &Tables, fid: Fid, span: Span, at: usize, out: &mut [u8]) -> Option<usize>
    requires covered { CoversBetween (held_of tables.now) fid false span.from span.to }
    requires room { at ≤ length out.old }
    ensures puts { Puts ((spell_u32 (span.to - span.from)).bytes
        ++ bytes_seen (content tables.now.cache) fid span.from (span.to - span.from)) at out.old out.new result }
    ensures fits { IfSome result (λ end. (spell_bytes 4294967295 (bytes_seen (content tables.now.cache) fid span.from
        (span.to - span.from))).fits ≡ true) }
{
    let at = put_number(out, at, span.len())?;
    put_content(tables, fid, span, at, out)
}

// Puts the bytes of a file into room from a place on.
#[tactic(auto, using(crate::proofs::Spelled::seen_length))]
fn put_content(tables: &Tables, fid: Fid, span: Span, at: usize, out: &mut [u8]) -> Option<usize>
    requires covered { CoversBetween (held_of tables.now) fid false span.from span.to }
    requires room { at ≤ length out.old }
    ensures puts { Puts (bytes_seen (content tables.now.cache) fid span.from (span.to - span.from)) at
        out.old out.new result }
    ensures small { IfSome result (λ end. AreBytes (bytes_seen (content tables.now.cache) fid span.from
        (span.to - span.from))) }
{
    let count = span.len() as usize;
    if count > out.len() - at {
        return None;
    }
    let end = at + count;
    show(tables, fid, span, &mut out[at..end]);
    Some(end)
}

// Shows the bytes of a file.
fn show(tables: &Tables, fid: Fid, span: Span, out: &mut [u8])
    requires covered { CoversBetween (held_of tables.now) fid false span.from span.to }
    requires count { length out.old ≡ span.to - span.from }
    ensures shown { out.new ≡ bytes_seen (content tables.now.cache) fid span.from (span.to - span.from) }
    ensures small { AreBytes out.new }
{
    tables.cache.bytes_into(fid, span.from, out);
}

fn spell_names(tables: &Tables, fid: Fid, out: &mut [u8]) -> Option<usize>
    ensures { Spells (Some (Names (names_of (content tables.now.cache fid Entries)))) out.old out.new result }
{
    let told = tables.cache.entries(fid);
    if !names_fit(told) {
        return None;
    }
    let at = put_byte(out, 0, 2)?;
    put_names(out, at, told)
}

fn spell_facts(tables: &Tables, fid: Fid, out: &mut [u8]) -> Option<usize>
    ensures { Spells (Some (of_seen (content tables.now.cache) fid
        (facts_of (content tables.now.cache) tables.now.user fid))) out.old out.new result }
{
    match tables.cache.status(fid) {
        Some(status) => spell_told(status, &tables.user, out),
        None => spell_refused(Refusal::NoEntry, out),
    }
}

fn spell_told(status: &Status, user: &User, out: &mut [u8]) -> Option<usize>
    ensures { Spells (Some (Facts (facts_told status.now user.now))) out.old out.new result }
{
    if !facts_fit(status, user) {
        return None;
    }
    let at = put_byte(out, 0, 3)?;
    put_facts(out, at, status, user)
}

fn spell_list(tables: &Tables, fid: Fid, which: Which, out: &mut [u8]) -> Option<usize>
    ensures { Spells (Some (of_seen (content tables.now.cache) fid (access_of which))) out.old out.new result }
{
    match tables.cache.status(fid) {
        Some(status) => spell_shown(status, which, out),
        None => spell_refused(Refusal::NoEntry, out),
    }
}

fn spell_shown(status: &Status, which: Which, out: &mut [u8]) -> Option<usize>
    ensures { Spells (Some (access_of which (nature_told status.now))) out.old out.new result }
{
    match list_of(status, which) {
        Some(list) => spell_access(list, out),
        None => spell_refused(Refusal::NotDir, out),
    }
}

fn spell_access(list: &AccessList, out: &mut [u8]) -> Option<usize>
    ensures { Spells (Some (Access list.now)) out.old out.new result }
{
    if !access_fits(list) {
        return None;
    }
    let at = put_byte(out, 0, 4)?;
    put_access(out, at, list)
}
