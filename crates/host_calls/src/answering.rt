//! How an open call is answered.
ghost use Rattle.std.specs.Prelude.{◌≡◌, ◌∷◌, ◌+◌, ℕ, List, [], length, true, None, Ok, Some, IfOk, OnOk};
ghost use Rattle.std.specs.Prelude.{MatchOption, option_copied};
ghost use Rattle.std.specs.Prelude.{if◌then◌else◌};
ghost use Rattle.std.specs.List.{find};
ghost use Rattle.token_types.specs.Covers.{Covers, CoversBetween};
ghost use Rattle.need_host.specs.Calls.{reply_now};
ghost use Rattle.host_labels.specs.Labels.{is_lock, use_of};
ghost use Rattle.host_leaves.specs.Dirtying.{tokens_at};
ghost use Rattle.host_tables.specs.Tables.{content, held_of};
ghost use Rattle.host_walk.specs.Bytes.{write_needs};
ghost use Rattle.run_rules.specs.Tokens.{IsUseKind};
ghost use Rattle.tree_laws.specs.Parts.Part.{Entries, Size, Traits};
ghost use Rattle.tree_objects.specs.Entries.{names_of};
ghost use Rattle.host_calls.specs.Answering.{Answered, BeginsUse, ChangesOwn, EndsUse, FreesUse, MarksUsed};
ghost use Rattle.host_calls.specs.Answering.{WritesBytes, is_read_only, last_needs, needs_in, same_use, way_of};
ghost use Rattle.host_calls.specs.Looking.{CanRead, CanReadOn, FreesSo, IsBacked, TakesSo, WritesSo, access_of};
ghost use Rattle.host_calls.specs.Looking.{facts_of, is_settled, meant, of_seen};
ghost use Rattle.tree_calls.specs.declared.call.Call.{Call as CallOf};

use crate::looking::Verdict;
use base_types::{Fid, Items, Name, NoMemory, Plain, Span};
use host_leaves::{bytes_of, is_used, length_seen};
use host_tables::{Draft, Tables};
use host_walk::{
    blocks_around, bytes_need, bytes_to_write, length_need, list_of, mark_way, positions,
    rights_on, whole_need,
};
use run_rules::{Answer, Labelled};
use std::mem;
use token_types::{Kind, Need, Token};
use tree_calls::{Call, Facts, Refusal, Reply, Status, Which};

/// The open call.
#[derive(Clone, Copy)]
pub struct Open<'a> {
    /// Its number among the host's calls.
    pub k: u32,
    pub call: &'a Call,
    /// Whether this step begins it.
    pub first: bool,
}

// What a call needs of the object at the end of its path, beside the status.
enum Last {
    Nothing,
    One(Need),
    Two(Need, Need),
}

/// Answers the open call. The only error is that memory ran out.
pub fn answer(
    tables: &mut Tables,
    draft: &mut Draft,
    current: Open,
    verdict: Result<Verdict, Refusal>,
) -> Result<(), NoMemory>
    requires settled { is_settled verdict ≡ true }
    requires backed { IsBacked tables.old current.call.now verdict }
    ensures { OnOk result (Answered current.entry.k current.entry.call.now current.entry.first verdict
        tables.old draft.old tables.new draft.new) }
{
    change(tables, draft, current.call, &verdict)?;
    let answer = answer_of(tables, current, verdict)?;
    put_alone(&mut draft.answers, answer)
}

// Makes this the only answer of a list, which has no room for more: it stays to the end of the run.
fn put_alone(answers: &mut Items<Answer>, answer: Answer) -> Result<(), NoMemory>
    ensures { OnOk result (answers.new ≡ answer ∷ []) }
{
    let mut alone = Vec::with_capacity(answers.alloc(), 1)?;
    alone.push_reserved(answer);
    drop(mem::replace(answers, Items::from_vec(alone)));
    Ok(())
}

fn answer_of(
    tables: &Tables,
    current: Open,
    verdict: Result<Verdict, Refusal>,
) -> Result<Answer, NoMemory>
    requires settled { is_settled verdict ≡ true }
    requires read { CanRead tables.now verdict }
    ensures reply { IfOk result (λ answer.
        (call : CallOf) → reply_now (meant tables.now call verdict) ≡ Some answer.reply) }
    ensures answer { IfOk result (λ answer. answer ≡ record {
      host = tables.now.host;
      k = current.entry.k;
      call = current.entry.call.now;
      reply = answer.reply;
      first = current.entry.first;
    }) }
{
    let reply = reply_to(tables, verdict)?;
    Ok(Answer {
        host: tables.host,
        k: current.k,
        call: current.call.copy()?,
        reply,
        first: current.first,
    })
}

/// Marks what an answered call used, which goes from a root along a path. It takes no memory.
pub fn mark_used(
    tables: &mut Tables,
    call: &Call,
    root: Fid,
    path: &[Name],
    verdict: &Result<Verdict, Refusal>,
)
    ensures marks { MarksUsed tables.old call.now root path.now verdict.now tables.new }
    ensures backed { IsBacked tables.old call.now verdict.now → IsBacked tables.new call.now verdict.now }
{
    mark_along(tables, call, root, path, verdict);
}

fn mark_along(
    tables: &mut Tables,
    call: &Call,
    root: Fid,
    path: &[Name],
    verdict: &Result<Verdict, Refusal>,
)
    ensures { MarksUsed tables.old call.now root path.now verdict.now tables.new }
{
    let last = last_needs(tables, *verdict);
    let path = if ends_at_root(tables, call, root) {
        &[]
    } else {
        path
    };
    let (cache, user) = (&mut tables.cache, &tables.user);
    match last {
        Last::Nothing => mark_way(cache, user, root, path, &[]),
        Last::One(need) => mark_way(cache, user, root, path, &[need]),
        Last::Two(first, second) => mark_way(cache, user, root, path, &[first, second]),
    }
}

// Whether a call looks at the root of its fileset alone: a Write of a clone's file.
fn ends_at_root(tables: &Tables, call: &Call, root: Fid) -> bool
    ensures { (path : List (List ℕ)) →
        way_of tables.now call.now root path ≡ (if result then [] else path) }
{
    matches!(call, Call::Write { .. }) && is_read_only(tables, root)
}

// Whether an object is seen to be a clone's.
fn is_read_only(tables: &Tables, fid: Fid) -> bool
    ensures { result ≡ is_read_only (content tables.now.cache fid Traits) }
{
    match tables.cache.status(fid) {
        Some(status) => status.read_only,
        None => false,
    }
}

fn last_needs(tables: &Tables, verdict: Result<Verdict, Refusal>) -> Last
    ensures { needs_in result ≡ last_needs tables.now verdict }
{
    match verdict {
        Ok(Verdict::Reads(fid, span)) if !span.is_empty() => {
            Last::One(bytes_need(fid, false, blocks_around(span.from, span.to)))
        }
        Ok(Verdict::Lists(fid)) => Last::One(whole_need(fid)),
        Ok(Verdict::Writes(fid, from, to)) => write_needs(tables, fid, from, to),
        Ok(Verdict::Uses(fid, kind)) => Last::One(Need { fid, kind }),
        _ => Last::Nothing,
    }
}

fn write_needs(tables: &Tables, fid: Fid, from: u32, to: u32) -> Last
    ensures { needs_in result ≡ write_needs fid from to (content tables.now.cache fid Size) }
{
    let length = length_seen(tables, fid);
    let bytes = bytes_need(fid, true, bytes_to_write(from, to, length));
    if length < to {
        return Last::Two(length_need(fid), bytes);
    }
    Last::One(bytes)
}

// Changes what the host itself has of files and labels.
fn change(
    tables: &mut Tables,
    draft: &mut Draft,
    call: &Call,
    verdict: &Result<Verdict, Refusal>,
) -> Result<(), NoMemory>
    requires { IsBacked tables.old call.now verdict.now }
    ensures { OnOk result (ChangesOwn call.now tables.old draft.old tables.new draft.new verdict.now) }
{
    match verdict {
        Ok(verdict) => change_own(tables, draft, call, *verdict),
        Err(_refusal) => Ok(()),
    }
}

fn change_own(
    tables: &mut Tables,
    draft: &mut Draft,
    call: &Call,
    verdict: Verdict,
) -> Result<(), NoMemory>
    requires { IsBacked tables.old call.now (Ok verdict) }
    ensures { OnOk result (ChangesOwn call.now tables.old draft.old tables.new draft.new (Ok verdict)) }
{
    match verdict {
        Verdict::Writes(fid, from, to) => write_own(tables, draft, call, fid, from, to),
        Verdict::Uses(fid, kind) => use_own(tables, draft, call, fid, kind),
        Verdict::Frees => {
            free_own(tables, call);
            Ok(())
        }
        _ => Ok(()),
    }
}

fn write_own(
    tables: &mut Tables,
    draft: &mut Draft,
    call: &Call,
    fid: Fid,
    from: u32,
    to: u32,
) -> Result<(), NoMemory>
    requires { WritesSo tables.old call.now fid from to }
    ensures { OnOk result (ChangesOwn call.now tables.old draft.old tables.new draft.new
        (Ok (Verdict.Writes fid from to))) }
{
    let Call::Write { bytes, .. } = call else {
        return Ok(());
    };
    draft.wrote = Some(fid);
    write(tables, fid, from, to, bytes)
}

fn use_own(
    tables: &mut Tables,
    draft: &mut Draft,
    call: &Call,
    fid: Fid,
    kind: Kind,
) -> Result<(), NoMemory>
    requires { TakesSo tables.old call.now fid kind }
    ensures { OnOk result (ChangesOwn call.now tables.old draft.old tables.new draft.new
        (Ok (Verdict.Uses fid kind))) }
{
    match call {
        Call::Lock { label, .. } => begin_use(tables, draft, fid, kind, label),
        Call::OpenFile { label, .. } => begin_use(tables, draft, fid, kind, label),
        _ => Ok(()),
    }
}

fn free_own(tables: &mut Tables, call: &Call)
    requires { FreesSo tables.old call.now }
    ensures { FreesUse call.now tables.old tables.new }
{
    match call {
        Call::Unlock { label } => end_use(tables, true, label),
        Call::CloseFile { label } => end_use(tables, false, label),
        _ => None,
    };
}

// Writes bytes of a file, which the held tokens cover.
fn write(
    tables: &mut Tables,
    fid: Fid,
    from: u32,
    to: u32,
    bytes: &Items<u8>,
) -> Result<(), NoMemory>
    requires { CoversBetween (held_of tables.old) fid true from (from + length bytes.now) }
    ensures { OnOk result (WritesBytes tables.old fid from to bytes.now tables.new) }
{
    tables.dirty.add(fid, positions(from, to))?;
    tables.cache.write(fid, from, bytes.as_slice());
    if length_seen(tables, fid) < to {
        tables.cache.set_length(fid, to);
    }
    Ok(())
}

// Takes a label in use, for the exact token of a file.
fn begin_use(
    tables: &mut Tables,
    draft: &mut Draft,
    fid: Fid,
    kind: Kind,
    label: &Name,
) -> Result<(), NoMemory>
    requires kind { IsUseKind kind }
    requires unused { use_of tables.old.uses (is_lock kind) label.now ≡ None }
    requires covered { Covers (held_of tables.old) (record { fid = fid; kind = kind }) }
    ensures { OnOk result (BeginsUse tables.old draft.old fid kind label.now tables.new draft.new) }
{
    let Some(token) = exact_token(tables, fid, kind) else {
        return Ok(());
    };
    tables.uses.take(label, &token)?;
    tables.cache.set_use(token.id, true);
    let label = label.copy()?;
    draft.begun.push(Labelled { label, token })
}

// The first token of a file that is just of this kind, of locks or of open files.
fn exact_token(tables: &Tables, fid: Fid, kind: Kind) -> Option<Token>
    ensures { result ≡ find (λ token. same_use token.kind kind) (tokens_at tables.now fid) }
{
    exact_in(tables.cache.tokens_at(fid), kind)
}

fn exact_in(tokens: &[Token], kind: Kind) -> Option<Token>
    ensures { result ≡ find (λ token. same_use token.kind kind) tokens.now }
{
    find_exact(tokens, kind).copied()
}

fn find_exact<'a>(tokens: &'a [Token], kind: Kind) -> Option<&'a Token>
    ensures { option_copied result ≡ find (λ token. same_use token.kind kind) tokens.now }
{
    tokens.iter().find(|token| is_same_use(token.kind, kind))
}

fn is_same_use(kind: Kind, other: Kind) -> bool
    ensures { result ≡ same_use kind other }
{
    match (kind, other) {
        (Kind::Lock { .. }, Kind::Lock { .. }) => kind == other,
        (Kind::Opening(kind), Kind::Opening(other)) => kind == other,
        _ => false,
    }
}

/// Takes a label of locks out of use, or else of opens, and answers it with its token; None where it isn't in use. It
/// takes no memory.
pub fn end_use(tables: &mut Tables, lock: bool, label: &Name) -> Option<host_labels::Labelled>
    ensures used { MatchOption result (use_of tables.old.uses lock label.now ≡ None)
        (λ used. use_of tables.old.uses lock label.now ≡ Some used) }
    ensures after { MatchOption result (tables.new ≡ tables.old)
        (λ used. EndsUse tables.old lock label.now used tables.new) }
{
    tables.uses.laws();
    let used = tables.uses.drop_label(lock, label)?;
    if !is_used(tables, used.token.id) {
        tables.cache.set_use(used.token.id, false);
    }
    Some(used)
}

// What is replied.
fn reply_to(tables: &Tables, verdict: Result<Verdict, Refusal>) -> Result<Reply, NoMemory>
    requires settled { is_settled verdict ≡ true }
    requires read { CanRead tables.now verdict }
    ensures { IfOk result (λ reply. (call : CallOf) → reply_now (meant tables.now call verdict) ≡ Some reply) }
{
    match verdict {
        Err(refusal) => Ok(Reply::Refused(refusal)),
        Ok(verdict) => reply_of(tables, verdict),
    }
}

fn reply_of(tables: &Tables, verdict: Verdict) -> Result<Reply, NoMemory>
    requires settled { is_settled (Ok verdict) ≡ true }
    requires read { CanReadOn tables.now.cache verdict }
    ensures { IfOk result (λ reply. (call : CallOf) → reply_now (meant tables.now call (Ok verdict)) ≡ Some reply) }
{
    match verdict {
        Verdict::Reads(fid, span) => Ok(Reply::Bytes(bytes_of(tables, fid, span)?)),
        Verdict::Lists(fid) => Ok(Reply::Names(names_in(tables, fid)?)),
        Verdict::Tells(fid) => facts_of(tables, fid),
        Verdict::Shows(fid, which) => access_of(tables, fid, which),
        _ => Ok(Reply::Ok),
    }
}

fn names_in(tables: &Tables, fid: Fid) -> Result<Items<Name>, NoMemory>
    ensures { IfOk result (λ names. names ≡ names_of (content tables.now.cache fid Entries)) }
{
    let mut names = Items::new(tables.alloc);
    for entry in tables.cache.entries(fid) {
        names.push(entry.name.copy()?)?;
    }
    Ok(names)
}

fn facts_of(tables: &Tables, fid: Fid) -> Result<Reply, NoMemory>
    ensures { IfOk result (λ reply. reply ≡ of_seen (content tables.now.cache) fid
        (facts_of (content tables.now.cache) tables.now.user fid)) }
{
    match tables.cache.status(fid) {
        Some(status) => Ok(Reply::Facts(Facts {
            dir: status.dir,
            length: length_of(status),
            owner: status.owner.copy()?,
            rights: rights_on(status, &tables.user),
        })),
        None => Ok(Reply::Refused(Refusal::NoEntry)),
    }
}

fn length_of(status: &Status) -> u32
    ensures { result ≡ status.now.length }
{
    status.length
}

fn access_of(tables: &Tables, fid: Fid, which: Which) -> Result<Reply, NoMemory>
    ensures { IfOk result (λ reply. reply ≡ of_seen (content tables.now.cache) fid (access_of which)) }
{
    let Some(status) = tables.cache.status(fid) else {
        return Ok(Reply::Refused(Refusal::NoEntry));
    };
    match list_of(status, which) {
        Some(list) => Ok(Reply::Access(list.copy()?)),
        None => Ok(Reply::Refused(Refusal::NotDir)),
    }
}
