//! How a host goes on with its open call.
ghost use Rattle.std.specs.Prelude.{◌≡◌, ◌+◌, ◌↔◌, Err, IfOk, IsOkAnd, IsTrue, None, Ok, OnOk, false};
ghost use Rattle.std.specs.Prelude.{if◌then◌else◌, true};
ghost use Rattle.host_asks.specs.Asking.{AsksFor, doing};
ghost use Rattle.host_asks.specs.Going.{Begins, GivesLabel, GivesUse, Goes, GoesOn, MarksWhere, Settles, SettlesOn};
ghost use Rattle.host_asks.specs.Going.{GivesEnded, left_open};
ghost use Rattle.host_tables.specs.Tables.{held_of, labelled};
ghost use Rattle.run_rules.specs.Past.{In};
ghost use Rattle.host_calls.specs.Looking.{EndsLabel, IsBacked, IsFresh, WalksSo, ending_of, is_settled};

use crate::asking::{ask_for, ask_question};
use base_types::{Fid, Name, NoMemory, OpenKind, Plain, Span};
use host_calls::{Open, Start, Verdict, answer, end_use, mark_used, start_of, walked};
use host_leaves::{leave_dirty, leave_ended};
use host_tables::{Draft, Tables};
use host_walk::Stop;
use run_rules::{Asked, Labelled};
use token_types::{Kind, Need, Token};
use tree_calls::{Call, Refusal};

/// Begins a call: it is answered at once, or left open. The only error is that memory ran out, or that there is no
/// further number.
pub fn begin_call(tables: &mut Tables, draft: &mut Draft, call: &Call) -> Result<(), NoMemory>
    ensures { OnOk result (Begins (tables.old.begun + 1) call.now
        (doing tables.old draft.old) (doing tables.new draft.new)) }
{
    let Some(k) = tables.begun.checked_add(1) else {
        return Err(NoMemory);
    };
    tables.begun = k;
    tables.lost.truncate(0);
    let is_answered = go(
        tables,
        draft,
        Open {
            k,
            call,
            first: true,
        },
    )?;
    if is_answered {
        return Ok(());
    }
    leave_open(tables, draft, k, call)
}

// The call is left open.
fn leave_open(tables: &mut Tables, draft: &mut Draft, k: u32, call: &Call) -> Result<(), NoMemory>
    ensures { OnOk result (doing tables.new draft.new
        ≡ left_open (record { k = k; call = call.now }) (doing tables.old draft.old)) }
{
    keep(&mut tables.call, asked(k, call)?);
    keep(&mut draft.asked, asked(k, call)?);
    Ok(())
}

// Puts a call where one is kept.
fn keep(kept: &mut Option<Asked>, asked: Asked)
    ensures { kept.new ≡ Some asked }
{
    drop(kept.replace(asked));
}

fn asked(k: u32, call: &Call) -> Result<Asked, NoMemory>
    ensures { IfOk result (λ asked. asked ≡ record { k = k; call = call.now }) }
{
    Ok(Asked {
        k,
        call: call.copy()?,
    })
}

/// Goes on with the open call, where there is one. The only error is that memory ran out.
pub fn go_on(tables: &mut Tables, draft: &mut Draft) -> Result<(), NoMemory>
    ensures { OnOk result (GoesOn (doing tables.old draft.old) (doing tables.new draft.new)) }
{
    let Some(asked) = tables.call.take() else {
        return Ok(());
    };
    let gone = go_with(tables, draft, &asked);
    put_back(tables, asked, gone)
}

fn go_with(tables: &mut Tables, draft: &mut Draft, asked: &Asked) -> Result<bool, NoMemory>
    ensures { IfOk result (λ answered. Goes asked.now.k asked.now.call false
        (doing tables.old draft.old) (doing tables.new draft.new) answered) }
{
    let current = Open {
        k: asked.k,
        call: &asked.call,
        first: false,
    };
    go(tables, draft, current)
}

// The call stays open, if it isn't answered.
fn put_back(tables: &mut Tables, asked: Asked, gone: Result<bool, NoMemory>) -> Result<(), NoMemory>
    ensures { OnOk result (IsOkAnd gone (λ answered. tables.new
        ≡ (if answered then tables.old else record tables.old { call = Some asked }))) }
{
    let Ok(is_answered) = gone else {
        drop(asked);
        return Err(NoMemory);
    };
    if is_answered {
        drop(asked);
        return Ok(());
    }
    keep(&mut tables.call, asked);
    Ok(())
}

// Goes on with a call, and answers whether it is answered. Nothing is done while a request is outstanding: then a token
// lacks, or a server is asked.
fn go(tables: &mut Tables, draft: &mut Draft, current: Open) -> Result<bool, NoMemory>
    ensures { IfOk result (λ answered. Goes current.entry.k current.entry.call.now current.entry.first
        (doing tables.old draft.old) (doing tables.new draft.new) answered) }
{
    if tables.request.is_some() {
        return Ok(false);
    }
    match start_of(tables, current.call) {
        Start::Ends(verdict) => settle(tables, draft, current, verdict),
        Start::Walks(root, path) => walk(tables, draft, current, root, path),
    }
}

// Goes on with a call that goes from a root along a path.
fn walk(
    tables: &mut Tables,
    draft: &mut Draft,
    current: Open,
    root: Fid,
    path: &[Name],
) -> Result<bool, NoMemory>
    requires idle { tables.old.request ≡ None }
    requires walks { WalksSo tables.old current.call.now root path.now }
    requires fresh { IsFresh tables.old current.call.now }
    ensures { IfOk result (λ answered. Goes current.entry.k current.entry.call.now current.entry.first
        (doing tables.old draft.old) (doing tables.new draft.new) answered) }
{
    match walked(tables, current.call, root, path) {
        Err(Stop::Lacks(need)) => lack(tables, draft, current, need),
        Err(Stop::Refused(refusal)) => refuse(tables, draft, current, root, path, refusal),
        Ok(verdict) => find(tables, draft, current, root, path, verdict),
    }
}

// A call lacks a token.
fn lack(tables: &mut Tables, draft: &mut Draft, current: Open, need: Need) -> Result<bool, NoMemory>
    ensures { IfOk result (λ answered. (answered ≡ false) × AsksFor need current.entry.k current.entry.call.now
        (doing tables.old draft.old) (doing tables.new draft.new)) }
{
    ask_for(tables, draft, current, need)?;
    Ok(false)
}

// A call is refused.
fn refuse(
    tables: &mut Tables,
    draft: &mut Draft,
    current: Open,
    root: Fid,
    path: &[Name],
    refusal: Refusal,
) -> Result<bool, NoMemory>
    ensures { IfOk result (λ answered. (answered ≡ true) × SettlesOn current.entry.k current.entry.call.now
        current.entry.first root path.now (Err refusal) (doing tables.old draft.old) (doing tables.new draft.new)
        true) }
{
    let verdict = Err(refusal);
    mark_used(tables, current.call, root, path, &verdict);
    answer(tables, draft, current, verdict)?;
    Ok(true)
}

// A call comes to a verdict.
fn find(
    tables: &mut Tables,
    draft: &mut Draft,
    current: Open,
    root: Fid,
    path: &[Name],
    verdict: Verdict,
) -> Result<bool, NoMemory>
    requires { IsBacked tables.old current.call.now (Ok verdict) }
    ensures { IfOk result (λ answered. SettlesOn current.entry.k current.entry.call.now current.entry.first
        root path.now (Ok verdict) (doing tables.old draft.old) (doing tables.new draft.new) answered) }
{
    mark_where(tables, current.call, root, path, &Ok(verdict));
    settle_by(tables, draft, current, verdict)
}

// Marks what a call used, where it is answered.
fn mark_where(
    tables: &mut Tables,
    call: &Call,
    root: Fid,
    path: &[Name],
    verdict: &Result<Verdict, Refusal>,
)
    ensures marks { MarksWhere (is_settled verdict.now) tables.old call.now root path.now verdict.now tables.new }
    ensures backed { IsBacked tables.old call.now verdict.now → IsBacked tables.new call.now verdict.now }
{
    if !is_settled(verdict) {
        return;
    }
    mark_used(tables, call, root, path, verdict);
}

// Whether the call is answered.
fn is_settled(verdict: &Result<Verdict, Refusal>) -> bool
    ensures { result ≡ is_settled verdict.now }
{
    match verdict {
        Ok(verdict) => is_settled_by(verdict),
        Err(_refusal) => true,
    }
}

fn is_settled_by(verdict: &Verdict) -> bool
    ensures { result ≡ is_settled (Ok verdict.now) }
{
    !matches!(
        verdict,
        Verdict::Syncs(_) | Verdict::Gives | Verdict::Asks(_)
    )
}

// Answers a call, gives back for it, or asks a server.
fn settle(
    tables: &mut Tables,
    draft: &mut Draft,
    current: Open,
    verdict: Result<Verdict, Refusal>,
) -> Result<bool, NoMemory>
    requires { IsBacked tables.old current.call.now verdict }
    ensures { IfOk result (λ answered. Settles current.entry.k current.entry.call.now current.entry.first
        (doing tables.old draft.old) (doing tables.new draft.new) verdict answered) }
{
    match verdict {
        Ok(verdict) => settle_by(tables, draft, current, verdict),
        Err(refusal) => {
            answer(tables, draft, current, Err(refusal))?;
            Ok(true)
        }
    }
}

fn settle_by(
    tables: &mut Tables,
    draft: &mut Draft,
    current: Open,
    verdict: Verdict,
) -> Result<bool, NoMemory>
    requires { IsBacked tables.old current.call.now (Ok verdict) }
    ensures { IfOk result (λ answered. Settles current.entry.k current.entry.call.now current.entry.first
        (doing tables.old draft.old) (doing tables.new draft.new) (Ok verdict) answered) }
{
    match verdict {
        Verdict::Syncs(fid) => {
            leave_dirty(tables, draft, fid)?;
            Ok(false)
        }
        Verdict::Gives => {
            give_use(tables, draft, current)?;
            Ok(false)
        }
        Verdict::Asks(question) => {
            ask_question(tables, draft, current, question)?;
            Ok(false)
        }
        _ => {
            answer(tables, draft, current, Ok(verdict))?;
            Ok(true)
        }
    }
}

// Gives back the pinned token whose last use the call ends; nothing is done while a give-back that ends a use isn't
// known as applied.
fn give_use(tables: &mut Tables, draft: &mut Draft, current: Open) -> Result<(), NoMemory>
    requires { EndsLabel current.call.now }
    ensures { OnOk result (GivesLabel current.entry.k current.entry.call.now
        (doing tables.old draft.old) (doing tables.new draft.new)) }
{
    match current.call {
        Call::Unlock { label } => give_label(tables, draft, current, true, label),
        Call::CloseFile { label } => give_label(tables, draft, current, false, label),
        _ => Ok(()),
    }
}

fn give_label(
    tables: &mut Tables,
    draft: &mut Draft,
    current: Open,
    lock: bool,
    label: &Name,
) -> Result<(), NoMemory>
    requires { current.call.now ≡ ending_of lock label.now }
    ensures { OnOk result (GivesUse lock label.now current.entry.k
        (doing tables.old draft.old) (doing tables.new draft.new)) }
{
    if tables.ending.is_some() {
        return Ok(());
    }
    match end_use(tables, lock, label) {
        Some(used) => give_used(tables, draft, current, used),
        None => Ok(()),
    }
}

// Gives back the token of a label that is no longer in use, where it is held.
fn give_used(
    tables: &mut Tables,
    draft: &mut Draft,
    current: Open,
    used: host_labels::Labelled,
) -> Result<(), NoMemory>
    ensures { OnOk result (GivesEnded used current.entry.k current.entry.call.now
        (doing tables.old draft.old) (doing tables.new draft.new)) }
{
    let token = used.token;
    if !is_held(tables, &token) {
        return Ok(());
    }
    note_ending(&mut tables.ending, used);
    leave_ended(tables, draft, token, current.k, current.call)
}

// Notes the label of which the use is being ended.
fn note_ending(ending: &mut Option<Labelled>, used: host_labels::Labelled)
    ensures { ending.new ≡ Some (labelled used) }
{
    *ending = Some(Labelled {
        label: used.label,
        token: used.token,
    });
}

// Whether a token is held.
fn is_held(tables: &Tables, token: &Token) -> bool
    ensures { IsTrue result ↔ In token.now (held_of tables.now) }
{
    has_token(tables.cache.tokens_at(token.fid), token)
}

fn has_token(tokens: &[Token], token: &Token) -> bool
    ensures { IsTrue result ↔ In token.now tokens.now }
{
    for other in tokens {
        if is_same(other, token) {
            return true;
        }
    }
    false
}

fn is_same(one: &Token, other: &Token) -> bool
    ensures { IsTrue result ↔ (one.now ≡ other.now) }
{
    one.id == other.id
        && one.host == other.host
        && one.fid == other.fid
        && is_same_kind(&one.kind, &other.kind)
}

fn is_same_kind(one: &Kind, other: &Kind) -> bool
    ensures { IsTrue result ↔ (one.now ≡ other.now) }
{
    match (one, other) {
        (
            Kind::Bytes { update, span },
            Kind::Bytes {
                update: other,
                span: its,
            },
        ) => *update == *other && is_same_span(span, its),
        (Kind::Status { update }, Kind::Status { update: other }) => *update == *other,
        (
            Kind::Lock { writing, span },
            Kind::Lock {
                writing: other,
                span: its,
            },
        ) => *writing == *other && is_same_span(span, its),
        (Kind::Opening(kind), Kind::Opening(other)) => is_same_opening(kind, other),
        _ => false,
    }
}

fn is_same_span(one: &Span, other: &Span) -> bool
    ensures { IsTrue result ↔ (one.now ≡ other.now) }
{
    *one == *other
}

fn is_same_opening(one: &OpenKind, other: &OpenKind) -> bool
    ensures { IsTrue result ↔ (one.now ≡ other.now) }
{
    *one == *other
}
