//! What a host answers to a Revoke.
ghost use Rattle.std.specs.Prelude.{◌≡◌, ◌≤◌, ◌==◌, ◌&&◌, ◌∷◌, [], fold, length, map, not, take, IfOk, OnOk};
ghost use Rattle.std.specs.List.{find, list_any};
ghost use Rattle.base_types.specs.Ids.{same_fid};
ghost use Rattle.host_cache.specs.Holding.{is_id, is_status, tokens_of};
ghost use Rattle.host_gives.specs.Giving.{is_outstanding, number_of};
ghost use Rattle.host_leaves.specs.Giving.{AreCovered};
ghost use Rattle.host_leaves.specs.Revoking.{Answers, AreHeld, AreHeldBeside, AreUsed, LeaveAll, LeavesFile, Revokes};
ghost use Rattle.host_leaves.specs.Revoking.{covers_status, has_file, has_id, is_lost, keeping_all};
ghost use Rattle.host_leaves.specs.Revoking.{keeping_file, none_sorted, of_file, others_of, pinned, sending_given};
ghost use Rattle.host_leaves.specs.Revoking.{sorted_by, sorting, sorting_held, with_given, with_lost, with_lost_where};
ghost use Rattle.host_leaves.specs.Revoking.{with_raised};

use crate::giving::leave;
use crate::owning::is_used;
use crate::sending::{push_once, say, send_give};
use base_types::{Fid, FilesetId, Items, NoMemory};
use host_cache::Cache;
use host_gives::Leaving;
use host_labels::Uses;
use host_tables::{Draft, Floor, Tables, floor_of, home, put_floor};
use host_walk::status_need;
use message_types::{Body, Message, Named, Revoke};
use run_rules::Why;
use std::alloc::Global;
use token_types::{Kind, Token, TokenId};

/// What becomes of the tokens that a Revoke names.
#[derive(Drop)]
struct Sorted {
    /// Those in use.
    kept: Items<Token>,
    /// The others that are held.
    left: Items<Token>,
    /// The numbers that the host neither holds nor gives back.
    back: Items<TokenId>,
    /// The filesets whose outstanding give-back names one.
    given: Items<FilesetId>,
}

/// Takes a Revoke: of the tokens that it names one in use is kept, any other that is held leaves, one that is on its
/// way is sent again, and all others are returned. The only error is that memory ran out.
pub fn take_revoke(tables: &mut Tables, draft: &mut Draft, revoke: &Revoke) -> Result<(), NoMemory>
    ensures { OnOk result (Revokes revoke.now tables.old draft.old tables.new draft.new) }
{
    raise_floor(tables, revoke.fid, revoke.stamp)?;
    let sorted = sort(tables, revoke.ids.as_slice())?;
    answer(tables, draft, revoke.fid, &sorted)
}

// Answers a Revoke of a file, by what becomes of the tokens that it names.
fn answer(tables: &mut Tables, draft: &mut Draft, fid: Fid, sorted: &Sorted) -> Result<(), NoMemory>
    requires kept { AreUsed tables.old.uses.labels sorted.now.kept }
    requires left { AreHeld tables.old sorted.now.left }
    ensures { OnOk result (Answers fid sorted.now tables.old draft.old tables.new draft.new) }
{
    let kept = sorted.kept.as_slice();
    let left = sorted.left.as_slice();
    send_given(tables, draft, sorted.given.as_slice())?;
    pin_all(&mut tables.uses, kept)?;
    say_kept(tables, draft, kept)?;
    leave_all(tables, draft, fid, left, sorted.back.as_slice())
}

// Raises the floor of a file to a stamp.
fn raise_floor(tables: &mut Tables, fid: Fid, stamp: u64) -> Result<(), NoMemory>
    ensures { OnOk result (tables.new ≡ with_raised fid stamp tables.old) }
{
    if floor_of(tables.floors.as_slice(), fid) < stamp {
        return put_floor(&mut tables.floors, Floor { fid, stamp });
    }
    Ok(())
}

// Sorts the tokens that a Revoke names, each once.
fn sort(tables: &Tables, ids: &[TokenId]) -> Result<Sorted, NoMemory>
    ensures { IfOk result (λ sorted. sorted ≡ sorted_by tables.now ids.now) }
{
    let mut sorted = nothing(tables.alloc);
    for (index, id) in ids.iter().enumerate() {
        if is_new(ids, index, *id) {
            sort_one(tables, &mut sorted, *id)?;
        }
    }
    Ok(sorted)
}

// Whether a number doesn't stand before a place among others.
fn is_new(ids: &[TokenId], index: usize, id: TokenId) -> bool
    requires { index ≤ length ids.now }
    ensures { result ≡ not (has_id id (take index ids.now)) }
{
    !has_id(&ids[..index], id)
}

fn has_id(ids: &[TokenId], id: TokenId) -> bool
    ensures { result ≡ has_id id ids.now }
{
    ids.iter().any(|other| *other == id)
}

fn nothing(alloc: Global) -> Sorted
    ensures { result ≡ none_sorted }
{
    Sorted {
        kept: Items::new(alloc),
        left: Items::new(alloc),
        back: Items::new(alloc),
        given: Items::new(alloc),
    }
}

fn sort_one(tables: &Tables, sorted: &mut Sorted, id: TokenId) -> Result<(), NoMemory>
    ensures { OnOk result (sorted.new ≡ sorting tables.now sorted.old id) }
{
    note_given(tables, &mut sorted.given, id)?;
    sort_held(tables, sorted, id)
}

// Notes the filesets whose outstanding give-back names a token.
fn note_given(tables: &Tables, given: &mut Items<FilesetId>, id: TokenId) -> Result<(), NoMemory>
    ensures { OnOk result (given.new ≡ fold (with_given tables.now id) given.old tables.now.leaving) }
{
    let leaving = tables.leaving.to_items()?;
    note_all(tables, given, id, leaving.as_slice())
}

fn note_all(
    tables: &Tables,
    given: &mut Items<FilesetId>,
    id: TokenId,
    leaving: &[Leaving],
) -> Result<(), NoMemory>
    ensures { OnOk result (given.new ≡ fold (with_given tables.now id) given.old leaving.now) }
{
    for left in leaving {
        note_left(tables, given, id, left)?;
    }
    Ok(())
}

fn note_left(
    tables: &Tables,
    given: &mut Items<FilesetId>,
    id: TokenId,
    left: &Leaving,
) -> Result<(), NoMemory>
    ensures { OnOk result (given.new ≡ with_given tables.now id given.old left.now) }
{
    if left.token.id == id && is_outstanding(tables, left.fileset, left.number) {
        return push_once(given, left.fileset);
    }
    Ok(())
}

// Notes a token that is in use, or held, or none of these and on no way.
fn sort_held(tables: &Tables, sorted: &mut Sorted, id: TokenId) -> Result<(), NoMemory>
    ensures { OnOk result (sorted.new
        ≡ sorting_held tables.now id (find (is_id id) tables.now.cache.held) sorted.old) }
{
    let Some(held) = tables.cache.find(id) else {
        if tables.leaving.has(id) {
            return Ok(());
        }
        return sorted.back.push(id);
    };
    if is_used(tables, id) {
        return sorted.kept.push(held.token);
    }
    sorted.left.push(held.token)
}

fn is_outstanding(tables: &Tables, fileset: FilesetId, number: u64) -> bool
    ensures { result ≡ is_outstanding tables.now.gives fileset number }
{
    match tables.gives.outstanding(fileset) {
        Some(message) => number_of(message) == number,
        None => false,
    }
}

fn number_of(message: &Message) -> u64
    ensures { result ≡ number_of message.now }
{
    match &message.body {
        Body::GiveBack(give) => give.number,
        _ => 0,
    }
}

// Sends the outstanding give-backs of filesets once more.
fn send_given(tables: &Tables, draft: &mut Draft, filesets: &[FilesetId]) -> Result<(), NoMemory>
    ensures { OnOk result (draft.new ≡ sending_given tables.now filesets.now draft.old) }
{
    for fileset in filesets {
        send_give(tables, draft, *fileset)?;
    }
    Ok(())
}

// Pins tokens for which labels are in use.
fn pin_all(uses: &mut Uses, tokens: &[Token]) -> Result<(), NoMemory>
    requires { AreUsed uses.old.labels tokens.now }
    ensures { OnOk result (uses.new ≡ pinned uses.old tokens.now) }
{
    for token in tokens {
        uses.pin(token.id)?;
    }
    Ok(())
}

// Says which tokens are kept, for each file.
fn say_kept(tables: &Tables, draft: &mut Draft, tokens: &[Token]) -> Result<(), NoMemory>
    ensures { OnOk result (draft.new ≡ keeping_all tables.now tokens.now draft.old) }
{
    for (index, token) in tokens.iter().enumerate() {
        if is_first(tokens, index, token.fid) {
            say_kept_of(tables, draft, tokens, token.fid)?;
        }
    }
    Ok(())
}

// Whether no token before the one at `index` is of this file.
fn is_first(tokens: &[Token], index: usize, fid: Fid) -> bool
    requires { index ≤ length tokens.now }
    ensures { result ≡ not (has_file fid (take index tokens.now)) }
{
    !has_file(&tokens[..index], fid)
}

// Whether one of some tokens is of this file.
fn has_file(tokens: &[Token], fid: Fid) -> bool
    ensures { result ≡ has_file fid tokens.now }
{
    tokens.iter().any(|token| is_of(token, fid))
}

fn is_of(token: &Token, fid: Fid) -> bool
    ensures { result ≡ same_fid token.now.fid fid }
{
    token.fid == fid
}

// Says which tokens of a file are kept.
fn say_kept_of(
    tables: &Tables,
    draft: &mut Draft,
    tokens: &[Token],
    fid: Fid,
) -> Result<(), NoMemory>
    ensures { OnOk result (draft.new ≡ keeping_file tables.now tokens.now draft.old fid) }
{
    let ids = ids_at(tables.alloc, tokens, fid)?;
    say(
        tables,
        draft,
        home(fid.fileset),
        Body::Kept(Named { fid, ids }),
    )
}

// The numbers of those tokens that are of a file.
fn ids_at(alloc: Global, tokens: &[Token], fid: Fid) -> Result<Items<TokenId>, NoMemory>
    ensures { IfOk result (λ ids. ids ≡ map (λ token. token.id) (of_file fid tokens.now)) }
{
    let mut ids = Items::new(alloc);
    for token in tokens {
        if is_of(token, fid) {
            ids.push(token.id)?;
        }
    }
    Ok(ids)
}

// Tokens leave, file by file, those of one file first, with some numbers that aren't held.
fn leave_all(
    tables: &mut Tables,
    draft: &mut Draft,
    fid: Fid,
    tokens: &[Token],
    back: &[TokenId],
) -> Result<(), NoMemory>
    requires { AreHeld tables.old tokens.now }
    ensures { OnOk result (LeaveAll tokens.now (fid ∷ others_of fid tokens.now) back.now
        tables.old draft.old tables.new draft.new) }
{
    leave_file(tables, draft, fid, tokens, back)?;
    leave_others(tables, draft, fid, tokens)
}

// The tokens of other files leave, file by file.
fn leave_others(
    tables: &mut Tables,
    draft: &mut Draft,
    fid: Fid,
    tokens: &[Token],
) -> Result<(), NoMemory>
    requires { AreHeldBeside tables.old fid [] tokens.now }
    ensures { OnOk result
        (LeaveAll tokens.now (others_of fid tokens.now) [] tables.old draft.old tables.new draft.new) }
{
    for (index, token) in tokens.iter().enumerate() {
        if is_other(tokens, index, fid, token) {
            leave_file(tables, draft, token.fid, tokens, &[])?;
        }
    }
    Ok(())
}

// Whether a token is the first of its file among those before a place, and not of another file.
fn is_other(tokens: &[Token], index: usize, fid: Fid, token: &Token) -> bool
    requires { index ≤ length tokens.now }
    ensures { result ≡ (not (same_fid token.now.fid fid) && not (has_file token.now.fid (take index tokens.now))) }
{
    !is_of(token, fid) && is_first(tokens, index, token.fid)
}

// Those of the tokens leave that are of a file, with some numbers that aren't held.
fn leave_file(
    tables: &mut Tables,
    draft: &mut Draft,
    fid: Fid,
    tokens: &[Token],
    back: &[TokenId],
) -> Result<(), NoMemory>
    requires { AreCovered tables.old fid (of_file fid tokens.now) }
    ensures { OnOk result (LeavesFile fid tokens.now back.now tables.old draft.old tables.new draft.new) }
{
    tables.cache.laws();
    let here = tokens_of(tables.alloc, tokens, fid)?;
    let here = here.as_slice();
    leave(tables, draft, fid, here, Why::Revoked, back)?;
    note_lost(tables, fid, here)
}

// Those of the tokens that are of a file.
fn tokens_of(alloc: Global, tokens: &[Token], fid: Fid) -> Result<Items<Token>, NoMemory>
    ensures { IfOk result (λ here. here ≡ of_file fid tokens.now) }
{
    let mut here = Items::new(alloc);
    for token in tokens {
        if is_of(token, fid) {
            here.push(*token)?;
        }
    }
    Ok(here)
}

// Notes a file whose last token of the status was among these, all of which are its, while a call is open.
fn note_lost(tables: &mut Tables, fid: Fid, tokens: &[Token]) -> Result<(), NoMemory>
    ensures { OnOk result (tables.new ≡ with_lost_where fid tokens.now tables.old) }
{
    if is_lost(tables, fid, tokens) {
        return add_lost(&mut tables.lost, fid);
    }
    Ok(())
}

// Whether the last token of a file's status was among these, while a call is open.
fn is_lost(tables: &Tables, fid: Fid, tokens: &[Token]) -> bool
    ensures { result ≡ is_lost fid tokens.now tables.now }
{
    has_status(fid, tokens) && tables.call.is_some() && !covers_status(&tables.cache, fid)
}

// Whether the status of a file is covered.
fn covers_status(cache: &Cache, fid: Fid) -> bool
    ensures { result ≡ covers_status fid (tokens_of cache.now.held) }
{
    cache.covers(&status_need(fid))
}

// Whether one of some tokens is of the status of a file.
fn has_status(fid: Fid, tokens: &[Token]) -> bool
    ensures { result ≡ covers_status fid tokens.now }
{
    tokens
        .iter()
        .any(|token| is_of(token, fid) && is_status(token.kind))
}

fn is_status(kind: Kind) -> bool
    ensures { result ≡ is_status kind }
{
    matches!(kind, Kind::Status { .. })
}

// Adds a file to a list, where it isn't there.
fn add_lost(lost: &mut Items<Fid>, fid: Fid) -> Result<(), NoMemory>
    ensures { OnOk result (lost.new ≡ with_lost fid lost.old) }
{
    if has_fid(lost.as_slice(), fid) {
        return Ok(());
    }
    lost.push(fid)
}

fn has_fid(fids: &[Fid], fid: Fid) -> bool
    ensures { result ≡ list_any (λ other. same_fid other fid) fids.now }
{
    fids.iter().any(|other| *other == fid)
}
