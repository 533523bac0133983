//! How tokens leave: what is dirty under them in a give-back, the others in a Returned.
ghost use Rattle.std.specs.Prelude.{◌≡◌, ◌+◌, ◌++◌, ◌∷◌, ◌&&◌, [], ℕ, false, filter, map, not, None, Some};
ghost use Rattle.std.specs.Prelude.{IfOk, OnOk};
ghost use Rattle.base_types.specs.Ids.{same_fid};
ghost use Rattle.base_types.specs.Spans.{in_spans};
ghost use Rattle.token_types.specs.Covers.{CoversBetween};
ghost use Rattle.token_ranges.specs.Positions.{IsApart};
ghost use Rattle.host_dirty.specs.Dirtiness.{is_dirty, length_of, spans_of};
ghost use Rattle.host_cache.specs.Seen.{seen};
ghost use Rattle.host_gives.specs.Counters.{last_of};
ghost use Rattle.host_tables.specs.Tables.{held_of};
ghost use Rattle.host_tables.specs.Updates.{home_at};
ghost use Rattle.message_types.specs.declared.message.Body.TheVariants.{GiveBack};
ghost use Rattle.host_leaves.specs.Sending.{message_to};
ghost use Rattle.host_leaves.specs.Owning.{dirty_length};
ghost use Rattle.host_leaves.specs.Dirtying.{is_dirty_under, spans_within};
ghost use Rattle.host_leaves.specs.Giving.{AreCovered, AreDirty, AreGiven, AreLeft, AreSeen, CleansSo, Drops, GivesSo};
ghost use Rattle.host_leaves.specs.Giving.{Gives, GivesWhere, Leaves, LeavesDirty, LeavesGiven, LeavesWhere};
ghost use Rattle.host_leaves.specs.Giving.{bytes_seen, has_to_give, ids_of, returning};
ghost use Rattle.host_leaves.specs.Giving.{leaves_by, making, noting, noting_due, piece_at, returned_ids};
ghost use Rattle.host_leaves.specs.Giving.{shown_without, with_give};

use crate::dirtying::{cover_left, dirty_left, is_dirty_under, names, spans_within};
use crate::owning::dirty_length;
use crate::sending::{has_fileset, message_to, push_once, say};
use base_types::{Fid, FilesetId, Items, NoMemory, Plain, Span};
use host_cache::Cache;
use host_dirty::Dirty;
use host_lengths::Given;
use host_tables::{Draft, Tables, home};
use message_types::{Body, Ends, Give, Message, Named};
use run_rules::{Leave, Why};
use std::alloc::Global;
use token_types::{Token, TokenId};
use tree_calls::{Call, Piece};

/// Tokens of one file leave, for a cause: those under which something is dirty in a give-back, the others in a
/// Returned, which also names some that aren't held. The only error is that memory ran out.
pub fn leave(
    tables: &mut Tables,
    draft: &mut Draft,
    fid: Fid,
    tokens: &[Token],
    why: Why,
    back: &[TokenId],
) -> Result<(), NoMemory>
    requires { AreCovered tables.old fid tokens.now }
    ensures { OnOk result (Leaves tables.old draft.old fid tokens.now why back.now tables.new draft.new) }
{
    let giving = to_give(tables, fid, tokens)?;
    let giving = giving.as_slice();
    let ids = to_return(tables.alloc, tokens, giving, back)?;
    give_where(tables, draft, fid, giving, tokens)?;
    drop_all(tables, draft, tokens, why)?;
    send_back(tables, draft, fid, ids)
}

/// The tokens of a file under which something is dirty leave in a give-back, where there are any. The only error is
/// that memory ran out.
pub fn leave_dirty(tables: &mut Tables, draft: &mut Draft, fid: Fid) -> Result<(), NoMemory>
    ensures { OnOk result (LeavesDirty tables.old draft.old fid tables.new draft.new) }
{
    let tokens = dirty_tokens(tables, fid)?;
    leave_where(tables, draft, fid, tokens.as_slice())
}

/// A token leaves in a give-back that ends a call, of this number. The only error is that memory ran out.
pub fn leave_ended(
    tables: &mut Tables,
    draft: &mut Draft,
    token: Token,
    k: u32,
    call: &Call,
) -> Result<(), NoMemory>
    requires { AreCovered tables.old token.fid (token ∷ []) }
    ensures { OnOk result (LeavesGiven tables.old draft.old token.fid (token ∷ [])
        (Some (record { k = k; call = call.now })) tables.new draft.new) }
{
    let tokens = [token];
    give_ended(tables, draft, token.fid, &tokens, k, call)?;
    drop_all(tables, draft, &tokens, Why::ForCall)
}

// Tokens of a file leave in a give-back, where there are any.
fn leave_where(
    tables: &mut Tables,
    draft: &mut Draft,
    fid: Fid,
    tokens: &[Token],
) -> Result<(), NoMemory>
    requires { AreCovered tables.old fid tokens.now }
    ensures { OnOk result (LeavesWhere tables.old draft.old fid tokens.now tables.new draft.new) }
{
    if tokens.is_empty() {
        return Ok(());
    }
    make_give(tables, draft, fid, tokens, tokens)?;
    drop_all(tables, draft, tokens, Why::ForCall)
}

// A give-back of some of the tokens that leave is made, where there are any.
fn give_where(
    tables: &mut Tables,
    draft: &mut Draft,
    fid: Fid,
    giving: &[Token],
    leaving: &[Token],
) -> Result<(), NoMemory>
    requires { AreCovered tables.old fid giving.now }
    ensures { OnOk result (GivesWhere tables.old draft.old fid giving.now leaving.now tables.new draft.new) }
{
    if giving.is_empty() {
        return Ok(());
    }
    make_give(tables, draft, fid, giving, leaving)
}

// A give-back of some of the tokens that leave is made.
fn make_give(
    tables: &mut Tables,
    draft: &mut Draft,
    fid: Fid,
    giving: &[Token],
    leaving: &[Token],
) -> Result<(), NoMemory>
    requires { AreCovered tables.old fid giving.now }
    ensures { OnOk result (Gives tables.old draft.old fid giving.now leaving.now None tables.new draft.new) }
{
    let give = give_of(tables, fid, giving, leaving)?;
    make(tables, draft, give)
}

// A give-back of the tokens that leave is made, which ends a call.
fn give_ended(
    tables: &mut Tables,
    draft: &mut Draft,
    fid: Fid,
    tokens: &[Token],
    k: u32,
    call: &Call,
) -> Result<(), NoMemory>
    requires { AreCovered tables.old fid tokens.now }
    ensures { OnOk result (Gives tables.old draft.old fid tokens.now tokens.now
        (Some (record { k = k; call = call.now })) tables.new draft.new) }
{
    let give = give_of(tables, fid, tokens, tokens)?;
    let give = with_end(give, k, call)?;
    make(tables, draft, give)
}

// A give-back that ends a call.
fn with_end(give: Give, k: u32, call: &Call) -> Result<Give, NoMemory>
    ensures { IfOk result (λ with. with ≡ record give { ends = Some (record { k = k; call = call.now }) }) }
{
    let Ok(call) = call.copy() else {
        drop(give);
        return Err(NoMemory);
    };
    Ok(ended(give, Ends { k, call }))
}

// A give-back with this as the call that it ends.
fn ended(give: Give, ends: Ends) -> Give
    ensures { result ≡ record give { ends = Some ends } }
{
    let mut give = give;
    let before = give.ends.replace(ends);
    drop(before);
    give
}

// Says that tokens of a file are returned, where there are any.
fn send_back(
    tables: &Tables,
    draft: &mut Draft,
    fid: Fid,
    ids: Items<TokenId>,
) -> Result<(), NoMemory>
    ensures { OnOk result (draft.new ≡ returning tables.now fid ids draft.old) }
{
    if ids.is_empty() {
        return Ok(());
    }
    say(
        tables,
        draft,
        home(fid.fileset),
        Body::Returned(Named { fid, ids }),
    )
}

// The tokens of a file under which something is dirty.
fn dirty_tokens(tables: &Tables, fid: Fid) -> Result<Items<Token>, NoMemory>
    ensures { IfOk result (λ tokens. AreDirty tables.now fid tokens) }
{
    let spans = tables.dirty.spans(fid);
    let length = dirty_length(tables, fid);
    dirty_of(tables.alloc, tables.cache.tokens_at(fid), spans, length)
}

// Those of some tokens of a file under which something is dirty, where these spans of it are, and its length.
fn dirty_of(
    alloc: Global,
    held: &[Token],
    spans: &[Span],
    length: Option<u32>,
) -> Result<Items<Token>, NoMemory>
    ensures { IfOk result (λ tokens. tokens ≡ filter (is_dirty_under spans.now length) held.now) }
{
    let mut tokens = Items::new(alloc);
    for token in held {
        if is_dirty_under(token, spans, length) {
            tokens.push(*token)?;
        }
    }
    Ok(tokens)
}

// Those of the tokens of a file that leave which a give-back has to name: something is dirty under them that no token
// for update covers which stays, or a give-back that isn't known as applied names their number.
fn to_give(tables: &Tables, fid: Fid, tokens: &[Token]) -> Result<Items<Token>, NoMemory>
    ensures { IfOk result (λ giving. AreGiven tables.now fid tokens.now giving) }
{
    let spans = dirty_left(tables, fid, tokens)?;
    let length = dirty_length(tables, fid);
    named_of(tables, tokens, spans.as_slice(), length)
}

// Those of some tokens of a file that a give-back names, or under which something is dirty, where these spans of it
// are, and its length.
fn named_of(
    tables: &Tables,
    tokens: &[Token],
    spans: &[Span],
    length: Option<u32>,
) -> Result<Items<Token>, NoMemory>
    ensures { IfOk result (λ giving.
        giving ≡ filter (has_to_give tables.now.gives.gives spans.now length) tokens.now) }
{
    let mut giving = Items::new(tables.alloc);
    for token in tokens {
        if has_to_give(tables, token, spans, length) {
            giving.push(*token)?;
        }
    }
    Ok(giving)
}

// Whether a give-back names a token, or something is dirty under it.
fn has_to_give(tables: &Tables, token: &Token, spans: &[Span], length: Option<u32>) -> bool
    ensures { result ≡ has_to_give tables.now.gives.gives spans.now length token.now }
{
    is_dirty_under(token, spans, length) || tables.gives.names(token.id)
}

// The numbers of those tokens that no give-back names, and then of some that aren't held.
fn to_return(
    alloc: Global,
    tokens: &[Token],
    giving: &[Token],
    back: &[TokenId],
) -> Result<Items<TokenId>, NoMemory>
    ensures { IfOk result (λ ids. ids ≡ returned_ids tokens.now giving.now back.now) }
{
    let mut ids = Items::new(alloc);
    for token in tokens {
        if !names(giving, token) {
            ids.push(token.id)?;
        }
    }
    ids.extend(back)?;
    Ok(ids)
}

/// Drops tokens. The only error is that memory ran out.
pub fn drop_all(
    tables: &mut Tables,
    draft: &mut Draft,
    tokens: &[Token],
    why: Why,
) -> Result<(), NoMemory>
    ensures { OnOk result (Drops tables.old draft.old tokens.now why tables.new draft.new) }
{
    drop_from(&mut tables.cache, &mut draft.dropped, tokens, why)
}

// Drops tokens that a cache holds, and notes each.
fn drop_from(
    cache: &mut Cache,
    dropped: &mut Items<Leave>,
    tokens: &[Token],
    why: Why,
) -> Result<(), NoMemory>
    ensures shown { OnOk result (seen cache.new ≡ shown_without (seen cache.old) tokens.now) }
    ensures dropped { OnOk result (dropped.new ≡ dropped.old ++ map (leaves_by why) tokens.now) }
{
    for token in tokens {
        cache.drop_id(token.id);
        dropped.push(Leave { token: *token, why })?;
    }
    Ok(())
}

// A give-back of a file, of some of the tokens that leave. It is noted, but for the give-back itself.
fn give_of(
    tables: &mut Tables,
    fid: Fid,
    giving: &[Token],
    leaving: &[Token],
) -> Result<Give, NoMemory>
    requires { AreCovered tables.old fid giving.now }
    ensures give { IfOk result (λ give. GivesSo tables.old fid giving.now leaving.now give) }
    ensures cleans { OnOk result (CleansSo tables.old fid giving.now leaving.now tables.new) }
    ensures after { IfOk result (λ give. tables.new ≡ record
        (noting tables.old fid give.number give.length giving.now) { dirty = tables.new.dirty }) }
{
    let number = next_give(tables, fid.fileset)?;
    let pieces = take_dirty(tables, fid, giving, leaving)?;
    let ids = ids_of(tables.alloc, giving)?;
    let length = note_given(tables, fid, number, giving)?;
    Ok(Give {
        number,
        fid,
        ids,
        pieces,
        length,
        ends: None,
    })
}

// The number of the next give-back; memory counts as run out behind the last one.
fn next_give(tables: &Tables, fileset: FilesetId) -> Result<u64, NoMemory>
    ensures { IfOk result (λ number. number ≡ last_of tables.now.gives.counters fileset + 1) }
{
    match tables.gives.last(fileset).checked_add(1) {
        Some(number) => Ok(number),
        None => Err(NoMemory),
    }
}

// The dirty bytes of a file that tokens have which leave, and none that stays; they are clean then.
fn take_dirty(
    tables: &mut Tables,
    fid: Fid,
    giving: &[Token],
    leaving: &[Token],
) -> Result<Items<Piece>, NoMemory>
    requires { AreCovered tables.old fid giving.now }
    ensures pieces { IfOk result (λ pieces. AreLeft tables.old fid giving.now leaving.now pieces) }
    ensures cleans { OnOk result (CleansSo tables.old fid giving.now leaving.now tables.new) }
    ensures others { OnOk result (tables.new ≡ record tables.old { dirty = tables.new.dirty }) }
{
    let cover = cover_left(tables, fid, giving, leaving)?;
    let pieces = dirty_pieces(tables, fid, cover.spans())?;
    clean(&mut tables.dirty, fid, cover.spans())?;
    Ok(pieces)
}

// The dirty bytes of a file within some spans, which tokens cover.
fn dirty_pieces(tables: &Tables, fid: Fid, cover: &[Span]) -> Result<Items<Piece>, NoMemory>
    requires { AreSeen tables.now fid (spans_within (spans_of tables.now.dirty fid) cover.now) }
    ensures pieces { IfOk result (λ pieces.
        pieces ≡ map (piece_at tables.now fid) (spans_within (spans_of tables.now.dirty fid) cover.now)) }
    ensures apart { IfOk result (λ pieces. IsApart (spans_of tables.now.dirty fid)) }
{
    let out = spans_within(tables.alloc, tables.dirty.spans(fid), cover)?;
    pieces_of(tables, fid, out.as_slice())
}

// The numbers of tokens.
fn ids_of(alloc: Global, tokens: &[Token]) -> Result<Items<TokenId>, NoMemory>
    ensures { IfOk result (λ ids. ids ≡ ids_of tokens.now) }
{
    let mut ids = Items::new(alloc);
    for token in tokens {
        ids.push(token.id)?;
    }
    Ok(ids)
}

// Notes a give-back of some tokens, with the length of the file where that is dirty. Answers that length.
fn note_given(
    tables: &mut Tables,
    fid: Fid,
    number: u64,
    tokens: &[Token],
) -> Result<Option<u32>, NoMemory>
    ensures length { IfOk result (λ length. length ≡ dirty_length tables.old fid) }
    ensures after { IfOk result (λ length. tables.new
        ≡ noting tables.old fid number length tokens.now) }
{
    tables.leaving.add(fid.fileset, number, tokens)?;
    let Some(length) = dirty_length(tables, fid) else {
        return Ok(None);
    };
    let given = Given {
        fid,
        number,
        length,
        known: false,
    };
    tables.lengths.put(given)?;
    Ok(Some(length))
}

// Notes a give-back that is made: it is to be sent where it is outstanding.
fn make(tables: &mut Tables, draft: &mut Draft, give: Give) -> Result<(), NoMemory>
    requires { give.number ≡ last_of tables.old.gives.counters give.fid.fileset + 1 }
    ensures tables { OnOk result (tables.new ≡ with_give tables.old give) }
    ensures draft { OnOk result (draft.new ≡ making tables.old give draft.old) }
{
    let due = note_due(tables, draft, give.fid.fileset);
    let added = add_give(tables, &give);
    let made = draft.made.push(give);
    due?;
    added?;
    made
}

// Adds a give-back to the tables.
fn add_give(tables: &mut Tables, give: &Give) -> Result<(), NoMemory>
    requires { give.now.number ≡ last_of tables.old.gives.counters give.now.fid.fileset + 1 }
    ensures { OnOk result (tables.new ≡ with_give tables.old give.now) }
{
    let message = message_of(tables, give)?;
    let added = tables.gives.add(&message);
    drop(message);
    added
}

// The message that a give-back is sent in.
fn message_of(tables: &Tables, give: &Give) -> Result<Message, NoMemory>
    ensures { IfOk result (λ message.
        message ≡ message_to tables.now (home_at give.now.fid.fileset) (GiveBack give.now)) }
{
    let server = home(give.fid.fileset);
    let give = give.copy()?;
    Ok(message_to(tables, server, Body::GiveBack(give)))
}

// Notes a fileset of which no give-back is outstanding: the next one is to be sent.
fn note_due(tables: &Tables, draft: &mut Draft, fileset: FilesetId) -> Result<(), NoMemory>
    ensures { OnOk result (draft.new ≡ noting_due tables.now fileset draft.old) }
{
    if has_fileset(draft.due.as_slice(), fileset) {
        return Ok(());
    }
    if tables.gives.outstanding(fileset).is_some() {
        return Ok(());
    }
    push_once(&mut draft.due, fileset)
}

// The bytes of a file at these spans, which tokens cover.
fn pieces_of(tables: &Tables, fid: Fid, spans: &[Span]) -> Result<Items<Piece>, NoMemory>
    requires { AreSeen tables.now fid spans.now }
    ensures { IfOk result (λ pieces. pieces ≡ map (piece_at tables.now fid) spans.now) }
{
    let mut pieces = Items::new(tables.alloc);
    for span in spans {
        let bytes = bytes_of(tables, fid, *span)?;
        pieces.push(Piece {
            from: span.from,
            bytes,
        })?;
    }
    Ok(pieces)
}

/// The bytes of a file at a span, which tokens cover. The only error is that memory ran out.
pub fn bytes_of(tables: &Tables, fid: Fid, span: Span) -> Result<Items<u8>, NoMemory>
    requires { CoversBetween (held_of tables.now) fid false span.from span.to }
    ensures { IfOk result (λ bytes. bytes ≡ bytes_seen tables.now fid span) }
{
    let mut bytes = vec![in tables.alloc; 0u8; span.len() as usize]?;
    tables
        .cache
        .bytes_into(fid, span.from, bytes.as_mut_slice());
    Ok(Items::from_vec(bytes))
}

// Makes the positions of spans clean.
fn clean(dirty: &mut Dirty, fid: Fid, spans: &[Span]) -> Result<(), NoMemory>
    ensures bytes { OnOk result ((other : Fid) (at : ℕ) → is_dirty dirty.new other at
        ≡ (is_dirty dirty.old other at && not (same_fid fid other && in_spans spans.now at))) }
    ensures lengths { OnOk result ((other : Fid) → length_of dirty.new other ≡ length_of dirty.old other) }
{
    for span in spans {
        dirty.cut(fid, *span)?;
    }
    Ok(())
}
