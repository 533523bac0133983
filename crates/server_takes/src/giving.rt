ghost use Rattle.std.specs.Prelude.{◌≡◌, ◌≤◌, ◌+◌, ◌&&◌, true, length, map, if◌then◌else◌, IfOk, List, OnOk};
ghost use Rattle.std.specs.Prelude.{Option};
ghost use Rattle.base_types.specs.declared.limits.TheConstants.{FILE_BYTES_MAX};
ghost use Rattle.message_types.specs.Soundness.{Each};
ghost use Rattle.message_types.specs.declared.message.Body.TheVariants.{GiveBack};
ghost use Rattle.message_types.specs.declared.message.Message.{Message as MessageOf};
ghost use Rattle.run_rules.specs.ServerDecides.{span_of};
ghost use Rattle.run_rules.specs.Tokens.{number_of};
ghost use Rattle.server_looks.specs.Acts.{IsGive, IsRepeatable, giving};
ghost use Rattle.server_looks.specs.Keepers.{GoesOn, HasAsked, HasBrought, HasTried, IsFit};
ghost use Rattle.server_tables.specs.Counting.{IsCounted};
ghost use Rattle.server_tables.specs.Gives.{given};
ghost use Rattle.server_takes.specs.Taking.{all_kept, all_returned, answer_by, ending, freed, give_applied, give_draft};
ghost use Rattle.server_takes.specs.Taking.{give_state, give_tables, has_some, is_first, keeping, kept_tables, noted};
ghost use Rattle.server_takes.specs.Taking.{returned_tables, store_given, takes_gifts};
ghost use Rattle.server_takes.specs.Messages.{IsOneMore};
ghost use Rattle.store_acts.specs.Acts.{state_after};
ghost use Rattle.store_acts.specs.Sound.{IsAct};
ghost use Rattle.store_memory.specs.Reading.{status_told};
ghost use Rattle.tree_calls.specs.declared.part.Piece.{Piece};
ghost use Rattle.tree_calls.specs.declared.part.Status.{Status as Told};

use crate::draft::Draft;
use base_types::{HostId, Items, NoMemory, Plain, Span};
use message_types::{AppliedGive, Body, Ends, Give, Named};
use run_rules::{Answer, Applied};
use server_looks::{ExporterFault, Keeper, act_of_give, give_all};
use server_tables::Tables;
use store_memory::{Act, Store};
use token_manager::TokenManager;
use token_types::TokenId;
use tree_calls::{Piece, Reply, Status};
use tree_objects::span_between;

/// Tokens come back that have nothing to save.
pub(crate) fn take_returned(
    tables: &mut Tables,
    host: HostId,
    named: &Named,
) -> Result<(), NoMemory>
    requires counted { IsCounted tables.old }
    ensures tables { OnOk result (tables.new ≡ returned_tables tables.old host named.now) }
    ensures counted { OnOk result (IsCounted tables.new) }
{
    if !tables.is_here(named.fid.fileset) {
        return Ok(());
    }
    free(tables, host, named.ids.as_slice())
}

/// A host keeps tokens, as they are in use: they are pinned.
pub(crate) fn take_kept(tables: &mut Tables, host: HostId, named: &Named)
    requires counted { IsCounted tables.old }
    ensures tables { tables.new ≡ kept_tables tables.old host named.now }
    ensures counted { IsCounted tables.new }
{
    keep_all(&mut tables.tokens, host, named.ids.as_slice());
}

fn keep_all(tokens: &mut TokenManager, host: HostId, ids: &[TokenId])
    ensures { tokens.new ≡ all_kept tokens.old host ids.now }
{
    for id in ids {
        let _kept = tokens.kept(host, *id);
    }
}

/// A host gives back what it has to save of a file. It is stored where it is the first of its number, and the file is
/// one that may be changed; and whatever it is, the host learns that it is known.
pub(crate) fn take_give_back<S: Store>(
    tables: &mut Tables,
    keeper: &mut Keeper<S>,
    draft: &mut Draft,
    host: HostId,
    give: &Give,
) -> Result<(), ExporterFault>
    requires counted { IsCounted tables.old }
    requires act { IsAct (S.view keeper.old.store).state.roster (S.view keeper.old.store).state.server
        (giving host give.now) }
    requires fit { IsFit (S.view keeper.old.store) keeper.old.left }
    ensures tables { OnOk result (tables.new ≡ give_tables tables.old host give.now) }
    ensures draft { S.tells → OnOk result (draft.new ≡ give_draft tables.old draft.old host give.now
        (status_told (S.view keeper.old.store).state give.now.fid)) }
    ensures heard { OnOk result
        ((told : Option Told) × (draft.new ≡ give_draft tables.old draft.old host give.now told)) }
    ensures state { S.tells → IsRepeatable (S.view keeper.old.store).state (giving host give.now)
        → OnOk result ((S.view keeper.new.store).state
        ≡ give_state tables.old host give.now (S.view keeper.old.store).state) }
    ensures counted { OnOk result (IsCounted tables.new) }
    ensures tried { HasTried result (S.view keeper.old.store) (S.view keeper.new.store) keeper.new.left }
    ensures went { S.tells → (came : List MessageOf) → HasBrought came host (GiveBack give.now)
        → GoesOn came (S.view keeper.old.store) (S.view keeper.new.store) }
{
    let mut waiting = Items::new(tables.alloc());
    gather_give_back(tables, keeper, &mut waiting, draft, host, give)?;
    give_all(keeper, waiting.as_slice())
}

/// The same of one that is the first of its number, of a file that may be changed, but that it waits to be stored,
/// behind what waits already.
pub(crate) fn gather_give_back<S: Store>(
    tables: &mut Tables,
    keeper: &mut Keeper<S>,
    waiting: &mut Items<Act>,
    draft: &mut Draft,
    host: HostId,
    give: &Give,
) -> Result<(), ExporterFault>
    requires counted { IsCounted tables.old }
    requires gives { Each IsGive waiting.old }
    requires act { IsAct (S.view keeper.old.store).state.roster (S.view keeper.old.store).state.server
        (giving host give.now) }
    requires fit { IsFit (S.view keeper.old.store) keeper.old.left }
    ensures tables { OnOk result (tables.new ≡ give_tables tables.old host give.now) }
    ensures draft { S.tells → OnOk result (draft.new ≡ give_draft tables.old draft.old host give.now
        (status_told (state_after (S.view keeper.old.store).state waiting.old) give.now.fid)) }
    ensures heard { OnOk result
        ((told : Option Told) × (draft.new ≡ give_draft tables.old draft.old host give.now told)) }
    ensures state { S.tells → OnOk result (state_after (S.view keeper.new.store).state waiting.new
        ≡ give_state tables.old host give.now (state_after (S.view keeper.old.store).state waiting.old)) }
    ensures waits { OnOk result (IsOneMore host give.now waiting.old waiting.new) }
    ensures counted { OnOk result (IsCounted tables.new) }
    ensures asked { HasAsked S.tells result (S.view keeper.old.store) (S.view keeper.new.store) keeper.new.left }
    ensures went { S.tells → (came : List MessageOf)
        → GoesOn came (S.view keeper.old.store) (S.view keeper.new.store) }
{
    if !tables.is_here(give.fid.fileset) {
        return Ok(());
    }
    gather_first(tables, keeper, waiting, draft, host, give)?;
    draft.say(tables, host, Body::Gone(number_of(give)))?;
    note_given(tables, host, give)?;
    Ok(())
}

/// A give-back that is the first of its number waits to be stored, and ends its call.
fn gather_first<S: Store>(
    tables: &Tables,
    keeper: &mut Keeper<S>,
    waiting: &mut Items<Act>,
    draft: &mut Draft,
    host: HostId,
    give: &Give,
) -> Result<(), ExporterFault>
    requires gives { Each IsGive waiting.old }
    requires act { IsAct (S.view keeper.old.store).state.roster (S.view keeper.old.store).state.server
        (giving host give.now) }
    requires fit { IsFit (S.view keeper.old.store) keeper.old.left }
    ensures draft { S.tells → OnOk result (draft.new ≡ give_applied tables.now draft.old host give.now
        (status_told (state_after (S.view keeper.old.store).state waiting.old) give.now.fid)) }
    ensures heard { OnOk result
        ((told : Option Told) × (draft.new ≡ give_applied tables.now draft.old host give.now told)) }
    ensures state { let state = state_after (S.view keeper.old.store).state waiting.old in S.tells
        → OnOk result (state_after (S.view keeper.new.store).state waiting.new
        ≡ (if is_first tables.now host give.now then store_given host give.now state else state)) }
    ensures waits { OnOk result (IsOneMore host give.now waiting.old waiting.new) }
    ensures asked { HasAsked S.tells result (S.view keeper.old.store) (S.view keeper.new.store) keeper.new.left }
    ensures went { S.tells → (came : List MessageOf)
        → GoesOn came (S.view keeper.old.store) (S.view keeper.new.store) }
{
    if !is_first(tables, host, give) {
        return Ok(());
    }
    gather(keeper, waiting, draft, host, give)?;
    end_call(draft, host, give)?;
    Ok(())
}

/// Whether a give-back is the first of its number.
fn is_first(tables: &Tables, host: HostId, give: &Give) -> bool
    ensures { result ≡ is_first tables.now host give.now }
{
    tables.last_give(host, give.fid.fileset) < give.number
}

/// The number of a give-back is noted, and its tokens leave the host.
fn note_given(tables: &mut Tables, host: HostId, give: &Give) -> Result<(), NoMemory>
    requires counted { IsCounted tables.old }
    ensures tables { OnOk result (tables.new ≡ freed (noted tables.old host give.now) host give.now.ids) }
    ensures counted { OnOk result (IsCounted tables.new) }
{
    note_number(tables, host, give)?;
    free(tables, host, give.ids.as_slice())
}

fn number_of(give: &Give) -> AppliedGive
    ensures { result ≡ number_of give.now }
{
    AppliedGive {
        fileset: give.fid.fileset,
        number: give.number,
    }
}

/// The number of a give-back is noted, where it is the first of it; and that it was taken, of a host that hasn't
/// reclaimed.
fn note_number(tables: &mut Tables, host: HostId, give: &Give) -> Result<(), NoMemory>
    requires counted { IsCounted tables.old }
    ensures tables { OnOk result (tables.new ≡ noted tables.old host give.now) }
    ensures counted { OnOk result (IsCounted tables.new) }
{
    note_first(tables, host, give)?;
    if tables.hosts.has_reclaimed(host) {
        return Ok(());
    }
    tables.recovering.note_taken(host, number_of(give))
}

fn note_first(tables: &mut Tables, host: HostId, give: &Give) -> Result<(), NoMemory>
    ensures { OnOk result (tables.new ≡ record tables.old {
      gives = if is_first tables.old host give.now then given tables.old.gives host (number_of give.now)
          else tables.old.gives;
    }) }
{
    if !is_first(tables, host, give) {
        return Ok(());
    }
    tables.note_give(host, number_of(give))
}

/// Tokens leave a host.
fn free(tables: &mut Tables, host: HostId, ids: &[TokenId]) -> Result<(), NoMemory>
    requires counted { IsCounted tables.old }
    ensures tables { OnOk result (tables.new ≡ freed tables.old host ids.now) }
    ensures counted { OnOk result (IsCounted tables.new) }
{
    return_all(&mut tables.tokens, host, ids);
    if tables.hosts.has_reclaimed(host) {
        return Ok(());
    }
    tables.recovering.note_given_up(host, ids)
}

fn return_all(tokens: &mut TokenManager, host: HostId, ids: &[TokenId])
    ensures { tokens.new ≡ all_returned tokens.old host ids.now }
{
    for id in ids {
        let _held = tokens.returned(host, *id);
    }
}

/// What is given back of a file that is there and may be changed waits to be stored. Whether it may be changed doesn't
/// change by what waits already.
fn gather<S: Store>(
    keeper: &mut Keeper<S>,
    waiting: &mut Items<Act>,
    draft: &mut Draft,
    host: HostId,
    give: &Give,
) -> Result<(), ExporterFault>
    requires gives { Each IsGive waiting.old }
    requires act { IsAct (S.view keeper.old.store).state.roster (S.view keeper.old.store).state.server
        (giving host give.now) }
    requires fit { IsFit (S.view keeper.old.store) keeper.old.left }
    ensures draft { let state = state_after (S.view keeper.old.store).state waiting.old in S.tells
        → OnOk result (draft.new ≡ keeping draft.old host give.now
        (has_some give.now && takes_gifts (status_told state give.now.fid))) }
    ensures heard { OnOk result ((told : Option Told)
        × (draft.new ≡ keeping draft.old host give.now (has_some give.now && takes_gifts told))) }
    ensures state { let state = state_after (S.view keeper.old.store).state waiting.old in S.tells
        → OnOk result (state_after (S.view keeper.new.store).state waiting.new ≡ store_given host give.now state) }
    ensures waits { OnOk result (IsOneMore host give.now waiting.old waiting.new) }
    ensures asked { HasAsked S.tells result (S.view keeper.old.store) (S.view keeper.new.store) keeper.new.left }
    ensures went { S.tells → (came : List MessageOf)
        → GoesOn came (S.view keeper.old.store) (S.view keeper.new.store) }
{
    if !may_store(keeper, give)? {
        return Ok(());
    }
    let act = act_of_give(host, give)?;
    waiting.push(act)?;
    note_stored(draft, host, give)?;
    Ok(())
}

/// Whether a give-back has something to store, of a file that may be changed.
fn may_store<S: Store>(keeper: &mut Keeper<S>, give: &Give) -> Result<bool, ExporterFault>
    requires fit { IsFit (S.view keeper.old.store) keeper.old.left }
    ensures told { S.tells → IfOk result (λ may. may ≡ (has_some give.now
        && takes_gifts (status_told (S.view keeper.old.store).state give.now.fid))) }
    ensures heard { IfOk result (λ may. (told : Option Told) × (may ≡ (has_some give.now && takes_gifts told))) }
    ensures asked { HasAsked S.tells result (S.view keeper.old.store) (S.view keeper.new.store) keeper.new.left }
{
    if !has_some(give) {
        return Ok(false);
    }
    let status = keeper.status(give.fid)?;
    Ok(takes_gifts(&status))
}

/// Whether a give-back has something to store.
fn has_some(give: &Give) -> bool
    ensures { result ≡ has_some give.now }
{
    !(give.pieces.len() == 0 && give.length.is_none())
}

/// Whether an object is a file that may be changed.
fn takes_gifts(status: &Option<Status>) -> bool
    ensures { result ≡ takes_gifts status.now }
{
    match status {
        Some(status) => !status.dir && !status.read_only,
        None => false,
    }
}

fn note_stored(draft: &mut Draft, host: HostId, give: &Give) -> Result<(), NoMemory>
    requires { Each (λ (piece : Piece). piece.from + length piece.bytes ≤ FILE_BYTES_MAX) give.now.pieces }
    ensures { OnOk result (draft.new ≡ keeping draft.old host give.now true) }
{
    let spans = spans_of(&give.pieces)?;
    draft.applied.push(Applied::Stored {
        host,
        fid: give.fid,
        spans,
        length: give.length,
    })
}

fn spans_of(pieces: &Items<Piece>) -> Result<Items<Span>, NoMemory>
    requires { Each (λ (piece : Piece). piece.from + length piece.bytes ≤ FILE_BYTES_MAX) pieces.now }
    ensures { IfOk result (λ spans. spans ≡ map span_of pieces.now) }
{
    let mut spans = Items::new(pieces.alloc());
    for piece in pieces.as_slice() {
        spans.push(span_of(piece))?;
    }
    Ok(spans)
}

fn span_of(piece: &Piece) -> Span
    requires { piece.now.from + length piece.now.bytes ≤ FILE_BYTES_MAX }
    ensures { result ≡ span_of piece.now }
{
    let from = u64::from(piece.from);
    span_between(from, from + piece.bytes.len() as u64)
}

/// A give-back that ends a lock or an open answers the call of it.
fn end_call(draft: &mut Draft, host: HostId, give: &Give) -> Result<(), NoMemory>
    ensures { OnOk result (draft.new ≡ ending draft.old host give.now) }
{
    match &give.ends {
        Some(ends) => {
            let answer = ended_by(host, ends)?;
            draft.applied.push(Applied::Replied(answer))
        }
        None => Ok(()),
    }
}

fn ended_by(host: HostId, ends: &Ends) -> Result<Answer, NoMemory>
    ensures { IfOk result (λ answer. answer ≡ answer_by host ends.now) }
{
    let call = ends.call.copy()?;
    Ok(Answer {
        host,
        k: ends.k,
        call,
        reply: Reply::Ok,
        first: false,
    })
}
