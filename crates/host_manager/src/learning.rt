//! What a host learns from servers.
ghost use Rattle.std.specs.Prelude.{◌≡◌, ◌==◌, false, filter, None, not, option_copied, option_map, OnOk};
ghost use Rattle.host_asks.specs.Asking.{doing};
ghost use Rattle.host_cache.specs.Holding.{has_id};
ghost use Rattle.host_cache.specs.Seen.{seen};
ghost use Rattle.host_gives.specs.Giving.{is_outstanding, number_of};
ghost use Rattle.host_manager.specs.Learning.{HasTaken, UsesBring, closed_at, due_of, ended_by, ends_in, floor_by};
ghost use Rattle.host_manager.specs.Learning.{learning_given, may_use, renewed, shown_with, taking};
ghost use Rattle.host_manager.specs.Learning.{taking_from, taking_one, taking_token, without_length};
ghost use Rattle.host_tables.specs.Updates.{home_at, with_floor};
ghost use Rattle.message_types.specs.declared.giving.Ends.{Ends};

use base_types::{Items, NoMemory, ServerId};
use host_cache::Cache;
use host_leaves::{is_length_update, push_once};
use host_lengths::Lengths;
use host_tables::{Draft, Floor, Site, Tables, floor_of, home, put_floor, put_site};
use message_types::{AppliedGive, Body, Bring, Grant, Message};
use run_rules::Asked;
use token_types::Token;

/// A give-back is known as applied, where it was made: the label that it ends is the host's no more, and the call that
/// it ends is answered. The only error is that memory ran out.
pub(crate) fn learn_given(
    tables: &mut Tables,
    draft: &mut Draft,
    applied: AppliedGive,
) -> Result<(), NoMemory>
    ensures { OnOk result (doing tables.new draft.new ≡ learning_given applied (doing tables.old draft.old)) }
{
    let is_first = is_outstanding(tables, applied);
    let Some(message) = tables.gives.take_out(applied.fileset, applied.number) else {
        return Ok(());
    };
    tables.leaving.forget(applied.fileset, applied.number);
    tables.lengths.mark_known(applied.fileset, applied.number);
    end_call(tables, &message);
    drop(message);
    note_due(tables, draft, applied, is_first)
}

// The next give-back of a fileset is to be sent, where the one before it was outstanding.
fn note_due(
    tables: &Tables,
    draft: &mut Draft,
    applied: AppliedGive,
    is_first: bool,
) -> Result<(), NoMemory>
    ensures { OnOk result (draft.new ≡ due_of applied is_first tables.now.gives draft.old) }
{
    if is_first && tables.gives.outstanding(applied.fileset).is_some() {
        return push_once(&mut draft.due, applied.fileset);
    }
    Ok(())
}

// Whether the give-back is outstanding.
fn is_outstanding(tables: &Tables, applied: AppliedGive) -> bool
    ensures { result ≡ is_outstanding tables.now.gives applied.fileset applied.number }
{
    match tables.gives.outstanding(applied.fileset) {
        Some(message) => number_of(message) == applied.number,
        None => false,
    }
}

// The number of a give-back.
fn number_of(message: &Message) -> u64
    ensures { result ≡ number_of message.now }
{
    match &message.body {
        Body::GiveBack(give) => give.number,
        _ => 0,
    }
}

// The end of a call by a give-back.
fn end_call(tables: &mut Tables, message: &Message)
    ensures { tables.new ≡ ended_by message.now tables.old }
{
    let Some(k) = ended_number(message) else {
        return;
    };
    tables.ending = None;
    close(tables, k);
}

// The number of the call that a give-back ends.
fn ended_number(message: &Message) -> Option<u32>
    ensures { result ≡ option_map (λ (ends : Ends). ends.k) (ends_in message.now) }
{
    let Body::GiveBack(give) = &message.body else {
        return None;
    };
    let Some(ends) = &give.ends else {
        return None;
    };
    Some(ends.k)
}

// The call of this number is open no more.
fn close(tables: &mut Tables, k: u32)
    ensures { tables.new ≡ record tables.old { call = closed_at k tables.old.call } }
{
    let is_open = match &tables.call {
        Some(asked) => asked.k == k,
        None => false,
    };
    if is_open {
        forget_call(&mut tables.call);
    }
}

/// No call is open.
pub(crate) fn forget_call(call: &mut Option<Asked>)
    ensures { call.new ≡ None }
{
    drop(call.take());
}

/// What an answer brings is used, where it may be: its stamp is above the floor of the file, and no give-back of the
/// file is on its way. A Grant shows what the tokens let the host see. The only error is that memory ran out.
pub(crate) fn use_bring(
    tables: &mut Tables,
    draft: &mut Draft,
    bring: &Bring,
    grant: Option<&Grant>,
) -> Result<(), NoMemory>
    ensures { OnOk result (UsesBring bring.now (option_copied grant.entry) tables.old draft.old
        tables.new draft.new) }
{
    if !may_use(tables, bring) {
        return Ok(());
    }
    raise_to(&mut tables.floors, bring)?;
    take_tokens(tables, draft, bring.tokens.as_slice(), grant)
}

// Whether what an answer brings may be used.
fn may_use(tables: &Tables, bring: &Bring) -> bool
    ensures { result ≡ may_use tables.now bring.now }
{
    floor_of(tables.floors.as_slice(), bring.fid) < bring.stamp && !tables.gives.of_file(bring.fid)
}

// The floor of a file is now the stamp of what an answer brings.
fn raise_to(floors: &mut Items<Floor>, bring: &Bring) -> Result<(), NoMemory>
    ensures { OnOk result (floors.new ≡ with_floor (floor_by bring.now) floors.old) }
{
    let floor = Floor {
        fid: bring.fid,
        stamp: bring.stamp,
    };
    put_floor(floors, floor)
}

// Tokens are taken that aren't held.
fn take_tokens(
    tables: &mut Tables,
    draft: &mut Draft,
    tokens: &[Token],
    grant: Option<&Grant>,
) -> Result<(), NoMemory>
    ensures { OnOk result (HasTaken tables.old draft.old
        (taking (option_copied grant.entry) tokens.now (taking_from tables.old draft.old)) tables.new draft.new) }
{
    for token in tokens {
        take_new(tables, draft, token, grant)?;
    }
    Ok(())
}

// A token is taken, where it isn't held.
fn take_new(
    tables: &mut Tables,
    draft: &mut Draft,
    token: &Token,
    grant: Option<&Grant>,
) -> Result<(), NoMemory>
    ensures { OnOk result (HasTaken tables.old draft.old
        (taking_one (option_copied grant.entry) (taking_from tables.old draft.old) token.now) tables.new draft.new) }
{
    if tables.cache.holds(token.id) {
        return Ok(());
    }
    take_token(tables, draft, token, grant)
}

// Takes a token, with what a Grant shows under it.
fn take_token(
    tables: &mut Tables,
    draft: &mut Draft,
    token: &Token,
    grant: Option<&Grant>,
) -> Result<(), NoMemory>
    requires { has_id tables.old.cache.held token.now.id ≡ false }
    ensures { OnOk result (HasTaken tables.old draft.old
        (taking_token (option_copied grant.entry) (taking_from tables.old draft.old) token.now) tables.new draft.new) }
{
    add_token(&mut tables.cache, token, grant)?;
    forget_length(&mut tables.lengths, token);
    draft.taken.push(*token)
}

// Puts a token into the cache, with what a Grant shows under it.
fn add_token(cache: &mut Cache, token: &Token, grant: Option<&Grant>) -> Result<(), NoMemory>
    requires { has_id cache.old.held token.now.id ≡ false }
    ensures { OnOk result (seen cache.new ≡ shown_with (option_copied grant.entry) token.now (seen cache.old)) }
{
    match grant {
        Some(grant) => cache.add(
            *token,
            grant.status.as_ref(),
            grant.pieces.as_slice(),
            grant.entries.as_slice(),
        ),
        None => cache.add(*token, None, &[], &[]),
    }
}

// The length that was given back last counts no more, where a token is for update of a file's status.
fn forget_length(lengths: &mut Lengths, token: &Token)
    ensures { lengths.new ≡ without_length token.now lengths.old }
{
    if is_length_update(token.kind) {
        lengths.forget(token.fid);
    }
}

/// The epoch of a server rises: the floors of its files begin anew.
pub(crate) fn renew(tables: &mut Tables, server: ServerId, epoch: u64)
    ensures { tables.new ≡ renewed server epoch tables.old }
{
    let site = tables.site(server);
    let claimed = false;
    put_site(
        &mut tables.sites,
        Site {
            epoch,
            claimed,
            ..site
        },
    );
    forget_floors(&mut tables.floors, server);
}

// The floors of a server's files begin anew.
fn forget_floors(floors: &mut Items<Floor>, server: ServerId)
    ensures { floors.new ≡ filter (λ floor. not ((home_at floor.fid.fileset).0 == server.0)) floors.old }
{
    floors.retain(|floor| !is_at(floor, server));
}

fn is_at(floor: &Floor, server: ServerId) -> bool
    ensures { result ≡ ((home_at floor.now.fid.fileset).0 == server.0) }
{
    home(floor.fid.fileset) == server
}
