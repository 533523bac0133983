//! What a host does by itself: it evicts, ends and stops.
ghost use Rattle.std.specs.Prelude.{◌≡◌, ◌≢◌, ◌↔◌, [], fold, IfOk, IsTrue, map, OnOk, true};
ghost use Rattle.run_rules.specs.Past.{In};
ghost use Rattle.host_tables.specs.Tables.{held_of};
ghost use Rattle.host_cache.specs.Holding.{tokens_of};
ghost use Rattle.host_manager.specs.Closing.{AllLeave, BeginsIt, EndsNext, EvictsIt, GoesDown, LeavesEach, LeavesFile};
ghost use Rattle.host_manager.specs.Closing.{downing, first_end, has_parted_from, oldest_of, parting, with_byes};

use base_types::{Fid, Items, NoMemory, Plain};
use host_asks::begin_call;
use host_leaves::{drop_all, is_lock, leave, say, send_due};
use host_tables::{Draft, Site, Tables};
use message_types::Body;
use run_rules::Why;
use token_types::Token;
use tree_calls::Call;

/// Begins a call, and sends each give-back that became outstanding. The only error is that memory ran out.
pub(crate) fn begin(tables: &mut Tables, draft: &mut Draft, call: &Call) -> Result<(), NoMemory>
    ensures { OnOk result (BeginsIt tables.old draft.old call.now tables.new draft.new) }
{
    begin_call(tables, draft, call)?;
    send_due(tables, draft)
}

/// The token that isn't in use and was last used longest ago.
pub(crate) fn oldest(tables: &Tables) -> Option<Token>
    ensures { result ≡ oldest_of tables.now }
{
    let id = tables.cache.oldest()?;
    let held = tables.cache.find(id)?;
    Some(held.token)
}

/// Evicts this token. The only error is that memory ran out.
pub(crate) fn drop_oldest(
    tables: &mut Tables,
    draft: &mut Draft,
    token: Token,
) -> Result<(), NoMemory>
    requires { In token (held_of tables.old) }
    ensures { OnOk result (EvictsIt tables.old draft.old token tables.new draft.new) }
{
    let tokens = [token];
    leave(tables, draft, token.fid, &tokens, Why::Evicted, &[])?;
    send_due(tables, draft)
}

/// The next step of the end: the first label's use ends; else all tokens leave; else Bye is said to each server that
/// was greeted, once each give-back is known as applied. It answers whether there is one. The only error is that memory
/// ran out.
pub(crate) fn end_next(tables: &mut Tables, draft: &mut Draft) -> Result<bool, NoMemory>
    ensures { IfOk result (λ some. EndsNext tables.old draft.old tables.new draft.new some) }
{
    match first_end(tables)? {
        Some(call) => end_label(tables, draft, call),
        None => end_rest(tables, draft),
    }
}

// The use of a label ends by this call.
fn end_label(tables: &mut Tables, draft: &mut Draft, call: Call) -> Result<bool, NoMemory>
    ensures some { IfOk result (λ some. some ≡ true) }
    ensures begins { OnOk result (BeginsIt tables.old draft.old call tables.new draft.new) }
{
    let begun = begin(tables, draft, &call);
    drop(call);
    begun?;
    Ok(true)
}

// No label is in use: all tokens leave, or Bye is said.
fn end_rest(tables: &mut Tables, draft: &mut Draft) -> Result<bool, NoMemory>
    requires { tables.old.uses.labels ≡ [] }
    ensures { IfOk result (λ some. EndsNext tables.old draft.old tables.new draft.new some) }
{
    let tokens = tables.cache.tokens()?;
    if tokens.is_empty() {
        return end_parting(tables, draft);
    }
    leave_all(tables, draft, tokens.as_slice())?;
    Ok(true)
}

// Nothing is held: Bye is said, once each give-back is known as applied.
fn end_parting(tables: &mut Tables, draft: &mut Draft) -> Result<bool, NoMemory>
    requires labels { tables.old.uses.labels ≡ [] }
    requires held { tables.old.cache.held ≡ [] }
    ensures { IfOk result (λ some. EndsNext tables.old draft.old tables.new draft.new some) }
{
    if !tables.gives.is_empty() {
        return Ok(false);
    }
    say_byes(tables, draft)
}

// The call that ends the use of the first label.
fn first_end(tables: &Tables) -> Result<Option<Call>, NoMemory>
    ensures { IfOk result (λ call. call ≡ first_end tables.now.uses.labels) }
{
    let Some(used) = tables.uses.labels().first() else {
        return Ok(None);
    };
    let label = used.label.copy()?;
    if is_lock(used.token.kind) {
        return Ok(Some(Call::Unlock { label }));
    }
    Ok(Some(Call::CloseFile { label }))
}

// All that is held leaves, and each give-back that became outstanding is sent.
fn leave_all(tables: &mut Tables, draft: &mut Draft, tokens: &[Token]) -> Result<(), NoMemory>
    requires { tokens.now ≡ tokens_of tables.old.cache.held }
    ensures { OnOk result (AllLeave tables.old draft.old tables.new draft.new) }
{
    leave_each(tables, draft, tokens)?;
    send_due(tables, draft)
}

// Tokens leave, file by file.
fn leave_each(tables: &mut Tables, draft: &mut Draft, tokens: &[Token]) -> Result<(), NoMemory>
    ensures { OnOk result (LeavesEach tokens.now tables.old draft.old tables.new draft.new) }
{
    for token in tokens {
        leave_file(tables, draft, token.fid)?;
    }
    Ok(())
}

// The tokens of a file leave.
fn leave_file(tables: &mut Tables, draft: &mut Draft, fid: Fid) -> Result<(), NoMemory>
    ensures { OnOk result (LeavesFile tables.old draft.old fid tables.new draft.new) }
{
    let tokens = Items::from_slice(tables.alloc, tables.cache.tokens_at(fid))?;
    if tokens.is_empty() {
        return Ok(());
    }
    leave(tables, draft, fid, tokens.as_slice(), Why::Ended, &[])
}

// Says Bye to each server that was greeted, once. Answers whether one is said.
fn say_byes(tables: &mut Tables, draft: &mut Draft) -> Result<bool, NoMemory>
    ensures tables { OnOk result (tables.new ≡ with_byes tables.old) }
    ensures draft { OnOk result (draft.new ≡ fold (parting tables.old) draft.old tables.old.sites) }
    ensures some { IfOk result (λ some. IsTrue some ↔ (draft.new.sent ≢ [])) }
{
    say_each(tables, draft)?;
    note_byes(&mut tables.sites);
    Ok(!draft.sent.is_empty())
}

fn say_each(tables: &Tables, draft: &mut Draft) -> Result<(), NoMemory>
    ensures { OnOk result (draft.new ≡ fold (parting tables.now) draft.old tables.now.sites) }
{
    for site in tables.sites.as_slice() {
        say_bye(tables, draft, site)?;
    }
    Ok(())
}

// Says Bye to a server that was greeted, once.
fn say_bye(tables: &Tables, draft: &mut Draft, site: &Site) -> Result<(), NoMemory>
    ensures { OnOk result (draft.new ≡ parting tables.now draft.old site.now) }
{
    if !site.greeted || site.said_bye {
        return Ok(());
    }
    say(tables, draft, site.server, Body::Bye)
}

// Notes that Bye was said to each server that was greeted.
fn note_byes(sites: &mut Items<Site>)
    ensures { sites.new ≡ map has_parted_from sites.old }
{
    for index in 0..sites.len() {
        let site = has_parted_from(*sites.get(index));
        sites.put(index, site);
    }
}

fn has_parted_from(site: Site) -> Site
    ensures { result ≡ has_parted_from site }
{
    let said_bye = site.said_bye || site.greeted;
    Site { said_bye, ..site }
}

/// The host stops: it drops all tokens, and says Down to each server. The only error is that memory ran out.
pub(crate) fn go_down(tables: &mut Tables, draft: &mut Draft) -> Result<(), NoMemory>
    ensures { OnOk result (GoesDown tables.old draft.old tables.new draft.new) }
{
    let tokens = tables.cache.tokens()?;
    drop_all(tables, draft, tokens.as_slice(), Why::Stopped)?;
    say_down(tables, draft)
}

// Says Down to each server.
fn say_down(tables: &Tables, draft: &mut Draft) -> Result<(), NoMemory>
    ensures { OnOk result (draft.new ≡ fold (downing tables.now) draft.old tables.now.sites) }
{
    for site in tables.sites.as_slice() {
        say(tables, draft, site.server, Body::Down)?;
    }
    Ok(())
}
