ghost use Rattle.std.specs.Prelude.{◌≡◌, ◌++◌, slice_get, IfOk, OnOk};
ghost use Rattle.std.specs.List.{filter};
ghost use Rattle.server_says.specs.Revoking.{
  all_revoked,
  asked,
  asking_back,
  asking_of,
  ids_beside,
  is_beside,
  is_owed,
  not_asked,
  not_beside,
  owed,
  owed_by,
  revoking,
};
ghost use Rattle.server_takes.specs.Drafts.{saying};
ghost use Rattle.token_manager.specs.Managers.{wanted};

use base_types::{HostId, Items, NoMemory};
use message_types::{Body, Revoke};
use server_tables::Tables;
use server_takes::Draft;
use std::alloc::Global;
use token_manager::{TokenManager, Wanted};
use token_types::{Token, TokenId};

/// Asks back the tokens that are in the way of wants, each once.
pub fn revoke_all(tables: &mut Tables, draft: &mut Draft) -> Result<(), NoMemory>
    ensures tables { OnOk result
        (tables.new ≡ (asking_back tables.old draft.old (not_asked (wanted tables.old.tokens))).tables) }
    ensures draft { OnOk result
        (draft.new ≡ (asking_back tables.old draft.old (not_asked (wanted tables.old.tokens))).draft) }
{
    let tokens = in_the_way(tables)?;
    ask_back(tables, draft, tokens)
}

fn in_the_way(tables: &Tables) -> Result<Items<Token>, NoMemory>
    ensures { IfOk result (λ tokens. tokens ≡ not_asked (wanted tables.now.tokens)) }
{
    let wanted = tables.tokens.wanted()?;
    not_asked(tables.alloc(), wanted.as_slice())
}

fn not_asked(alloc: Global, wanted: &[Wanted]) -> Result<Items<Token>, NoMemory>
    ensures { IfOk result (λ tokens. tokens ≡ not_asked wanted.now) }
{
    let mut tokens = Items::new(alloc);
    for one in wanted {
        if !one.revoked {
            tokens.push(one.token)?;
        }
    }
    Ok(tokens)
}

/// Asks back once more what was asked back and hasn't come, but for what is in use.
pub(crate) fn revoke_again(tables: &mut Tables, draft: &mut Draft) -> Result<(), NoMemory>
    ensures tables { OnOk result (tables.new ≡ (asking_back tables.old draft.old (owed tables.old)).tables) }
    ensures draft { OnOk result (draft.new ≡ (asking_back tables.old draft.old (owed tables.old)).draft) }
{
    let tokens = owed(tables)?;
    ask_back(tables, draft, tokens)
}

/// What was asked back and hasn't come, but for what is in use.
fn owed(tables: &Tables) -> Result<Items<Token>, NoMemory>
    ensures { IfOk result (λ tokens. tokens ≡ owed tables.now) }
{
    let mut tokens = Items::new(tables.alloc());
    for host in tables.hosts.listed.as_slice() {
        push_owed(&mut tokens, &tables.tokens, *host)?;
    }
    Ok(tokens)
}

fn push_owed(
    tokens: &mut Items<Token>,
    manager: &TokenManager,
    host: HostId,
) -> Result<(), NoMemory>
    ensures { OnOk result (tokens.new ≡ tokens.old ++ owed_by manager.now host) }
{
    let held = owed_by(manager, host)?;
    tokens.append(held)
}

fn owed_by(manager: &TokenManager, host: HostId) -> Result<Items<Token>, NoMemory>
    ensures { IfOk result (λ tokens. tokens ≡ owed_by manager.now host) }
{
    let mut held = manager.of_host(host)?;
    held.retain(|token| is_owed(manager, token));
    Ok(held)
}

fn is_owed(manager: &TokenManager, token: &Token) -> bool
    ensures { result ≡ is_owed manager.now token.now }
{
    manager.is_revoked(token.id) && !manager.is_pinned(token.id)
}

/// Asks tokens back, those of a host and a file at once.
fn ask_back(tables: &mut Tables, draft: &mut Draft, tokens: Items<Token>) -> Result<(), NoMemory>
    ensures tables { OnOk result (tables.new ≡ (asking_back tables.old draft.old tokens).tables) }
    ensures draft { OnOk result (draft.new ≡ (asking_back tables.old draft.old tokens).draft) }
{
    let mut left = tokens;
    while let Some(first) = first_of(&left) {
        ask_for(tables, draft, left.as_slice(), first)?;
        drop_beside(&mut left, first);
    }
    Ok(())
}

fn first_of(tokens: &Items<Token>) -> Option<Token>
    ensures { result ≡ slice_get tokens.now 0 }
{
    tokens.at(0).copied()
}

fn drop_beside(left: &mut Items<Token>, first: Token)
    ensures { left.new ≡ filter (not_beside first) left.old }
{
    left.retain(|token| !is_beside(&first, token));
}

fn is_beside(first: &Token, token: &Token) -> bool
    ensures { result ≡ is_beside first.now token.now }
{
    token.host == first.host && token.fid == first.fid
}

/// Asks back those of the tokens that are of one host and file.
fn ask_for(
    tables: &mut Tables,
    draft: &mut Draft,
    tokens: &[Token],
    first: Token,
) -> Result<(), NoMemory>
    ensures tables { OnOk result
        (tables.new ≡ asked tables.old (asking_of tables.old.stamp first tokens.now).revoke) }
    ensures draft { OnOk result
        (draft.new ≡ saying draft.old (revoking tables.old (asking_of tables.old.stamp first tokens.now))) }
{
    let ids = ids_beside(tables.alloc(), tokens, first)?;
    mark_all(&mut tables.tokens, ids.as_slice());
    let stamp = tables.next_stamp()?;
    let revoke = Revoke {
        fid: first.fid,
        stamp,
        ids,
    };
    draft.say(tables, first.host, Body::Revoke(revoke))
}

fn ids_beside(alloc: Global, tokens: &[Token], first: Token) -> Result<Items<TokenId>, NoMemory>
    ensures { IfOk result (λ ids. ids ≡ ids_beside first tokens.now) }
{
    let mut ids = Items::new(alloc);
    for token in tokens {
        if is_beside(&first, token) {
            ids.push(token.id)?;
        }
    }
    Ok(ids)
}

fn mark_all(manager: &mut TokenManager, ids: &[TokenId])
    ensures { manager.new ≡ all_revoked manager.old ids.now }
{
    for id in ids {
        let _granted = manager.set_revoked(*id);
    }
}
