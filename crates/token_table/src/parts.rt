//! The tokens that each host has of one file, with what they bar.
ghost use Rattle.std.specs.Prelude.{◌≡◌, ◌<◌, ◌≤◌, length, map, filter, position, slice_index_or, OnOk, OnErr, IfOk};
ghost use Rattle.base_types.specs.Lists.{changed_at};
ghost use Rattle.token_table.specs.Parts.{own_of, and_own, and_less, is_other, has_host, AreBarred, and_token};
ghost use Rattle.token_table.specs.Parts.{first_part, passing};
ghost use Rattle.token_table.specs.Shelves.{keeps};
ghost use Rattle.token_table.specs.Tables.{without_id};

use crate::masks::{Barred, barred_by};
use crate::places::{Kept, keeps};
use base_types::{HostId, Items, NoMemory, ServerId};
use std::alloc::Global;
use token_types::{Token, TokenId};

/// The tokens that a host has of a file, in their order, and what they bar.
#[derive(Drop)]
pub struct Part {
    pub host: HostId,
    pub barred: Barred,
    pub tokens: Items<Token>,
}

/// The tokens of a host.
#[tactic(auto, using(crate::proofs::Parting::own_at, crate::proofs::Parting::none_own))]
pub fn own_of(parts: &[Part], host: HostId) -> &[Token]
    ensures { result.now ≡ own_of parts.now host }
{
    match index_of(parts, host) {
        Some(index) => parts[index].tokens.as_slice(),
        None => &[],
    }
}

/// Puts a token before the one with this index of its host's, or behind them. On an error nothing changes.
pub fn note(
    parts: &mut Items<Part>,
    alloc: Global,
    own: usize,
    token: Token,
) -> Result<(), NoMemory>
    requires within { own ≤ length (own_of parts.old token.host) }
    ensures own { OnOk result ((host : HostId) →
        own_of parts.new host ≡ and_own own token host (own_of parts.old host)) }
    ensures barred { OnOk result (AreBarred parts.old → AreBarred parts.new) }
    ensures err { OnErr result (parts.new ≡ parts.old) }
{
    match index_of(parts.as_slice(), token.host) {
        Some(index) => note_at(parts, index, own, token),
        None => {
            let part = first_part(alloc, token)?;
            parts.push(part)
        }
    }
}

#[tactic(auto, using(base_types::proofs::ChangedLists::changes))]
fn note_at(parts: &mut Items<Part>, index: usize, own: usize, token: Token) -> Result<(), NoMemory>
    requires within { index < length parts.old }
    requires own { (part : Part) → part ≡ slice_index_or parts.old index part → own ≤ length part.tokens }
    ensures ok { OnOk result (parts.new ≡ changed_at parts.old index (and_token own token)) }
    ensures err { OnErr result (parts.new ≡ parts.old) }
{
    note_in(parts.get_mut(index), own, token)?;
    Ok(())
}

fn note_in(part: &mut Part, own: usize, token: Token) -> Result<(), NoMemory>
    requires { own ≤ length part.old.tokens }
    ensures ok { OnOk result (part.new ≡ and_token own token part.old) }
    ensures err { OnErr result (part.new ≡ part.old) }
{
    part.tokens.insert(own, token)?;
    part.barred = part.barred.with(token.kind);
    Ok(())
}

fn first_part(alloc: Global, token: Token) -> Result<Part, NoMemory>
    ensures { IfOk result (λ part. part ≡ first_part token) }
{
    let mut tokens = Items::new(alloc);
    tokens.push(token)?;
    Ok(Part {
        host: token.host,
        barred: Barred::nothing().with(token.kind),
        tokens,
    })
}

/// Takes all tokens out of the parts but for those that are kept.
pub fn keep_each(parts: &mut Items<Part>, server: ServerId, epoch: u64, kept: Kept)
    ensures { parts.new ≡ map (passing (keeps server epoch kept)) parts.old }
{
    for index in 0..parts.len() {
        keep_at(parts, index, server, epoch, kept);
    }
}

#[tactic(auto, using(base_types::proofs::ChangedLists::changes))]
fn keep_at(parts: &mut Items<Part>, index: usize, server: ServerId, epoch: u64, kept: Kept)
    requires { index < length parts.old }
    ensures { parts.new ≡ changed_at parts.old index (passing (keeps server epoch kept)) }
{
    keep(parts.get_mut(index), server, epoch, kept);
}

fn keep(part: &mut Part, server: ServerId, epoch: u64, kept: Kept)
    ensures { part.new ≡ passing (keeps server epoch kept) part.old }
{
    let before = part.tokens.len();
    keep_tokens(&mut part.tokens, server, epoch, kept);
    if part.tokens.len() != before {
        part.barred = barred_by(part.tokens.as_slice());
    }
}

/// Takes the token with this number out of those of its host.
pub fn drop_own(parts: &mut Items<Part>, host: HostId, id: TokenId)
    ensures own { (other : HostId) → own_of parts.new other ≡ and_less id host other (own_of parts.old other) }
    ensures barred { AreBarred parts.old → AreBarred parts.new }
{
    if let Some(index) = index_of(parts.as_slice(), host) {
        drop_at(parts, index, id);
    }
}

#[tactic(auto, using(base_types::proofs::ChangedLists::changes))]
fn drop_at(parts: &mut Items<Part>, index: usize, id: TokenId)
    requires { index < length parts.old }
    ensures { parts.new ≡ changed_at parts.old index (passing (is_other id)) }
{
    drop_in(parts.get_mut(index), id);
}

fn drop_in(part: &mut Part, id: TokenId)
    ensures { part.new ≡ passing (is_other id) part.old }
{
    let before = part.tokens.len();
    drop_id(&mut part.tokens, id);
    if part.tokens.len() != before {
        part.barred = barred_by(part.tokens.as_slice());
    }
}

/// Takes the tokens with this number out.
pub fn drop_id(tokens: &mut Items<Token>, id: TokenId)
    ensures { tokens.new ≡ without_id tokens.old id }
{
    tokens.retain(|token| token.id != id);
}

/// Takes all tokens out but for those that are kept.
pub fn keep_tokens(tokens: &mut Items<Token>, server: ServerId, epoch: u64, kept: Kept)
    ensures { tokens.new ≡ filter (keeps server epoch kept) tokens.old }
{
    tokens.retain(|token| keeps(server, epoch, kept, token));
}

fn index_of(parts: &[Part], host: HostId) -> Option<usize>
    ensures { result ≡ position (has_host host) parts.now }
{
    parts.iter().position(|part| part.host == host)
}
