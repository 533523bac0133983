//! The tokens of one file.
ghost use Rattle.std.specs.Prelude.{◌≡◌, ◌≤◌, ◌==◌, false, ◌∷◌, ◌++◌, [], ◌↔◌, IsTrue, length, take, insert, filter};
ghost use Rattle.std.specs.Prelude.{OnOk, OnErr};
ghost use Rattle.std.specs.List.{find, list_any};
ghost use Rattle.std.specs.Option.{option_map};
ghost use Rattle.token_types.specs.Conflicts.{blocks};
ghost use Rattle.token_table.specs.Parts.{is_in_way, is_another_in_way};
ghost use Rattle.token_table.specs.Tables.{of_host, without_id};
ghost use Rattle.token_table.specs.Shelves.{keeps};

use crate::parts::{Part, drop_id, drop_own, keep_each, keep_tokens, note, own_of};
use crate::places::Kept;
use base_types::{HostId, Items, NoMemory, ServerId};
use std::alloc::Global;
use std::marker::Model;
use token_types::{Need, Token, TokenId};

/// The tokens of one file in their order, and beside them those of each host. Contracts see it as the list.
#[derive(Drop)]
pub struct FileTokens {
    tokens: Items<Token>,
    parts: Items<Part>,
}

impl Model for FileTokens {
    ghost use Rattle.std.specs.Prelude.{List};
    ghost use Rattle.token_types.specs.declared.token.Token.{Token};
    ghost use Rattle.token_table.specs.Parts.{IsParted};

    ghost Value = { List Token };

    ghost view = { λ f. f.tokens };

    ghost invariant = { λ f. IsParted f.tokens f.parts };
}

impl FileTokens {
    /// No tokens. It takes no memory.
    pub fn new(alloc: Global) -> FileTokens
        ensures { result ≡ [] }
    {
        FileTokens {
            tokens: Items::new(alloc),
            parts: Items::new(alloc),
        }
    }

    /// The tokens in their order.
    pub fn as_slice(&self) -> &[Token]
        ensures { result.now ≡ self.now }
    {
        self.tokens.as_slice()
    }

    pub fn is_empty(&self) -> bool
        ensures { IsTrue result ↔ (self.now ≡ []) }
    {
        self.tokens.is_empty()
    }

    /// Those tokens, in their order, among which are all that are in the way of a host's needs: none where none is, and
    /// where all that are in the way are of one host, that host's.
    pub fn near(&self, host: HostId, needs: &[Need]) -> &[Token]
        ensures { filter (blocks host needs.now) result.now ≡ filter (blocks host needs.now) self.now }
    {
        let parts = self.parts.as_slice();
        let Some(first) = first_in_way(parts, host, needs) else {
            return &[];
        };
        if is_another_in_way(parts, first, host, needs) {
            return self.tokens.as_slice();
        }
        own_of(parts, first)
    }
}

impl FileTokens {
    /// Puts a token behind the others. On an error nothing changes.
    #[tactic(auto, using(crate::proofs::Parting::count_all))]
    pub fn push(&mut self, token: Token) -> Result<(), NoMemory>
        ensures ok { OnOk result (self.new ≡ self.old ++ token ∷ []) }
        ensures err { OnErr result (self.new ≡ self.old) }
    {
        let own = own_of(self.parts.as_slice(), token.host).len();
        let index = self.tokens.len();
        self.put(index, own, token)
    }

    /// Puts a token before the one with this index, or behind the others. On an error nothing changes.
    pub fn insert(&mut self, index: usize, token: Token) -> Result<(), NoMemory>
        requires { index ≤ length self.old }
        ensures ok { OnOk result (self.new ≡ insert self.old index token) }
        ensures err { OnErr result (self.new ≡ self.old) }
    {
        let own = count_of(&self.tokens.as_slice()[..index], token.host);
        self.put(index, own, token)
    }

    // The same, where so many of the tokens before are of the token's host.
    #[tactic(auto, using(crate::proofs::Parting::count_within, crate::proofs::Parting::put_undone))]
    fn put(&mut self, index: usize, own: usize, token: Token) -> Result<(), NoMemory>
        requires within { index ≤ length self.old }
        requires own { own ≡ length (of_host (take index self.old) token.host) }
        ensures ok { OnOk result (self.new ≡ insert self.old index token) }
        ensures err { OnErr result (self.new ≡ self.old) }
    {
        self.tokens.insert(index, token)?;
        let alloc = self.tokens.alloc();
        match note(&mut self.parts, alloc, own, token) {
            Ok(()) => Ok(()),
            Err(NoMemory) => {
                self.tokens.remove(index);
                Err(NoMemory)
            }
        }
    }

    /// Takes the token with this number out, which no other host has. It takes no memory.
    pub fn drop_id(&mut self, host: HostId, id: TokenId)
        requires { (other : HostId) → (host.0 == other.0) ≡ false
            → of_host (without_id self.old id) other ≡ of_host self.old other }
        ensures { self.new ≡ without_id self.old id }
    {
        drop_id(&mut self.tokens, id);
        drop_own(&mut self.parts, host, id);
    }

    /// Takes all tokens out but for those that are kept. It takes no memory.
    pub fn keep(&mut self, server: ServerId, epoch: u64, kept: Kept)
        ensures { self.new ≡ filter (keeps server epoch kept) self.old }
    {
        keep_tokens(&mut self.tokens, server, epoch, kept);
        keep_each(&mut self.parts, server, epoch, kept);
    }
}

// How many of the tokens are a host's.
fn count_of(tokens: &[Token], host: HostId) -> usize
    ensures { result ≡ length (of_host tokens.now host) }
{
    tokens.iter().filter(|token| token.host == host).count()
}

// The first other host that may have a token in the way of a host's needs.
fn first_in_way(parts: &[Part], host: HostId, needs: &[Need]) -> Option<HostId>
    ensures { result ≡ option_map (λ part. part.host) (find (is_in_way host needs.now) parts.now) }
{
    let first = parts.iter().find(|part| is_in_way(part, host, needs))?;
    Some(first.host)
}

// Whether a third host may have one too.
fn is_another_in_way(parts: &[Part], first: HostId, host: HostId, needs: &[Need]) -> bool
    ensures { result ≡ list_any (is_another_in_way first host needs.now) parts.now }
{
    parts
        .iter()
        .any(|part| part.host != first && is_in_way(part, host, needs))
}

fn is_in_way(part: &Part, host: HostId, needs: &[Need]) -> bool
    ensures { result ≡ is_in_way host needs.now part.now }
{
    part.host != host && part.barred.may_bar_any(needs)
}
