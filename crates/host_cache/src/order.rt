//! The order in which the held tokens were used.
ghost use Rattle.std.specs.Prelude.{◌≡◌, ◌∷◌, [], false, map, filter, length, IfOk, OnOk, OnErr};
ghost use Rattle.std.specs.List.{find, list_any};
ghost use Rattle.std.specs.Option.{option_map};
ghost use Rattle.host_cache.specs.Holding.{IsOnce, is_id, has_id, without_id, brought, with_use, is_idle, last_of};
ghost use Rattle.host_cache.specs.Holding.{tells_at, tokens_of};
ghost use Rattle.host_cache.specs.Keys.{id_key};

use crate::held::Held;
use base_types::{Items, NoMemory};
use lru::LruCache;
use std::alloc::Global;
use std::marker::Model;
use token_types::{Token, TokenId};

// The number of a token: its server, its epoch and its sequence number.
type IdKey = (u8, (u64, u64));

/// The held tokens, each once. Contracts see them as a list, the most recently used first.
#[derive(Drop)]
pub(crate) struct Order {
    entries: LruCache<IdKey, Held>,
}

impl Model for Order {
    ghost use Rattle.std.specs.Prelude.{List};
    ghost use Rattle.std.specs.Map.{values_of};
    ghost use Rattle.host_cache.specs.declared.held.Held.{Held};
    ghost use Rattle.host_cache.specs.Keys.{IsOrder};

    ghost Value = { List Held };

    ghost view = { λ o. values_of o.entries.entries };

    ghost invariant = { λ o. IsOrder o.entries };
}

impl Order {
    /// No token is held.
    pub(crate) fn new(alloc: Global) -> Result<Order, NoMemory>
        ensures { IfOk result (λ order. order ≡ []) }
    {
        Ok(Order {
            entries: LruCache::unbounded(alloc)?,
        })
    }

    /// Each token is there once. It does nothing.
    pub(crate) fn laws(&self)
        ensures { IsOnce self.now }
    {
        let _count = self.entries.len();
    }

    /// Whether the token with this number is held.
    pub(crate) fn holds(&self, id: TokenId) -> bool
        ensures { result ≡ has_id self.now id }
    {
        self.entries.contains(&id_key(id))
    }

    /// The token with this number, where it is held.
    pub(crate) fn find(&self, id: TokenId) -> Option<Held>
        ensures { result ≡ find (is_id id) self.now }
    {
        let _count = self.entries.len();
        self.entries.peek(&id_key(id)).copied()
    }

    /// Puts a token first. On an error nothing changes.
    pub(crate) fn push(&mut self, held: Held) -> Result<(), NoMemory>
        requires { has_id self.old held.token.id ≡ false }
        ensures ok { OnOk result (self.new ≡ held ∷ self.old) }
        ensures err { OnErr result (self.new ≡ self.old) }
    {
        let _count = self.entries.len();
        self.entries.put(id_key(held.token.id), held)?;
        Ok(())
    }

    /// Takes the token with this number out.
    pub(crate) fn take(&mut self, id: TokenId) -> Option<Held>
        ensures taken { result ≡ find (is_id id) self.old }
        ensures left { self.new ≡ without_id id self.old }
    {
        let _count = self.entries.len();
        self.entries.pop(&id_key(id))
    }

    /// Brings the token with this number to the front, where it is held.
    pub(crate) fn promote(&mut self, id: TokenId)
        ensures { self.new ≡ brought id self.old }
    {
        let _count = self.entries.len();
        self.entries.promote(&id_key(id));
    }

    /// Notes whether the token with this number is in use, where it is held.
    pub(crate) fn set_use(&mut self, id: TokenId, in_use: bool)
        ensures { self.new ≡ map (with_use id in_use) self.old }
    {
        let _count = self.entries.len();
        let Some(held) = self.entries.peek_mut(&id_key(id)) else {
            return;
        };
        held.in_use = in_use;
    }

    // Whether the token with this number is held, and came with a status.
    fn tells(&self, id: TokenId) -> bool
        ensures { result ≡ tells_at self.now id }
    {
        match self.entries.peek(&id_key(id)) {
            Some(held) => held.tells,
            None => false,
        }
    }

    /// Whether one of these tokens is held, and came with a status.
    pub(crate) fn tells_any(&self, tokens: &[Token]) -> bool
        ensures { result ≡ list_any (λ token. tells_at self.now token.id) tokens.now }
    {
        tokens.iter().any(|token| self.tells(token.id))
    }

    /// How many tokens are held.
    pub(crate) fn len(&self) -> usize
        ensures { result ≡ length self.now }
    {
        self.entries.len()
    }

    /// How many tokens aren't in use.
    pub(crate) fn idle(&self) -> usize
        ensures { result ≡ length (filter is_idle self.now) }
    {
        let _all = self.entries.len();
        let mut count = 0;
        let mut entries = self.entries.iter();
        while let Some((_, held)) = entries.next() {
            if !held.in_use {
                count += 1;
            }
        }
        count
    }

    /// The last of the tokens that aren't in use.
    pub(crate) fn oldest(&self) -> Option<TokenId>
        ensures { result ≡ option_map (λ held. held.token.id) (last_of (filter is_idle self.now)) }
    {
        let mut entries = self.entries.iter();
        while let Some((_, held)) = entries.next_back() {
            if !held.in_use {
                return Some(held.token.id);
            }
        }
        None
    }

    /// The tokens, in their order.
    pub(crate) fn tokens(&self, alloc: Global) -> Result<Items<Token>, NoMemory>
        ensures { IfOk result (λ tokens. tokens ≡ tokens_of self.now) }
    {
        let mut tokens = Items::new(alloc);
        let mut entries = self.entries.iter();
        while let Some((_, held)) = entries.next() {
            tokens.push(held.token)?;
        }
        Ok(tokens)
    }
}

fn id_key(id: TokenId) -> IdKey
    ensures { result ≡ id_key id }
{
    (id.server.0, (id.epoch, id.seq))
}
