//! The order of use, and what was marked as used last.
ghost use Rattle.std.specs.Prelude.{◌≡◌, ◌∷◌, [], false, true, map, filter, length, IfOk, OnOk, OnErr};
ghost use Rattle.std.specs.List.{find, list_any};
ghost use Rattle.std.specs.Option.{option_map};
ghost use Rattle.host_cache.specs.Holding.{IsOnce, is_id, has_id, without_id, brought_all, with_use, is_idle, last_of};
ghost use Rattle.host_cache.specs.Holding.{tells_at, tokens_of, used_each};

use crate::held::Held;
use crate::order::Order;
use base_types::{Items, NoMemory};
use std::alloc::Global;
use std::marker::Model;
use token_types::{Need, Token, TokenId};

/// The held tokens, each once, in the order of their use; contracts see them as that list. Beside them it has needs
/// that change nothing where they are marked again, so that one who reads the same again needs no look at a token.
#[derive(Drop)]
pub(crate) struct Recent {
    order: Order,
    // The needs that were marked last; none where the order changed since by something else.
    marked: Items<Need>,
}

impl Model for Recent {
    ghost use Rattle.std.specs.Prelude.{List, ◌≡◌};
    ghost use Rattle.host_cache.specs.declared.held.Held.{Held};
    ghost use Rattle.host_cache.specs.Holding.{used_each};

    ghost Value = { List Held };

    ghost view = { λ r. r.order };

    ghost invariant = { λ r. used_each r.marked r.order ≡ r.order };
}

impl Recent {
    /// No token is held.
    pub(crate) fn new(alloc: Global) -> Result<Recent, NoMemory>
        ensures { IfOk result (λ recent. recent ≡ []) }
    {
        Ok(Recent {
            order: Order::new(alloc)?,
            marked: Items::new(alloc),
        })
    }

    /// Each token is there once. It does nothing.
    pub(crate) fn laws(&self)
        ensures { IsOnce self.now }
    {
        self.order.laws();
    }

    /// Whether the token with this number is held.
    pub(crate) fn holds(&self, id: TokenId) -> bool
        ensures { result ≡ has_id self.now id }
    {
        self.order.holds(id)
    }

    /// The token with this number, where it is held.
    pub(crate) fn find(&self, id: TokenId) -> Option<Held>
        ensures { result ≡ find (is_id id) self.now }
    {
        self.order.find(id)
    }

    /// Puts a token first. On an error nothing changes.
    pub(crate) fn push(&mut self, held: Held) -> Result<(), NoMemory>
        requires { has_id self.old held.token.id ≡ false }
        ensures ok { OnOk result (self.new ≡ held ∷ self.old) }
        ensures err { OnErr result (self.new ≡ self.old) }
    {
        self.marked.truncate(0);
        self.order.push(held)
    }

    /// Takes the token with this number out.
    pub(crate) fn take(&mut self, id: TokenId) -> Option<Held>
        ensures taken { result ≡ find (is_id id) self.old }
        ensures left { self.new ≡ without_id id self.old }
    {
        self.marked.truncate(0);
        self.order.take(id)
    }

    /// Notes whether the token with this number is in use, where it is held.
    pub(crate) fn set_use(&mut self, id: TokenId, in_use: bool)
        ensures { self.new ≡ map (with_use id in_use) self.old }
    {
        self.marked.truncate(0);
        self.order.set_use(id, in_use);
    }

    /// Brings tokens to the front, from the last to the first.
    pub(crate) fn promote_all(&mut self, tokens: &[Token])
        ensures { self.new ≡ brought_all tokens.now self.old }
    {
        self.marked.truncate(0);
        promote_all(&mut self.order, tokens);
    }

    /// The needs that were marked last: marked again, they change nothing.
    pub(crate) fn marked(&self) -> &[Need]
        ensures { used_each result.now self.now ≡ self.now }
    {
        self.marked.as_slice()
    }

    /// Notes that these needs change nothing where they are marked again; where memory ran out it notes none.
    pub(crate) fn note(&mut self, needs: &[Need])
        requires { used_each needs.now self.old ≡ self.old }
        ensures { self.new ≡ self.old }
    {
        self.marked.truncate(0);
        if let Err(NoMemory) = self.marked.extend(needs) {
            self.marked.truncate(0);
        }
    }

    /// Whether one of these tokens is held, and came with a status.
    pub(crate) fn tells_any(&self, tokens: &[Token]) -> bool
        ensures { result ≡ list_any (λ token. tells_at self.now token.id) tokens.now }
    {
        self.order.tells_any(tokens)
    }

    /// How many tokens are held.
    pub(crate) fn len(&self) -> usize
        ensures { result ≡ length self.now }
    {
        self.order.len()
    }

    /// How many tokens aren't in use.
    pub(crate) fn idle(&self) -> usize
        ensures { result ≡ length (filter is_idle self.now) }
    {
        self.order.idle()
    }

    /// The last of the tokens that aren't in use.
    pub(crate) fn oldest(&self) -> Option<TokenId>
        ensures { result ≡ option_map (λ held. held.token.id) (last_of (filter is_idle self.now)) }
    {
        self.order.oldest()
    }

    /// The tokens, in their order.
    pub(crate) fn tokens(&self, alloc: Global) -> Result<Items<Token>, NoMemory>
        ensures { IfOk result (λ tokens. tokens ≡ tokens_of self.now) }
    {
        self.order.tokens(alloc)
    }
}

// Brings tokens to the front, from the last to the first.
fn promote_all(order: &mut Order, tokens: &[Token])
    ensures { order.new ≡ brought_all tokens.now order.old }
{
    for index in (0..tokens.len()).rev() {
        order.promote(tokens[index].id);
    }
}
