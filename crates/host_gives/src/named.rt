ghost use Rattle.std.specs.Prelude.{◌≡◌, ◌∷◌, true, [], IfOk, OnOk};
ghost use Rattle.std.specs.List.{list_any};
ghost use Rattle.token_types.specs.Conflicts.{same_id};
ghost use Rattle.token_types.specs.declared.token.TokenId.{TokenId};
ghost use Rattle.host_gives.specs.Giving.{names};
ghost use Rattle.host_gives.specs.Named.{AreNamed, Keeps, has_id, id_key};

use base_types::NoMemory;
use message_types::{Body, Message};
use std::alloc::Global;
use std::collections::HashSet;
use std::marker::Model;
use token_types::TokenId;

// The number of a token: its server, its epoch and its sequence number.
type IdKey = (u8, (u64, u64));

/// Tokens that give-backs name, so that most of those that none names are told without a walk over all give-backs.
/// Some may be named no more.
#[derive(Drop)]
pub(crate) struct Named {
    alloc: Global,
    ids: HashSet<IdKey>,
}

impl Model for Named {
    ghost use Rattle.std.specs.Prelude.{List};
    ghost use Rattle.host_gives.specs.Named.{IdKey};

    ghost Value = { List IdKey };

    ghost view = { λ n. n.ids.keys };
}

impl Named {
    /// No token. It takes no memory.
    pub(crate) fn new(alloc: Global) -> Named
        ensures { result ≡ [] }
    {
        Named {
            alloc,
            ids: HashSet::new(alloc),
        }
    }

    /// Whether a token is among them.
    pub(crate) fn has(&self, id: TokenId) -> bool
        ensures { result ≡ has_id self.now id }
    {
        self.ids.contains(&id_key(id))
    }

    /// Notes the tokens that a message names. On an error some may be noted.
    pub(crate) fn note(&mut self, message: &Message) -> Result<(), NoMemory>
        ensures keeps { Keeps self.old self.new }
        ensures noted { OnOk result ((id : TokenId) → names id message.now ≡ true → has_id self.new id ≡ true) }
    {
        match &message.body {
            Body::GiveBack(give) => note_ids(self, give.ids.as_slice()),
            _ => Ok(()),
        }
    }

    /// Lets those go that no message in slots names. Where memory runs out, they stay.
    pub(crate) fn renew(&mut self, slots: &[Option<Message>])
        ensures { AreNamed slots.now self.old → AreNamed slots.now self.new }
    {
        if let Ok(renewed) = named_in(self.alloc, slots) {
            *self = renewed;
        }
    }
}

// Notes tokens. On an error some may be noted.
#[tactic(auto, using(crate::proofs::Naming::noted_next))]
fn note_ids(named: &mut Named, ids: &[TokenId]) -> Result<(), NoMemory>
    ensures keeps { Keeps named.old named.new }
    ensures noted { OnOk result ((id : TokenId) → list_any (λ other. same_id other id) ids.now ≡ true
        → has_id named.new id ≡ true) }
{
    for id in ids {
        note_id(named, id)?;
    }
    Ok(())
}

// Notes a token.
fn note_id(named: &mut Named, id: &TokenId) -> Result<(), NoMemory>
    ensures keeps { Keeps named.old named.new }
    ensures noted { OnOk result (has_id named.new id.now ≡ true) }
{
    named.ids.insert(id_key(*id))?;
    Ok(())
}

// The tokens that the messages in slots name.
fn named_in(alloc: Global, slots: &[Option<Message>]) -> Result<Named, NoMemory>
    ensures { IfOk result (λ named. AreNamed slots.now named) }
{
    let mut named = Named::new(alloc);
    for slot in slots {
        note_slot(&mut named, slot)?;
    }
    Ok(named)
}

// Notes the tokens that the message in a slot names.
fn note_slot(named: &mut Named, slot: &Option<Message>) -> Result<(), NoMemory>
    ensures keeps { Keeps named.old named.new }
    ensures noted { OnOk result (AreNamed (slot.now ∷ []) named.new) }
{
    match slot {
        Some(message) => named.note(message),
        None => Ok(()),
    }
}

fn id_key(id: TokenId) -> IdKey
    ensures { result ≡ id_key id }
{
    (id.server.0, (id.epoch, id.seq))
}
