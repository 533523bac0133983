//! Two stores, and the rows that they answer.
ghost use Rattle.std.specs.Prelude.{◌≡◌, OnOk, IfOk};
ghost use Rattle.message_types.specs.Soundness.{IsPart};
ghost use Rattle.store_test_rows.specs.Standing.{Stands};
ghost use Rattle.store_test_rows.specs.Worlds.{BothStand};

use crate::asking::tell;
use crate::doing::acts;
use crate::sound::is_server;
use crate::tried::{Sent, Tried};
use anyhow::{Result, bail};
use base_types::{FilesetId, Items, ServerId, User};
use std::alloc::Global;
use store_memory::Store;
use tree_calls::{Call, HostLine, Mover, Roster, ShipPart};
use tree_test_words::{Text, Words, push_reply, user};

/// The stores of two servers of one roster.
#[derive(Drop)]
pub struct World<S: Store + Drop> {
    roster: Roster,
    one: Tried<S>,
    two: Tried<S>,
}

// Ann and bob of dev.
fn users(alloc: Global) -> Result<Items<User>> {
    let mut users = Items::new(alloc);
    for name in ["ann", "bob"] {
        users.push(user(alloc, name, "dev")?)?;
    }
    Ok(users)
}

/// Two hosts act for ann and bob, and servers from the first on have these capacities.
pub fn roster(alloc: Global, capacities: &[u32]) -> Result<Roster>
    ensures { IfOk result (λ roster. roster.capacity ≡ capacities.now) }
{
    let ann = HostLine { user: 0, limit: 64 };
    let bob = HostLine { user: 1, limit: 64 };
    Ok(Roster {
        hosts: Items::from_slice(alloc, &[ann, bob])?,
        capacity: Items::from_slice(alloc, capacities)?,
        users: users(alloc)?,
    })
}

impl<S: Store + Drop> World<S> {
    /// Two stores of a roster.
    pub fn new(roster: Roster, one: Tried<S>, two: Tried<S>) -> World<S>
        requires one { Stands S.view roster one }
        requires two { Stands S.view roster two }
        ensures { BothStand S.view result }
    {
        World { roster, one, two }
    }

    /// Both stores.
    pub fn into_stores(self) -> (S, S) {
        let World {
            roster: _roster,
            one,
            two,
        } = self;
        (one.into_store(), two.into_store())
    }

    /// Writes what is told to a row: of a batch of acts behind `acts` what became of each, of a part that is sent what
    /// became of it, and else the answer to a question. A store in which a fault came is opened anew.
    pub fn tell(&mut self, words: &mut Words, text: &mut Text) -> Result<()>
        requires stand { BothStand S.view self.old }
        ensures stand { OnOk result (BothStand S.view self.new) }
    {
        match words.next() {
            "s1" => tell_beside(&self.roster, &mut self.one, &mut self.two, words, text),
            _ => tell_beside(&self.roster, &mut self.two, &mut self.one, words, text),
        }
    }

    /// Writes all that both stores tell.
    pub fn tell_all(&mut self, text: &mut Text) -> Result<()>
        requires stand { BothStand S.view self.old }
        ensures stand { OnOk result (BothStand S.view self.new) }
    {
        self.one.tell_all(&self.roster, text)?;
        text.word(" | ");
        self.two.tell_all(&self.roster, text)
    }
}

// Writes what is told to a row of one store, beside the other.
fn tell_beside<S: Store + Drop>(
    roster: &Roster,
    tried: &mut Tried<S>,
    other: &mut Tried<S>,
    words: &mut Words,
    text: &mut Text,
) -> Result<()>
    requires tried { Stands S.view roster.now tried.old }
    requires other { Stands S.view roster.now other.old }
    ensures tried { OnOk result (Stands S.view roster.now tried.new) }
    ensures other { OnOk result (Stands S.view roster.now other.new) }
{
    match words.next() {
        "acts" => apply(roster, tried, words, text),
        "sends" => send(roster, tried, other, words, text),
        "reopen" => {
            tried.reopen(roster)?;
            text.word("ok");
            Ok(())
        }
        "would" => tell_would(roster, tried, words, text),
        word => tell(&mut tried.store, word, words, text),
    }
}

fn apply<S: Store + Drop>(
    roster: &Roster,
    tried: &mut Tried<S>,
    words: &mut Words,
    text: &mut Text,
) -> Result<()>
    requires stands { Stands S.view roster.now tried.old }
    ensures stands { OnOk result (Stands S.view roster.now tried.new) }
{
    let acts = acts(words)?;
    let passed = tried.apply(roster, acts.as_slice(), text);
    drop(acts);
    if !passed? {
        tried.reopen(roster)?;
    }
    Ok(())
}

fn tell_would<S: Store + Drop>(
    roster: &Roster,
    tried: &mut Tried<S>,
    words: &mut Words,
    text: &mut Text,
) -> Result<()>
    requires stands { Stands S.view roster.now tried.old }
    ensures stands { OnOk result (Stands S.view roster.now tried.new) }
{
    let host = words.host()?;
    let call = words.call()?;
    let reply = tried.would(roster, host, &call);
    drop(call);
    let reply = reply?;
    push_reply(text, &reply);
    drop(reply);
    Ok(())
}

// `SERVER sends FILESET AT SHIP MOVES HOST NUMBER NAME`
fn send<S: Store + Drop>(
    roster: &Roster,
    from: &mut Tried<S>,
    to: &mut Tried<S>,
    words: &mut Words,
    text: &mut Text,
) -> Result<()>
    requires from { Stands S.view roster.now from.old }
    requires to { Stands S.view roster.now to.old }
    ensures from { OnOk result (Stands S.view roster.now from.new) }
    ensures to { OnOk result (Stands S.view roster.now to.new) }
{
    let fileset = words.fileset()?;
    let at = words.number()?;
    let ship = words.long()?;
    let moves = words.number()?;
    let (sender, receiver) = (from.server, to.server);
    if !to.has_room() || !is_server(roster, sender) {
        bail!("not to be sent");
    }
    let part = part(roster, from, receiver, fileset, at, words)?;
    let passed = to.take(
        roster,
        Sent {
            from: sender,
            ship,
            fileset,
            moves,
            at,
            part,
        },
        text,
    );
    if !passed {
        to.reopen(roster)?;
    }
    Ok(())
}

// A part of a fileset, with the mover of the words that are left.
fn part<S: Store + Drop>(
    roster: &Roster,
    from: &mut Tried<S>,
    to: ServerId,
    fileset: FilesetId,
    at: u32,
    words: &mut Words,
) -> Result<ShipPart>
    requires stands { Stands S.view roster.now from.old }
    ensures stands { OnOk result (Stands S.view roster.now from.new) }
    ensures part { IfOk result (λ part. IsPart roster.now at part) }
{
    let mover = mover(words, from.server, to)?;
    let part = from.part(roster, fileset, at, &mover);
    drop(mover);
    part
}

fn mover(words: &mut Words, from: ServerId, to: ServerId) -> Result<Mover> {
    Ok(Mover {
        host: words.host()?,
        number: words.long()?,
        k: 1,
        call: Call::MoveFileset {
            server: from,
            fileset: words.name()?,
            to,
        },
    })
}
