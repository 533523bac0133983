ghost use Rattle.std.specs.Prelude.{◌≡◌, IfOk};
ghost use Rattle.std.specs.List.{list_all};
ghost use Rattle.base_types.specs.Lists.{changed_at};
ghost use Rattle.hub_board.specs.Ties.{no_ties, greeted, parted, with_sent, with_all_sent, with_cause, is_loose};

use base_types::{Items, NoMemory, SERVERS_MAX, ServerId};
use message_types::{Body, Message};
use run_rules::Cause;
use std::alloc::Global;

/// What the setup host has with a server.
#[derive(Clone, Copy, PartialEq, Eq)]
pub enum Tie {
    /// Nothing.
    Apart,
    /// It has greeted the server, and has no Bye of it.
    Greeted,
    /// It has the server's Bye.
    Parted,
}

impl Tie {
    fn greeted(self) -> Tie
        ensures { result ≡ greeted self }
    {
        match self {
            Tie::Apart => Tie::Greeted,
            tie => tie,
        }
    }

    fn parted(self) -> Tie
        ensures { result ≡ parted self }
    {
        let _before = self;
        Tie::Parted
    }

    fn is_loose(self) -> bool
        ensures { result ≡ is_loose self }
    {
        match self {
            Tie::Greeted => false,
            _ => true,
        }
    }
}

/// Nothing with any server; the ties stand by the servers' numbers. The only error is that memory ran out.
pub(crate) fn no_ties(alloc: Global) -> Result<Items<Tie>, NoMemory>
    ensures { IfOk result (λ ties. ties ≡ no_ties) }
{
    Items::from_slice(
        alloc,
        &[Tie::Apart, Tie::Apart, Tie::Apart, Tie::Apart, Tie::Apart],
    )
}

#[tactic(auto, using(base_types::proofs::ChangedLists::changes))]
fn greet(ties: &mut Items<Tie>, server: ServerId)
    ensures { ties.new ≡ changed_at ties.old server.0 greeted }
{
    let place = server.0 as usize;
    if place < ties.len() {
        let tie = *ties.get(place);
        ties.set(place, tie.greeted());
    }
}

#[tactic(auto, using(base_types::proofs::ChangedLists::changes))]
fn part(ties: &mut Items<Tie>, server: ServerId)
    ensures { ties.new ≡ changed_at ties.old server.0 parted }
{
    let place = server.0 as usize;
    if place < ties.len() {
        let tie = *ties.get(place);
        ties.set(place, tie.parted());
    }
}

fn take_sent(ties: &mut Items<Tie>, message: &Message)
    ensures { ties.new ≡ with_sent ties.old message.now }
{
    if let Body::Hello = &message.body {
        greet(ties, message.server);
    }
}

fn take_cause(ties: &mut Items<Tie>, cause: &Cause)
    ensures { ties.new ≡ with_cause ties.old cause.now }
{
    if let Cause::Message(message) = cause {
        if let Body::Bye = &message.body {
            part(ties, message.server);
        }
    }
}

/// What the setup host has with servers after a step with this cause, which sent these messages.
#[tactic(auto, using(crate::proofs::Steps::all_sent_more))]
pub(crate) fn take_step(ties: &mut Items<Tie>, cause: &Cause, sent: &[Message])
    ensures { ties.new ≡ with_all_sent (with_cause ties.old cause.now) sent.now }
{
    take_cause(ties, cause);
    for message in sent {
        take_sent(ties, message);
    }
}

/// Whether it has the Bye of each server that it greeted.
pub(crate) fn are_loose(ties: &Items<Tie>) -> bool
    ensures { result ≡ list_all is_loose ties.now }
{
    ties.as_slice().iter().all(|tie| tie.is_loose())
}
