//! A node of the ring: what it is given it answers at its next turn.

ghost use Rattle.std.specs.Prelude.{◌≡◌, ◌≤◌, ◌∷◌, [], IfOk};
ghost use Rattle.tree_calls.specs.declared.roster.Roster.{Roster as RosterOf};
ghost use Rattle.message_types.specs.Soundness.{IsSound};
ghost use Rattle.message_types.specs.declared.message.Message.{Message as MessageOf};
ghost use Rattle.run_rules.specs.Past.{In};
ghost use Rattle.hub_tests.specs.Rings.{AreHeard, IsRing};

use base_types::{HostId, Items, NoMemory, Node, ServerId};
use hub_turns::{Given, Hub, NodePass, Pending};
use message_types::{Body, Direction, Message};
use run_rules::{Cause, Step};
use std::alloc::Global;
use std::sync::Wait;
use std::sync::atomic::{AtomicU64, Ordering};
use std::thread::yield_now;

// How often a node looks for a message before it gives up.
const LOOKS_MAX: u32 = 1_000_000_000;

/// How far the message goes, and whether it has come there, or memory ran out.
#[derive(Drop)]
pub struct Way {
    pub last: u64,
    pub ended: AtomicU64,
}

impl Way {
    pub fn has_ended(&self) -> bool {
        self.ended.load(Ordering::SeqCst) != 0
    }

    fn end(&self) {
        self.ended.store(1, Ordering::SeqCst);
    }
}

/// A node: its right to take turns, the number of the message that it answers next, and what it was given last.
#[derive(Drop)]
pub struct Member {
    pub pass: NodePass,
    pub next: Option<u64>,
    pub given: Items<Given>,
}

// A message from a host to a server.
fn asked(host: u8, server: u8, number: u64) -> Message
    requires host { host ≤ 1 }
    requires server { (1 ≤ server) × (server ≤ 2) }
    ensures { (roster : RosterOf) → IsRing roster → IsSound roster result }
{
    Message {
        direction: Direction::ToServer,
        host: HostId(host),
        server: ServerId(server),
        epoch: number,
        moves: 0,
        body: Body::Hello,
    }
}

// A message from a server to a host.
fn told(host: u8, server: u8, number: u64) -> Message
    requires host { host ≤ 1 }
    requires server { (1 ≤ server) × (server ≤ 2) }
    ensures { (roster : RosterOf) → IsRing roster → IsSound roster result }
{
    Message {
        direction: Direction::ToHost,
        host: HostId(host),
        server: ServerId(server),
        epoch: number,
        moves: 0,
        body: Body::Restarted,
    }
}

// The message of this number goes from a node to the next: from `c0` to `s1`, `c1`, `s2` and back to `c0`.
fn message_of(number: u64) -> Message
    ensures { (roster : RosterOf) → IsRing roster → IsSound roster result }
{
    match number % 4 {
        1 => asked(0, 1, number),
        2 => told(1, 1, number),
        3 => asked(1, 2, number),
        _ => told(0, 2, number),
    }
}

// The step that the message of this number makes, or the first step for 0: it sends the next one, up to the last.
fn step_of(alloc: Global, node: Node, number: u64, last: u64) -> Result<Step, NoMemory>
    ensures { (roster : RosterOf) → IsRing roster
        → IfOk result (λ step. (m : MessageOf) → In m step.sent → IsSound roster m) }
{
    let sent = sent_after(alloc, number, last)?;
    Ok(Step {
        node,
        cause: cause_of(number),
        asked: None,
        taken: Items::new(alloc),
        answers: Items::new(alloc),
        wrote: None,
        begun: Items::new(alloc),
        made: Items::new(alloc),
        dropped: Items::new(alloc),
        applied: Items::new(alloc),
        admitted: Items::new(alloc),
        sent,
        shipped: Items::new(alloc),
        reserved: Items::new(alloc),
    })
}

fn cause_of(number: u64) -> Cause {
    if number == 0 {
        Cause::End
    } else {
        Cause::Message(message_of(number))
    }
}

fn sent_after(alloc: Global, number: u64, last: u64) -> Result<Items<Message>, NoMemory>
    ensures { (roster : RosterOf) → IsRing roster
        → IfOk result (λ sent. (m : MessageOf) → In m sent → IsSound roster m) }
{
    let mut sent = Items::new(alloc);
    if number < last {
        sent.push(message_of(number + 1))?;
    }
    Ok(sent)
}

// No steps.
#[tactic(auto, using(crate::proofs::Members::none_heard))]
fn no_steps(alloc: Global) -> Pending
    ensures { AreHeard result.steps }
{
    Pending::new(alloc)
}

fn one_step(alloc: Global, step: Step) -> Result<Pending, NoMemory>
    ensures { IfOk result (λ steps. steps.steps ≡ step ∷ []) }
{
    let mut steps = Pending::new(alloc);
    steps.push(step)?;
    Ok(steps)
}

// The step that the message of this number makes, alone.
#[tactic(auto, using(crate::proofs::Members::one_heard))]
fn step_alone(alloc: Global, node: Node, number: u64, last: u64) -> Result<Pending, NoMemory>
    ensures { IfOk result (λ steps. AreHeard steps.steps) }
{
    let step = step_of(alloc, node, number, last)?;
    one_step(alloc, step)
}

// The steps that are handed in next.
fn next_steps(alloc: Global, node: Node, next: Option<u64>, last: u64) -> Result<Pending, NoMemory>
    ensures { IfOk result (λ steps. AreHeard steps.steps) }
{
    match next {
        Some(number) => step_alone(alloc, node, number, last),
        None => Ok(no_steps(alloc)),
    }
}

/// The message that a node answers first: the setup host sends the first one.
pub fn first_answer(node: Node) -> Option<u64> {
    if node == Node::Host(HostId(0)) {
        Some(0)
    } else {
        None
    }
}

// A turn of a pass, which hands these steps in.
fn take_turn<R: Wait>(
    rt: &R,
    hub: &Hub,
    pass: &mut NodePass,
    mut steps: Pending,
) -> Result<Option<Given>, NoMemory>
    requires ring { IsRing hub.now.roster }
    requires hub { pass.old.hub ≡ hub.now.id }
    requires heard { AreHeard steps.steps }
    ensures { pass.new.hub ≡ pass.old.hub }
{
    hub.turn(rt, pass, &mut steps)
}

impl Member {
    // Takes a turn, and keeps what was given.
    fn take<R: Wait>(&mut self, rt: &R, hub: &Hub, last: u64) -> Result<(), NoMemory>
        requires ring { IsRing hub.now.roster }
        requires hub { self.old.pass.hub ≡ hub.now.id }
        ensures { self.new.pass.hub ≡ self.old.pass.hub }
    {
        self.given.truncate(0);
        let steps = next_steps(self.given.alloc(), self.pass.node(), self.next, last)?;
        let given = take_turn(rt, hub, &mut self.pass, steps)?;
        self.next = None;
        if let Some(given) = given {
            self.given.push(given)?;
        }
        Ok(())
    }

    // The number of the message that was given; 0 where there was none.
    fn number(&self) -> u64 {
        match self.given.at(0) {
            Some(Given::Message(message)) => message.epoch,
            _ => 0,
        }
    }

    fn turn<R: Wait>(&mut self, rt: &R, hub: &Hub, way: &Way) -> Result<(), NoMemory>
        requires ring { IsRing hub.now.roster }
        requires hub { self.old.pass.hub ≡ hub.now.id }
        ensures { self.new.pass.hub ≡ self.old.pass.hub }
    {
        self.take(rt, hub, way.last)?;
        let number = self.number();
        if number == 0 {
            return Ok(());
        }
        if number >= way.last {
            way.end();
        }
        self.next = Some(number);
        Ok(())
    }

    /// Takes a turn, and answers the message that is given. Where memory runs out all nodes are to end.
    pub fn try_turn<R: Wait>(&mut self, rt: &R, hub: &Hub, way: &Way)
        requires ring { IsRing hub.now.roster }
        requires hub { self.old.pass.hub ≡ hub.now.id }
        ensures { self.new.pass.hub ≡ self.old.pass.hub }
    {
        if self.turn(rt, hub, way).is_err() {
            way.end();
        }
    }

    /// Takes turns until the message has come to its end, and hands in what is left.
    pub fn work<R: Wait>(&mut self, rt: &R, hub: &Hub, way: &Way)
        requires ring { IsRing hub.now.roster }
        requires hub { self.old.pass.hub ≡ hub.now.id }
        ensures { self.new.pass.hub ≡ self.old.pass.hub }
    {
        for _ in 0..LOOKS_MAX {
            if way.has_ended() {
                break;
            }
            self.try_turn(rt, hub, way);
            yield_now();
        }
        self.try_turn(rt, hub, way);
    }
}
