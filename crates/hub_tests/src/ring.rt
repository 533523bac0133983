//! A ring of two hosts and two servers. A message goes from each node to the next, and its number rises by one: so the
//! list of steps is the same for one thread as for four.

ghost use Rattle.std.specs.Prelude.{◌≡◌, IfOk, length, map};
ghost use Rattle.std.specs.List.{All};
ghost use Rattle.hub_turns.specs.Meetings.{AreAllPasses};
ghost use Rattle.hub_tests.specs.Rings.{IsRing};

use crate::member::{Member, Way, first_answer};
use base_types::{CAPACITY_DEFAULT, Items, NoMemory};
use hub_turns::{ClosingRoom, Hub, NodePass, Turn};
use script_lines::Script;
use std::alloc::Global;
use std::sync::Wait;
use std::sync::atomic::AtomicU64;
use std::thread;
use std::thread::Threads;
use tree_calls::{HostLine, Roster};

// How often all nodes take a turn before they give up.
const ROUNDS_MAX: u32 = 1_000_000_000;

// The setup host, another host and two servers.
fn script_of(alloc: Global) -> Result<Script, NoMemory>
    ensures ring { IfOk result (λ script. IsRing script.roster) }
    ensures hosts { IfOk result (λ script. length script.roster.hosts ≡ 1) }
    ensures servers { IfOk result (λ script. script.servers ≡ 2) }
{
    let hosts = Items::from_slice(alloc, &[HostLine { user: 0, limit: 64 }])?;
    Ok(Script {
        servers: 2,
        roster: Roster {
            users: Items::new(alloc),
            hosts,
            capacity: Items::from_slice(alloc, &[CAPACITY_DEFAULT; 2])?,
        },
        setup: Items::new(alloc),
        plan: Items::new(alloc),
        net: None,
        lines: Items::new(alloc),
    })
}

fn members_of(alloc: Global, passes: Vec<NodePass>) -> Result<Vec<Member>, NoMemory>
    ensures { IfOk result (λ members. map (λ m. m.pass) members.items ≡ passes.items) }
{
    let mut members = Vec::new(alloc);
    for pass in passes {
        let next = first_answer(pass.node());
        let given = Items::new(alloc);
        members.push(Member { pass, next, given })?;
    }
    Ok(members)
}

fn passes_of(alloc: Global, members: Vec<Member>) -> Result<Vec<NodePass>, NoMemory>
    ensures { IfOk result (λ passes. passes.items ≡ map (λ m. m.pass) members.items) }
{
    let mut passes = Vec::new(alloc);
    for member in members {
        let Member { pass, .. } = member;
        passes.push(pass)?;
    }
    Ok(passes)
}

fn turned<R: Wait>(rt: &R, hub: &Hub, mut member: Member, way: &Way) -> Member
    requires ring { IsRing hub.now.roster }
    requires hub { member.pass.hub ≡ hub.now.id }
    ensures { result.pass.hub ≡ member.pass.hub }
{
    member.try_turn(rt, hub, way);
    member
}

fn worked<R: Wait>(rt: &R, hub: &Hub, mut member: Member, way: &Way) -> Member
    requires ring { IsRing hub.now.roster }
    requires hub { member.pass.hub ≡ hub.now.id }
    ensures { result.pass.hub ≡ member.pass.hub }
{
    member.work(rt, hub, way);
    member
}

// Each node takes a turn, one after the other. They come back in the other order.
fn round<R: Wait>(
    rt: &R,
    hub: &Hub,
    members: Vec<Member>,
    way: &Way,
) -> Result<Vec<Member>, NoMemory>
    requires ring { IsRing hub.now.roster }
    requires hub { All (λ m. m.pass.hub ≡ hub.now.id) members.items }
    ensures count { IfOk result (λ r. length r.items ≡ length members.items) }
    ensures each { IfOk result (λ r. All (λ m. m.pass.hub ≡ hub.now.id) r.items) }
{
    let mut left = members;
    let mut done = Vec::new(*left.allocator());
    while let Some(member) = left.pop() {
        done.push(turned(rt, hub, member, way))?;
    }
    Ok(done)
}

// All nodes on this thread.
fn on_one<R: Wait>(
    rt: &R,
    hub: &Hub,
    members: Vec<Member>,
    way: &Way,
) -> Result<Vec<Member>, NoMemory>
    requires ring { IsRing hub.now.roster }
    requires hub { All (λ m. m.pass.hub ≡ hub.now.id) members.items }
    ensures count { IfOk result (λ r. length r.items ≡ length members.items) }
    ensures each { IfOk result (λ r. All (λ m. m.pass.hub ≡ hub.now.id) r.items) }
{
    let mut members = members;
    for _ in 0..ROUNDS_MAX {
        if way.has_ended() {
            break;
        }
        members = round(rt, hub, members, way)?;
    }
    round(rt, hub, members, way)
}

// Each node on a thread of its own.
fn on_four<R: Threads + Wait + Sync>(
    rt: &R,
    hub: &Hub,
    members: Vec<Member>,
    way: &Way,
) -> Result<Vec<Member>, NoMemory>
    requires ring { IsRing hub.now.roster }
    requires hub { All (λ m. m.pass.hub ≡ hub.now.id) members.items }
    ensures count { IfOk result (λ r. length r.items ≡ length members.items) }
    ensures each { IfOk result (λ r. All (λ m. m.pass.hub ≡ hub.now.id) r.items) }
{
    Ok(thread::map_vec(
        rt,
        members,
        &|member: Member| -> Member
            requires ring { IsRing hub.now.roster }
            requires hub { member.pass.hub ≡ hub.now.id }
            ensures { result.pass.hub ≡ member.pass.hub }
        { worked(rt, hub, member, way) },
    )?)
}

fn all_work<R: Threads + Wait + Sync>(
    rt: &R,
    hub: &Hub,
    members: Vec<Member>,
    way: &Way,
    apart: bool,
) -> Result<Vec<Member>, NoMemory>
    requires ring { IsRing hub.now.roster }
    requires hub { All (λ m. m.pass.hub ≡ hub.now.id) members.items }
    ensures count { IfOk result (λ r. length r.items ≡ length members.items) }
    ensures each { IfOk result (λ r. All (λ m. m.pass.hub ≡ hub.now.id) r.items) }
{
    if apart {
        on_four(rt, hub, members, way)
    } else {
        on_one(rt, hub, members, way)
    }
}

// The message goes round; the passes come back.
fn went_round<R: Threads + Wait + Sync>(
    rt: &R,
    hub: &Hub,
    passes: Vec<NodePass>,
    apart: bool,
    last: u64,
) -> Result<Vec<NodePass>, NoMemory>
    requires ring { IsRing hub.now.roster }
    requires all { AreAllPasses hub.now passes.items }
    ensures { IfOk result (λ r. AreAllPasses hub.now r.items) }
{
    let alloc = *passes.allocator();
    let way = Way {
        last,
        ended: AtomicU64::new(0),
    };
    let members = members_of(alloc, passes)?;
    let worked = all_work(rt, hub, members, &way, apart)?;
    let passes = passes_of(alloc, worked)?;
    Ok(passes)
}

/// Lets a message go round, up to this number, on one thread or on four, and gives the list of turns.
pub fn go_round<R: Threads + Wait + Sync>(
    rt: &R,
    alloc: Global,
    apart: bool,
    last: u64,
) -> Result<Items<Turn>, NoMemory> {
    let script = script_of(alloc)?;
    let (hub, passes) = Hub::new(&script, &[])?;
    let room = ClosingRoom::new(alloc, passes.len())?;
    let passes = went_round(rt, &hub, passes, apart, last)?;
    Ok(hub.close(passes, room))
}
