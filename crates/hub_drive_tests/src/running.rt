//! Runs over stubs.
ghost use Rattle.std.specs.Prelude.{◌≡◌, ◌≤◌, [], IfOk, length, true};
ghost use Rattle.run_rules.specs.Runs.{IsValid};
ghost use Rattle.tree_calls.specs.Limits.{keeps_limits};
ghost use Rattle.hub_drive_tests.specs.Stubs.{RestServers, may_rest};

use crate::stub::{Part, Stub};
use anyhow::Result;
use base_types::{CAPACITY_DEFAULT, Items, Name, NoMemory, User};
use hub_drive::{DriveFault, Driven, OpenGate, Waiting, drive};
use script_lines::Script;
use std::alloc::Global;
use std::sync::atomic::AtomicU64;
use std::sync::{Arc, Wait};
use std::thread::Threads;
use tree_answers::{Tree, well_formed_law};
use tree_calls::{HostLine, Roster};

// How many nodes there are: the setup host, four other hosts and two servers.
const NODES: usize = 7;

// How many of them are hosts.
const HOSTS: usize = 5;

// The number of the next line of a node that rests.
const LINE: u32 = 9;

// How many turns each takes before it is done.
const TURNS: u32 = 4;

/// What is tried.
#[derive(Clone, Copy, Debug, PartialEq, Eq)]
pub enum Trial {
    /// A node looks so often at most, in its first turn, whether another has begun its second.
    Meets {
        node: usize,
        other: usize,
        often: u64,
    },
    /// The store of a node fails at this turn, from 1 on.
    Fails {
        node: usize,
        turn: u32,
    },
    /// From this turn on, from 1, a server does nothing, and isn't done.
    Rests {
        node: usize,
        turn: u32,
    },
}

fn roster_of(alloc: Global) -> Result<Roster>
    ensures limits { IfOk result (λ roster. keeps_limits roster ≡ true) }
    ensures hosts { IfOk result (λ roster. length roster.hosts ≡ 4) }
    ensures servers { IfOk result (λ roster. length roster.capacity ≡ 2) }
{
    let group = Name::new(alloc, b"g")?;
    let name = Name::new(alloc, b"u")?;
    let mut groups = Items::new(alloc);
    groups.push(group)?;
    let mut users = Items::new(alloc);
    users.push(User { name, groups })?;
    Ok(Roster {
        users,
        hosts: Items::from_slice(alloc, &[HostLine { user: 0, limit: 64 }; 4])?,
        capacity: Items::from_slice(alloc, &[CAPACITY_DEFAULT; 2])?,
    })
}

fn script_of(alloc: Global) -> Result<Script>
    ensures limits { IfOk result (λ script. keeps_limits script.roster ≡ true) }
    ensures hosts { IfOk result (λ script. length script.roster.hosts ≡ 4) }
    ensures capacity { IfOk result (λ script. length script.roster.capacity ≡ 2) }
    ensures servers { IfOk result (λ script. script.servers ≡ 2) }
    ensures none { IfOk result (λ script. (script.setup ≡ []) × (script.lines ≡ [])) }
{
    Ok(Script {
        servers: 2,
        roster: roster_of(alloc)?,
        setup: Items::new(alloc),
        plan: Items::new(alloc),
        net: None,
        lines: Items::new(alloc),
    })
}

fn start_of(alloc: Global, roster: &Roster) -> Result<Tree, NoMemory>
    requires { keeps_limits roster.now ≡ true }
    ensures valid { IfOk result (λ tree. IsValid tree) }
    ensures roster { IfOk result (λ tree. tree.roster ≡ roster.now) }
{
    well_formed_law();
    Tree::new(alloc, roster)
}

// What the node at a place does beside its turns.
fn part_of(trial: Trial, place: usize) -> Part
    ensures { may_rest result ≡ true → 5 ≤ place }
{
    match trial {
        Trial::Meets { node, other, often } => {
            if place == node {
                Part::Waits(often)
            } else if place == other {
                Part::Tells
            } else {
                Part::None
            }
        }
        Trial::Fails { node, turn } => {
            if place == node {
                Part::Fails(turn)
            } else {
                Part::None
            }
        }
        Trial::Rests { node, turn } => {
            if place == node && HOSTS <= place {
                Part::Rests(turn)
            } else {
                Part::None
            }
        }
    }
}

// The next line of a node with this part.
fn line_of(part: Part) -> Option<u32> {
    match part {
        Part::Rests(_) => Some(LINE),
        _ => None,
    }
}

#[tactic(auto, using(crate::proofs::Stubs::rest_none, crate::proofs::Stubs::rest_push))]
fn stubs_of(alloc: Global, trial: Trial, word: &Arc<AtomicU64, Global>) -> Result<Vec<Stub>>
    ensures many { IfOk result (λ stubs. length stubs.items ≡ 7) }
    ensures rest { IfOk result (λ stubs. RestServers stubs.items) }
{
    let mut stubs = Vec::new(alloc);
    for place in 0..NODES {
        let part = part_of(trial, place);
        stubs.push(Stub {
            place,
            part,
            left: TURNS,
            taken: 0,
            line: line_of(part),
            word: Arc::try_clone(word)?,
            met: false,
        })?;
    }
    Ok(stubs)
}

// Whether nodes are in their order.
fn are_in_order(stubs: &[Stub]) -> bool {
    for (k, stub) in stubs.iter().enumerate() {
        if stub.place != k {
            return false;
        }
    }
    true
}

// What came of a run.
fn tell(alloc: Global, driven: &Driven<Stub>) -> Result<String> {
    if !are_in_order(driven.nodes.as_slice()) {
        return Ok(format!(in alloc; "out of order")?);
    }
    Ok(match &driven.result {
        Ok(_) if driven.nodes.iter().any(|stub| stub.met) => format!(in alloc; "met")?,
        Ok(_) => format!(in alloc; "missed")?,
        Err(DriveFault::Store(k)) => format!(in alloc; "{k}")?,
        Err(DriveFault::Stuck(waiting)) => stuck(alloc, *waiting)?,
        Err(DriveFault::Memory) => format!(in alloc; "stopped")?,
    })
}

// Who waits, and at which line.
fn stuck(alloc: Global, waiting: Waiting) -> Result<String> {
    let node = waiting.node;
    Ok(match waiting.line {
        Some(line) => format!(in alloc; "{node} at line {line}")?,
        None => format!(in alloc; "{node} at its end")?,
    })
}

// Drives these stubs, with servers in these epochs.
fn drive_stubs<R: Threads + Wait + Sync>(
    rt: &R,
    alloc: Global,
    workers: u32,
    epochs: Items<u64>,
    stubs: Vec<Stub>,
) -> Result<String>
    requires epochs { length epochs ≡ 2 }
    requires stubs { length stubs.items ≡ 7 }
    requires rest { RestServers stubs.items }
{
    let script = script_of(alloc)?;
    let start = start_of(alloc, &script.roster)?;
    let driven = drive(rt, alloc, &script, start, epochs, stubs, workers, &OpenGate);
    tell(alloc, &driven)
}

/// Drives stubs on so many workers, and says what came of it.
pub fn run<R: Threads + Wait + Sync>(
    rt: &R,
    alloc: Global,
    workers: u32,
    trial: Trial,
) -> Result<String> {
    let word = Arc::new(alloc, AtomicU64::new(0))?;
    let stubs = stubs_of(alloc, trial, &word)?;
    let epochs = Items::from_slice(alloc, &[1, 1])?;
    drive_stubs(rt, alloc, workers, epochs, stubs)
}
