//! Scripts from the lines of a row: plan and net lines, lines of nodes, and `room SERVER`: the server keeps room at the
//! start for a fileset that moved away.

use crate::fault::Fault;
use crate::letters::{kind_of, node_of};
use base_types::{HostId, Items, Name, Node, ServerId};
use script_lines::{Deed, Line, Net, PlanDeed, PlanLine, Script};
use std::alloc::Global;
use tree_calls::{Call, HostLine, Roster};

/// A script, and the servers that keep room at the start.
#[derive(Drop)]
pub struct Case {
    pub script: Script,
    pub rooms: Items<ServerId>,
}

impl Case {
    /// No line.
    pub fn new(alloc: Global) -> Case {
        Case {
            script: Script {
                servers: 3,
                roster: Roster {
                    users: Items::new(alloc),
                    hosts: Items::new(alloc),
                    capacity: Items::new(alloc),
                },
                setup: Items::new(alloc),
                plan: Items::new(alloc),
                net: None,
                lines: Items::new(alloc),
            },
            rooms: Items::new(alloc),
        }
    }

    /// Three hosts, and these lines, with `;` between them.
    pub fn read(&mut self, alloc: Global, lines: &str) -> Result<(), Fault> {
        for _ in 0..3 {
            self.script
                .roster
                .hosts
                .push(HostLine { user: 0, limit: 64 })?;
        }
        for line in lines.split(';') {
            self.add(alloc, line.trim())?;
        }
        Ok(())
    }

    fn add(&mut self, alloc: Global, line: &str) -> Result<(), Fault> {
        let (word, rest) = line.split_once(' ').unwrap_or((line, ""));
        match word {
            "" => Ok(()),
            "plan" => self.add_plan(alloc, rest),
            "net" => {
                self.script.net = Some(net_of(rest).ok_or(Fault::Row)?);
                Ok(())
            }
            "room" => self.add_room(rest),
            _ => self.add_line(alloc, line),
        }
    }

    fn add_room(&mut self, word: &str) -> Result<(), Fault> {
        let Some(Node::Server(server)) = node_of(word) else {
            return Err(Fault::Row);
        };
        self.rooms.push(server)?;
        Ok(())
    }

    fn add_plan(&mut self, alloc: Global, words: &str) -> Result<(), Fault> {
        let plan = plan_of(words).ok_or(Fault::Row)?;
        let flag = if plan.flag.is_empty() {
            None
        } else {
            Some(Name::new(alloc, plan.flag.as_bytes())?)
        };
        self.script.plan.push(PlanLine {
            deed: plan.deed,
            from: plan.from,
            to: plan.to,
            kind: plan.kind,
            n: plan.n,
            flag,
        })?;
        Ok(())
    }

    // A line `NODE raise FLAG`, `NODE await FLAG`, `NODE call` or `NODE restart`.
    fn add_line(&mut self, alloc: Global, words: &str) -> Result<(), Fault> {
        let mut words = words.split_whitespace();
        let node = node_of(words.next().unwrap_or("")).ok_or(Fault::Row)?;
        let verb = words.next().unwrap_or("");
        let flag = Name::new(alloc, words.next().unwrap_or("l").as_bytes())?;
        let line = Line {
            number: 1,
            node,
            deed: deed_of(verb, flag),
        };
        if is_setup(node) {
            self.script.setup.push(line)?;
        } else {
            self.script.lines.push(line)?;
        }
        Ok(())
    }
}

fn is_setup(node: Node) -> bool {
    node == Node::Host(HostId(0))
}

fn deed_of(verb: &str, flag: Name) -> Deed {
    match verb {
        "raise" => Deed::Raise(flag),
        "await" => Deed::Await(flag),
        "restart" => Deed::Restart,
        _ => Deed::Call(Call::Unlock { label: flag }),
    }
}

// What a plan line says; no flag is the empty one.
#[derive(Clone, Copy)]
struct PlanRow<'a> {
    deed: PlanDeed,
    from: Node,
    to: Node,
    kind: u8,
    n: u32,
    flag: &'a str,
}

// The plan line `DEED FROM TO KIND N`, with a FLAG behind where it isn't dropped.
fn plan_of(words: &str) -> Option<PlanRow<'_>> {
    let mut words = words.split_whitespace();
    Some(PlanRow {
        deed: plan_deed(words.next()?)?,
        from: node_of(words.next()?)?,
        to: node_of(words.next()?)?,
        kind: kind_of(words.next()?)?,
        n: words.next()?.parse::<u32>().ok()?,
        flag: words.next().unwrap_or(""),
    })
}

fn plan_deed(word: &str) -> Option<PlanDeed> {
    match word {
        "drop" => Some(PlanDeed::Drop),
        "hold" => Some(PlanDeed::Hold),
        "again" => Some(PlanDeed::Again),
        _ => None,
    }
}

// The net line `SEED LOSSES REPEATS DELAYS`.
fn net_of(words: &str) -> Option<Net> {
    let mut words = words.split_whitespace();
    Some(Net {
        seed: words.next()?.parse::<u64>().ok()?,
        losses: words.next()?.parse::<u32>().ok()?,
        repeats: words.next()?.parse::<u32>().ok()?,
        delays: words.next()?.parse::<u32>().ok()?,
    })
}
