ghost use Rattle.std.specs.Prelude.{◌≡◌, ◌+◌, ◌<◌, is_some, map, OnOk, OnErr, IfOk, Some};
ghost use Rattle.hub_wire.specs.Networks.{fresh, with_step, with_message, with_word};
ghost use Rattle.hub_wire.specs.Networks.{next_fate, with_copies, with_lines, with_flag, next_copy, without_copy};
ghost use Rattle.hub_wire.specs.Networks.{lapse_place, without_lapse, both, with_packet, with_due};
ghost use Rattle.hub_wire.specs.Plans.{passed};
ghost use Rattle.run_rules.specs.Plans.{all_left, resender};
ghost use Rattle.std.specs.List.{position};
ghost use Rattle.script_lines.specs.Sound.{same_node};

use crate::packet::{Packet, place_of_next, raise_packets};
use crate::plan::{
    Waiting, accept_lines, count_message, forget_lines, planned, raise_lines, waiting_lines,
};
use base_types::{Items, Name, NoMemory, Node, Plain, ServerId};
use message_types::Message;
use run_rules::{Fate, Left, Way, fate_in_net, resender, says_down};
use script_lines::{Net, Script, same_node};
use std::alloc::Global;
use std::marker::Model;

/// How far the network is, after some steps.
#[derive(Clone, Copy)]
struct Count {
    /// So many words of the net were drawn.
    drawn: u64,
    /// So much of the net is left.
    left: Left,
    /// So many steps were counted.
    steps: u64,
}

/// The network of a run: the copies of messages that are on their way, and the lapses that are due. Steps are made
/// ready one by one, and then counted or forgotten together. Contracts see the network after the steps that are
/// counted, and with those that are made ready. The plan and the net are this project's own.
///
/// The first plan line of the script for a message decides what becomes of it; where there is none, the net's word for
/// it does. A copy that is neither delayed nor held is free. A delayed copy may arrive when `DELAY_STEPS` steps were
/// counted after its own, or when nothing free is on its way; a held one is free once its flag is raised. Where a
/// message is lost, a lapse is due to the side that sends again.
#[derive(Drop)]
pub struct Wire {
    net: Option<Net>,
    lines: Items<Waiting>,
    // in the order of sending, those of the steps that are made ready at the end
    packets: Items<Packet>,
    // those of the steps that are made ready at the end
    due: Items<Node>,
    counted: Count,
    ready: Count,
    // so many of the packets and of the lapses are those of the steps that are counted
    packets_counted: usize,
    due_counted: usize,
}

impl Model for Wire {
    ghost use Rattle.std.specs.Prelude.{◌≤◌, length};
    ghost use Rattle.hub_wire.specs.Networks.{Wired};

    ghost Value = { Wired };

    ghost use Rattle.hub_wire.specs.Views.{counted_network, ready_network};

    ghost view = { λ w. record { counted = counted_network w; ready = ready_network w } };

    ghost invariant = { λ w. (w.packets_counted ≤ length w.packets) × (w.due_counted ≤ length w.due) };
}

impl Wire {
    /// The network at the start of a run of a script: nothing is on its way, and one lapse is due to each of these
    /// servers, which keep room for filesets that moved away. The only error is that memory ran out.
    pub fn new(script: &Script, rooms: &[ServerId]) -> Result<Wire, NoMemory>
        ensures { let net = fresh script.now rooms.now in
            IfOk result (λ wire. wire ≡ record { counted = net; ready = net }) }
    {
        let alloc = script.plan.alloc();
        let lines = waiting_lines(alloc, script.plan.as_slice())?;
        let due = first_due(alloc, rooms)?;
        let count = Count {
            drawn: 0,
            left: all_left(&script.net),
            steps: 0,
        };
        let due_counted = due.len();
        Ok(Wire {
            net: script.net,
            lines,
            packets: Items::new(alloc),
            due,
            counted: count,
            ready: count,
            packets_counted: 0,
            due_counted,
        })
    }

    /// Makes one more step ready, which sent these messages. The only error is that memory ran out; then all steps
    /// that were made ready are forgotten.
    pub fn ready(&mut self, sent: &[Message]) -> Result<(), NoMemory>
        ensures ok { OnOk result (self.new ≡ record self.old { ready = with_step self.old.ready sent.now }) }
        ensures err { OnErr result (self.new ≡ record self.old { ready = self.old.counted }) }
    {
        if let Err(NoMemory) = self.add_step(sent) {
            self.forget();
            return Err(NoMemory);
        }
        Ok(())
    }

    /// Counts the steps that were made ready. It takes no memory.
    pub fn accept(&mut self)
        ensures { self.new ≡ record self.old { counted = self.old.ready } }
    {
        accept_lines(&mut self.lines);
        self.packets_counted = self.packets.len();
        self.due_counted = self.due.len();
        self.counted = self.ready;
    }

    /// Lets go of the steps that were made ready. It takes no memory.
    pub fn forget(&mut self)
        ensures { self.new ≡ record self.old { ready = self.old.counted } }
    {
        forget_lines(&mut self.lines);
        self.packets.truncate(self.packets_counted);
        self.due.truncate(self.due_counted);
        self.ready = self.counted;
    }

    /// Takes notice that a flag of the script was raised: copies that waited for it are free, and no later copy waits
    /// for it. It takes no memory.
    pub fn raised(&mut self, flag: &Name)
        ensures { self.new ≡ both (with_flag flag.now) self.old }
    {
        raise_lines(&mut self.lines, flag);
        raise_packets(&mut self.packets, flag);
    }

    /// Whether there is a copy for a node that may arrive.
    pub fn has_copy(&self, node: Node) -> bool
        requires { self.now.ready ≡ self.now.counted }
        ensures { result ≡ is_some (next_copy self.now.counted node) }
    {
        place_of_next(self.packets.as_slice(), self.counted.steps, node).is_some()
    }

    /// Gives the message of the earliest copy for a node that may arrive, and that copy is on its way no longer. It
    /// answers None exactly where there is none, and then nothing changes. No step may be made ready and not counted.
    /// It takes no memory.
    pub fn take_copy(&mut self, node: Node) -> Option<Message>
        requires { self.old.ready ≡ self.old.counted }
        ensures copy { result ≡ next_copy self.old.counted node }
        ensures rest { self.new ≡ both (without_copy node) self.old }
    {
        let place = place_of_next(self.packets.as_slice(), self.counted.steps, node)?;
        let packet = self.packets.remove(place);
        self.packets_counted = self.packets.len();
        Some(packet.message)
    }

    /// Whether a lapse is due to a node.
    pub fn has_lapse(&self, node: Node) -> bool
        requires { self.now.ready ≡ self.now.counted }
        ensures { result ≡ is_some (lapse_place self.now.counted node) }
    {
        place_of_due(self.due.as_slice(), node).is_some()
    }

    /// Takes one lapse that is due to a node, which is due no longer. It answers false exactly where none is due to it,
    /// and then nothing changes. No step may be made ready and not counted. It takes no memory.
    pub fn take_lapse(&mut self, node: Node) -> bool
        requires { self.old.ready ≡ self.old.counted }
        ensures lapse { result ≡ is_some (lapse_place self.old.counted node) }
        ensures rest { self.new ≡ both (without_lapse node) self.old }
    {
        let Some(place) = place_of_due(self.due.as_slice(), node) else {
            return false;
        };
        let _due = self.due.remove(place);
        self.due_counted = self.due.len();
        true
    }

    // Makes a step ready. On an error what is counted stays.
    fn add_step(&mut self, sent: &[Message]) -> Result<(), NoMemory>
        ensures ok { OnOk result (self.new ≡ record self.old { ready = with_step self.old.ready sent.now }) }
        ensures err { OnErr result (self.new.counted ≡ self.old.counted) }
    {
        self.count_step()?;
        for message in sent {
            self.add_message(message)?;
        }
        Ok(())
    }

    // Counts a step among those that are made ready. Their number is never so great; else it would be an error.
    fn count_step(&mut self) -> Result<(), NoMemory>
        ensures ok { OnOk result
            (self.new ≡ record self.old { ready = record self.old.ready { steps = self.old.ready.steps + 1 } }) }
        ensures err { OnErr result (self.new.counted ≡ self.old.counted) }
    {
        self.ready.steps = self.ready.steps.checked_add(1).ok_or(NoMemory)?;
        Ok(())
    }

    fn add_message(&mut self, message: &Message) -> Result<(), NoMemory>
        ensures ok { OnOk result (self.new ≡ record self.old { ready = with_message self.old.ready message.now }) }
        ensures err { OnErr result (self.new.counted ≡ self.old.counted) }
    {
        let fate = self.draw(message)?;
        self.count_at_lines(message);
        self.send_all(message, fate)
    }

    // What becomes of a message; the net's word for it is drawn.
    fn draw(&mut self, message: &Message) -> Result<Fate, NoMemory>
        ensures fate { IfOk result (λ fate. fate ≡ next_fate self.old.ready message.now) }
        ensures ok { OnOk result (self.new ≡ record self.old { ready = with_word self.old.ready message.now }) }
        ensures err { OnErr result (self.new.counted ≡ self.old.counted) }
    {
        if says_down(message) {
            return Ok(Fate::Once(Way::Free));
        }
        let drawn = self.ready.drawn.checked_add(1).ok_or(NoMemory)?;
        let planned = planned(&self.lines, message)?;
        let by_net = fate_in_net(&self.net, self.ready.drawn, &self.ready.left);
        self.ready.drawn = drawn;
        match planned {
            Some(fate) => Ok(fate),
            None => {
                self.ready.left.spend(&by_net);
                Ok(by_net)
            }
        }
    }

    fn count_at_lines(&mut self, message: &Message)
        ensures { self.new ≡ record self.old { ready = with_lines (passed message.now) self.old.ready } }
    {
        count_message(&mut self.lines, message);
    }

    fn send_all(&mut self, message: &Message, fate: Fate) -> Result<(), NoMemory>
        ensures ok { OnOk result
            (self.new ≡ record self.old { ready = with_copies self.old.ready message.now fate }) }
        ensures err { OnErr result (self.new.counted ≡ self.old.counted) }
    {
        match fate {
            Fate::Lost => self.add_due(resender(message)),
            Fate::Once(way) => self.send(message, way),
            Fate::Twice(first, second) => {
                self.send(message, first)?;
                self.send(message, second)
            }
        }
    }

    fn send(&mut self, message: &Message, way: Way) -> Result<(), NoMemory>
        ensures ok { OnOk result (self.new ≡ record self.old { ready = with_packet self.old.ready message.now way }) }
        ensures err { OnErr result (self.new.counted ≡ self.old.counted) }
    {
        self.packets.push(Packet {
            message: message.copy()?,
            way,
            step: self.ready.steps,
        })?;
        Ok(())
    }

    fn add_due(&mut self, node: Node) -> Result<(), NoMemory>
        ensures ok { OnOk result (self.new ≡ record self.old { ready = with_due self.old.ready node }) }
        ensures err { OnErr result (self.new.counted ≡ self.old.counted) }
    {
        self.due.push(node)?;
        Ok(())
    }
}

fn all_left(net: &Option<Net>) -> Left
    ensures { result ≡ all_left net.now }
{
    match net {
        Some(net) => Left {
            losses: net.losses,
            repeats: net.repeats,
            delays: net.delays,
        },
        None => Left {
            losses: 0,
            repeats: 0,
            delays: 0,
        },
    }
}

// To whom lapses are due from the start on. The only error is that memory ran out.
fn first_due(alloc: Global, rooms: &[ServerId]) -> Result<Items<Node>, NoMemory>
    ensures { IfOk result (λ due. due ≡ map Node.Server rooms.now) }
{
    let mut due = Items::new(alloc);
    for server in rooms {
        due.push(Node::Server(*server))?;
    }
    Ok(due)
}

fn place_of_due(due: &[Node], node: Node) -> Option<usize>
    ensures { result ≡ position (λ other. same_node other node) due.now }
{
    due.iter().position(|other| same_node(*other, node))
}
