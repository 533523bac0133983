ghost use Rattle.std.specs.Prelude.{◌≡◌, map};
ghost use Rattle.std.specs.List.{position};
ghost use Rattle.hub_wire.specs.Packets.{any_free, is_free, is_held_by, is_released, is_ripe, is_next, raised_packet};

use base_types::{Items, Name, Node};
use message_types::Message;
use run_rules::{Way, receiver};
use script_lines::same_node;

/// A delayed copy may arrive when so many steps were counted after its own.
pub const DELAY_STEPS: u64 = 8;

/// A copy of a message on its way.
#[derive(Drop)]
pub struct Packet {
    /// The message.
    pub message: Message,
    /// When it may arrive.
    pub way: Way,
    /// The number of the step that sent it, from 1.
    pub step: u64,
}

impl Packet {
    // Whether it may arrive at once.
    fn is_free(&self) -> bool
        ensures { result ≡ is_free self.now.way }
    {
        matches!(&self.way, Way::Free)
    }

    // Whether it may arrive after so many steps, where something free is on its way or nothing is.
    fn is_released(&self, any_free: bool, steps: u64) -> bool
        ensures { result ≡ is_released any_free steps self.now }
    {
        match &self.way {
            Way::Free => true,
            Way::Delayed => steps.saturating_sub(self.step) >= DELAY_STEPS || !any_free,
            Way::Held(_) => false,
        }
    }

    fn is_ripe(&self, any_free: bool, steps: u64, node: Node) -> bool
        ensures { result ≡ is_ripe any_free steps node self.now }
    {
        same_node(receiver(&self.message), node) && self.is_released(any_free, steps)
    }

    /// Takes notice of a flag.
    pub(crate) fn raise(&mut self, flag: &Name)
        ensures { self.new ≡ raised_packet flag.now self.old }
    {
        if is_held_by(&self.way, flag) {
            self.way = Way::Free;
        }
    }
}

fn is_held_by(way: &Way, flag: &Name) -> bool
    ensures { result ≡ is_held_by flag.now way.now }
{
    match way {
        Way::Held(name) => name == flag,
        _ => false,
    }
}

/// The place of the first copy for a node that may arrive, after so many steps.
pub(crate) fn place_of_next(packets: &[Packet], steps: u64, node: Node) -> Option<usize>
    ensures { result ≡ position (is_next packets.now steps node) packets.now }
{
    place_of_ripe(packets, any_free(packets), steps, node)
}

// Whether something free is on its way.
fn any_free(packets: &[Packet]) -> bool
    ensures { result ≡ any_free packets.now }
{
    packets.iter().any(|packet| packet.is_free())
}

fn place_of_ripe(packets: &[Packet], any_free: bool, steps: u64, node: Node) -> Option<usize>
    ensures { result ≡ position (is_ripe any_free steps node) packets.now }
{
    packets
        .iter()
        .position(|packet| packet.is_ripe(any_free, steps, node))
}

/// Takes notice of a flag, for all copies.
#[tactic(auto, using(crate::proofs::Mapped::maps))]
pub(crate) fn raise_packets(packets: &mut Items<Packet>, flag: &Name)
    ensures { packets.new ≡ map (raised_packet flag.now) packets.old }
{
    for place in 0..packets.len() {
        packets.get_mut(place).raise(flag);
    }
}
