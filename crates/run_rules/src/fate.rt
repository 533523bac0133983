ghost use Rattle.std.specs.Prelude.{◌≡◌, IfOk};
ghost use Rattle.run_rules.specs.Plans.{counts, fate_by, fate_in_net, planned_fate, spent, until, word_after};

use crate::route::{kind_of, receiver, sender};
use base_types::{Name, NoMemory, Plain};
use message_types::Message;
use rand_pcg::Pcg32;
use rand_pcg::rand_core::utils::NextWord;
use script_lines::{Net, PlanDeed, PlanLine, same_node};

/// When a copy of a message may arrive.
#[derive(Drop)]
pub enum Way {
    /// At once.
    Free,
    /// Late.
    Delayed,
    /// When this flag of the script is raised.
    Held(Name),
}

/// What becomes of a message.
#[derive(Drop)]
pub enum Fate {
    /// It is lost.
    Lost,
    /// It goes once.
    Once(Way),
    /// It goes twice, in this order.
    Twice(Way, Way),
}

/// How many messages the net line of a script lets be lost, repeated and delayed yet.
#[derive(Clone, Copy, PartialEq, Eq)]
pub struct Left {
    /// So many may be lost.
    pub losses: u32,
    /// So many may be repeated.
    pub repeats: u32,
    /// So many may be delayed.
    pub delays: u32,
}

impl Left {
    /// What a word of the net makes of a message: of its remainders by 16, 0 loses the message, 1 repeats it late, 2
    /// and 3 delay it, each while some are left; else it goes at once.
    pub fn fate(&self, word: u32) -> Fate
        ensures { result ≡ fate_by word self.now }
    {
        let lot = word % 16;
        if lot == 0 && self.losses > 0 {
            return Fate::Lost;
        }
        if lot == 1 && self.repeats > 0 {
            return Fate::Twice(Way::Free, Way::Delayed);
        }
        if 1 < lot && lot < 4 && self.delays > 0 {
            return Fate::Once(Way::Delayed);
        }
        Fate::Once(Way::Free)
    }

    /// Takes off what the net made of a message.
    pub fn spend(&mut self, fate: &Fate)
        ensures { self.new ≡ spent fate.now self.old }
    {
        match fate {
            Fate::Lost => self.losses = self.losses.saturating_sub(1),
            Fate::Twice(_, _) => self.repeats = self.repeats.saturating_sub(1),
            Fate::Once(Way::Delayed) => self.delays = self.delays.saturating_sub(1),
            Fate::Once(_) => {}
        }
    }
}

/// What the net makes of a message after it has drawn so many words, where there is a net; else the message goes once.
pub fn fate_in_net(net: &Option<Net>, drawn: u64, left: &Left) -> Fate
    ensures { result ≡ fate_in_net net.now drawn left.now }
{
    match net {
        Some(net) => left.fate(word_after(net.seed, drawn)),
        None => Fate::Once(Way::Free),
    }
}

// The word that the generator of a seed (O'Neill, "PCG: a family of simple fast space-efficient statistically good
// algorithms for random number generation") gives after so many others.
#[tactic(auto, unfolding(crate::specs::Plans::word_after))]
fn word_after(seed: u64, drawn: u64) -> u32
    ensures { result ≡ word_after seed drawn }
{
    let mut words = Pcg32::new(seed, 1);
    words.advance(drawn);
    words.next_word()
}

/// Whether a plan line counts a message: it is of its kind, and goes from its sender to its receiver.
pub fn counts(line: &PlanLine, message: &Message) -> bool
    ensures { result ≡ counts line.now message.now }
{
    kind_of(&message.body) == line.kind
        && same_node(sender(message), line.from)
        && same_node(receiver(message), line.to)
}

/// What a plan line makes of its message. The only error is that memory ran out.
pub fn planned_fate(line: &PlanLine) -> Result<Fate, NoMemory>
    ensures { IfOk result (λ fate. fate ≡ planned_fate line.now.deed line.now.flag) }
{
    match line.deed {
        PlanDeed::Drop => Ok(Fate::Lost),
        PlanDeed::Hold => Ok(Fate::Once(until(&line.flag)?)),
        PlanDeed::Again => Ok(Fate::Twice(Way::Free, until(&line.flag)?)),
    }
}

fn until(flag: &Option<Name>) -> Result<Way, NoMemory>
    ensures { IfOk result (λ way. way ≡ until flag.now) }
{
    match flag {
        Some(flag) => Ok(Way::Held(flag.copy()?)),
        None => Ok(Way::Free),
    }
}
