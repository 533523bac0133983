ghost use Rattle.std.specs.Prelude.{◌≡◌, IfOk};
ghost use Rattle.hub_board.specs.Turning.{steps_of};

use base_types::{Items, Name, NoMemory, Node};
use message_types::Message;
use run_rules::Step;
use std::alloc::Global;

/// What a node is given in a turn.
#[derive(Drop)]
pub enum Given {
    /// A message came.
    Message(Message),
    /// The setup host has ended: the lines of the other hosts may go.
    Begun,
    /// The flag was raised for which the node's next line waits.
    Raised(Name),
    /// It is time to send again what was sent in vain.
    Lapse,
}

/// Which of these it is.
#[derive(Clone, Copy, PartialEq, Eq)]
pub enum Gift {
    /// The earliest copy for the node that may arrive.
    Message,
    /// That the setup host has ended.
    Begun,
    /// The flag for which the next line waits.
    Raised,
    /// A lapse.
    Lapse,
}

/// A turn at the hub that handed steps in, or was given something. What it was given follows from the turns before.
#[derive(Drop)]
pub struct Turn {
    /// Whose turn it was.
    pub node: Node,
    /// The steps that it handed in, in order.
    pub steps: Items<Step>,
    /// What it was given.
    pub gift: Option<Gift>,
}

/// What a node's turn has come to.
#[derive(Clone, Copy, PartialEq, Eq)]
pub enum Turned {
    /// It did something.
    Worked,
    /// There was nothing to do.
    Idle,
    /// The node has ended, and there was nothing for it.
    Ended,
}

// How many steps turns have, for room.
fn count_of(turns: &[Turn]) -> usize {
    let mut count = 0usize;
    for turn in turns {
        count = count.saturating_add(turn.steps.len());
    }
    count
}

/// The steps of turns, in order: those of a journal. The only error is that memory ran out.
pub fn steps_of(alloc: Global, turns: Items<Turn>) -> Result<Items<Step>, NoMemory>
    ensures { IfOk result (λ steps. steps ≡ steps_of turns) }
{
    let mut steps = Vec::with_capacity(alloc, count_of(turns.as_slice()))?;
    for turn in turns.into_vec() {
        let mut own = turn.steps.into_vec();
        steps.append(&mut own)?;
    }
    Ok(Items::from_vec(steps))
}
