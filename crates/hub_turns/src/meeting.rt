ghost use Rattle.std.specs.Prelude.{◌≡◌, [], false, is_some, true};
ghost use Rattle.hub_board.specs.Hubs.{gift_for};

use base_types::{NoMemory, Node};
use hub_board::{Board, Given, Pending, Turn};
use hub_cell::{Counted, Work};
use std::marker::Model;
use tree_calls::Roster;

/// The board, as it lies in a cell, and who takes part. Contracts see both.
#[derive(Drop)]
pub struct Meeting {
    pub board: Board,
    pub roster: Roster,
}

impl Model for Meeting {
    ghost use Rattle.hub_turns.specs.Views.{Met};

    ghost Value = { Met };

    ghost view = { λ m. record { board = m.board; roster = m.roster } };
}

impl Counted for Meeting {
    type Entry = Turn;

    ghost use Rattle.hub_turns.specs.Meetings.{IsSame};

    ghost list = { λ m. m.board.turns };

    // It stays what its turns have made of the first board, and all that is on its way is sound.
    ghost stays = { λ first now. IsSame first now };

    fn count(&self) -> u64 {
        self.board.turns().len() as u64
    }
}

/// A node's turn: the steps that it hands in, and what has come of it.
#[derive(Drop)]
pub struct HubTurn {
    pub node: Node,
    pub steps: Pending,
    /// Room for what is given; nothing lies in it before the turn.
    pub given: Vec<Given>,
    /// Whether memory ran out.
    pub refused: bool,
}

// Whether a turn of a node has nothing to do: it hands nothing in, and there is nothing for the node.
fn is_idle(meeting: &Meeting, node: Node, steps: &Pending) -> bool
    ensures { result ≡ true
        → (steps.now.steps ≡ []) × (is_some (gift_for meeting.now.board.hub node) ≡ false) }
{
    steps.as_slice().is_empty() && !meeting.board.has_gift(node)
}

impl Work<Meeting> for HubTurn {
    ghost use Rattle.hub_turns.specs.Meetings.{AreSent, DoesIn, IsReady};

    ghost may = { λ w m. IsReady w × AreSent m.roster w.steps.steps };

    ghost does = { DoesIn };

    fn work(&mut self, value: &mut Meeting) {
        if is_idle(value, self.node, &self.steps) {
            return;
        }
        match value.board.turn(self.node, &mut self.steps) {
            Ok(Some(given)) => self.given.push_reserved(given),
            Ok(None) => {}
            Err(NoMemory) => self.refused = true,
        }
    }
}
