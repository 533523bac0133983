ghost use Rattle.std.specs.Prelude.{◌≡◌, ◌<◌, [], IfOk, vec_capacity, vec_len};
ghost use Rattle.hub_cell.specs.Lists.{entries};
ghost use Rattle.hub_turns.specs.Meetings.{AreSent, IsReady, IsUsed};
ghost use Rattle.hub_turns.specs.Views.{AreOf, IsBare};

use crate::meeting::{HubTurn, Meeting};
use base_types::{NoMemory, Node};
use hub_board::{Given, Turn};
use hub_cell::{Pass, TurnCell};
use std::alloc::Global;
use std::marker::Model;
use std::mem;
use std::sync::Wait;

/// A node, with its right to take turns at a hub. Contracts see whose it is, of which hub, the turns that it has seen,
/// with which the hub's list begins, and the turns that were made through it, in order; each of these is the node's.
#[derive(Drop)]
pub struct NodePass {
    pub(crate) node: Node,
    pub(crate) pass: Pass<Turn>,
    // where what a turn gives is handed over
    room: Vec<Given>,
}

impl Model for NodePass {
    ghost use Rattle.std.specs.Prelude.{◌≡◌, []};
    ghost use Rattle.hub_cell.specs.Lists.{entries};
    ghost use Rattle.hub_turns.specs.Views.{NodeView, AreOf};

    ghost Value = { NodeView };

    ghost view = { λ p. record {
      node = p.node;
      hub = p.pass.cell;
      seen = p.pass.seen;
      made = entries p.pass.made;
    } };

    ghost invariant = { λ p. (p.pass.spare ≡ 0) × AreOf p.node (entries p.pass.made) × (p.room.items ≡ []) };
}

impl NodePass {
    // A node and a pass through which nothing was made.
    pub(crate) fn new(alloc: Global, node: Node, pass: Pass<Turn>) -> NodePass
        requires { (pass.spare ≡ 0) × AreOf node (entries pass.made) }
        ensures { result ≡ record { node = node; hub = pass.cell; seen = pass.seen; made = entries pass.made } }
    {
        NodePass {
            node,
            pass,
            room: Vec::new(alloc),
        }
    }

    // Room for what a turn gives. The only error is that memory ran out; then nothing changes.
    pub(crate) fn take_room(&mut self) -> Result<Vec<Given>, NoMemory>
        ensures same { self.new ≡ self.old }
        ensures room { IfOk result (λ room. (room.items ≡ []) × (vec_len room < vec_capacity room)) }
    {
        self.room.reserve_exact(1)?;
        let alloc = *self.room.allocator();
        Ok(mem::replace(&mut self.room, Vec::new(alloc)))
    }

    // The room is kept for the next turn.
    pub(crate) fn put_room(&mut self, room: Vec<Given>)
        ensures { self.new ≡ self.old }
    {
        if room.is_empty() {
            self.room = room;
        }
    }

    // The pass alone.
    pub(crate) fn into_pass(self) -> Pass<Turn>
        ensures { IsBare self result }
    {
        self.pass
    }

    // Takes a turn at the cell.
    pub(crate) fn take_turn<R: Wait>(
        &mut self,
        rt: &R,
        cell: &TurnCell<Meeting>,
        turn: &mut HubTurn,
    )
        requires cell { self.old.hub ≡ cell.now.id }
        requires node { turn.old.node ≡ self.old.node }
        requires ready { IsReady turn.old }
        requires sound { AreSent cell.now.first.roster turn.old.steps.steps }
        ensures { IsUsed cell.now.first.board.hub cell.now.first.roster self.old self.new turn.old turn.new }
    {
        cell.turn(rt, &mut self.pass, turn);
    }

    /// Whose it is.
    pub fn node(&self) -> Node
        ensures { result ≡ self.now.node }
    {
        self.node
    }
}
