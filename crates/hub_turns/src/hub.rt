ghost use Rattle.std.specs.Prelude.{◌≡◌, ◌+◌, ◌≤◌, [], IfOk, OnOk, OnErr, length, map, vec_len};
ghost use Rattle.std.specs.Prelude.{vec_capacity};
ghost use Rattle.base_types.specs.declared.limits.TheConstants.{HOSTS_MAX, SERVERS_MAX};
ghost use Rattle.hub_board.specs.Hubs.{first_hub, nodes_of};
ghost use Rattle.hub_turns.specs.Views.{AreBare};
ghost use Rattle.hub_turns.specs.Meetings.{first_pass, HasPassed, IsRefused, AreAllPasses, HasEnded};
ghost use Rattle.hub_turns.specs.Meetings.{AreSent, IsGivenSound};

use crate::closing::ClosingRoom;
use crate::meeting::{HubTurn, Meeting};
use crate::pass::NodePass;
use base_types::{Items, NoMemory, Node, Plain, ServerId};
use hub_board::{Board, Given, Pending, Turn, nodes_of};
use hub_cell::{Pass, TurnCell};
use script_lines::Script;
use std::alloc::Global;
use std::marker::Model;
use std::mem;
use std::sync::Wait;

/// The hub of a run. Contracts see which one it is, how many nodes take turns at it, what lay in it at the start, and
/// who takes part.
pub struct Hub {
    cell: TurnCell<Meeting>,
}

impl Drop for Hub {
    fn drop(self) {
        let Hub { cell: _ } = self;
    }
}

impl Model for Hub {
    ghost use Rattle.hub_turns.specs.Views.{HubView};

    ghost Value = { HubView };

    ghost view = { λ h. record {
      id = h.cell.id;
      nodes = h.cell.seats;
      first = h.cell.first.board.hub;
      roster = h.cell.first.roster;
    } };
}

impl Hub {
    /// The hub at the start of a script, where these servers keep room for filesets that moved away; and the passes of
    /// the setup host, of the other hosts and of the servers, in this order. The only error is that memory ran out.
    pub fn new(script: &Script, rooms: &[ServerId]) -> Result<(Hub, Vec<NodePass>), NoMemory>
        requires hosts { length script.now.roster.hosts ≤ HOSTS_MAX }
        requires servers { script.now.servers ≤ SERVERS_MAX }
        ensures hub { IfOk result (λ r. r.0.first ≡ first_hub script.now rooms.now) }
        ensures roster { IfOk result (λ r. r.0.roster ≡ script.now.roster) }
        ensures nodes { IfOk result (λ r. r.0.nodes ≡ length (nodes_of script.now)) }
        ensures passes { IfOk result (λ r. r.1.items ≡ map (first_pass r.0.id) (nodes_of script.now)) }
    {
        let alloc = script.lines.alloc();
        let nodes = nodes_of(script)?;
        let board = Board::new(script, rooms)?;
        let roster = script.roster.copy()?;
        let (cell, first) = TurnCell::new(alloc, Meeting { board, roster }, nodes.len() as u32)?;
        let passes = passes_of(alloc, &cell, first, nodes.as_slice())?;
        Ok((Hub { cell }, passes))
    }

    /// Hands the node's steps in, and gives the first that there is for it (`Board::turn`). So what the turn gives is
    /// a function of the script and of the turns in the list. Where all nodes send sound messages, which is a condition
    /// of each turn, a message that is given is sound. After want of memory nothing was handed in or given, and
    /// the steps stay. The pass stays its node's and the hub's. It may wait for the turns of other threads.
    pub fn turn<R: Wait>(
        &self,
        rt: &R,
        pass: &mut NodePass,
        steps: &mut Pending,
    ) -> Result<Option<Given>, NoMemory>
        requires hub { pass.old.hub ≡ self.now.id }
        requires sound { AreSent self.now.roster steps.old.steps }
        ensures sound { IfOk result (λ given. IsGivenSound self.now.roster given) }
        ensures ok { IfOk result (λ given. HasPassed self.now pass.old pass.new steps.old.steps given) }
        ensures left { OnOk result (steps.new.steps ≡ []) }
        ensures err { OnErr result (IsRefused pass.old pass.new) }
        ensures kept { OnErr result (steps.new ≡ steps.old) }
        ensures same { (pass.new.node ≡ pass.old.node) × (pass.new.hub ≡ pass.old.hub) }
    {
        let alloc = steps.alloc();
        let Ok(room) = pass.take_room() else {
            return Err(NoMemory);
        };
        let mut turn = HubTurn {
            node: pass.node(),
            given: room,
            steps: mem::replace(steps, Pending::new(alloc)),
            refused: false,
        };
        pass.take_turn(rt, &self.cell, &mut turn);
        let HubTurn {
            node: _,
            steps: left,
            mut given,
            refused,
        } = turn;
        *steps = left;
        let first = given.pop();
        pass.put_room(given);
        if refused {
            return Err(NoMemory);
        }
        Ok(first)
    }

    /// Gives the list of turns, for all passes that are out: it has what was made through them, each turn once, those
    /// of one node in its order. There is room for the passes, so it takes no memory; and it waits for nobody.
    pub fn close(self, passes: Vec<NodePass>, room: ClosingRoom) -> Items<Turn>
        requires passes { AreAllPasses self passes.items }
        requires room { self.nodes ≤ room }
        ensures { HasEnded self result passes.items }
    {
        let Hub { cell } = self;
        let Ok(meeting) = cell.close(bare_of(passes, room.into_passes())) else {
            unreachable!()
        };
        meeting.board.into_turns()
    }
}

// A pass for each node, the last one with the first pass.
fn passes_of(
    alloc: Global,
    cell: &TurnCell<Meeting>,
    mut first: Pass<Turn>,
    nodes: &[Node],
) -> Result<Vec<NodePass>, NoMemory>
    requires cell { first.cell ≡ cell.now.id }
    requires fresh { (first.seen ≡ []) × (first.made ≡ []) × (first.spare + 1 ≡ length nodes.now) }
    ensures { IfOk result (λ passes. passes.items ≡ map (first_pass cell.now.id) nodes.now) }
{
    let mut passes = Vec::new(alloc);
    let last = nodes.len() - 1;
    for place in 0..last {
        let Some(pass) = cell.split(&mut first) else {
            unreachable!()
        };
        passes.push(NodePass::new(alloc, nodes[place], pass))?;
    }
    passes.push(NodePass::new(alloc, nodes[last], first))?;
    Ok(passes)
}

// The passes alone, in their order. There is room for them.
fn bare_of(passes: Vec<NodePass>, mut bare: Vec<Pass<Turn>>) -> Vec<Pass<Turn>>
    requires empty { bare.items ≡ [] }
    requires room { vec_len passes ≤ vec_capacity bare }
    ensures { AreBare passes.items result.items }
{
    for pass in passes {
        bare.push_reserved(pass.into_pass());
    }
    bare
}
