//! The driver.
ghost use Rattle.std.specs.Prelude.{◌≡◌, ◌≤◌, ◌⊎◌, [], None, Err, IfOk, IfErr, IfSome, OnErr, OnOk, List, false, map};
ghost use Rattle.std.specs.Prelude.{length, vec_capacity};
ghost use Rattle.hub_board.specs.Hubs.{nodes_of};
ghost use Rattle.hub_board.specs.declared.given.Turn.{Turn as TurnOf};
ghost use Rattle.hub_turns.specs.Meetings.{HasEnded};
ghost use Rattle.hub_drive.specs.Driving.{AreLeft, AreNodes, CanStart, HasDriven, HasStopped, IsFault, IsFree, IsHubOf};
ghost use Rattle.hub_drive.specs.Driving.{IsJournalOf, ShowsFault, StandAfter, beginning};
ghost use Rattle.hub_drive.specs.declared.driver.DriveFault.TheVariants.{Memory as OutOfMemory, Stuck as StuckAt};
ghost use Rattle.hub_drive.specs.declared.driver.Waiting.{Waiting as WaitingAt};
ghost use Rattle.hub_drive.specs.Seats.{EachAt, HasStood, IsAtRest, IsSeated, IsThrough, PairsAt};
ghost use Rattle.hub_node.specs.Nodes.{HasBecome};
ghost use Rattle.run_rules.specs.declared.journal.Journal.{Journal as JournalOf};

use crate::gate::Gate;
use crate::rounds::{Went, turn_until};
use crate::seat::Seat;
use base_types::{Items, NoMemory};
use hub_node::{Node, NodeFault};
use hub_turns::{ClosingRoom, Hub, NodePass, Pending, Turn, steps_of};
use run_rules::{Journal, Step};
use script_lines::Script;
use std::alloc::Global;
use std::sync::Wait;
use std::thread::Threads;
use tree_answers::Tree;

/// Why a run came to no end.
#[derive(Clone, Copy, PartialEq, Eq)]
pub enum DriveFault {
    /// The store of the node at this place failed twice.
    Store(usize),
    /// Memory ran out.
    Memory,
    /// All nodes came to rest, and not all were done, as where a node waits for a flag that nobody raises, or for a
    /// copy that waits for one: in its newest round each handed in nothing and was given nothing, and none made
    /// anything. A node that isn't done by its own steps is named, with its next line. Of hosts and servers the law
    /// `runs_end` says that a run which rests so is ended, but where it waits for such a flag or a move of a fileset.
    Stuck(Waiting),
}

/// A node, and its next line. What it waits for no clause says.
#[derive(Clone, Copy, PartialEq, Eq)]
pub struct Waiting {
    /// Its place among the nodes.
    pub node: usize,
    /// The number of its next line, where one is left.
    pub line: Option<u32>,
}

/// The nodes, in their order, and the journal of their run.
#[derive(Drop)]
pub struct Driven<N> {
    pub nodes: Vec<N>,
    pub result: Result<Journal, DriveFault>,
    /// Where the run came to no end, its journal so far, as far as there was memory for it.
    pub so_far: Option<Journal>,
    /// Beside it, for each node, the steps that it has made and not handed in.
    pub left: Vec<Items<Step>>,
}

// Nodes sit down, each with its pass. There is room for them.
fn seat_all<N: Node>(
    alloc: Global,
    nodes: Vec<N>,
    mut passes: Vec<NodePass>,
    mut seats: Vec<Seat<N>>,
) -> Vec<Seat<N>>
    requires none { seats.items ≡ [] }
    requires room { length nodes.items ≤ vec_capacity seats }
    requires many { length passes.items ≡ length nodes.items }
    ensures nodes { map (λ s. s.node) result.items ≡ nodes.items }
    ensures passes { map (λ s. s.pass) result.items ≡ passes.items }
    ensures fresh { EachAt (λ s. (s.steps.steps ≡ []) × (s.fault ≡ None)) result.items }
{
    for node in nodes {
        let pass = passes.remove(0);
        seats.push_reserved(Seat {
            node,
            pass,
            steps: Pending::new(alloc),
            fault: None,
            ended: false,
        });
    }
    seats
}

// Nodes stand up, hand their passes back, and what is left with them. There is room for all.
fn unseat<N: Node>(
    seats: Vec<Seat<N>>,
    nodes: &mut Vec<N>,
    passes: &mut Vec<NodePass>,
    left: &mut Vec<Items<Step>>,
)
    requires none { (nodes.old.items ≡ []) × (passes.old.items ≡ []) × (left.old.items ≡ []) }
    requires nodes_room { length seats.items ≤ vec_capacity nodes.old }
    requires passes_room { length seats.items ≤ vec_capacity passes.old }
    requires left_room { length seats.items ≤ vec_capacity left.old }
    ensures nodes { nodes.new.items ≡ map (λ s. s.node) seats.items }
    ensures passes { passes.new.items ≡ map (λ s. s.pass) seats.items }
    ensures left { left.new.items ≡ map (λ s. s.steps.steps) seats.items }
{
    for seat in seats {
        let Seat {
            node,
            pass,
            steps,
            fault: _,
            ended: _,
        } = seat;
        nodes.push_reserved(node);
        passes.push_reserved(pass);
        left.push_reserved(steps.into_items());
    }
}

// The first node that wasn't done at its last turn.
fn stuck_at<N: Node>(seats: &[Seat<N>]) -> Option<Waiting>
    ensures { IfSome result (λ w. ShowsFault N.next seats.now (StuckAt w)) }
{
    for (k, seat) in seats.iter().enumerate() {
        if !seat.ended {
            return Some(Waiting {
                node: k,
                line: seat.node.waiting(),
            });
        }
    }
    None
}

// Why the nodes aren't all done, by what came of a turn of each at last: where none worked and none failed, one wasn't
// done.
fn fault_of<N: Node>(went: Went, seats: &[Seat<N>]) -> DriveFault
    ensures shows { ShowsFault N.next seats.now result }
    ensures stuck { (w : WaitingAt) → result ≡ StuckAt w → (went.worked ≡ false) × (went.stopped ≡ false) }
{
    if !went.worked && !went.stopped {
        if let Some(waiting) = stuck_at(seats) {
            return DriveFault::Stuck(waiting);
        }
    }
    for (k, seat) in seats.iter().enumerate() {
        if let Some(NodeFault::Store) = seat.fault {
            return DriveFault::Store(k);
        }
    }
    DriveFault::Memory
}

// The journal of a hub that is closed: the hub has its turns even where memory lacks to list their steps.
fn journal_of(
    alloc: Global,
    hub: Hub,
    passes: Vec<NodePass>,
    closing: ClosingRoom,
    start: Tree,
    epochs: Items<u64>,
) -> Result<Journal, NoMemory>
    requires passes { (length passes.items ≡ hub.nodes) × EachAt (λ p. p.hub ≡ hub.id) passes.items }
    requires closing { hub.nodes ≤ closing }
    ensures ok { IfOk result (λ journal. (turns : List TurnOf) × HasEnded hub turns passes.items
        × IsJournalOf start epochs turns journal) }
    ensures ended { (turns : List TurnOf) × HasEnded hub turns passes.items }
{
    let turns = hub.close(passes, closing);
    let mut starts = Items::new(alloc);
    let started = starts.push(start);
    let steps = steps_of(alloc, turns)?;
    started?;
    Ok(Journal {
        start: starts,
        epochs,
        steps,
    })
}

// The same, where the driver says why not.
fn close(
    alloc: Global,
    hub: Hub,
    passes: Vec<NodePass>,
    closing: ClosingRoom,
    start: Tree,
    epochs: Items<u64>,
) -> Result<Journal, DriveFault>
    requires passes { (length passes.items ≡ hub.nodes) × EachAt (λ p. p.hub ≡ hub.id) passes.items }
    requires closing { hub.nodes ≤ closing }
    ensures ok { IfOk result (λ journal. (turns : List TurnOf) × HasEnded hub turns passes.items
        × IsJournalOf start epochs turns journal) }
    ensures ended { (turns : List TurnOf) × HasEnded hub turns passes.items }
    ensures err { IfErr result (λ fault. IsFree fault) }
{
    match journal_of(alloc, hub, passes, closing, start, epochs) {
        Ok(journal) => Ok(journal),
        Err(NoMemory) => Err(DriveFault::Memory),
    }
}

// The nodes stand up again where the run came to no end, and the hub is closed: it has the journal so far. Where memory
// lacks to list its steps, memory has run out.
fn stop<N: Node>(
    alloc: Global,
    script: &Script,
    start: Tree,
    epochs: Items<u64>,
    hub: Hub,
    closing: ClosingRoom,
    seats: Vec<Seat<N>>,
    mut nodes: Vec<N>,
    mut passes: Vec<NodePass>,
    mut left: Vec<Items<Step>>,
    fault: DriveFault,
) -> Driven<N>
    requires can { CanStart script.now start epochs }
    requires hub { IsHubOf script.now hub }
    requires closing { hub.nodes ≤ closing }
    requires are { map (λ s. s.pass.node) seats.items ≡ nodes_of script.now }
    requires stood { EachAt (λ s. HasStood N.stands N.stays N.failed N.broken (beginning script.now start epochs) hub
        s.pass
        s.node s.steps.steps) seats.items }
    requires rest { (w : WaitingAt) → fault ≡ StuckAt w
        → EachAt (IsAtRest N.stands (beginning script.now start epochs) hub N.tells) seats.items }
    requires none { (nodes.items ≡ []) × (passes.items ≡ []) × (left.items ≡ []) }
    requires nodes_room { length seats.items ≤ vec_capacity nodes }
    requires passes_room { length seats.items ≤ vec_capacity passes }
    requires left_room { length seats.items ≤ vec_capacity left }
    ensures nodes { result.nodes.items ≡ map (λ s. s.node) seats.items }
    ensures stopped { OnOk result.result ⊥ }
    ensures fault { IfErr result.result (λ f. (f ≡ fault) ⊎ IsFree f) }
    ensures so_far { IfSome result.so_far (λ journal.
        HasStopped N.tells N.stands N.stays N.failed N.broken script.now start epochs result.nodes.items journal) }
    ensures held { OnErr result.result ((journal : JournalOf)
        × HasStopped N.tells N.stands N.stays N.failed N.broken script.now start epochs result.nodes.items journal) }
    ensures left { IfSome result.so_far (λ journal.
        AreLeft N.stands N.failed (beginning script.now start epochs) result.nodes.items result.left.items journal) }
    ensures lacks { IfErr result.result (λ f. result.so_far ≡ None → f ≡ OutOfMemory) }
    ensures stuck { (w : WaitingAt) → result.result ≡ Err (StuckAt w) → IfSome result.so_far (λ journal.
        StandAfter N.stands (beginning script.now start epochs) journal result.nodes.items) }
{
    let _script = script;
    unseat(seats, &mut nodes, &mut passes, &mut left);
    match journal_of(alloc, hub, passes, closing, start, epochs) {
        Ok(journal) => Driven {
            nodes,
            result: Err(fault),
            so_far: Some(journal),
            left,
        },
        Err(NoMemory) => Driven {
            nodes,
            result: Err(DriveFault::Memory),
            so_far: None,
            left,
        },
    }
}

// The nodes stand up, and the hub is closed.
fn finish<N: Node>(
    alloc: Global,
    script: &Script,
    start: Tree,
    epochs: Items<u64>,
    hub: Hub,
    closing: ClosingRoom,
    seats: Vec<Seat<N>>,
    mut nodes: Vec<N>,
    mut passes: Vec<NodePass>,
    mut left: Vec<Items<Step>>,
) -> Driven<N>
    requires can { CanStart script.now start epochs }
    requires hub { IsHubOf script.now hub }
    requires closing { hub.nodes ≤ closing }
    requires are { map (λ s. s.pass.node) seats.items ≡ nodes_of script.now }
    requires through { EachAt (IsThrough N.stands (beginning script.now start epochs) hub N.tells) seats.items }
    requires stood { EachAt (λ s. HasStood N.stands N.stays N.failed N.broken (beginning script.now start epochs) hub
        s.pass
        s.node s.steps.steps) seats.items }
    requires none { (nodes.items ≡ []) × (passes.items ≡ []) × (left.items ≡ []) }
    requires nodes_room { length seats.items ≤ vec_capacity nodes }
    requires passes_room { length seats.items ≤ vec_capacity passes }
    requires left_room { length seats.items ≤ vec_capacity left }
    ensures nodes { result.nodes.items ≡ map (λ s. s.node) seats.items }
    ensures driven { IfOk result.result
        (λ journal. HasDriven N.tells N.stands script.now start epochs result.nodes.items journal) }
    ensures failed { IfErr result.result (λ fault. IsFree fault) }
    ensures held { OnErr result.result ((journal : JournalOf)
        × HasStopped N.tells N.stands N.stays N.failed N.broken script.now start epochs result.nodes.items journal) }
    ensures none { result.so_far ≡ None }
{
    let _script = script;
    unseat(seats, &mut nodes, &mut passes, &mut left);
    let result = close(alloc, hub, passes, closing, start, epochs);
    Driven {
        nodes,
        result,
        so_far: None,
        left,
    }
}

// How many hosts take part, with the setup host.
fn hosts_of(script: &Script) -> usize {
    script.roster.hosts.len().saturating_add(1)
}

// Takes turns at a hub, and closes it.
fn run_at<N: Node + Send, R: Threads + Wait + Sync, G: Gate + Sync>(
    rt: &R,
    alloc: Global,
    script: &Script,
    start: Tree,
    epochs: Items<u64>,
    hub: Hub,
    closing: ClosingRoom,
    mut seats: Vec<Seat<N>>,
    nodes: Vec<N>,
    passes: Vec<NodePass>,
    left: Vec<Items<Step>>,
    workers: u32,
    gate: &G,
) -> Driven<N>
    requires can { CanStart script.now start epochs }
    requires hub { IsHubOf script.now hub }
    requires closing { hub.nodes ≤ closing }
    requires are { map (λ s. s.pass.node) seats.items ≡ nodes_of script.now }
    requires seated { EachAt (IsSeated N.stands (beginning script.now start epochs) hub) seats.items }
    requires well { EachAt (λ s. s.fault ≡ None) seats.items }
    requires stood { EachAt (λ s. HasStood N.stands N.stays N.failed N.broken (beginning script.now start epochs) hub
        s.pass
        s.node s.steps.steps) seats.items }
    requires none { (nodes.items ≡ []) × (passes.items ≡ []) × (left.items ≡ []) }
    requires nodes_room { length seats.items ≤ vec_capacity nodes }
    requires passes_room { length seats.items ≤ vec_capacity passes }
    requires left_room { length seats.items ≤ vec_capacity left }
    ensures stayed { OnOk result.result (PairsAt N.stays (map (λ s. s.node) seats.items) result.nodes.items) }
    ensures became { PairsAt (HasBecome N.stays N.failed) (map (λ s. s.node) seats.items) result.nodes.items }
    ensures driven { IfOk result.result
        (λ journal. HasDriven N.tells N.stands script.now start epochs result.nodes.items journal) }
    ensures failed { IfErr result.result
        (λ fault. IsFault N.tells N.stands (beginning script.now start epochs) N.failed N.next
        (map (λ s. s.node) seats.items) result.nodes.items fault) }
    ensures so_far { IfSome result.so_far (λ journal.
        HasStopped N.tells N.stands N.stays N.failed N.broken script.now start epochs result.nodes.items journal) }
    ensures held { OnErr result.result ((journal : JournalOf)
        × HasStopped N.tells N.stands N.stays N.failed N.broken script.now start epochs result.nodes.items journal) }
    ensures left { IfSome result.so_far (λ journal.
        AreLeft N.stands N.failed (beginning script.now start epochs) result.nodes.items result.left.items journal) }
    ensures lacks { IfErr result.result (λ fault. result.so_far ≡ None → fault ≡ OutOfMemory) }
    ensures stuck { (w : WaitingAt) → result.result ≡ Err (StuckAt w) → IfSome result.so_far (λ journal.
        StandAfter N.stands (beginning script.now start epochs) journal result.nodes.items) }
{
    let went = turn_until(rt, &hub, gate, hosts_of(script), &mut seats, workers);
    if went.through {
        return finish(
            alloc, script, start, epochs, hub, closing, seats, nodes, passes, left,
        );
    }
    let fault = fault_of(went, seats.as_slice());
    stop(
        alloc, script, start, epochs, hub, closing, seats, nodes, passes, left, fault,
    )
}

// Room for so many.
fn rooms<N: Drop>(
    alloc: Global,
    count: usize,
) -> Result<
    (
        Vec<Seat<N>>,
        Vec<N>,
        Vec<NodePass>,
        Vec<Items<Step>>,
        ClosingRoom,
    ),
    NoMemory,
>
    ensures { IfOk result (λ r. (r.0.items ≡ []) × (r.1.items ≡ []) × (r.2.items ≡ []) × (r.3.items ≡ [])
        × (count ≤ vec_capacity r.0) × (count ≤ vec_capacity r.1) × (count ≤ vec_capacity r.2)
        × (count ≤ vec_capacity r.3) × (count ≤ r.4)) }
{
    let mut seats = Vec::new(alloc);
    let mut nodes = Vec::new(alloc);
    let mut passes = Vec::new(alloc);
    let mut left = Vec::new(alloc);
    seats.reserve(count)?;
    nodes.reserve(count)?;
    passes.reserve(count)?;
    left.reserve(count)?;
    let closing = ClosingRoom::new(alloc, count)?;
    Ok((seats, nodes, passes, left, closing))
}

/// Drives the nodes of a script, the setup host first, then the other hosts and the servers: they take turns at a hub,
/// on so many workers, until all are done. Then the journal of the hub keeps to the plan of the script; where it is
/// known what the nodes' stores keep it is a run of the script from the tree, in which what is due is done, and is
/// ended; and each node stands where its own steps in it have brought it.
///
/// `Store` comes only where the store of that node failed twice, and `Stuck` only where all nodes have come to rest:
/// in its newest round each handed in nothing and was given nothing, and none made anything; it names a node that isn't
/// done by its own steps, by its place and with its next line. `Memory` may come at any time, as far as clauses say: it
/// is meant where memory runs out. Where the run came to no end there is a journal so far: it keeps to the plan of the
/// script; where it is known what the nodes' stores keep it is a run of the script, in which what is due is done; and
/// each node has stood where its own steps in it brought it, as it was when it handed in the last of them. It comes
/// beside the fault, but where memory lacks for it, and the fault is `Memory` then. Beside it comes what is left of
/// each node: as long as nothing failed there it stands on its own steps in the journal and on these, and on no others.
/// Where all have come to rest each stands on those in the journal.
///
/// The nodes come back in their order, whatever comes: where the run went to its end, with what stays of each; else
/// each with that, or as it is where something failed there. It may wait for what never comes about. The gate is told
/// before a node goes on; nothing rests on what it does.
pub fn drive<N: Node + Send, R: Threads + Wait + Sync, G: Gate + Sync>(
    rt: &R,
    alloc: Global,
    script: &Script,
    start: Tree,
    epochs: Items<u64>,
    nodes: Vec<N>,
    workers: u32,
    gate: &G,
) -> Driven<N>
    requires can { CanStart script.now start epochs }
    requires nodes { AreNodes N.stands (beginning script.now start epochs) nodes.items }
    ensures stayed { OnOk result.result (PairsAt N.stays nodes.items result.nodes.items) }
    ensures became { PairsAt (HasBecome N.stays N.failed) nodes.items result.nodes.items }
    ensures driven { IfOk result.result
        (λ journal. HasDriven N.tells N.stands script.now start epochs result.nodes.items journal) }
    ensures failed { IfErr result.result (λ fault.
        IsFault N.tells N.stands (beginning script.now start epochs) N.failed N.next nodes.items result.nodes.items
        fault) }
    ensures so_far { IfSome result.so_far (λ journal.
        HasStopped N.tells N.stands N.stays N.failed N.broken script.now start epochs result.nodes.items journal) }
    ensures held { OnErr result.result ((journal : JournalOf)
        × HasStopped N.tells N.stands N.stays N.failed N.broken script.now start epochs result.nodes.items journal) }
    ensures left { IfSome result.so_far (λ journal.
        AreLeft N.stands N.failed (beginning script.now start epochs) result.nodes.items result.left.items journal) }
    ensures lacks { IfErr result.result (λ fault. result.so_far ≡ None → fault ≡ OutOfMemory) }
    ensures stuck { (w : WaitingAt) → result.result ≡ Err (StuckAt w) → IfSome result.so_far (λ journal.
        StandAfter N.stands (beginning script.now start epochs) journal result.nodes.items) }
{
    let Ok((seats, back, passes_back, left, closing)) = rooms(alloc, nodes.len()) else {
        return Driven {
            nodes,
            result: Err(DriveFault::Memory),
            so_far: None,
            left: Vec::new(alloc),
        };
    };
    let Ok((hub, passes)) = Hub::new(script, &[]) else {
        return Driven {
            nodes,
            result: Err(DriveFault::Memory),
            so_far: None,
            left: Vec::new(alloc),
        };
    };
    let seats = seat_all(alloc, nodes, passes, seats);
    run_at(
        rt,
        alloc,
        script,
        start,
        epochs,
        hub,
        closing,
        seats,
        back,
        passes_back,
        left,
        workers,
        gate,
    )
}
