//! A node at the hub.
ghost use Rattle.std.specs.Prelude.{◌≡◌, [], Bool, Ok, None, false, IfErr, IfOk, OnOk};
ghost use Rattle.hub_board.specs.declared.given.Turned.TheVariants.{Ended as HasEnded, Worked as HasWorked};
ghost use Rattle.hub_drive.specs.Seats.{HasGone, HasStood, IsAtRest, IsHere, IsIn, IsSeated, IsThrough};
ghost use Rattle.hub_node.specs.Nodes.{Beginning};

use crate::gate::Gate;
use hub_node::{Node, NodeFault};
use hub_turns::{Hub, NodePass, Pending, Turned};
use std::sync::Wait;

/// A node, its pass to the hub, the steps that it hands in at its next turn, what failed there, if anything did, and
/// whether it was done at its last turn.
#[derive(Drop)]
pub struct Seat<N> {
    pub node: N,
    pub pass: NodePass,
    pub steps: Pending,
    pub fault: Option<NodeFault>,
    pub ended: bool,
}

// Whether a node was done.
fn was_done(turned: Turned) -> bool
    ensures { result ≡ false → turned ≡ HasEnded → ⊥ }
{
    matches!(turned, Turned::Ended)
}

// The gate is told that a node goes on, where a line of it is left.
fn tell<N: Node, G: Gate>(gate: &G, seat: &Seat<N>) {
    if let Some(line) = seat.node.waiting() {
        gate.before(seat.pass.node(), line);
    }
}

// A turn of a node: its steps are handed in, it takes what it is given, and does what it can.
fn take_turn<N: Node, R: Wait, G: Gate>(
    rt: &R,
    hub: &Hub,
    gate: &G,
    seat: &mut Seat<N>,
) -> Result<Turned, NodeFault>
    requires { (run : Beginning) × IsSeated N.stands run hub.now seat.old }
    ensures kept { (run : Beginning) → IsSeated N.stands run hub.now seat.old
        → OnOk result (IsSeated N.stands run hub.now seat.new) }
    ensures through { (run : Beginning) → IsSeated N.stands run hub.now seat.old → result ≡ Ok HasEnded
        → seat.new.fault ≡ None → IsThrough N.stands run hub.now N.tells seat.new }
    ensures rests { (run : Beginning) (ended : Bool) → IsSeated N.stands run hub.now seat.old
        → seat.old.steps.steps ≡ [] → IfOk result (λ turned. (turned ≡ HasWorked → ⊥)
        → (ended ≡ false → turned ≡ HasEnded → ⊥) → seat.new.fault ≡ None
        → IsAtRest N.stands run hub.now N.tells (record seat.new { ended = ended })) }
    ensures held { (run : Beginning) → IsSeated N.stands run hub.now seat.old
        → HasStood N.stands N.stays N.failed N.broken run hub.now seat.old.pass seat.old.node seat.old.steps.steps
        → HasStood N.stands N.stays N.failed N.broken run hub.now seat.new.pass seat.new.node seat.new.steps.steps }
    ensures node { seat.new.pass.node ≡ seat.old.pass.node }
    ensures stays { OnOk result (N.stays seat.old.node seat.new.node) }
    ensures failed { IfErr result (λ fault. N.failed fault seat.old.node seat.new.node) }
    ensures fault { seat.new.fault ≡ seat.old.fault }
{
    let Ok(given) = hub.turn(rt, &mut seat.pass, &mut seat.steps) else {
        return Err(NodeFault::Memory);
    };
    tell(gate, seat);
    seat.node.work(given, &mut seat.steps)
}

/// A turn of a node, where nothing failed there before. What fails is noted. One that handed steps in did something,
/// since others may take what they send. It may wait for the turns of other threads.
pub(crate) fn turn<N: Node, R: Wait, G: Gate>(
    rt: &R,
    hub: &Hub,
    gate: &G,
    seat: &mut Seat<N>,
) -> Turned
    requires { IsHere N.stands hub.now seat.old }
    ensures through { (run : Beginning) → IsIn N.stands run hub.now seat.old → result ≡ HasEnded
        → IsThrough N.stands run hub.now N.tells seat.new }
    ensures rests { (run : Beginning) → IsIn N.stands run hub.now seat.old → (result ≡ HasWorked → ⊥)
        → seat.new.fault ≡ None → IsAtRest N.stands run hub.now N.tells seat.new }
    ensures gone { HasGone N.stands N.stays N.failed N.broken hub.now seat.old seat.new }
{
    if seat.fault.is_some() {
        return Turned::Idle;
    }
    let handed = !seat.steps.as_slice().is_empty();
    match take_turn(rt, hub, gate, seat) {
        Ok(turned) => {
            seat.ended = was_done(turned);
            if handed { Turned::Worked } else { turned }
        }
        Err(fault) => {
            seat.fault = Some(fault);
            Turned::Idle
        }
    }
}
