ghost use Rattle.std.specs.Prelude.{
  ◌≡◌,
  ◌<◌,
  ◌≤◌,
  ℕ,
  true,
  false,
  Some,
  None,
  filter,
  drop,
  length,
  slice_get,
  IsPermutation,
  IfOk,
  IfSome,
  OnOk,
};
ghost use Rattle.std.specs.List.{list_all};
ghost use Rattle.script_lines.specs.Sound.{is_of};
ghost use Rattle.script_reader.specs.Walk.{can_go, stuck_at};
ghost use Rattle.script_reader.specs.Orders.{IsOrder, AllStand, flags_after};
ghost use Rattle.service_plain.specs.Seats.{
  seat_of,
  is_seated,
  is_head,
  lines_at,
  left_at,
  to_go,
  all_places,
  AreFirst,
  IsStanding,
  can_go_at,
  is_ready,
};

use base_types::{HOSTS_MAX, HostId, Items, NoMemory, Node, Plain, SERVERS_MAX, ServerId};
use script_lines::{Deed, Flags, Line};
use script_reader::{can_go, same_node};
use std::alloc::Global;

/// Lines that have gone, and where each node stands.
#[derive(Drop)]
struct Order {
    /// The places of the lines that have gone, in their order.
    went: Items<usize>,
    /// The place of each node's next line, or the number of lines where it has none: of the hosts from number 0 on, and
    /// then of the servers.
    next: Items<usize>,
    /// The flags that are raised.
    flags: Flags,
}

/// An order in which all lines go: as long as one can go, the first node that can makes one line. Hosts come before
/// servers.
#[tactic(auto, using(crate::proofs::Seats::steps))]
pub(crate) fn order_of(alloc: Global, lines: &Items<Line>) -> Result<Items<usize>, NoMemory>
    requires seated { list_all (λ line. is_seated line.node) lines.now ≡ true }
    requires free { stuck_at lines.now ≡ None }
    ensures order { IfOk result (λ places. IsOrder lines.now (lines_at lines.now places)) }
    ensures places { IfOk result (IsPermutation (all_places lines.now)) }
{
    let mut order = Order::new(alloc, lines)?;
    while let Some((seat, place)) = order.ready(lines) {
        order.go(lines, seat, place)?;
    }
    Ok(order.went)
}

impl Order {
    #[tactic(auto, using(crate::proofs::Seats::steps))]
    fn new(alloc: Global, lines: &Items<Line>) -> Result<Order, NoMemory>
        requires seated { list_all (λ line. is_seated line.node) lines.now ≡ true }
        ensures { IfOk result (λ order. IsStanding lines.now order) }
    {
        Ok(Order {
            went: Items::new(alloc),
            next: first_places(alloc, lines)?,
            flags: Flags::new(alloc),
        })
    }

    // The first node that can go, and the place of its next line.
    #[tactic(auto, using(crate::proofs::Seats::steps))]
    fn ready(&self, lines: &Items<Line>) -> Option<(usize, usize)>
        ensures none { result ≡ None → (seat : ℕ) → is_ready lines.now self.now seat ≡ false }
        ensures some { IfSome result (λ (seat, place).
            (slice_get self.now.next seat ≡ Some place) × (can_go_at lines.now self.now.flags place ≡ true)) }
    {
        for (seat, place) in self.next.as_slice().iter().enumerate() {
            if let Some(line) = lines.at(*place) {
                if can_go(&self.flags, &line.deed) {
                    return Some((seat, *place));
                }
            }
        }
        None
    }

    // The node that sits here makes its next line, which is at this place.
    #[tactic(auto, using(crate::proofs::Seats::steps))]
    fn go(&mut self, lines: &Items<Line>, seat: usize, place: usize) -> Result<(), NoMemory>
        requires standing { IsStanding lines.now self.old }
        requires place { slice_get self.old.next seat ≡ Some place }
        requires ready { can_go_at lines.now self.old.flags place ≡ true }
        ensures standing { OnOk result (IsStanding lines.now self.new) }
        ensures fewer { OnOk result (to_go lines.now self.new.next < to_go lines.now self.old.next) }
    {
        if place < lines.len() {
            let line = lines.get(place);
            self.went.push(place)?;
            self.next.put(seat, next_place(lines, line.node, place + 1));
            raise(&mut self.flags, &line.deed)?;
        }
        Ok(())
    }
}

// Notes the flag that a deed raises.
fn raise(flags: &mut Flags, deed: &Deed) -> Result<(), NoMemory>
    ensures { OnOk result (flags.new ≡ flags_after flags.old deed.now) }
{
    if let Deed::Raise(flag) = deed {
        flags.push(flag.copy()?)?;
    }
    Ok(())
}

// The place of each node's first line.
#[tactic(auto, using(crate::proofs::Seats::steps))]
fn first_places(alloc: Global, lines: &Items<Line>) -> Result<Items<usize>, NoMemory>
    ensures { IfOk result (λ next. AreFirst lines.now next) }
{
    let mut next = Items::new(alloc);
    for host in 0..=HOSTS_MAX {
        next.push(next_place(lines, Node::Host(HostId(host)), 0))?;
    }
    for server in 1..=SERVERS_MAX {
        next.push(next_place(lines, Node::Server(ServerId(server)), 0))?;
    }
    Ok(next)
}

// The place of a node's first line from a place on.
#[tactic(auto, using(crate::proofs::Seats::steps))]
fn next_place(lines: &Items<Line>, node: Node, from: usize) -> usize
    requires within { from ≤ length lines.now }
    ensures same { filter (is_of node) (drop result lines.now) ≡ filter (is_of node) (drop from lines.now) }
    ensures head { is_head lines.now node result ≡ true }
    ensures after { from ≤ result }
    ensures within { result ≤ length lines.now }
{
    for place in from..lines.len() {
        if same_node(lines.get(place).node, node) {
            return place;
        }
    }
    lines.len()
}
