ghost use Rattle.std.specs.Prelude.{◌≡◌, [], length, slice_get, OnOk, IfOk};
ghost use Rattle.script_reader.specs.Walk.{
  is_blocked,
  can_go,
  stepped,
  walk_of,
  pass_from,
  count_up,
  rounds,
  first_number,
  stuck_at,
};

use base_types::{Items, NoMemory, Node, Plain};
use script_lines::{Deed, Flags, Line, same_node};
use std::alloc::Global;

/// A pass along lines, by their places.
#[derive(Drop)]
pub(crate) struct Walk {
    /// The flags that lines which went have raised.
    pub flags: Flags,
    /// The lines that are left.
    pub left: Items<usize>,
    /// The nodes that stand at one of these.
    pub blocked: Items<Node>,
}

fn is_blocked(blocked: &Items<Node>, node: Node) -> bool
    ensures { result ≡ is_blocked blocked.now node }
{
    blocked
        .as_slice()
        .iter()
        .any(|other| same_node(*other, node))
}

/// Whether a line with this deed can go once these flags are raised: an await when its flag is among them, and any
/// other at once.
pub fn can_go(flags: &Flags, deed: &Deed) -> bool
    ensures { result ≡ can_go flags.now deed.now }
{
    match deed {
        Deed::Await(flag) => flags.has(flag),
        _ => true,
    }
}

impl Walk {
    // Whether a line stays is known where its node comes to it.
    fn step(&mut self, place: usize, line: &Line) -> Result<(), NoMemory>
        ensures { OnOk result (self.new ≡ stepped self.old place line.now) }
    {
        if is_blocked(&self.blocked, line.node) {
            self.left.push(place)?;
        } else if !can_go(&self.flags, &line.deed) {
            self.left.push(place)?;
            self.blocked.push(line.node)?;
        } else if let Deed::Raise(flag) = &line.deed {
            self.flags.push(flag.copy()?)?;
        }
        Ok(())
    }
}

fn pass(
    alloc: Global,
    lines: &Items<Line>,
    flags: Flags,
    places: &Items<usize>,
) -> Result<Walk, NoMemory>
    ensures { IfOk result (λ walk. walk ≡ pass_from lines.now (walk_of flags) places.now) }
{
    let mut walk = Walk {
        flags,
        left: Items::new(alloc),
        blocked: Items::new(alloc),
    };
    for place in places.as_slice() {
        if let Some(line) = lines.at(*place) {
            walk.step(*place, line)?;
        }
    }
    Ok(walk)
}

#[tactic(auto, using(crate::proofs::Rounds::count_step))]
fn count_up(alloc: Global, n: usize) -> Result<Items<usize>, NoMemory>
    ensures { IfOk result (λ places. places ≡ count_up n) }
{
    let mut places = Items::new(alloc);
    for place in 0..n {
        places.push(place)?;
    }
    Ok(places)
}

fn first_number(lines: &Items<Line>, places: &Items<usize>) -> Option<u32>
    ensures { result ≡ first_number lines.now places.now }
{
    match places.as_slice() {
        [place, ..] => match lines.at(*place) {
            Some(line) => Some(line.number),
            None => None,
        },
        [] => None,
    }
}

// The lines that are left when nothing can go.
#[tactic(auto, using(crate::proofs::Rounds::round_step))]
fn rounds(alloc: Global, lines: &Items<Line>) -> Result<Items<usize>, NoMemory>
    ensures { IfOk result (λ left. left ≡ rounds (length lines.now) lines.now [] (count_up (length lines.now))) }
{
    let mut places = count_up(alloc, lines.len())?;
    let mut flags = Flags::new(alloc);
    let most = lines.len();
    for round in 0..most {
        let walk = pass(alloc, lines, flags, &places)?;
        if walk.left.len() == places.len() {
            return Ok(walk.left);
        }
        flags = walk.flags;
        places = walk.left;
    }
    Ok(places)
}

/// The least line at which a node stands for ever, where one does.
#[tactic(auto, unfolding(crate::specs::Walk::stuck_at))]
pub(crate) fn stuck_at(alloc: Global, lines: &Items<Line>) -> Result<Option<u32>, NoMemory>
    ensures { IfOk result (λ line. line ≡ stuck_at lines.now) }
{
    let left = rounds(alloc, lines)?;
    Ok(first_number(lines, &left))
}
