ghost use Rattle.std.specs.Prelude.{◌≡◌, ◌+◌, ◌++◌, ◌<◌, IfOk, OnOk, is_some, option_to_list, length, map, min};
ghost use Rattle.std.specs.Prelude.{slice_get};
ghost use Rattle.std.specs.List.{filter, filter_map, position};
ghost use Rattle.std.specs.Option.{option_and_then};
ghost use Rattle.base_types.specs.Lists.{changed_at};
ghost use Rattle.script_lines.specs.Sound.{same_node};
ghost use Rattle.hub_board.specs.Follows.{mark_of, follow_of, goes, gone_in, raise_of, flags_next, with_gone};
ghost use Rattle.hub_board.specs.Follows.{waits_for};
ghost use Rattle.hub_board.specs.Follows.{raised_mark, mark_raised, told, flag_in, flag_for};
ghost use Rattle.hub_board.specs.Follows.{if_flag, with_begun};
ghost use Rattle.hub_board.specs.Follows.{is_through};

use base_types::{HostId, Items, Name, NoMemory, Node, Plain};
use run_rules::{Cause, Step};
use script_lines::{Deed, Line, Script, same_node};
use std::alloc::Global;
use std::mem;

/// The setup host.
pub(crate) const SETUP: Node = Node::Host(HostId(0));

/// What of a node's line the hub follows.
#[derive(Drop)]
pub enum Mark {
    /// It neither raises a flag nor waits for one.
    Plain,
    /// It raises this flag.
    Raise(Name),
    /// It waits for this flag.
    Await(Name),
    /// It waited for this flag, which was raised.
    Raised(Name),
    /// It waited for a flag, and the node was told that it was raised.
    Told,
}

impl Mark {
    fn waits_for(&self, flag: &Name) -> bool
        ensures { result ≡ waits_for flag.now self.now }
    {
        match self {
            Mark::Await(name) => *name == *flag,
            _ => false,
        }
    }

    fn raised(self) -> Mark
        ensures { result ≡ raised_mark self }
    {
        match self {
            Mark::Await(flag) => Mark::Raised(flag),
            mark => mark,
        }
    }

    /// Takes notice of a flag.
    pub(crate) fn raise(&mut self, flag: &Name)
        ensures { self.new ≡ mark_raised flag.now self.old }
    {
        if self.waits_for(flag) {
            let mark = mem::replace(self, Mark::Told);
            *self = mark.raised();
        }
    }
}

/// A node, as the hub follows it.
#[derive(Drop)]
pub struct Follow {
    /// The node.
    pub node: Node,
    /// What is followed of its lines, in order.
    pub marks: Items<Mark>,
    /// How many of them have gone.
    pub gone: usize,
    /// Whether it was told that the setup host has ended.
    pub begun: bool,
}

fn mark_of(deed: &Deed) -> Result<Mark, NoMemory>
    ensures { IfOk result (λ mark. mark ≡ mark_of deed.now) }
{
    match deed {
        Deed::Raise(flag) => Ok(Mark::Raise(flag.copy()?)),
        Deed::Await(flag) => Ok(Mark::Await(flag.copy()?)),
        _ => Ok(Mark::Plain),
    }
}

fn marks_of_all(alloc: Global, lines: &[Line]) -> Result<Items<Mark>, NoMemory>
    ensures { IfOk result (λ marks. marks ≡ map (λ line. mark_of line.deed) lines.now) }
{
    let mut marks = Items::new(alloc);
    for line in lines {
        marks.push(mark_of(&line.deed)?)?;
    }
    Ok(marks)
}

fn marks_of(alloc: Global, lines: &[Line], node: Node) -> Result<Items<Mark>, NoMemory>
    ensures { IfOk result (λ marks.
        marks ≡ map (λ line. mark_of line.deed) (filter (λ line. same_node line.node node) lines.now)) }
{
    let mut marks = Items::new(alloc);
    for line in lines {
        if same_node(line.node, node) {
            marks.push(mark_of(&line.deed)?)?;
        }
    }
    Ok(marks)
}

/// Whether a line of the node goes in a step with this cause.
pub(crate) fn goes(cause: &Cause) -> bool
    ensures { result ≡ goes cause.now }
{
    matches!(cause, Cause::Line(_) | Cause::Restart(_))
}

/// How many lines go in these steps.
#[tactic(auto, using(crate::proofs::Steps::gone_yes, crate::proofs::Steps::gone_no))]
pub(crate) fn gone_in(steps: &[Step]) -> usize
    ensures { result ≡ gone_in steps.now }
{
    let mut gone = 0;
    for step in steps {
        if goes(&step.cause) {
            gone += 1;
        }
    }
    gone
}

// The flags that lines raise.
#[tactic(auto, using(crate::proofs::Steps::flags_more))]
fn flags_in(alloc: Global, marks: &[Mark]) -> Result<Items<Name>, NoMemory>
    ensures { IfOk result (λ flags. flags ≡ filter_map raise_of marks.now) }
{
    let mut flags = Items::new(alloc);
    for mark in marks {
        add_flag(&mut flags, mark)?;
    }
    Ok(flags)
}

fn add_flag(flags: &mut Items<Name>, mark: &Mark) -> Result<(), NoMemory>
    ensures { OnOk result (flags.new ≡ flags.old ++ option_to_list (raise_of mark.now)) }
{
    if let Mark::Raise(flag) = mark {
        flags.push(flag.copy()?)?;
    }
    Ok(())
}

impl Follow {
    /// A node at the start of a script. The only error is that memory ran out.
    pub fn new(script: &Script, node: Node) -> Result<Follow, NoMemory>
        ensures { IfOk result (λ follow. follow ≡ follow_of script.now node) }
    {
        let alloc = script.lines.alloc();
        let marks = if same_node(node, SETUP) {
            marks_of_all(alloc, script.setup.as_slice())?
        } else {
            marks_of(alloc, script.lines.as_slice(), node)?
        };
        Ok(Follow {
            node,
            marks,
            gone: 0,
            begun: false,
        })
    }

    /// Whether all its lines have gone.
    pub fn is_through(&self) -> bool
        ensures { result ≡ is_through self.now }
    {
        self.gone == self.marks.len()
    }

    /// The flags that the next so many lines raise. The only error is that memory ran out.
    pub(crate) fn flags_next(&self, count: usize) -> Result<Items<Name>, NoMemory>
        ensures { IfOk result (λ flags. flags ≡ flags_next count self.now) }
    {
        let marks = self.marks.as_slice();
        let from = self.gone.min(marks.len());
        let to = from + count.min(marks.len() - from);
        flags_in(self.marks.alloc(), &marks[from..to])
    }

    /// Lets so many lines go.
    pub(crate) fn go(&mut self, count: usize)
        ensures { self.new ≡ with_gone count self.old }
    {
        self.gone += count.min(self.marks.len().saturating_sub(self.gone));
    }

    /// It was told that the setup host has ended.
    pub(crate) fn begin(&mut self)
        ensures { self.new ≡ with_begun self.old }
    {
        self.begun = true;
    }

    /// Hands out the flag for which the next line waits, where it was raised; it is handed out once.
    pub(crate) fn take_flag(&mut self) -> Option<Name>
        ensures flag { result ≡ flag_for self.old }
        ensures rest { self.new ≡ if_flag self.old }
    {
        if !self.has_flag() {
            return None;
        }
        take_flag(&mut self.marks, self.gone)
    }

    /// Whether the next line waits for a flag that was raised.
    pub(crate) fn has_flag(&self) -> bool
        ensures { result ≡ is_some (flag_for self.now) }
    {
        matches!(self.marks.at(self.gone), Some(Mark::Raised(_)))
    }
}

// Hands out the flag of a line that waited for it.
#[tactic(auto, using(base_types::proofs::ChangedLists::changes))]
fn take_flag(marks: &mut Items<Mark>, place: usize) -> Option<Name>
    requires { place < length marks.old }
    ensures flag { result ≡ option_and_then flag_in (slice_get marks.old place) }
    ensures rest { marks.new ≡ changed_at marks.old place told }
{
    flag_of(mem::replace(marks.get_mut(place), Mark::Told))
}

fn flag_of(mark: Mark) -> Option<Name>
    ensures { result ≡ flag_in mark }
{
    match mark {
        Mark::Raised(flag) => Some(flag),
        _ => None,
    }
}
