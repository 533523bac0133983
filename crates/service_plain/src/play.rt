ghost use Rattle.std.specs.Prelude.{◌≡◌, ◌≤◌, ◌+◌, [], ◌∷◌, true, length, filter, IfOk, OnOk};
ghost use Rattle.std.specs.List.{list_all};
ghost use Rattle.base_types.specs.declared.limits.TheConstants.{HOSTS_MAX, SCRIPT_LINES_MAX};
ghost use Rattle.tree_calls.specs.Limits.{keeps_limit};
ghost use Rattle.base_types.specs.declared.ids.Node.TheVariants.{Host};
ghost use Rattle.tree_answers.specs.declared.tree.Tree.{Tree as TreeOf};
ghost use Rattle.script_lines.specs.Sound.{is_of};
ghost use Rattle.service_plain.specs.Seats.{lines_at};
ghost use Rattle.service_plain.specs.Underway.{
  IsFit,
  HasCalled,
  HasStopped,
  HasLeft,
  HasActed,
  GoesAlong,
  GoesOver,
  IsNew,
  AreNew,
  keeps_deed,
  may_go,
  new_desk,
  line_count,
};

use crate::past::{Past, number_after};
use crate::uses::{Use, note};
use base_types::{HOSTS_MAX, HostId, Items, NoMemory, Node, Plain};
use script_lines::{Deed, Line, Script};
use script_reader::same_node;
use tree_answers::Tree;
use tree_calls::Call;

/// What is known of a host while a script runs.
#[derive(Drop)]
struct Desk {
    /// How many calls its lines have made.
    calls: u32,
    /// How many of its lines are left.
    left: usize,
    /// Whether it has stopped.
    stopped: bool,
    /// What it has in use, in the order in which it was taken.
    uses: Items<Use>,
}

/// A run of a script.
#[derive(Drop)]
pub(crate) struct Play {
    pub past: Past,
    /// The hosts, from number 0 on.
    desks: Items<Desk>,
}

impl Play {
    /// A script before its first line, from a tree on.
    pub fn new(script: &Script, tree: Tree) -> Result<Play, NoMemory>
        requires count { length script.now.setup + length script.now.lines ≤ SCRIPT_LINES_MAX }
        ensures { IfOk result (λ play. IsNew script.now tree play) }
    {
        match new_desks(script) {
            Ok(desks) => Ok(Play {
                past: Past {
                    tree,
                    history: Items::new(script.lines.alloc()),
                },
                desks,
            }),
            Err(NoMemory) => {
                drop(tree);
                Err(NoMemory)
            }
        }
    }

    /// All lines go: those that make the filesets, and then those at these places, in their order.
    pub fn go_all(&mut self, script: &Script, order: &Items<usize>) -> Result<(), NoMemory>
        requires fit { IsFit self.old }
        requires setup { list_all may_go script.now.setup ≡ true }
        requires lines { list_all may_go script.now.lines ≡ true }
        ensures { OnOk result (GoesOver script.now (lines_at script.now.lines order.now) self.old self.new) }
    {
        self.go_through(&script.setup)?;
        self.follow(&script.lines, order)
    }

    /// What happened, and the tree that it led to.
    pub fn into_past(self) -> Past
        ensures { result ≡ self.past }
    {
        self.past
    }

    // The lines that make the filesets go, one after the other.
    fn go_through(&mut self, lines: &Items<Line>) -> Result<(), NoMemory>
        requires fit { IsFit self.old }
        requires lines { list_all may_go lines.now ≡ true }
        ensures goes { OnOk result (GoesAlong lines.now self.old self.new) }
        ensures fit { OnOk result (IsFit self.new) }
    {
        for line in lines.as_slice() {
            self.go(line)?;
        }
        Ok(())
    }

    // The lines at these places go, in their order.
    fn follow(&mut self, lines: &Items<Line>, places: &Items<usize>) -> Result<(), NoMemory>
        requires fit { IsFit self.old }
        requires lines { list_all may_go lines.now ≡ true }
        ensures { OnOk result (GoesAlong (lines_at lines.now places.now) self.old self.new) }
    {
        for place in places.as_slice() {
            self.go_at(lines, *place)?;
        }
        Ok(())
    }

    // The line at a place goes.
    #[tactic(auto, using(crate::proofs::Steps::steps))]
    fn go_at(&mut self, lines: &Items<Line>, place: usize) -> Result<(), NoMemory>
        requires fit { IsFit self.old }
        requires lines { list_all may_go lines.now ≡ true }
        ensures goes { OnOk result (GoesAlong (lines_at lines.now (place ∷ [])) self.old self.new) }
        ensures fit { OnOk result (IsFit self.new) }
    {
        match lines.at(place) {
            Some(line) => self.go(line),
            None => Ok(()),
        }
    }

    // A node makes its next line.
    #[tactic(auto, using(crate::proofs::Steps::gone_server))]
    fn go(&mut self, line: &Line) -> Result<(), NoMemory>
        requires fit { IsFit self.old }
        requires may { may_go line.now ≡ true }
        ensures goes { OnOk result (GoesAlong (line.now ∷ []) self.old self.new) }
        ensures fit { OnOk result (IsFit self.new) }
    {
        let Node::Host(host) = line.node else {
            return Ok(());
        };
        self.act(host, &line.deed)?;
        self.leave(host)?;
        Ok(())
    }

    // A host does what its line asks for.
    fn act(&mut self, host: HostId, deed: &Deed) -> Result<(), NoMemory>
        requires fit { IsFit self.old }
        requires seated { host.0 ≤ HOSTS_MAX }
        requires limit { keeps_deed deed.now ≡ true }
        ensures acts { OnOk result (HasActed host deed.now self.old self.new) }
        ensures fit { OnOk result (IsFit self.new) }
    {
        match deed {
            Deed::Call(call) => self.call(host, call),
            Deed::Stop => self.stop(host),
            _ => Ok(()),
        }
    }

    // A host makes the call of its line.
    fn call(&mut self, host: HostId, call: &Call) -> Result<(), NoMemory>
        requires fit { IsFit self.old }
        requires seated { host.0 ≤ HOSTS_MAX }
        requires limit { keeps_limit call.now ≡ true }
        ensures does { OnOk result (HasCalled host call.now self.old self.new) }
        ensures fit { OnOk result (IsFit self.new) }
    {
        let desk = self.desks.get_mut(host.0 as usize);
        desk.calls = number_after(desk.calls)?;
        if self.past.make(host, desk.calls, call)? {
            note(&mut desk.uses, call)?;
        }
        Ok(())
    }

    // A host stops.
    fn stop(&mut self, host: HostId) -> Result<(), NoMemory>
        requires fit { IsFit self.old }
        requires seated { host.0 ≤ HOSTS_MAX }
        ensures does { OnOk result (HasStopped host self.old self.new) }
        ensures fit { OnOk result (IsFit self.new) }
    {
        self.desks.get_mut(host.0 as usize).stopped = true;
        self.past.go_down(host)?;
        Ok(())
    }

    // A host has a line less left. After its last one it ends what it has in use, unless it stopped.
    fn leave(&mut self, host: HostId) -> Result<(), NoMemory>
        requires fit { IsFit self.old }
        requires seated { host.0 ≤ HOSTS_MAX }
        ensures does { OnOk result (HasLeft host self.old self.new) }
        ensures fit { OnOk result (IsFit self.new) }
    {
        let desk = self.desks.get_mut(host.0 as usize);
        desk.left = desk.left.saturating_sub(1);
        if desk.left > 0 || desk.stopped {
            return Ok(());
        }
        self.past.end_uses(host, desk.calls, &desk.uses)?;
        Ok(())
    }
}

// What is known of the hosts before their first lines.
#[tactic(auto, using(crate::proofs::Steps::steps))]
fn new_desks(script: &Script) -> Result<Items<Desk>, NoMemory>
    requires count { length script.now.setup + length script.now.lines ≤ SCRIPT_LINES_MAX }
    ensures count { IfOk result (λ desks. length desks ≡ HOSTS_MAX + 1) }
    ensures each { IfOk result (AreNew script.now) }
{
    let mut desks = Items::new(script.lines.alloc());
    for host in 0..=HOSTS_MAX {
        desks.push(new_desk(script, HostId(host)))?;
    }
    Ok(desks)
}

// What is known of a host before its first line.
fn new_desk(script: &Script, host: HostId) -> Desk
    requires count { length script.now.setup + length script.now.lines ≤ SCRIPT_LINES_MAX }
    ensures { result ≡ new_desk script.now host }
{
    Desk {
        calls: 0,
        left: count_lines(&script.setup, host) + count_lines(&script.lines, host),
        stopped: false,
        uses: Items::new(script.lines.alloc()),
    }
}

// How many lines are a host's.
fn count_lines(lines: &Items<Line>, host: HostId) -> usize
    ensures value { result ≡ length (filter (is_of (Host host)) lines.now) }
    ensures within { result ≤ length lines.now }
{
    lines
        .as_slice()
        .iter()
        .filter(|line| same_node(line.node, Node::Host(host)))
        .count()
}
