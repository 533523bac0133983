ghost use Rattle.std.specs.Prelude.{◌≡◌, ◌≤◌, ◌<◌, ◌+◌, ◌↔◌, None, Some, IsTrue, IfOk, filter, length, map};
ghost use Rattle.std.specs.Prelude.{slice_get};
ghost use Rattle.std.specs.Option.{option_copied};
ghost use Rattle.run_rules.specs.Steps.{is_node, lines_of};
ghost use Rattle.script_lines.specs.declared.script.Line.{Line as LineOf};
ghost use Rattle.hub_node.specs.Lines.{may_go, next_number, next_of};

use base_types::{HostId, Name, NoMemory, Node};
use script_lines::{Deed, Line, Script};
use std::alloc::Global;
use std::marker::Model;

/// The lines of a node, which are its script's. Contracts see them in their order, how many have gone, and the flag of
/// which the node was told last.
pub struct OwnLines<'a> {
    lines: Vec<&'a Line>,
    gone: usize,
    told: Option<Name>,
}

impl Drop for OwnLines<'_> {
    fn drop(self) {
        let OwnLines {
            lines: _,
            gone: _,
            told: _,
        } = self;
    }
}

impl<'a> Model for OwnLines<'a> {
    ghost use Rattle.hub_node.specs.Lines.{LinesView};
    ghost use Rattle.std.specs.Prelude.{map};

    ghost Value = { LinesView };

    ghost view = { λ o. record { lines = map (λ line. line.now) o.lines.items; gone = o.gone; told = o.told } };
}

fn is_node(a: Node, b: Node) -> bool
    ensures { result ≡ is_node a b }
{
    match (a, b) {
        (Node::Host(a), Node::Host(b)) => a.0 == b.0,
        (Node::Server(a), Node::Server(b)) => a.0 == b.0,
        _ => false,
    }
}

// The lines of a node among these.
fn lines_among<'a>(alloc: Global, all: &'a [Line], node: Node) -> Result<Vec<&'a Line>, NoMemory>
    ensures { IfOk result (λ lines. map (λ line. line.now) lines.items
        ≡ filter (λ (line : LineOf). is_node node line.node) all.now) }
{
    let mut lines = Vec::new(alloc);
    for line in all {
        if is_node(node, line.node) {
            lines.push(line)?;
        }
    }
    Ok(lines)
}

// These lines.
fn each_of<'a>(alloc: Global, all: &'a [Line]) -> Result<Vec<&'a Line>, NoMemory>
    ensures { IfOk result (λ lines. map (λ line. line.now) lines.items ≡ all.now) }
{
    let mut lines = Vec::new(alloc);
    for line in all {
        lines.push(line)?;
    }
    Ok(lines)
}

// A node's lines, in order.
fn lines_of(script: &Script, node: Node) -> Result<Vec<&Line>, NoMemory>
    ensures { IfOk result (λ lines. map (λ line. line.now) lines.items ≡ lines_of script.now node) }
{
    let alloc = script.lines.alloc();
    if let Node::Host(host) = node {
        if host == HostId::SETUP {
            return each_of(alloc, script.setup.as_slice());
        }
    }
    lines_among(alloc, script.lines.as_slice(), node)
}

// Whether a line can go, as far as its flag decides.
fn may_go(told: &Option<Name>, deed: &Deed) -> bool
    ensures { result ≡ may_go told.now deed.now }
{
    match (told, deed) {
        (Some(flag), Deed::Await(name)) => *name == *flag,
        (None, Deed::Await(_)) => false,
        _ => true,
    }
}

impl<'a> OwnLines<'a> {
    /// The lines of a node of a script, of which none has gone. The only error is that memory ran out.
    pub fn new(script: &'a Script, node: Node) -> Result<OwnLines<'a>, NoMemory>
        ensures { IfOk result (λ own. own ≡ record { lines = lines_of script.now node; gone = 0; told = None }) }
    {
        Ok(OwnLines {
            lines: lines_of(script, node)?,
            gone: 0,
            told: None,
        })
    }

    /// Whether all have gone.
    pub fn are_gone(&self) -> bool
        ensures { IsTrue result ↔ length self.now.lines ≤ self.now.gone }
    {
        self.gone >= self.lines.len()
    }

    /// How many have gone: the place of the next one.
    pub fn gone(&self) -> usize
        ensures { result ≡ self.now.gone }
    {
        self.gone
    }

    /// The line at a place, from 0 on.
    pub fn at(&self, place: usize) -> Option<&'a Line>
        ensures { option_copied result ≡ slice_get self.now.lines place }
    {
        match self.lines.get(place) {
            Some(line) => Some(*line),
            None => None,
        }
    }

    /// The node is told that a flag was raised.
    pub fn tell(&mut self, flag: Name)
        ensures { self.new ≡ record self.old { told = Some flag } }
    {
        self.told = Some(flag);
    }

    /// The next line, where it can go as far as flags decide: one that awaits a flag once the node was told of it.
    pub fn next(&self) -> Option<&'a Line>
        ensures { option_copied result ≡ next_of self.now }
    {
        let line = self.at(self.gone)?;
        if may_go(&self.told, &line.deed) {
            Some(line)
        } else {
            None
        }
    }

    /// The next line goes.
    pub fn go(&mut self)
        requires { self.old.gone < length self.old.lines }
        ensures { self.new ≡ record self.old { gone = self.old.gone + 1 } }
    {
        if self.gone < self.lines.len() {
            self.gone += 1;
        }
    }

    /// The number of the next line, where one is left.
    pub fn waiting(&self) -> Option<u32>
        ensures { result ≡ next_number self.now }
    {
        match self.at(self.gone) {
            Some(line) => Some(line.number),
            None => None,
        }
    }
}
