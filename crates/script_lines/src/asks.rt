ghost use Rattle.std.specs.Prelude.{◌≡◌, ◌≤◌, count_by};
ghost use Rattle.script_lines.specs.Sound.{same_node};
ghost use Rattle.script_lines.specs.Asks.{is_call_of, call_lines};

use crate::script::{Deed, Line, Script};
use base_types::{Items, Node};

/// Whether two nodes are the same.
pub fn same_node(a: Node, b: Node) -> bool
    ensures { result ≡ same_node a b }
{
    match (a, b) {
        (Node::Host(a), Node::Host(b)) => a.0 == b.0,
        (Node::Server(a), Node::Server(b)) => a.0 == b.0,
        _ => false,
    }
}

/// How many lines of a script ask a host for a call; those that ask the setup host make the filesets.
#[tactic(auto, unfolding(crate::specs::Asks::call_lines))]
pub fn call_lines(script: &Script, host: u8) -> usize
    ensures { result ≡ call_lines script.now host }
{
    count_calls(&script.setup, host) + count_calls(&script.lines, host)
}

fn count_calls(lines: &Items<Line>, host: u8) -> usize
    ensures count { result ≡ count_by (is_call_of host) lines.now }
    ensures bound { result ≤ 9223372036854775807 }
{
    lines
        .as_slice()
        .iter()
        .filter(|line| is_call_of(host, line))
        .count()
}

fn is_call_of(host: u8, line: &Line) -> bool
    ensures { result ≡ is_call_of host line.now }
{
    match (line.node, &line.deed) {
        (Node::Host(id), Deed::Call(_)) => id.0 == host,
        _ => false,
    }
}
