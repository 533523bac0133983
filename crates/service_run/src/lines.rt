ghost use Rattle.std.specs.Prelude.{◌≡◌, ◌<◌, ◌++◌, codes, decimal, length, slice_index_or, IfOk, OnOk};
ghost use Rattle.service_hosts.specs.Runs.{setup_node};
ghost use Rattle.service_hosts.specs.Runs.{nodes_of};
ghost use Rattle.script_lines.specs.Sound.{IsSound};
ghost use Rattle.service_run.specs.Lines.{usage_line, input_line, no_aggregate_line};
ghost use Rattle.service_run.specs.Lines.{why_text, refusal_text, refusal_line};
ghost use Rattle.service_run.specs.Lines.{behind_word, has_gone, last_gone, node_word, stuck_line};

use base_types::{HostId, Items, NoMemory, Node, ServerId};
use itoa::Buffer;
use script_lines::{Line, Script};
use script_reader::{ScriptRefused, same_node};
use script_words::BadWhy;
use std::alloc::Global;

/// The line where the words aren't in the grammar.
#[tactic(auto, unfolding(crate::specs::Lines::usage_line))]
pub(crate) fn usage_line() -> &'static [u8]
    ensures { result.now ≡ usage_line }
{
    b"usage: dfs_run run [--journal FILE] [--json] [--workers N] [DISK ...] \
      | gen SEED HOSTS CALLS [--workers N] | check DISK [DISK ...] [--workers N]\n"
}

/// The line where the source failed.
#[tactic(auto, unfolding(crate::specs::Lines::input_line))]
pub(crate) fn input_line() -> &'static [u8]
    ensures { result.now ≡ input_line }
{
    b"refused: read fault\n"
}

/// The line where disk K, from 1, is no aggregate that can be run, and the place in bytes that shows it.
#[tactic(auto, unfolding(crate::specs::Lines::no_aggregate_line))]
pub(crate) fn no_aggregate_line(
    alloc: Global,
    number: usize,
    place: u64,
) -> Result<Items<u8>, NoMemory>
    ensures { IfOk result (λ line. line ≡ no_aggregate_line number place) }
{
    let mut line = Items::new(alloc);
    line.extend(b"refused: disk ")?;
    line.extend(Buffer::new().format(number).as_bytes())?;
    line.extend(b" is no aggregate at ")?;
    line.extend(Buffer::new().format(place).as_bytes())?;
    line.push(b'\n')?;
    Ok(line)
}

// The node at a place of a script, the setup host first.
fn node_at(script: &Script, place: usize) -> Node
    requires sound { IsSound script.now }
    requires within { place < length (nodes_of script.now) }
    ensures { result ≡ slice_index_or (nodes_of script.now) place setup_node }
{
    let hosts = script.roster.hosts.len() + 1;
    if place < hosts {
        let host = place as u8;
        Node::Host(HostId(host))
    } else {
        let server = (place - hosts) as u8;
        Node::Server(ServerId(server + 1))
    }
}

// Whether a line is a node's and went, where this is the number of the node's next line, if one is left.
fn has_gone(line: &Line, node: Node, next: Option<u32>) -> bool
    ensures { result ≡ has_gone node next line.now }
{
    match next {
        Some(next) => same_node(line.node, node) && line.number < next,
        None => same_node(line.node, node),
    }
}

// The number of the last of these lines that a node went, where this is the number of its next.
fn last_gone(lines: &[Line], node: Node, next: Option<u32>) -> Option<u32>
    ensures { result ≡ last_gone node next lines.now }
{
    let mut last = None;
    for line in lines {
        if has_gone(line, node, next) {
            last = Some(line.number);
        }
    }
    last
}

// The number of the last line of a script that a node went, where this is the number of its next.
fn last_of(script: &Script, node: Node, next: Option<u32>) -> Option<u32>
    ensures { result ≡ last_gone node next (script.now.setup ++ script.now.lines) }
{
    match last_gone(script.lines.as_slice(), node, next) {
        Some(number) => Some(number),
        None => last_gone(script.setup.as_slice(), node, next),
    }
}

fn push_node(line: &mut Items<u8>, node: Node) -> Result<(), NoMemory>
    ensures { OnOk result (line.new ≡ line.old ++ node_word node) }
{
    match node {
        Node::Host(host) => {
            line.push(b'c')?;
            line.extend(Buffer::new().format(host.0).as_bytes())
        }
        Node::Server(server) => {
            line.push(b's')?;
            line.extend(Buffer::new().format(server.0).as_bytes())
        }
    }
}

fn push_behind(line: &mut Items<u8>, number: Option<u32>) -> Result<(), NoMemory>
    ensures { OnOk result (line.new ≡ line.old ++ behind_word number) }
{
    match number {
        Some(number) => push_last(line, number),
        None => Ok(()),
    }
}

fn push_last(line: &mut Items<u8>, number: u32) -> Result<(), NoMemory>
    ensures { OnOk result (line.new ≡ line.old ++ codes " behind line " ++ decimal number) }
{
    line.extend(b" behind line ")?;
    line.extend(Buffer::new().format(number).as_bytes())
}

/// The line where hosts and servers came to no end, and the node at this place isn't done, whose next line has this
/// number, where one is left.
#[tactic(auto, unfolding(crate::specs::Lines::stuck_line))]
pub(crate) fn stuck_line(
    alloc: Global,
    script: &Script,
    place: usize,
    next: Option<u32>,
) -> Result<Items<u8>, NoMemory>
    requires sound { IsSound script.now }
    requires within { place < length (nodes_of script.now) }
    ensures { IfOk result (λ line. line ≡ stuck_line script.now place next) }
{
    let node = node_at(script, place);
    let number = last_of(script, node, next);
    let mut line = Items::new(alloc);
    line.extend(b"stuck: ")?;
    push_node(&mut line, node)?;
    push_behind(&mut line, number)?;
    line.push(b'\n')?;
    Ok(line)
}

/// The line where a script is refused.
#[tactic(auto, unfolding(crate::specs::Lines::refusal_line))]
pub(crate) fn refusal_line(alloc: Global, refusal: ScriptRefused) -> Result<Items<u8>, NoMemory>
    ensures { IfOk result (λ line. line ≡ refusal_line refusal) }
{
    let mut line = Items::new(alloc);
    line.extend(b"refused: ")?;
    push_refusal(&mut line, refusal)?;
    line.push(b'\n')?;
    Ok(line)
}

#[tactic(auto, unfolding(crate::specs::Lines::refusal_text))]
fn push_refusal(line: &mut Items<u8>, refusal: ScriptRefused) -> Result<(), NoMemory>
    ensures { OnOk result (line.new ≡ line.old ++ refusal_text refusal) }
{
    match refusal {
        ScriptRefused::BadLine(number, why) => {
            push_number(line, number)?;
            line.extend(why_text(why))
        }
        ScriptRefused::Stuck(number) => {
            push_number(line, number)?;
            line.extend(b"stuck")
        }
        ScriptRefused::Memory => line.extend(b"memory ran out"),
    }
}

fn push_number(line: &mut Items<u8>, number: u32) -> Result<(), NoMemory>
    ensures { OnOk result (line.new ≡ line.old ++ codes "line " ++ decimal number ++ codes ": ") }
{
    line.extend(b"line ")?;
    line.extend(Buffer::new().format(number).as_bytes())?;
    line.extend(b": ")
}

#[tactic(auto, unfolding(crate::specs::Lines::why_text))]
fn why_text(why: BadWhy) -> &'static [u8]
    ensures { result.now ≡ why_text why }
{
    match why {
        BadWhy::Long => b"long",
        BadWhy::Text => b"text",
        BadWhy::Word => b"word",
        BadWhy::Number => b"number",
        BadWhy::BadName => b"name",
        BadWhy::BadList => b"list",
        BadWhy::Undeclared => b"undeclared",
        BadWhy::Repeated => b"repeated",
        BadWhy::Order => b"order",
        BadWhy::Stopped => b"stopped",
        BadWhy::Disks => b"disks",
        BadWhy::Lines => b"lines",
    }
}
