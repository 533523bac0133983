ghost use Rattle.std.specs.Prelude.{◌≡◌, ◌+◌, ◌≤◌, ◌<◌, ◌++◌, ◌&&◌, [], IfOk, OnOk, OnErr, false, if◌then◌else◌};
ghost use Rattle.std.specs.Prelude.{is_some, length, not, map};
ghost use Rattle.std.specs.Option.{option_map_or};
ghost use Rattle.base_types.specs.Lists.{changed_at};
ghost use Rattle.hub_board.specs.Follows.{with_gone, with_raised, if_flag, gone_in, place_of};
ghost use Rattle.script_lines.specs.Sound.{same_node};
ghost use Rattle.hub_board.specs.Follows.{setup_node, with_begun};
ghost use Rattle.hub_board.specs.Hubs.{with_sent, flagged, all_raised, tied, flags_of, flag_at, noted, has_ended};
ghost use Rattle.hub_board.specs.Hubs.{begins, flag_of};
ghost use Rattle.hub_board.specs.Hubs.{may_begin, gift_for, gift_in, given_of, without, follow_at};
ghost use Rattle.hub_board.specs.Hubs.{first_hub, nodes_of, servers_up_to};
ghost use Rattle.hub_board.specs.Follows.{follow_of};
ghost use Rattle.base_types.specs.declared.limits.TheConstants.{HOSTS_MAX, SERVERS_MAX};
ghost use Rattle.hub_board.specs.Turning.{entered, IsPrepared, IsUntouched, HasTurned};
ghost use Rattle.hub_board.specs.declared.follow.Follow.{Follow as FollowOf};

use crate::follow::{SETUP, gone_in};
use crate::follower::{Follower, place_of};
use crate::given::{Gift, Given, Turn};
use crate::pending::Pending;
use crate::tie::{Tie, are_loose, no_ties, take_step};
use base_types::{HostId, Items, Name, NoMemory, Node, ServerId};
use hub_wire::Wire;
use run_rules::Step;
use script_lines::{Script, same_node};
use std::marker::Model;
use std::mem;

/// What lies in the hub of a run: the turns that nodes took, in order, and what they have come to, which are the
/// network, how far each node's lines are, and what the setup host has with the servers. Nodes take turns at it one at
/// a time.
#[derive(Drop)]
pub struct Board {
    turns: Vec<Turn>,
    wire: Wire,
    follows: Items<Follower>,
    ties: Items<Tie>,
}

impl Model for Board {
    ghost use Rattle.std.specs.Prelude.{◌≡◌, ◌-◌, vec_len, vec_capacity};
    ghost use Rattle.hub_board.specs.Turning.{Posted};

    ghost Value = { Posted };

    ghost view = { λ s. record {
      turns = s.turns.items;
      hub = record { net = s.wire.counted; follows = s.follows; ties = s.ties };
      spare = vec_capacity s.turns - vec_len s.turns;
    } };

    ghost invariant = { λ s. s.wire.ready ≡ s.wire.counted };
}

// Sends what these steps send. On an error nothing changes.
#[tactic(auto, using(crate::proofs::Steps::sent_more))]
fn post(wire: &mut Wire, steps: &[Step]) -> Result<(), NoMemory>
    requires { wire.old.ready ≡ wire.old.counted }
    ensures ok { let net = with_sent wire.old.counted steps.now in
        OnOk result (wire.new ≡ record { counted = net; ready = net }) }
    ensures err { OnErr result (wire.new ≡ wire.old) }
{
    for step in steps {
        wire.ready(step.sent.as_slice())?;
    }
    wire.accept();
    Ok(())
}

#[tactic(auto, using(base_types::proofs::ChangedLists::changes))]
fn let_go(follows: &mut Items<Follower>, node: Node, count: usize)
    ensures { follows.new ≡ changed_at follows.old (place_of follows.old node) (with_gone count) }
{
    let place = place_of(follows.as_slice(), node);
    if place < follows.len() {
        follows.get_mut(place).go(count);
    }
}

#[tactic(auto, using(crate::proofs::Mapped::maps))]
fn raise_at(follows: &mut Items<Follower>, flag: &Name)
    ensures { follows.new ≡ map (with_raised flag.now) follows.old }
{
    for place in 0..follows.len() {
        follows.get_mut(place).raise(flag);
    }
}

#[tactic(auto, using(crate::proofs::Steps::raised_more))]
fn raise_all_at(follows: &mut Items<Follower>, flags: &[Name])
    ensures { follows.new ≡ all_raised flags.now follows.old }
{
    for flag in flags {
        raise_at(follows, flag);
    }
}

#[tactic(auto, using(crate::proofs::Steps::flagged_more))]
fn raise_all_in(wire: &mut Wire, flags: &[Name])
    requires { wire.old.ready ≡ wire.old.counted }
    ensures { let net = flagged flags.now wire.old.counted in wire.new ≡ record { counted = net; ready = net } }
{
    for flag in flags {
        wire.raised(flag);
    }
}

#[tactic(auto, using(crate::proofs::Steps::tied_more))]
fn tie_all(ties: &mut Items<Tie>, steps: &[Step])
    ensures { ties.new ≡ tied ties.old steps.now }
{
    for step in steps {
        take_step(ties, &step.cause, step.sent.as_slice());
    }
}

fn tie(ties: &mut Items<Tie>, node: Node, steps: &[Step])
    ensures { ties.new ≡ (if same_node node setup_node then tied ties.old steps.now else ties.old) }
{
    if same_node(node, SETUP) {
        tie_all(ties, steps);
    }
}

// Hands out the flag for which the node's next line waits, where it was raised.
#[tactic(auto, using(base_types::proofs::ChangedLists::changes))]
fn take_flag(follows: &mut Items<Follower>, node: Node) -> Option<Name>
    ensures flag { result ≡ flag_at follows.old (place_of follows.old node) }
    ensures rest { follows.new ≡ changed_at follows.old (place_of follows.old node) if_flag }
{
    let place = place_of(follows.as_slice(), node);
    if place >= follows.len() {
        return None;
    }
    follows.get_mut(place).take_flag()
}

// Whether a node is one that is to be told once that the setup host has ended.
fn may_begin(node: Node) -> bool
    ensures { result ≡ may_begin node }
{
    match node {
        Node::Host(host) => host.0 != 0,
        Node::Server(_) => false,
    }
}

#[tactic(auto, using(base_types::proofs::ChangedLists::changes))]
fn begin(follows: &mut Items<Follower>, node: Node)
    ensures { follows.new ≡ changed_at follows.old (place_of follows.old node) with_begun }
{
    let place = place_of(follows.as_slice(), node);
    if place < follows.len() {
        follows.get_mut(place).begin();
    }
}

/// Who takes part in a script: the setup host, the other hosts, the servers. The only error is that memory ran out.
pub fn nodes_of(script: &Script) -> Result<Items<Node>, NoMemory>
    requires hosts { length script.now.roster.hosts ≤ HOSTS_MAX }
    requires servers { script.now.servers ≤ SERVERS_MAX }
    ensures { IfOk result (λ nodes. nodes ≡ nodes_of script.now) }
{
    let mut nodes = Items::new(script.lines.alloc());
    nodes.push(SETUP)?;
    for before in 0..script.roster.hosts.len() {
        nodes.push(Node::Host(HostId(before as u8 + 1)))?;
    }
    add_servers(&mut nodes, script.servers)?;
    Ok(nodes)
}

fn add_servers(nodes: &mut Items<Node>, servers: u32) -> Result<(), NoMemory>
    requires { servers ≤ SERVERS_MAX }
    ensures { OnOk result (nodes.new ≡ nodes.old ++ servers_up_to servers) }
{
    for before in 0..servers {
        nodes.push(Node::Server(ServerId(before as u8 + 1)))?;
    }
    Ok(())
}

fn follows_of(script: &Script, nodes: &[Node]) -> Result<Items<Follower>, NoMemory>
    ensures { IfOk result (λ follows. follows ≡ map (follow_of script.now) nodes.now) }
{
    let mut follows = Items::new(script.lines.alloc());
    for node in nodes {
        follows.push(Follower::new(script, *node)?)?;
    }
    Ok(follows)
}

impl Board {
    /// The board at the start of a script, where these servers keep room for filesets that moved away. The only error
    /// is that memory ran out.
    pub fn new(script: &Script, rooms: &[ServerId]) -> Result<Board, NoMemory>
        requires hosts { length script.now.roster.hosts ≤ HOSTS_MAX }
        requires servers { script.now.servers ≤ SERVERS_MAX }
        ensures { IfOk result (λ board. (board.turns ≡ []) × (board.hub ≡ first_hub script.now rooms.now)) }
    {
        let alloc = script.lines.alloc();
        let nodes = nodes_of(script)?;
        let ties = no_ties(alloc)?;
        let wire = Wire::new(script, rooms)?;
        let follows = follows_of(script, nodes.as_slice())?;
        Ok(Board {
            turns: Vec::new(alloc),
            wire,
            follows,
            ties,
        })
    }

    // What steps send is on its way, and there is room for a turn; answers the flags that they raise. On an error
    // nothing was handed in.
    fn prepare(&mut self, node: Node, steps: &[Step]) -> Result<Items<Name>, NoMemory>
        ensures flags { IfOk result (λ flags. flags ≡ flags_of self.old.hub node steps.now) }
        ensures ok { OnOk result (IsPrepared self.old self.new steps.now) }
        ensures err { OnErr result (IsUntouched self.old self.new) }
    {
        self.turns.reserve(1)?;
        let flags = self.flags_of(node, steps)?;
        post(&mut self.wire, steps)?;
        Ok(flags)
    }

    fn flags_of(&self, node: Node, steps: &[Step]) -> Result<Items<Name>, NoMemory>
        ensures { IfOk result (λ flags. flags ≡ flags_of self.now.hub node steps.now) }
    {
        match self.follows.at(place_of(self.follows.as_slice(), node)) {
            Some(follower) => follower.as_follow().flags_next(gone_in(steps)),
            None => Ok(Items::new(self.follows.alloc())),
        }
    }

    // Lets lines go, raises flags, and notes what the setup host has with servers.
    fn note(&mut self, node: Node, steps: &[Step], flags: &[Name])
        ensures { self.new ≡ record self.old { hub = noted self.old.hub node steps.now flags.now } }
    {
        let_go(&mut self.follows, node, gone_in(steps));
        raise_all_at(&mut self.follows, flags);
        raise_all_in(&mut self.wire, flags);
        tie(&mut self.ties, node, steps);
    }

    // Whether the setup host has ended.
    fn has_ended(&self) -> bool
        ensures { result ≡ has_ended self.now.hub }
    {
        match self.follows.at(0) {
            Some(setup) => setup.as_follow().is_through() && are_loose(&self.ties),
            None => false,
        }
    }

    // Whether a node is to be told that the setup host has ended.
    fn begins(&self, node: Node) -> bool
        ensures { result ≡ (may_begin node && begins self.now.hub node) }
    {
        may_begin(node) && self.has_ended() && self.is_waiting(node)
    }

    fn is_waiting(&self, node: Node) -> bool
        ensures { result ≡ option_map_or (λ (f : FollowOf). not f.begun) (follow_at self.now.hub node) false }
    {
        match self.follows.at(place_of(self.follows.as_slice(), node)) {
            Some(follower) => !follower.as_follow().begun,
            None => false,
        }
    }

    /// The turns that handed steps in, or were given something, in order. It takes no memory.
    pub fn turns(&self) -> &[Turn]
        ensures { result.now ≡ self.now.turns }
    {
        self.turns.as_slice()
    }

    /// Hands the turns out. It takes no memory.
    pub fn into_turns(self) -> Items<Turn>
        ensures { result ≡ self.turns }
    {
        Items::from_vec(self.turns)
    }

    // Whether the flag was raised for which the node's next line waits.
    fn has_flag(&self, node: Node) -> bool
        ensures { result ≡ is_some (flag_of self.now.hub node) }
    {
        match self.follows.at(place_of(self.follows.as_slice(), node)) {
            Some(follower) => follower.as_follow().has_flag(),
            None => false,
        }
    }

    /// Whether there is something for a node: what it is given in a turn that hands nothing in.
    #[tactic(auto, using(crate::proofs::Giving::some_gift))]
    pub fn has_gift(&self, node: Node) -> bool
        ensures { result ≡ is_some (gift_for self.now.hub node) }
    {
        self.wire.has_copy(node)
            || self.begins(node)
            || self.has_flag(node)
            || self.wire.has_lapse(node)
    }

    // Gives the first that there is for a node.
    fn give(&mut self, node: Node) -> Option<Given>
        ensures given { result ≡ given_of self.old.hub node (gift_for self.old.hub node) }
        ensures rest { self.new ≡ record self.old { hub = without (gift_for self.old.hub node) node self.old.hub } }
    {
        if let Some(message) = self.wire.take_copy(node) {
            return Some(Given::Message(message));
        }
        if self.begins(node) {
            begin(&mut self.follows, node);
            return Some(Given::Begun);
        }
        if let Some(flag) = take_flag(&mut self.follows, node) {
            return Some(Given::Raised(flag));
        }
        if self.wire.take_lapse(node) {
            return Some(Given::Lapse);
        }
        None
    }

    // Enters a turn in the list, where it handed steps in or was given something.
    fn enter(&mut self, node: Node, steps: Items<Step>, gift: Option<Gift>)
        requires { 0 < self.old.spare }
        ensures turns { self.new.turns ≡ self.old.turns ++ entered node steps gift }
        ensures hub { self.new.hub ≡ self.old.hub }
    {
        if steps.is_empty() && gift.is_none() {
            return;
        }
        self.turns.push_reserved(Turn { node, steps, gift });
    }

    /// A node hands its steps in, and is given the first that there is for it: the earliest copy that may arrive; that
    /// the setup host has ended, once to each other host; the flag for which its next line waits, once; a lapse. None
    /// is given exactly where there is none of them. The steps are then entered in the list, each once, in order, and
    /// none is left. The only error is that memory ran out; then nothing was handed in or given, and the steps stay.
    pub fn turn(&mut self, node: Node, steps: &mut Pending) -> Result<Option<Given>, NoMemory>
        ensures turned { IfOk result (λ given. HasTurned self.old self.new node steps.old.steps given) }
        ensures left { OnOk result (steps.new.steps ≡ []) }
        ensures stays { OnErr result (IsUntouched self.old self.new) }
        ensures kept { OnErr result (steps.new ≡ steps.old) }
    {
        let flags = self.prepare(node, steps.as_slice())?;
        self.note(node, steps.as_slice(), flags.as_slice());
        let given = self.give(node);
        let handed = mem::replace(steps, Pending::new(flags.alloc()));
        self.enter(node, handed.into_items(), gift_in(&given));
        Ok(given)
    }
}

fn gift_in(given: &Option<Given>) -> Option<Gift>
    ensures { result ≡ gift_in given.now }
{
    match given {
        Some(Given::Message(_)) => Some(Gift::Message),
        Some(Given::Begun) => Some(Gift::Begun),
        Some(Given::Raised(_)) => Some(Gift::Raised),
        Some(Given::Lapse) => Some(Gift::Lapse),
        None => None,
    }
}
