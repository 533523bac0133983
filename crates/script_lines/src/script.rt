use base_types::{Items, Name, NoMemory, Node, Plain};
use tree_calls::{Call, Roster};

/// The greatest position, length or count that a line can have, where nothing else is said.
pub const NUMBER_MAX: u32 = 1_000_000;

/// The most messages that a network can lose, repeat or delay.
pub const NET_MAX: u32 = 1_000;

/// What a line asks of its node.
#[derive(Drop)]
pub enum Deed {
    /// A host makes a call.
    Call(Call),
    /// A flag is raised; one line alone raises it.
    Raise(Name),
    /// The node waits until a flag is raised.
    Await(Name),
    /// A host stops: what it hasn't stored is lost. It has no later line.
    Stop,
    /// A server restarts.
    Restart,
}

/// A line with a deed.
#[derive(Drop)]
pub struct Line {
    /// Its number in the script, from 1.
    pub number: u32,
    /// The node that does it.
    pub node: Node,
    /// What it does.
    pub deed: Deed,
}

/// What befalls a message.
#[derive(Clone, Copy)]
pub enum PlanDeed {
    /// It is dropped.
    Drop,
    /// It is released once a flag is raised.
    Hold,
    /// A second copy is released once a flag is raised.
    Again,
}

/// What befalls the `n`-th message of a kind between a host and a server.
#[derive(Drop)]
pub struct PlanLine {
    /// What befalls it.
    pub deed: PlanDeed,
    /// Who sends it.
    pub from: Node,
    /// Who receives it.
    pub to: Node,
    /// The number of its kind, 1 to 15 but not 14.
    pub kind: u8,
    /// Which message of that kind, from 1 to `NUMBER_MAX`; messages sent again are counted too.
    pub n: u32,
    /// The flag; none where the message is dropped.
    pub flag: Option<Name>,
}

/// A network that loses, repeats and delays messages, by numbers that follow from a seed.
#[derive(Clone, Copy)]
pub struct Net {
    /// The seed.
    pub seed: u64,
    /// How many messages it loses, at most `NET_MAX`.
    pub losses: u32,
    /// How many it repeats, at most `NET_MAX`.
    pub repeats: u32,
    /// How many it delays, at most `NET_MAX`.
    pub delays: u32,
}

/// A script: who takes part, what befalls messages, and what the nodes do.
#[derive(Drop)]
pub struct Script {
    /// How many servers there are, 1 to `SERVERS_MAX`.
    pub servers: u32,
    /// The users, hosts and capacities.
    pub roster: Roster,
    /// The calls of the setup host that make the filesets.
    pub setup: Items<Line>,
    /// What befalls single messages; the first line for a message decides.
    pub plan: Items<PlanLine>,
    /// What befalls the others; nothing where there is none.
    pub net: Option<Net>,
    /// What the nodes do, in the order of the lines.
    pub lines: Items<Line>,
}

impl Plain for Deed {
    fn copy(&self) -> Result<Deed, NoMemory> {
        Ok(match self {
            Deed::Call(call) => Deed::Call(call.copy()?),
            Deed::Raise(flag) => Deed::Raise(flag.copy()?),
            Deed::Await(flag) => Deed::Await(flag.copy()?),
            Deed::Stop => Deed::Stop,
            Deed::Restart => Deed::Restart,
        })
    }
}

impl Plain for Line {
    fn copy(&self) -> Result<Line, NoMemory> {
        Ok(Line {
            number: self.number,
            node: self.node,
            deed: self.deed.copy()?,
        })
    }
}

impl Plain for PlanLine {
    fn copy(&self) -> Result<PlanLine, NoMemory> {
        Ok(PlanLine {
            deed: self.deed,
            from: self.from,
            to: self.to,
            kind: self.kind,
            n: self.n,
            flag: self.flag.copy()?,
        })
    }
}
