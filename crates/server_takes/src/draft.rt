ghost use Rattle.std.specs.Prelude.{◌≡◌, OnOk};
ghost use Rattle.base_types.specs.declared.ids.Node.TheVariants.{Server};
ghost use Rattle.run_rules.specs.Steps.{bare};
ghost use Rattle.server_takes.specs.Drafts.{no_draft, saying, step_of, word};

use base_types::{HostId, Items, NoMemory, Node, ServerId};
use message_types::{Body, Direction, Message};
use run_rules::{Admission, Applied, Cause, Step};
use server_tables::Tables;
use std::alloc::Global;

/// A step in the making.
#[derive(Drop)]
pub struct Draft {
    pub applied: Items<Applied>,
    pub admitted: Items<Admission>,
    pub sent: Items<Message>,
    /// The number of the want that the step's request made.
    pub fresh: Option<u64>,
}

impl Draft {
    /// Nothing so far. It takes no memory.
    pub fn new(alloc: Global) -> Draft
        ensures { result ≡ no_draft }
    {
        Draft {
            applied: Items::new(alloc),
            admitted: Items::new(alloc),
            sent: Items::new(alloc),
            fresh: None,
        }
    }

    /// The server says something to a host.
    pub fn say(&mut self, tables: &Tables, host: HostId, body: Body) -> Result<(), NoMemory>
        ensures { OnOk result (self.new ≡ saying self.old (word tables.now host body)) }
    {
        self.sent.push(Message {
            direction: Direction::ToHost,
            host,
            server: tables.server,
            epoch: tables.hosts.epoch,
            moves: 0,
            body,
        })
    }

    /// The step of a server, with its cause.
    pub fn into_step(self, server: ServerId, cause: Cause) -> Step
        ensures { result ≡ step_of server cause self }
    {
        let alloc = self.sent.alloc();
        Step {
            node: Node::Server(server),
            cause,
            asked: None,
            taken: Items::new(alloc),
            answers: Items::new(alloc),
            wrote: None,
            begun: Items::new(alloc),
            made: Items::new(alloc),
            dropped: Items::new(alloc),
            applied: self.applied,
            admitted: self.admitted,
            sent: self.sent,
            shipped: Items::new(alloc),
            reserved: Items::new(alloc),
        }
    }
}

/// A step in which nothing happens but its cause.
pub fn bare(alloc: Global, server: ServerId, cause: Cause) -> Step
    ensures { result ≡ bare (Server server) cause }
{
    Draft::new(alloc).into_step(server, cause)
}
