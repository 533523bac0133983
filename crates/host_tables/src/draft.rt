ghost use Rattle.std.specs.Prelude.{◌≡◌};
ghost use Rattle.run_rules.specs.Steps.{bare};
ghost use Rattle.host_tables.specs.Drafts.{no_draft, step_of};

use base_types::{Fid, FilesetId, Items, Node};
use message_types::{Give, Message};
use run_rules::{Answer, Asked, Cause, Labelled, Leave, Step};
use std::alloc::Global;
use token_types::Token;

/// A host's step in the making.
#[derive(Drop)]
pub struct Draft {
    pub asked: Option<Asked>,
    pub taken: Items<Token>,
    pub answers: Items<Answer>,
    pub wrote: Option<Fid>,
    pub begun: Items<Labelled>,
    pub made: Items<Give>,
    pub dropped: Items<Leave>,
    pub sent: Items<Message>,
    /// The filesets of which a give-back became outstanding, which hasn't been sent yet.
    pub due: Items<FilesetId>,
}

impl Draft {
    /// Nothing is done. It takes no memory.
    pub fn new(alloc: Global) -> Draft
        ensures { result ≡ no_draft }
    {
        Draft {
            asked: None,
            taken: Items::new(alloc),
            answers: Items::new(alloc),
            wrote: None,
            begun: Items::new(alloc),
            made: Items::new(alloc),
            dropped: Items::new(alloc),
            sent: Items::new(alloc),
            due: Items::new(alloc),
        }
    }

    /// The step, of a node and a cause. It takes no memory.
    pub fn into_step(self, alloc: Global, node: Node, cause: Cause) -> Step
        ensures { result ≡ step_of node cause self }
    {
        Step {
            node,
            cause,
            asked: self.asked,
            taken: self.taken,
            answers: self.answers,
            wrote: self.wrote,
            begun: self.begun,
            made: self.made,
            dropped: self.dropped,
            applied: Items::new(alloc),
            admitted: Items::new(alloc),
            sent: self.sent,
            shipped: Items::new(alloc),
            reserved: Items::new(alloc),
        }
    }
}

/// A step in which nothing happens but its cause. It takes no memory.
pub fn bare_step(alloc: Global, node: Node, cause: Cause) -> Step
    ensures { result ≡ bare node cause }
{
    Draft::new(alloc).into_step(alloc, node, cause)
}
