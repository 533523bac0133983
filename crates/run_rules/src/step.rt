use crate::applied::{Admission, Answer, Applied, Leave};
use base_types::{Fid, Items, Name, Node};
use message_types::{Give, Message};
use token_types::Token;
use tree_calls::Call;

/// What makes a node do a step.
pub enum Cause {
    /// The node's next line, of this number, which isn't `restart`.
    Line(u32),
    /// The server's next line, of this number, which is `restart`.
    Restart(u32),
    /// A message came.
    Message(Message),
    /// It is time to send again what was sent in vain.
    Lapse,
    /// The host caches more tokens than it may.
    Evict,
    /// The host's lines have gone.
    End,
    /// What the server wrote down is on its disk.
    Flushed,
    /// A message of another server came.
    Freight(Message),
}

impl Drop for Cause {
    fn drop(self) {
        match self {
            Cause::Line(_) => {}
            Cause::Restart(_) => {}
            Cause::Message(_) => {}
            Cause::Lapse => {}
            Cause::Evict => {}
            Cause::End => {}
            Cause::Flushed => {}
            Cause::Freight(_) => {}
        }
    }
}

/// A call that a host begins, and doesn't answer at once.
pub struct Asked {
    /// The number of the call among the host's, from 1.
    pub k: u32,
    /// The call.
    pub call: Call,
}

impl Drop for Asked {
    fn drop(self) {
        let Asked { k: _, call: _ } = self;
    }
}

/// A label that comes into use: that of a lock for a lock token, that of an open file for an open token.
pub struct Labelled {
    /// The label.
    pub label: Name,
    /// The token.
    pub token: Token,
}

impl Drop for Labelled {
    fn drop(self) {
        let Labelled { label: _, token: _ } = self;
    }
}

/// What a node does at a time. A host does it in this order: it takes tokens, answers calls, makes give-backs, drops
/// tokens, sends. A server takes the cause, with what it stores and learns by it; it makes wants, writes Changes down
/// and lets a fileset leave, grants claims, sends to hosts and then to servers; and then its exporter takes tokens.
pub struct Step {
    /// The node.
    pub node: Node,
    /// What makes it do the step.
    pub cause: Cause,
    /// The call that the host begins and leaves open.
    pub asked: Option<Asked>,
    /// The tokens that the host takes.
    pub taken: Items<Token>,
    /// What the host itself answers.
    pub answers: Items<Answer>,
    /// The file whose unsaved changes an answered Write makes.
    pub wrote: Option<Fid>,
    /// The labels of locks and open files that come into use.
    pub begun: Items<Labelled>,
    /// The give-backs that the host makes; they may be sent later.
    pub made: Items<Give>,
    /// The tokens that leave the host.
    pub dropped: Items<Leave>,
    /// What the server stored and learnt by the cause, and then the wants that requests made, the Changes that it wrote
    /// down and the filesets that began to leave, in order.
    pub applied: Items<Applied>,
    /// The claims that the server grants.
    pub admitted: Items<Admission>,
    /// What the node sends, in order; a server, to hosts.
    pub sent: Items<Message>,
    /// What the server sends to other servers, in order, behind all that it sends to hosts.
    pub shipped: Items<Message>,
    /// The tokens that the server's exporter keeps until the Changes of the step are on the server's disk.
    pub reserved: Items<Token>,
}

impl Drop for Step {
    fn drop(self) {
        let Step {
            node: _,
            cause: _,
            asked: _,
            taken: _,
            answers: _,
            wrote: _,
            begun: _,
            made: _,
            dropped: _,
            applied: _,
            admitted: _,
            sent: _,
            shipped: _,
            reserved: _,
        } = self;
    }
}
