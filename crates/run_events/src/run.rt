//! What can be seen of a run.

use crate::asking::Wait;
use crate::files::Files;
use crate::holds::Hold;
use crate::ways::Arrow;
use run_words::FileId;

/// A node's line.
#[derive(Clone, Copy, PartialEq, Eq)]
pub enum Lane {
    /// That of a host.
    Host(u64),
    /// That of a server.
    Server(u64),
}

/// By what a step is shown.
#[derive(Clone, Copy)]
pub enum Sign {
    /// A line, which a host's stop isn't.
    Line,
    /// A message was taken.
    Message,
    /// Time passed, a token was evicted, or what was written down is on the disk.
    Own,
    /// A server starts anew.
    Restart,
    /// A host goes down.
    Stop,
    /// A host's lines have gone.
    End,
}

/// How a step is about a call.
#[derive(Clone, Copy, PartialEq, Eq)]
pub enum How {
    /// A host begins it, and waits.
    Begun,
    /// A host answers it in the step that begins it: from its cache.
    Cached,
    /// A host answers it later, or learns its reply.
    Answered,
    /// A server decides it.
    Decided,
}

/// A call beside a node's line.
#[derive(Drop)]
pub struct Said {
    /// The call, and its reply where there is one.
    pub words: String,
    /// How the step is about it.
    pub how: How,
}

/// A step.
pub struct Event {
    /// Where it is.
    pub lane: Lane,
    /// By what it is shown.
    pub sign: Sign,
    /// What caused it.
    pub title: String,
    /// The calls that it begins and answers.
    pub said: Vec<Said>,
    /// The paths of these calls.
    pub paths: Vec<String>,
    /// The files that its tokens and messages are about.
    pub files: Vec<FileId>,
}

impl Drop for Event {
    fn drop(self) {
        let Event {
            lane: _,
            sign: _,
            title: _,
            said: _,
            paths: _,
            files: _,
        } = self;
    }
}

/// What can be seen of a run.
pub struct Run {
    /// How many hosts there are, beside the setup host.
    pub hosts: u64,
    /// How many servers there are.
    pub servers: u64,
    /// The steps.
    pub events: Vec<Event>,
    /// The messages, as they were sent.
    pub arrows: Vec<Arrow>,
    /// The tokens, as they were taken.
    pub holds: Vec<Hold>,
    /// The calls that hosts waited for, as they began.
    pub waits: Vec<Wait>,
    /// Which files have which paths.
    pub files: Files,
}

impl Drop for Run {
    fn drop(self) {
        let Run {
            hosts: _,
            servers: _,
            events: _,
            arrows: _,
            holds: _,
            waits: _,
            files: _,
        } = self;
    }
}
