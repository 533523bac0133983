//! The calls of hosts: which are open, and where each gets its reply.

use crate::run::{How, Said};
use run_words::{Text, case_of, is_true_at, number_at, put_call, put_reply};
use serde_json::Value;
use std::alloc::{AllocError, Global};
use std::collections::BTreeMap;

/// A call that a host waits for.
#[derive(Drop)]
pub struct Wait {
    /// The host.
    pub host: u64,
    /// The place of the step that began it, from 0.
    pub from: usize,
    /// The place of the step where it was answered, or where the host went down.
    pub until: Option<usize>,
    /// The call.
    pub words: String,
}

// A call that a host began and that isn't answered.
#[derive(Drop)]
struct Open {
    // Its number among the host's calls.
    k: u64,
    // The number of the request or the give-back that tells a server of it, or 0.
    number: u64,
    // The call with its reply, once a server has decided it.
    decided: Option<String>,
    // Its place among those that hosts waited for.
    place: usize,
}

/// The calls of hosts.
#[derive(Drop)]
pub(crate) struct Asking {
    // Those that were begun last, by host: a host has at most one that is open.
    open: BTreeMap<u64, Open>,
    // Those that hosts waited for.
    waits: Vec<Wait>,
}

impl Asking {
    /// None is open.
    pub(crate) fn new(alloc: Global) -> Asking {
        Asking {
            open: BTreeMap::new(alloc),
            waits: Vec::new(alloc),
        }
    }

    /// The calls that hosts waited for.
    pub(crate) fn into_waits(self) -> Vec<Wait> {
        let Asking { open: _, waits } = self;
        waits
    }

    /// A host begins a call, and leaves it open.
    pub(crate) fn ask(
        &mut self,
        alloc: Global,
        host: u64,
        asked: &Value,
        step: usize,
    ) -> Result<(), AllocError> {
        let open = Open {
            k: number_at(asked, "k").unwrap_or(0),
            number: 0,
            decided: None,
            place: self.waits.len(),
        };
        self.open.insert(host, open)?;
        let wait = Wait {
            host,
            from: step,
            until: None,
            words: call_words(alloc, asked)?,
        };
        self.waits.push(wait)?;
        Ok(())
    }

    /// A host answers its open call, or goes down: it waits no more.
    pub(crate) fn end_wait(&mut self, host: u64, step: usize) {
        if let Some(open) = self.open.get(&host) {
            if let Some(wait) = self.waits.get_mut(open.place) {
                if wait.until.is_none() {
                    wait.until = Some(step);
                }
            }
        }
    }

    /// A host tells a server of the call `k` under a number.
    pub(crate) fn tell(&mut self, host: u64, k: Option<u64>, number: Option<u64>) {
        if let Some(open) = self.open.get_mut(&host) {
            if Some(open.k) == k {
                open.number = number.unwrap_or(0);
            }
        }
    }

    /// A server decides a call.
    pub(crate) fn decide(&mut self, alloc: Global, answer: &Value) -> Result<(), AllocError> {
        let words = answer_words(alloc, answer)?;
        let host = number_at(answer, "host").unwrap_or(0);
        if let Some(open) = self.open.get_mut(&host) {
            if Some(open.k) == number_at(answer, "k") {
                open.decided = Some(words);
            }
        }
        Ok(())
    }

    /// What a host learns of its open call by a message of this body: the call with its reply, if it is that of this
    /// call, which then isn't open any more.
    pub(crate) fn learn(&mut self, host: u64, body: &Value) -> Option<String> {
        let number = told_number(body)?;
        let open = self.open.get_mut(&host)?;
        if open.number != number {
            return None;
        }
        open.decided.take()
    }
}

// The number of the request that a `done` answers by a reply, or of the give-back that is gone.
fn told_number(body: &Value) -> Option<u64> {
    match case_of(body)? {
        ("done", done) => {
            let _ = done.pointer("/outcome/reply")?;
            number_at(done.get("bring")?, "number")
        }
        ("gone", gone) => number_at(gone, "number"),
        _ => None,
    }
}

/// A call that is begun and left open.
pub(crate) fn begun(alloc: Global, asked: &Value) -> Result<Said, AllocError> {
    let mut text = Text::new(alloc);
    put_asked(&mut text, asked);
    text.word(" ..");
    Ok(Said {
        words: text.into_text()?,
        how: How::Begun,
    })
}

fn call_words(alloc: Global, asked: &Value) -> Result<String, AllocError> {
    let mut text = Text::new(alloc);
    put_asked(&mut text, asked);
    text.into_text()
}

fn put_asked(text: &mut Text, asked: &Value) {
    if let Some(call) = asked.get("call") {
        put_call(text, call);
    }
}

/// What a host answers.
pub(crate) fn answered(alloc: Global, answer: &Value) -> Result<Said, AllocError> {
    let is_cached = is_true_at(answer, "first");
    Ok(Said {
        words: answer_words(alloc, answer)?,
        how: if is_cached {
            How::Cached
        } else {
            How::Answered
        },
    })
}

/// What a server decides of a host's call.
pub(crate) fn decided(alloc: Global, answer: &Value) -> Result<Said, AllocError> {
    let mut text = Text::new(alloc);
    text.word("c");
    text.number(number_at(answer, "host").unwrap_or(0));
    text.word(": ");
    put_answer(&mut text, answer);
    Ok(Said {
        words: text.into_text()?,
        how: How::Decided,
    })
}

// A call with its reply, as `read /home/f 0 9 = ok "one"`.
fn answer_words(alloc: Global, answer: &Value) -> Result<String, AllocError> {
    let mut text = Text::new(alloc);
    put_answer(&mut text, answer);
    text.into_text()
}

fn put_answer(text: &mut Text, answer: &Value) {
    if let Some(call) = answer.get("call") {
        put_call(text, call);
    }
    text.word(" = ");
    if let Some(reply) = answer.get("reply") {
        put_reply(text, reply);
    }
}
