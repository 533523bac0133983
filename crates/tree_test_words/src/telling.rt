//! Replies and losses as text.

use anyhow::{Result, bail};
use base_types::{AccessList, Items, Name, Rights, Who};
use std::alloc::Global;
use tree_calls::{Facts, Loss, Refusal, Reply};

/// A line that is written part by part. What finds no memory is noted, and told at the end.
#[derive(Drop)]
pub struct Text {
    line: String,
    failed: bool,
}

impl Text {
    /// An empty line.
    pub fn new(alloc: Global) -> Text {
        Text {
            line: String::new(alloc),
            failed: false,
        }
    }

    /// Writes words.
    pub fn word(&mut self, word: &str) {
        let written = self.line.push_str(word);
        self.failed |= written.is_err();
    }

    /// Writes words, and a number behind them.
    pub fn number(&mut self, word: &str, number: u64) {
        self.word(word);
        let line = &mut self.line;
        let written = write!(line, "{number}");
        self.failed |= written.is_err();
    }

    /// Writes words, and bytes behind them, of which only letters and the like are wanted here; a zero is a dot.
    pub fn plain(&mut self, word: &str, bytes: &[u8]) {
        self.word(word);
        for byte in bytes {
            let letter = if *byte == 0 { '.' } else { char::from(*byte) };
            let written = self.line.push(letter);
            self.failed |= written.is_err();
        }
    }

    fn names(&mut self, word: &str, names: &Items<Name>) {
        for name in names.as_slice() {
            self.plain(word, name.as_bytes());
        }
    }

    /// The line, if all of it was written.
    pub fn line(self) -> Result<String> {
        if self.failed {
            bail!("no memory");
        }
        Ok(self.line)
    }
}

/// Writes a reply as the rows have it.
pub fn push_reply(text: &mut Text, reply: &Reply) {
    match reply {
        Reply::Ok => text.word("ok"),
        Reply::Bytes(bytes) => {
            text.plain("ok \"", bytes.as_slice());
            text.word("\"");
        }
        Reply::Names(names) => {
            text.word("ok");
            text.names(" ", names);
        }
        Reply::Facts(facts) => push_facts(text, facts),
        Reply::Access(list) => {
            text.word("ok");
            push_list(text, list);
        }
        Reply::Refused(refusal) => push_refusal(text, *refusal),
    }
}

/// Writes losses, one behind another.
pub fn push_losses(text: &mut Text, losses: &Items<Loss>) {
    let mut apart = "";
    for loss in losses.as_slice() {
        text.word(apart);
        push_loss(text, loss);
        apart = " ";
    }
}

fn push_loss(text: &mut Text, loss: &Loss) {
    text.names("/", &loss.path);
    if let Some(span) = loss.span {
        text.number(" ", u64::from(span.from));
        text.number(" ", u64::from(span.to));
    }
    if let Some(length) = loss.length {
        text.number(" length ", u64::from(length));
    }
}

fn push_facts(text: &mut Text, facts: &Facts) {
    text.word(if facts.dir { "ok dir" } else { "ok file" });
    text.number(" ", u64::from(facts.length));
    text.plain(" ", facts.owner.as_bytes());
    push_rights(text, " ", facts.rights);
}

/// Writes the entries of an access list, each behind a space.
pub fn push_list(text: &mut Text, list: &AccessList) {
    for entry in list.as_slice() {
        match &entry.who {
            Who::UserObj => text.word(" user_obj"),
            Who::User(name) => text.plain(" user:", name.as_bytes()),
            Who::GroupObj => text.word(" group_obj"),
            Who::Group(name) => text.plain(" group:", name.as_bytes()),
            Who::OtherObj => text.word(" other_obj"),
            Who::MaskObj => text.word(" mask_obj"),
        }
        push_rights(text, ":", entry.rights);
    }
}

fn push_rights(text: &mut Text, word: &str, rights: Rights) {
    text.word(word);
    for (right, letter) in [
        (Rights::READ, "r"),
        (Rights::WRITE, "w"),
        (Rights::EXECUTE, "x"),
        (Rights::CONTROL, "c"),
        (Rights::INSERT, "i"),
        (Rights::DELETE, "d"),
    ] {
        text.word(if rights.allows(right) { letter } else { "-" });
    }
}

/// Writes a refusal, and the right that a denial tells.
pub fn push_refusal(text: &mut Text, refusal: Refusal) {
    match &refusal {
        Refusal::Denied(rights) => push_rights(text, "denied ", *rights),
        other => text.word(refused(*other)),
    }
}

fn refused(refusal: Refusal) -> &'static str {
    match refusal {
        Refusal::NoEntry => "no-entry",
        Refusal::NotDir => "not-dir",
        Refusal::IsDir => "is-dir",
        Refusal::Exists => "exists",
        Refusal::NotEmpty => "not-empty",
        Refusal::Denied(_) => "denied",
        Refusal::TooBig => "too-big",
        Refusal::TooMany => "too-many",
        Refusal::NoRoom => "no-room",
        Refusal::ReadOnly => "read-only",
        Refusal::Locked => "locked",
        Refusal::OpenConflict => "open-conflict",
        Refusal::InUse => "in-use",
        Refusal::Loop => "loop",
        Refusal::NoFileset => "no-fileset",
        Refusal::CrossFileset => "cross-fileset",
        Refusal::NotLocked => "not-locked",
        Refusal::NotOpened => "not-opened",
        Refusal::AlreadyLocked => "already-locked",
        Refusal::AlreadyOpened => "already-opened",
        Refusal::NotHome => "not-home",
    }
}
