//! The tokens of hosts: from which step to which each is held.

use crate::refused::Why;
use run_words::{
    FileId, Text, case_of, file_of, is_true_at, number_at, put_file, put_kind, text_at,
};
use serde_json::Value;
use std::alloc::{AllocError, Global};
use std::collections::{BTreeMap, BTreeSet};

// So many tokens stand side by side; further ones share the last place.
const PLACES: u64 = 12;

/// A kind of tokens, as it is drawn.
#[derive(Clone, Copy)]
pub enum HoldKind {
    /// Bytes, or a directory's names.
    Bytes,
    /// What is known of a file beside its bytes.
    Status,
    /// A lock.
    Lock,
    /// An open file.
    Opening,
}

/// A token that a host holds.
#[derive(Drop)]
pub struct Hold {
    /// The host.
    pub host: u64,
    /// The file.
    pub file: FileId,
    /// Its kind.
    pub kind: HoldKind,
    /// Whether it lets the host change what it is about.
    pub is_update: bool,
    /// The place of the step that took it, from 0.
    pub from: usize,
    /// The place of the step that dropped it.
    pub until: Option<usize>,
    /// How far beside the host's line it stands, from 0.
    pub place: u64,
    /// Its kind, its span and its file.
    pub words: String,
    /// Why it left, or nothing.
    pub why: String,
}

// A token's server, epoch and number.
type TokenId = (u64, u64, u64);

// A place beside a host's line, by the host and how far it is, from 0.
type Beside = (u64, u64);

/// The tokens that hosts hold and held.
#[derive(Drop)]
pub(crate) struct Holds {
    // Each of them, as they were taken.
    all: Vec<Hold>,
    // Their places in the list.
    places: BTreeMap<TokenId, usize>,
    // The places where one stands.
    used: BTreeSet<Beside>,
}

impl Holds {
    /// No tokens.
    pub(crate) fn new(alloc: Global) -> Holds {
        Holds {
            all: Vec::new(alloc),
            places: BTreeMap::new(alloc),
            used: BTreeSet::new(alloc),
        }
    }

    /// Each of them, as they were taken.
    pub(crate) fn into_holds(self) -> Vec<Hold> {
        let Holds {
            all,
            places: _,
            used: _,
        } = self;
        all
    }

    /// A host takes a token.
    pub(crate) fn take(
        &mut self,
        alloc: Global,
        host: u64,
        token: &Value,
        step: usize,
    ) -> Result<FileId, Why> {
        let id = token.get("id").and_then(id_of).ok_or(Why::Taken)?;
        let file = token.get("fid").and_then(file_of).ok_or(Why::Taken)?;
        let kind = kind_of(token).ok_or(Why::Taken)?;
        let place = self.free_place(host);
        self.used.insert((host, place)).map_err(AllocError::from)?;
        self.places
            .insert(id, self.all.len())
            .map_err(AllocError::from)?;
        let words = words_of(alloc, token)?;
        let hold = Hold {
            host,
            file,
            kind,
            is_update: is_update(token),
            from: step,
            until: None,
            place,
            words,
            why: String::new(alloc),
        };
        self.all.push(hold).map_err(AllocError::from)?;
        Ok(file)
    }

    /// A token leaves its host.
    pub(crate) fn drop_token(&mut self, leave: &Value, step: usize) -> Result<FileId, Why> {
        let token = leave.get("token").ok_or(Why::Dropped)?;
        let id = token.get("id").and_then(id_of).ok_or(Why::Dropped)?;
        let file = token.get("fid").and_then(file_of).ok_or(Why::Dropped)?;
        let why = text_at(leave, "why").ok_or(Why::Dropped)?;
        let Some(place) = self.places.get(&id) else {
            return Ok(file);
        };
        if let Some(hold) = self.all.get_mut(*place) {
            if hold.until.is_none() {
                hold.until = Some(step);
                hold.why.push_str(why)?;
                self.used.remove(&(hold.host, hold.place));
            }
        }
        Ok(file)
    }

    /// The kind of the token of an id, in words: none where no host took it.
    pub(crate) fn kind_of_id(&self, id: &Value) -> Option<&'static str> {
        let place = *self.places.get(&id_of(id)?)?;
        let hold = self.all.get(place)?;
        Some(kind_words(hold.kind, hold.is_update))
    }

    // The first place beside a host's line where none stands.
    fn free_place(&self, host: u64) -> u64 {
        for place in 0..PLACES {
            if !self.used.contains(&(host, place)) {
                return place;
            }
        }
        PLACES
    }
}

fn id_of(id: &Value) -> Option<TokenId> {
    let server = number_at(id, "server")?;
    let epoch = number_at(id, "epoch")?;
    Some((server, epoch, number_at(id, "seq")?))
}

fn kind_of(token: &Value) -> Option<HoldKind> {
    let (name, _) = case_of(token.get("kind")?)?;
    match name {
        "bytes" => Some(HoldKind::Bytes),
        "status" => Some(HoldKind::Status),
        "lock" => Some(HoldKind::Lock),
        "opening" => Some(HoldKind::Opening),
        _ => None,
    }
}

/// The kind of a token, or of what is needed, in words.
pub(crate) fn kind_of_token(token: &Value) -> Option<&'static str> {
    Some(kind_words(kind_of(token)?, is_update(token)))
}

fn kind_words(kind: HoldKind, is_update: bool) -> &'static str {
    match (kind, is_update) {
        (HoldKind::Bytes, true) => "bytes update",
        (HoldKind::Bytes, false) => "bytes",
        (HoldKind::Status, true) => "status update",
        (HoldKind::Status, false) => "status",
        (HoldKind::Lock, true) => "write lock",
        (HoldKind::Lock, false) => "read lock",
        (HoldKind::Opening, _) => "open file",
    }
}

// Whether a token lets its host change something, or keeps others from it.
fn is_update(token: &Value) -> bool {
    match token.get("kind").and_then(case_of) {
        Some((_, holds)) => is_true_at(holds, "update") || is_true_at(holds, "writing"),
        None => false,
    }
}

fn words_of(alloc: Global, token: &Value) -> Result<String, AllocError> {
    let mut text = Text::new(alloc);
    if let Some(kind) = token.get("kind") {
        put_kind(&mut text, kind);
    }
    text.word(" of ");
    if let Some(file) = token.get("fid") {
        put_file(&mut text, file);
    }
    text.into_text()
}
