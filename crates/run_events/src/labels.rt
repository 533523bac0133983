//! What messages say.

use crate::holds::{Holds, kind_of_token};
use run_words::{
    FileId, Text, case_of, list_at, message_file, name_of, number_at, put_file, put_reply,
};
use serde_json::Value;
use std::alloc::{AllocError, Global};

/// The file that a message of this body is about.
pub(crate) fn body_file(body: &Value) -> Option<FileId> {
    let (_, holds) = case_of(body)?;
    message_file(holds)
}

/// A message's kind, with the kinds of the tokens that it asks for, brings or names, whether it brings what files hold,
/// and of what is done the outcome.
pub(crate) fn label_of(alloc: Global, holds: &Holds, body: &Value) -> Result<String, AllocError> {
    let mut text = Text::new(alloc);
    match name_of(body) {
        Some("give_back") => text.word("give back"),
        Some("left_out") => text.word("left out"),
        Some("not_here") => text.word("not here"),
        Some(name) => text.word(name),
        None => {}
    }
    match case_of(body) {
        Some(("done", done)) => put_outcome(&mut text, done),
        Some((_, about)) => put_about(&mut text, holds, about),
        None => {}
    }
    text.into_text()
}

// What a message asks for, brings or names.
fn put_about(text: &mut Text, holds: &Holds, about: &Value) {
    put_kinds(text, list_at(about, "needs").unwrap_or(&[]));
    if let Some(bring) = about.get("bring") {
        put_kinds(text, list_at(bring, "tokens").unwrap_or(&[]));
    }
    put_ids(text, holds, list_at(about, "ids").unwrap_or(&[]));
    if !list_at(about, "pieces").unwrap_or(&[]).is_empty() {
        text.word(", data");
    }
}

// Adds the kinds of tokens, or of what is needed.
fn put_kinds(text: &mut Text, tokens: &[Value]) {
    let mut comma = " ";
    for token in tokens.iter() {
        if let Some(kind) = kind_of_token(token) {
            text.word(comma);
            text.word(kind);
            comma = ", ";
        }
    }
}

// Adds the kinds of the tokens of these ids.
fn put_ids(text: &mut Text, holds: &Holds, ids: &[Value]) {
    let mut comma = " ";
    for id in ids.iter() {
        if let Some(kind) = holds.kind_of_id(id) {
            text.word(comma);
            text.word(kind);
            comma = ", ";
        }
    }
}

fn put_outcome(text: &mut Text, done: &Value) {
    let Some(outcome) = done.get("outcome") else {
        return;
    };
    text.word(": ");
    match case_of(outcome) {
        Some(("reply", reply)) => put_reply(text, reply),
        Some((name, _)) => text.word(name),
        None => text.word(outcome.as_str().unwrap_or("")),
    }
}

/// The number of a message's request or give-back, and its file.
pub(crate) fn title_of(alloc: Global, body: &Value) -> Result<String, AllocError> {
    let mut text = Text::new(alloc);
    if let Some((_, holds)) = case_of(body) {
        let about = holds.get("bring").unwrap_or(holds);
        if let Some(number) = number_at(about, "number") {
            text.word(" number ");
            text.number(number);
        }
        if let (Some(file), Some(_)) = (about.get("fid"), message_file(holds)) {
            text.word(" of ");
            put_file(&mut text, file);
        }
    }
    text.into_text()
}
