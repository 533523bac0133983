//! Looks at a host's tables that change nothing.

use crate::reading::Words;
use anyhow::{Result, bail};
use base_types::{Fid, Name, Span};
use host_tables::Tables;
use token_types::{Kind, Need, TokenId};
use tree_test_words::Text;

/// Writes the answer to a row that looks.
pub fn look_by(tables: &Tables, word: &str, words: &mut Words, text: &mut Text) -> Result<()> {
    match word {
        "look" => look(tables, words, text),
        "bytes" => bytes(tables, words, text),
        "filesets" => filesets(tables, text),
        _ => bail!("no look"),
    }
}

// `own look FILE ID LABEL`: of a file, a token and a label what is so of them.
fn look(tables: &Tables, words: &mut Words, text: &mut Text) -> Result<()> {
    let fid = words.file()?;
    let id = words.id()?;
    let label = words.name(tables.alloc)?;
    push_file(text, tables, fid);
    push_token(text, tables, id);
    push_label(text, tables, true, &label);
    push_label(text, tables, false, &label);
    drop(label);
    Ok(())
}

fn push_if(text: &mut Text, word: &str, is_so: bool) {
    if is_so {
        text.word(word);
    }
}

// Whether a file is clean, its length, whether bytes 3 to 9 are locked, and the server that is asked.
fn push_file(text: &mut Text, tables: &Tables, fid: Fid) {
    push_if(text, "clean ", host_leaves::is_clean(tables, fid));
    text.number("", u64::from(host_leaves::length_seen(tables, fid)));
    let span = Span { from: 3, to: 9 };
    push_if(
        text,
        " locked",
        host_leaves::is_own_locked(tables, fid, span),
    );
    if let Some(server) = host_leaves::asked_server(tables) {
        text.number(" asked ", u64::from(server.0));
    }
}

// Whether a token is in use, and the kind of one that is held.
fn push_token(text: &mut Text, tables: &Tables, id: TokenId) {
    push_if(text, " used", host_leaves::is_used(tables, id));
    if let Some(held) = tables.cache.find(id) {
        let kind = held.token.kind;
        push_if(text, " lock", host_leaves::is_lock(kind));
        push_if(text, " use", host_leaves::is_use(kind));
        push_if(text, " length", host_leaves::is_length_update(kind));
    }
}

// How many locks or opens there are, whether one has a label, and whether that is given back when it ends.
fn push_label(text: &mut Text, tables: &Tables, is_lock: bool, label: &Name) {
    text.number(" ", host_leaves::label_count(tables, is_lock) as u64);
    push_if(text, " has", host_leaves::has_label(tables, is_lock, label));
    push_if(
        text,
        " gives",
        host_leaves::gives_label(tables, is_lock, label),
    );
}

// `own bytes FILE SPAN`
fn bytes(tables: &Tables, words: &mut Words, text: &mut Text) -> Result<()> {
    let fid = words.file()?;
    let span = words.span()?;
    let kind = Kind::Bytes {
        update: false,
        span,
    };
    if !tables.cache.covers(&Need { fid, kind }) {
        bail!("not covered");
    }
    let bytes = host_leaves::bytes_of(tables, fid, span)?;
    text.plain("", bytes.as_slice());
    drop(bytes);
    Ok(())
}

// `own filesets`: those of give-backs that are outstanding.
fn filesets(tables: &Tables, text: &mut Text) -> Result<()> {
    let filesets = host_leaves::given_filesets(tables)?;
    for fileset in filesets.as_slice() {
        text.number(" ", u64::from(fileset.0));
    }
    drop(filesets);
    Ok(())
}
