//! The steps of labels in use.
ghost use Rattle.std.specs.Prelude.{◌≡◌, IsTrue, None};
ghost use Rattle.host_labels.specs.Labels.{is_lock, use_of, has_id};

use crate::reading::{Words, push_number, push_yes};
use anyhow::{Result, bail};
use base_types::{Name, NoMemory};
use host_labels::{Labelled, Uses};
use std::alloc::Global;
use token_types::{Kind, Token, TokenId};
use tree_test_words::Text;

/// Writes the answer to a row `label ..`.
pub fn tell(alloc: Global, uses: &mut Uses, words: &mut Words, text: &mut Text) -> Result<()> {
    match words.next() {
        "take" => take(alloc, uses, words, text),
        "find" => find(alloc, uses, words, text),
        "drop" => drop_label(alloc, uses, words, text),
        word => look(uses, word, words, text),
    }
}

fn look(uses: &mut Uses, word: &str, words: &mut Words, text: &mut Text) -> Result<()> {
    match word {
        "pin" => return pin(uses, words, text),
        "pinned" => push_yes(text, uses.is_pinned(words.id()?)),
        "all" => push_all(text, uses.labels()),
        word => bail!("no step of labels: {word}"),
    }
    Ok(())
}

// `label find lock|open NAME`
fn find(alloc: Global, uses: &Uses, words: &mut Words, text: &mut Text) -> Result<()> {
    let is_lock = words.is_lock();
    let name = words.name(alloc)?;
    let found = uses.find(is_lock, &name);
    drop(name);
    push_number(text, found.map(|id| id.seq));
    Ok(())
}

// `label drop lock|open NAME`
fn drop_label(alloc: Global, uses: &mut Uses, words: &mut Words, text: &mut Text) -> Result<()> {
    let is_lock = words.is_lock();
    let name = words.name(alloc)?;
    let dropped = uses.drop_label(is_lock, &name);
    drop(name);
    push_number(text, dropped.as_ref().map(|used| used.token.id.seq));
    drop(dropped);
    Ok(())
}

// `label take NAME TOKEN`: yes where the label isn't in use for a token of that type.
fn take(alloc: Global, uses: &mut Uses, words: &mut Words, text: &mut Text) -> Result<()> {
    let word = words.next();
    let token = words.token()?;
    let name = Name::new(alloc, word.as_bytes())?;
    let taken = take_free(uses, &name, &token);
    drop(name);
    push_yes(text, taken?);
    Ok(())
}

fn take_free(uses: &mut Uses, name: &Name, token: &Token) -> Result<bool, NoMemory> {
    let is_free = is_free(uses, name, token);
    if is_free {
        uses.take(name, token)?;
    }
    Ok(is_free)
}

fn is_free(uses: &Uses, name: &Name, token: &Token) -> bool
    ensures { IsTrue result → use_of uses.now (is_lock token.now.kind) name.now ≡ None }
{
    uses.find(matches!(token.kind, Kind::Lock { .. }), name)
        .is_none()
}

// `label pin ID`: yes where a label is in use for the token.
fn pin(uses: &mut Uses, words: &mut Words, text: &mut Text) -> Result<()> {
    let id = words.id()?;
    let is_used = is_used(uses.labels(), id);
    if is_used {
        uses.pin(id)?;
    }
    push_yes(text, is_used);
    Ok(())
}

fn is_used(labels: &[Labelled], id: TokenId) -> bool
    ensures { result ≡ has_id labels.now id }
{
    labels.iter().any(|used| used.token.id == id)
}

fn push_all(text: &mut Text, labels: &[Labelled]) {
    for used in labels {
        text.number("", used.token.id.seq);
        text.word(" ");
    }
}
