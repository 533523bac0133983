//! The steps of what is dirty.

use crate::reading::{Words, push_number};
use anyhow::{Result, bail};
use base_types::{Fid, Span};
use host_dirty::Dirty;
use tree_test_words::Text;

/// Writes the answer to a row `dirty ..`.
pub fn tell(dirty: &mut Dirty, words: &mut Words, text: &mut Text) -> Result<()> {
    match words.next() {
        "add" => change(dirty, true, words, text),
        "cut" => change(dirty, false, words, text),
        "set" => set(dirty, words, text),
        word => look(dirty, word, words, text),
    }
}

fn change(dirty: &mut Dirty, adds: bool, words: &mut Words, text: &mut Text) -> Result<()> {
    let fid = words.file()?;
    let span = words.span()?;
    if adds {
        dirty.add(fid, span)?;
    } else {
        dirty.cut(fid, span)?;
    }
    push_spans(text, dirty.spans(fid));
    Ok(())
}

fn set(dirty: &mut Dirty, words: &mut Words, text: &mut Text) -> Result<()> {
    let fid = words.file()?;
    let length = words.length()?;
    dirty.set_length(fid, length)?;
    push_number(text, dirty.length(fid).map(u64::from));
    Ok(())
}

fn look(dirty: &Dirty, word: &str, words: &mut Words, text: &mut Text) -> Result<()> {
    match word {
        "spans" => push_spans(text, dirty.spans(words.file()?)),
        "length" => push_number(text, dirty.length(words.file()?).map(u64::from)),
        "files" => return files(dirty, text),
        word => bail!("no step of what is dirty: {word}"),
    }
    Ok(())
}

fn push_spans(text: &mut Text, spans: &[Span]) {
    for span in spans {
        text.number("", u64::from(span.from));
        text.number("-", u64::from(span.to));
        text.word(" ");
    }
}

fn files(dirty: &Dirty, text: &mut Text) -> Result<()> {
    let fids = dirty.files()?;
    push_files(text, fids.as_slice());
    drop(fids);
    Ok(())
}

fn push_files(text: &mut Text, fids: &[Fid]) {
    for fid in fids {
        let letter = if fid.fileset.0 == 65_537 { "f" } else { "g" };
        text.number(letter, u64::from(fid.anode));
        text.word(" ");
    }
}
