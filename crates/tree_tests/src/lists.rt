//! Lists, spans, numbers of things, and kinds of opens.

use crate::access::push_yes;
use anyhow::{Context, Result, bail};
use base_types::{
    CloseRefused, Fid, FilesetId, HostId, Items, NoMemory, Node, OpenKind, Plain, ServerId, Span,
};
use std::alloc::Global;
use tree_test_words::{Text, Words};

// Steps of one row, at most.
const STEPS_MAX: usize = 16;

/// Writes the answer to a row on lists, spans, numbers of things or kinds of opens.
pub fn tell_lists(word: &str, words: &mut Words, text: &mut Text) -> Result<()> {
    match word {
        "items" => items(words, text),
        "option" => option(words, text),
        "spans" => spans(words, text),
        "whole" => {
            text.number("", u64::from(Span::WHOLE.len()));
            Ok(())
        }
        "opens" => opens(words, text),
        _ => ids(word, words, text),
    }
}

// `1,2,3`: so many numbers.
fn numbers(alloc: Global, word: &str) -> Result<Items<u32>> {
    let mut numbers = Vec::new(alloc);
    for part in word.split(',') {
        numbers.push(part.parse::<u32>().context("a number")?)?;
    }
    Ok(Items::from_vec(numbers))
}

// `items NUMBERS STEPS`: what some steps tell, and the list after them, by a copy of it.
fn items(words: &mut Words, text: &mut Text) -> Result<()> {
    let mut items = numbers(words.alloc(), words.next())?;
    let told = tell_steps(&mut items, words, text);
    let copy = items.copy();
    drop(items);
    told?;
    push_numbers(text, copy?);
    Ok(())
}

fn push_numbers(text: &mut Text, items: Items<u32>) {
    text.word(if items.is_empty() { "none" } else { ":" });
    let numbers = items.into_vec();
    for number in numbers.as_slice() {
        text.number(" ", u64::from(*number));
    }
}

fn tell_steps(items: &mut Items<u32>, words: &mut Words, text: &mut Text) -> Result<()> {
    for _ in 0..STEPS_MAX {
        let word = words.next();
        if word.is_empty() {
            break;
        }
        step(items, word, words, text)?;
    }
    Ok(())
}

fn step(items: &mut Items<u32>, word: &str, words: &mut Words, text: &mut Text) -> Result<()> {
    match word {
        "len" => {
            text.number("", items.len() as u64);
            text.word(" ");
            Ok(())
        }
        "extend" | "append" | "same" => add(items, word, words, text),
        "push" | "retain" | "truncate" => {
            let number = words.number()?;
            change(items, word, number)
        }
        _ => {
            let index = words.number()? as usize;
            at(items, word, index, words, text)
        }
    }
}

fn add(items: &mut Items<u32>, word: &str, words: &mut Words, text: &mut Text) -> Result<()> {
    let more = numbers(words.alloc(), words.next())?;
    match word {
        "append" => items.append(more)?,
        "extend" => {
            let added = items.extend(more.as_slice());
            drop(more);
            added?;
        }
        _ => {
            push_yes(text, *items == more);
            text.word(" ");
        }
    }
    Ok(())
}

fn change(items: &mut Items<u32>, word: &str, number: u32) -> Result<()> {
    match word {
        "push" => items.push(number)?,
        "retain" => items.retain(|item| *item > number),
        _ => items.truncate(number as usize),
    }
    Ok(())
}

// Steps at a place.
fn at(
    items: &mut Items<u32>,
    word: &str,
    index: usize,
    words: &mut Words,
    text: &mut Text,
) -> Result<()> {
    match word {
        "put" => items.put(index, words.number()?),
        "insert" => return insert(items, index, words),
        "at" => match items.at(index) {
            Some(number) => push_number(text, *number),
            None => text.word("none "),
        },
        _ => return within(items, word, index, words, text),
    }
    Ok(())
}

fn push_number(text: &mut Text, number: u32) {
    text.number("", u64::from(number));
    text.word(" ");
}

fn insert(items: &mut Items<u32>, index: usize, words: &mut Words) -> Result<()> {
    let number = words.number()?;
    if index > items.len() {
        bail!("no place: {index}");
    }
    items.insert(index, number)?;
    Ok(())
}

// Steps at a place that has an element.
fn within(
    items: &mut Items<u32>,
    word: &str,
    index: usize,
    words: &mut Words,
    text: &mut Text,
) -> Result<()> {
    if word == "set" || word == "write" {
        let number = words.number()?;
        return replace(items, word == "set", index, number);
    }
    if index >= items.len() {
        bail!("no element: {index}");
    }
    match word {
        "get" => push_number(text, *items.get(index)),
        _ => push_number(text, items.remove(index)),
    }
    Ok(())
}

// In place, or by `set`.
fn replace(items: &mut Items<u32>, sets: bool, index: usize, number: u32) -> Result<()> {
    if index >= items.len() {
        bail!("no element: {index}");
    }
    if sets {
        items.set(index, number);
    } else {
        *items.get_mut(index) = number;
    }
    Ok(())
}

// `option NUMBER`, or `option none`: the same of a copy.
fn option(words: &mut Words, text: &mut Text) -> Result<()> {
    match words.next().parse::<u64>().ok().copy()? {
        Some(number) => text.number("", number),
        None => text.word("none"),
    }
    Ok(())
}

fn span(words: &mut Words) -> Result<Span> {
    let from = words.number()?;
    let to = words.number()?;
    if from <= to && to <= 65_536 {
        Ok(Span { from, to })
    } else {
        bail!("no span: {from} {to}")
    }
}

// `spans FROM TO FROM TO`: whether they overlap, and how many bytes the first one has.
fn spans(words: &mut Words, text: &mut Text) -> Result<()> {
    let first = span(words)?.copy()?;
    let second = span(words)?;
    push_yes(text, first.overlaps(second));
    text.number(" ", u64::from(first.len()));
    text.word(if first.is_empty() { " empty" } else { "" });
    Ok(())
}

fn open_kind(word: &str) -> Result<OpenKind> {
    match word {
        "reading" => Ok(OpenKind::Reading),
        "writing" => Ok(OpenKind::Writing),
        "executing" => Ok(OpenKind::Executing),
        "shared" => Ok(OpenKind::Shared),
        "exclusive" => Ok(OpenKind::Exclusive),
        _ => bail!("no kind of open: {word}"),
    }
}

// `opens KIND KIND`: whether opens of two hosts conflict, each way round.
fn opens(words: &mut Words, text: &mut Text) -> Result<()> {
    let first = open_kind(words.next())?.copy()?;
    let second = open_kind(words.next())?;
    push_yes(text, first.conflicts(second));
    text.word(" ");
    push_yes(text, second.conflicts(first));
    Ok(())
}

// `fid FILESET ANODE UNIQUE`, and the hosts and nodes that have names of their own.
fn ids(word: &str, words: &mut Words, text: &mut Text) -> Result<()> {
    match word {
        "fid" => fid(words, text),
        "hosts" => {
            text.number("c", u64::from(HostId::SETUP.copy()?.0));
            text.number(" c", u64::from(HostId::EXPORTER.0));
            Ok(())
        }
        "nodes" => {
            let server = ServerId(1).copy()?;
            push_yes(text, Node::Host(HostId(1)) == Node::Server(server));
            Ok(())
        }
        "refused" => refused(words, text),
        _ => bail!("no row: {word}"),
    }
}

// Whether a copy is the same.
fn fid(words: &mut Words, text: &mut Text) -> Result<()> {
    let fileset = FilesetId(words.number()?).copy()?;
    let fid = Fid {
        fileset,
        anode: words.number()?,
        unique: words.number()?,
    };
    let copy = fid.copy()?;
    push_yes(text, copy == fid);
    Ok(())
}

// `refused`: how many passes a refused close hands back, of one.
fn refused(words: &mut Words, text: &mut Text) -> Result<()> {
    let mut passes = Vec::new(words.alloc());
    passes.push(HostId(3))?;
    let CloseRefused::Memory(cell, passes) = CloseRefused::Memory(NoMemory, passes);
    push_yes(text, cell == NoMemory);
    text.number(" ", passes.len() as u64);
    Ok(())
}
