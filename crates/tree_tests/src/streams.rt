//! Sources and sinks, and calls that are to fail.

ghost use Rattle.std.specs.Prelude.{[]};

use anyhow::{Context, Result, bail};
use base_io::{
    MemSink, MemSource, NeverFails, ReadRefused, StdSink, StdSource, read_all, write_all,
};
use base_outside::Calls;
use base_types::{Failed, Items, Sink, Source};
use std::alloc::Global;
use std::io::Cursor;
use tree_test_words::{Text, Words};

// Pieces of one row, at most.
const PIECES_MAX: usize = 8;

/// Writes the answer to a row on sources, sinks or calls.
pub fn tell_stream(word: &str, words: &mut Words, text: &mut Text) -> Result<()> {
    match word {
        "read" => read(words, text),
        "long" => long(words.alloc(), text),
        "write" => write(words, text),
        "put" => put(words, text),
        "calls" => calls(words, text),
        "take" => take(words, text),
        "room" => room(words, text),
        _ => bail!("no row: {word}"),
    }
}

// `2,5`, or `none`: numbers of calls that are to fail.
fn failing(alloc: Global, word: &str) -> Result<Items<u64>> {
    let mut calls = Items::new(alloc);
    if word == "none" {
        return Ok(calls);
    }
    for part in word.split(',') {
        calls.push(part.parse::<u64>().context("a call")?)?;
    }
    Ok(calls)
}

fn push_quoted(text: &mut Text, bytes: &[u8]) {
    text.plain("\"", bytes);
    text.word("\"");
}

// What is read, or why it isn't.
fn push_read(text: &mut Text, read: Result<Vec<u8>, ReadRefused>) {
    match read {
        Ok(read) => push_quoted(text, read.as_slice()),
        Err(ReadRefused::Failed) => text.word("failed"),
        Err(ReadRefused::Memory) => text.word("no memory"),
    }
}

fn push_written(text: &mut Text, written: Result<(), Failed>) {
    text.word(if written.is_ok() { "ok " } else { "failed " });
}

fn push_count(text: &mut Text, count: Result<usize, Failed>) {
    match count {
        Ok(count) => text.number("", count as u64),
        Err(Failed) => text.word("failed"),
    }
    text.word(" ");
}

// `read BYTES CALLS MOST`: so many bytes at most of a source of which some calls fail.
fn read(words: &mut Words, text: &mut Text) -> Result<()> {
    let bytes = words.bytes()?;
    let source = source_of(bytes.as_slice(), words);
    drop(bytes);
    let mut source = source?;
    let most = words.long();
    let read = read_all(words.alloc(), &mut source, most.unwrap_or(0));
    drop(source);
    push_read(text, read);
    Ok(())
}

fn source_of(bytes: &[u8], words: &mut Words) -> Result<MemSource> {
    let failing = failing(words.alloc(), words.next())?;
    let source = MemSource::new(words.alloc(), bytes, failing.as_slice());
    drop(failing);
    Ok(source?)
}

// `long`: of 10,000 bytes 9,999 are read, then the rest, then none.
fn long(alloc: Global, text: &mut Text) -> Result<()> {
    let bytes = vec![in alloc; b'7'; 10_000]?;
    let source = MemSource::new(alloc, bytes.as_slice(), &[]);
    drop(bytes);
    let mut source = NeverFails::new(source?);
    let first = read_all(alloc, &mut source, 9_999);
    text.number("", first.map_or(0, |read| read.len() as u64));
    text.word(" ");
    push_read(text, read_all(alloc, &mut source, 9_999));
    text.word(" ");
    let mut none = [0; 1];
    push_count(text, source.take(&mut none));
    drop(source);
    Ok(())
}

// `write CALLS PIECES`: to a sink of which some calls fail, what it got, and how many growths it refused.
fn write(words: &mut Words, text: &mut Text) -> Result<()> {
    let failing = failing(words.alloc(), words.next())?;
    let sink = MemSink::new(words.alloc(), failing.as_slice());
    drop(failing);
    let mut sink = sink?;
    write_pieces(&mut sink, words, text);
    push_quoted(text, sink.bytes());
    text.number(" ", sink.refused());
    drop(sink);
    Ok(())
}

fn write_pieces(sink: &mut MemSink, words: &mut Words, text: &mut Text) {
    for _ in 0..PIECES_MAX {
        let piece = words.next();
        if piece.is_empty() {
            break;
        }
        push_written(text, write_all(sink, piece.as_bytes()));
    }
}

// Takes one byte at a time, and fails at one call.
#[derive(Drop)]
struct OneByOne {
    got: Items<u8>,
    failing: u64,
    calls: u64,
    faults: u64,
}

impl Sink for OneByOne {
    ghost tells = { ⊥ };

    ghost got = { λ _. [] };

    ghost faults = { λ sink. sink.faults };

    fn put(&mut self, piece: &[u8]) -> Result<usize, Failed> {
        self.calls = self.calls.saturating_add(1);
        if self.calls == self.failing {
            self.faults = self.faults.saturating_add(1);
            return Err(Failed);
        }
        match piece.first() {
            Some(byte) => match self.got.push(*byte) {
                Ok(()) => Ok(1),
                Err(_) => {
                    self.faults = self.faults.saturating_add(1);
                    Err(Failed)
                }
            },
            None => Ok(0),
        }
    }
}

// `put CALL PIECE`: to a sink that takes one byte at a time and fails at this call, and what it got.
fn put(words: &mut Words, text: &mut Text) -> Result<()> {
    let failing = words.long()?;
    let mut sink = OneByOne {
        got: Items::new(words.alloc()),
        failing,
        calls: 0,
        faults: 0,
    };
    push_written(text, write_all(&mut sink, words.next().as_bytes()));
    push_quoted(text, sink.got.as_slice());
    drop(sink);
    Ok(())
}

// `calls CALLS LAST COUNT`: which of so many calls fail, where all behind the last one do; and with a growth that was
// refused how many were made, failed and were refused.
fn calls(words: &mut Words, text: &mut Text) -> Result<()> {
    let failing = failing(words.alloc(), words.next())?;
    let last = words.long().ok();
    let mut calls = Calls::new(failing, last);
    let count = words.number();
    for _ in 0..count.unwrap_or(0) {
        text.word(if calls.next_fails() { "x" } else { "." });
    }
    calls.refuse_growth();
    text.number(" ", calls.made);
    text.number(" ", calls.faults);
    text.number(" ", calls.refused);
    drop(calls);
    Ok(())
}

// `take BYTES`: what a reader of std has, four bytes at most at a time, and the end of it.
fn take(words: &mut Words, text: &mut Text) -> Result<()> {
    let mut source = StdSource::new(Cursor::new(words.next().as_bytes()));
    let mut piece = [0; 4];
    push_count(text, source.take(&mut piece));
    push_quoted(text, piece.as_slice());
    text.word(" ");
    push_count(text, source.take(&mut piece));
    push_count(text, source.take(&mut piece));
    Ok(())
}

// `room PIECE PIECE`: what is written of both by a writer of std that has room for four bytes.
fn room(words: &mut Words, text: &mut Text) -> Result<()> {
    let mut room = [0; 4];
    let mut sink = StdSink::new(Cursor::new(room.as_mut_slice()));
    push_count(text, sink.put(words.next().as_bytes()));
    push_written(text, write_all(&mut sink, words.next().as_bytes()));
    Ok(())
}
