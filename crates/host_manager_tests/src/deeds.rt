//! What rows ask of hosts.

use crate::wording::{message, server_of};
use anyhow::{Result, bail};
use base_types::{HostId, Name};
use message_types::Message;
use tree_calls::Call;
use tree_test_words::Words;

/// What a row asks of a host.
#[derive(Drop)]
pub enum Deed {
    /// To tell what is so of it.
    State,
    /// To answer a call at once, into so much room.
    Into(usize, Call),
    /// To take a message.
    Take(Message),
    Lapse,
    Evict,
    End,
    /// To make the line of this number: a call, its stop, or a flag that it raises.
    Call(u32, Call),
    Stop(u32),
    Raise(u32, Name),
}

/// What a row asks, behind its host.
pub fn read_deed(host: HostId, words: &mut Words) -> Result<Deed> {
    match words.next() {
        "is" => Ok(Deed::State),
        "lapse" => Ok(Deed::Lapse),
        "evict" => Ok(Deed::Evict),
        "end" => Ok(Deed::End),
        "into" => into(words),
        word => line(host, word, words),
    }
}

// `into ROOM CALL`
fn into(words: &mut Words) -> Result<Deed> {
    let size = words.number()? as usize;
    Ok(Deed::Into(size, words.call()?))
}

// `call LINE CALL`, `stop LINE` and `raise LINE FLAG`
fn line(host: HostId, word: &str, words: &mut Words) -> Result<Deed> {
    match word {
        "call" => call(words),
        "stop" => Ok(Deed::Stop(words.number()?)),
        "raise" => raise(words),
        word => take(host, word, words),
    }
}

fn call(words: &mut Words) -> Result<Deed> {
    let number = words.number()?;
    Ok(Deed::Call(number, words.call()?))
}

fn raise(words: &mut Words) -> Result<Deed> {
    let number = words.number()?;
    Ok(Deed::Raise(number, words.name()?))
}

// `s1 EPOCH WORD ..`: a message of a server.
fn take(host: HostId, word: &str, words: &mut Words) -> Result<Deed> {
    match server_of(word) {
        Some(server) => Ok(Deed::Take(message(host, server, words)?)),
        None => bail!("no row: {word}"),
    }
}
