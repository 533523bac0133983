//! Copies of replies, losses and parts of them.

use crate::access::push_yes;
use anyhow::{Result, bail};
use base_types::{AccessEntry, AccessList, Items, Name, NoMemory, Plain, Rights, Span, Who};
use std::alloc::Global;
use tree_calls::{DirEntry, Facts, Loss, Piece, Reply, Status};
use tree_test_words::{Text, Words};

/// Writes the answer to a row on a copy: whether it is the same, or what of it is told.
pub fn tell_copy(word: &str, words: &mut Words, text: &mut Text) -> Result<()> {
    match word {
        "reply" => reply(words, text),
        "loss" => loss(words, text),
        "piece" => piece(words, text),
        "entry" => entry(words, text),
        "status" => status(words, text),
        _ => bail!("no copy: {word}"),
    }
}

fn names(words: &mut Words) -> Result<Items<Name>> {
    let mut names = Items::new(words.alloc());
    names.push(words.name()?)?;
    Ok(names)
}

// Three entries for reading.
fn list(alloc: Global) -> Result<AccessList> {
    let mut entries = Items::new(alloc);
    for who in [Who::UserObj, Who::GroupObj, Who::OtherObj] {
        let rights = Rights::READ;
        entries.push(AccessEntry { who, rights })?;
    }
    let list = AccessList::new(alloc, entries.as_slice());
    drop(entries);
    Ok(list?)
}

// `bytes BYTES`, `names NAME`, `access` or `facts OWNER`
fn reply_of(words: &mut Words) -> Result<Reply> {
    match words.next() {
        "bytes" => Ok(Reply::Bytes(words.bytes()?)),
        "names" => Ok(Reply::Names(names(words)?)),
        "access" => Ok(Reply::Access(list(words.alloc())?)),
        _ => Ok(Reply::Facts(Facts {
            dir: false,
            length: 3,
            owner: words.name()?,
            rights: Rights::ALL,
        })),
    }
}

fn reply(words: &mut Words, text: &mut Text) -> Result<()> {
    let reply = reply_of(words)?;
    let same = is_copied(&reply);
    drop(reply);
    push_yes(text, same?);
    Ok(())
}

fn is_copied(reply: &Reply) -> Result<bool, NoMemory> {
    let copy = reply.copy()?;
    let same = copy == *reply;
    drop(copy);
    Ok(same)
}

// `loss HOST SERVER NAME`: of two bytes in a file of this name.
fn loss(words: &mut Words, text: &mut Text) -> Result<()> {
    let host = words.host()?;
    let server = words.server()?;
    let loss = Loss {
        host,
        server,
        path: names(words)?,
        span: Some(Span { from: 1, to: 2 }),
        length: None,
    };
    let same = is_loss_copied(&loss);
    drop(loss);
    push_yes(text, same?);
    Ok(())
}

fn is_loss_copied(loss: &Loss) -> Result<bool, NoMemory> {
    let copy = loss.copy()?;
    let same = copy == *loss;
    drop(copy);
    Ok(same)
}

// `piece FROM BYTES`: the bytes of the copy.
fn piece(words: &mut Words, text: &mut Text) -> Result<()> {
    let from = words.number()?;
    let bytes = words.bytes()?;
    let piece = Piece { from, bytes };
    let copy = piece.copy();
    drop(piece);
    let copy = copy?;
    text.plain("", copy.bytes.as_slice());
    drop(copy);
    Ok(())
}

// `entry NAME ANODE`: the anode of the copy.
fn entry(words: &mut Words, text: &mut Text) -> Result<()> {
    let name = words.name()?;
    let entry = DirEntry {
        name,
        anode: 2,
        unique: 1,
    };
    let copy = entry.copy();
    drop(entry);
    let copy = copy?;
    text.number("", u64::from(copy.anode));
    drop(copy);
    Ok(())
}

fn status_of(words: &mut Words) -> Result<Status> {
    let mut lists = Items::new(words.alloc());
    lists.push(list(words.alloc())?)?;
    Ok(Status {
        dir: false,
        read_only: true,
        length: 9,
        owner: words.name()?,
        group: words.name()?,
        lists,
    })
}

// `status OWNER GROUP`: the length that the copy tells, and how many lists.
fn status(words: &mut Words, text: &mut Text) -> Result<()> {
    let status = status_of(words)?;
    let copy = status.copy();
    drop(status);
    let copy = copy?;
    text.number("", u64::from(copy.length));
    text.number(" ", copy.lists.len() as u64);
    drop(copy);
    Ok(())
}
