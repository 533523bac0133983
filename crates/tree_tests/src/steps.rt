//! A tree, and the rows that it answers.

use crate::access::tell_access;
use crate::lists::tell_lists;
use crate::parts::tell_copy;
use crate::streams::tell_stream;
use anyhow::{Result, bail};
use base_types::{Fid, FilesetId, HostId, Items, ServerId, Span, User};
use std::alloc::Global;
use tree_answers::Tree;
use tree_calls::{HostLine, Roster};
use tree_test_words::{Text, Words, host, push_losses, push_refusal, push_reply, user};

// Ann of dev, bob of dev and ops, and eve of none.
fn users(alloc: Global) -> Result<Items<User>> {
    let mut users = Items::new(alloc);
    for (name, groups) in [("ann", "dev"), ("bob", "dev+ops"), ("eve", "none")] {
        users.push(user(alloc, name, groups)?)?;
    }
    Ok(users)
}

// A host acts for each user. The servers have room for many filesets, and for one of 64 objects with 9 blocks, 8 blocks
// and one block too few.
fn roster(alloc: Global) -> Result<Roster> {
    let ann = HostLine { user: 0, limit: 64 };
    let bob = HostLine { user: 1, limit: 64 };
    let eve = HostLine { user: 2, limit: 64 };
    Ok(Roster {
        hosts: Items::from_slice(alloc, &[ann, bob, eve])?,
        capacity: Items::from_slice(alloc, &[65_536, 4_361, 4_360, 4_351])?,
        users: users(alloc)?,
    })
}

/// A tree of four servers and three hosts.
pub fn new_tree(alloc: Global) -> Result<Tree> {
    let roster = roster(alloc)?;
    let tree = Tree::new(alloc, &roster);
    drop(roster);
    Ok(tree?)
}

/// Writes what is told to a row: the reply to a call; `ok` where something became kept, or where a fileset has arrived;
/// where a host is down, the losses; and behind `base` what the types below the tree answer.
pub fn tell(tree: &mut Tree, words: &mut Words, text: &mut Text) -> Result<()> {
    match words.next() {
        "stored" => store(tree, words, text),
        "down" => stop(tree, words, text),
        "left" => leave(tree, words, text),
        "at" => place(tree, words, text),
        "base" => tell_base(words.next(), words, text),
        word => call(tree, host(word)?, words, text),
    }
}

fn tell_base(word: &str, words: &mut Words, text: &mut Text) -> Result<()> {
    match word {
        "name" | "before" | "acl" | "rights" | "user" | "all" | "bits" | "limited" | "allows" => {
            tell_access(word, words, text)
        }
        "reply" | "loss" | "piece" | "entry" | "status" => tell_copy(word, words, text),
        "read" | "long" | "write" | "put" | "calls" | "take" | "room" => {
            tell_stream(word, words, text)
        }
        _ => tell_lists(word, words, text),
    }
}

fn call(tree: &mut Tree, host: HostId, words: &mut Words, text: &mut Text) -> Result<()> {
    let call = words.call()?;
    let reply = tree.answer(host, &call);
    drop(call);
    let reply = reply?;
    push_reply(text, &reply);
    drop(reply);
    Ok(())
}

// `stored HOST SERVER FILESET ANODE UNIQUE FROM TO [LENGTH]`
fn store(tree: &mut Tree, words: &mut Words, text: &mut Text) -> Result<()> {
    let host = words.host()?;
    let server = words.server()?;
    let number = words.number()?;
    let fid = Fid {
        fileset: fileset_id(server, number),
        anode: words.number()?,
        unique: words.number()?,
    };
    let span = span(words.number()?, words.number()?)?;
    let length = words.next().parse::<u32>().ok();
    tree.stored(host, fid, &[span], length)?;
    text.word("ok");
    Ok(())
}

// `left SERVER SERVER FILESET`, the fileset by the server that made it and its number there
fn leave(tree: &mut Tree, words: &mut Words, text: &mut Text) -> Result<()> {
    let at = words.server()?;
    let maker = words.server()?;
    let number = words.number()?;
    tree.left(at, fileset_id(maker, number));
    text.word("ok");
    Ok(())
}

// `at SERVER FILESET`: the server where it is now, and how often it has moved
fn place(tree: &Tree, words: &mut Words, text: &mut Text) -> Result<()> {
    let server = words.server()?;
    let name = words.name()?;
    match tree.fileset_named(server, &name) {
        Ok(fileset) => {
            text.number("s", u64::from(fileset.server.0));
            text.number(" ", u64::from(fileset.moves));
        }
        Err(refusal) => push_refusal(text, refusal),
    }
    Ok(())
}

fn stop(tree: &mut Tree, words: &mut Words, text: &mut Text) -> Result<()> {
    let host = words.host()?;
    let server = words.server()?;
    let losses = tree.down(host, server)?;
    push_losses(text, &losses);
    Ok(())
}

fn fileset_id(server: ServerId, number: u32) -> FilesetId {
    FilesetId((u32::from(server.0) * 65_536).wrapping_add(number))
}

fn span(from: u32, to: u32) -> Result<Span> {
    if from <= to && to <= 65_536 {
        Ok(Span { from, to })
    } else {
        bail!("no span: {from} {to}")
    }
}
