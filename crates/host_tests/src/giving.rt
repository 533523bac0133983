//! The steps of give-backs.
ghost use Rattle.std.specs.Prelude.{IsTrue};
ghost use Rattle.host_gives.specs.Giving.{is_next};

use crate::reading::{Words, push_number, push_yes};
use anyhow::{Result, bail};
use base_types::{Fid, FilesetId, HostId, Items, NoMemory, ServerId};
use host_gives::Gives;
use message_types::{Body, Direction, Give, Message};
use std::alloc::Global;
use token_types::TokenId;
use tree_test_words::Text;

// Tokens of one give-back, at most.
const IDS_MAX: usize = 8;

/// Writes the answer to a row `give ..`.
pub fn tell(alloc: Global, gives: &mut Gives, words: &mut Words, text: &mut Text) -> Result<()> {
    match words.next() {
        "add" => add_row(alloc, gives, words, text),
        "gone" => take(gives, true, words, text),
        "take" => take(gives, false, words, text),
        word => look(gives, word, words, text),
    }
}

// `give gone FILESET NUMBER`, or `give take FILESET NUMBER`.
fn take(gives: &mut Gives, is_gone: bool, words: &mut Words, text: &mut Text) -> Result<()> {
    let fileset = words.fileset();
    let number = words.number()?;
    let taken = if is_gone {
        gone_number(gives, fileset, number)
    } else {
        taken_number(gives, fileset, number)
    };
    push_number(text, taken);
    Ok(())
}

fn look(gives: &Gives, word: &str, words: &mut Words, text: &mut Text) -> Result<()> {
    match word {
        "open" => {
            let fileset = words.fileset();
            let number = words.number()?;
            push_yes(text, gives.is_open(fileset, number));
        }
        "outstanding" => {
            let outstanding = gives.outstanding(words.fileset());
            push_number(text, outstanding.map(number_of));
        }
        "last" => text.number("", gives.last(words.fileset())),
        "all" => push_all(text, gives.slots()),
        word => return look_at_names(gives, word, words, text),
    }
    Ok(())
}

fn look_at_names(gives: &Gives, word: &str, words: &mut Words, text: &mut Text) -> Result<()> {
    match word {
        "names" => push_yes(text, gives.names(words.id()?)),
        "of-file" => push_yes(text, gives.of_file(words.file()?)),
        word => bail!("no step of give-backs: {word}"),
    }
    Ok(())
}

// The number of the give-back that is taken out.
fn gone_number(gives: &mut Gives, fileset: FilesetId, number: u64) -> Option<u64> {
    let gone = gives.gone(fileset, number);
    let number = gone.as_ref().map(number_of);
    drop(gone);
    number
}

// The same, outstanding or not.
fn taken_number(gives: &mut Gives, fileset: FilesetId, number: u64) -> Option<u64> {
    let taken = gives.take_out(fileset, number);
    let number = taken.as_ref().map(number_of);
    drop(taken);
    number
}

/// The numbers of tokens that the words left are.
pub fn ids(alloc: Global, words: &mut Words) -> Result<Items<TokenId>> {
    let mut ids = Items::new(alloc);
    for _ in 0..IDS_MAX {
        if words.is_empty() {
            break;
        }
        ids.push(words.id()?)?;
    }
    Ok(ids)
}

// `give add FILE NUMBER IDS`, without bytes: yes where it is the next one of its fileset.
fn add_row(alloc: Global, gives: &mut Gives, words: &mut Words, text: &mut Text) -> Result<()> {
    let fid = words.file()?;
    let number = words.number()?;
    let ids = ids(alloc, words)?;
    let give = given(alloc, fid, number, ids);
    let added = add(gives, &give);
    drop(give);
    push_yes(text, added?);
    Ok(())
}

fn given(alloc: Global, fid: Fid, number: u64, ids: Items<TokenId>) -> Message {
    Message {
        direction: Direction::ToServer,
        host: HostId(1),
        server: ServerId(1),
        epoch: 1,
        moves: 0,
        body: Body::GiveBack(Give {
            number,
            fid,
            ids,
            pieces: Items::new(alloc),
            length: None,
            ends: None,
        }),
    }
}

fn add(gives: &mut Gives, give: &Message) -> Result<bool, NoMemory> {
    let is_next = is_next(gives, give);
    if is_next {
        gives.add(give)?;
    }
    Ok(is_next)
}

fn is_next(gives: &Gives, give: &Message) -> bool
    ensures { IsTrue result → IsTrue (is_next gives.now give.now) }
{
    match &give.body {
        Body::GiveBack(given) => {
            gives.last(given.fid.fileset).checked_add(1) == Some(given.number)
        }
        _ => false,
    }
}

fn number_of(message: &Message) -> u64 {
    match &message.body {
        Body::GiveBack(give) => give.number,
        _ => 0,
    }
}

fn push_all(text: &mut Text, slots: &[Option<Message>]) {
    for slot in slots {
        if let Some(give) = slot {
            text.number("", number_of(give));
            text.word(" ");
        }
    }
}
