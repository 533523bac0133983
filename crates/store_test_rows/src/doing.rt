//! The acts of a row, and what became of them as text.

use anyhow::{Result, bail};
use base_types::{Items, Rights};
use store_memory::{Act, Done, HostState};
use tree_calls::{Piece, Refusal, ShipPart};
use tree_test_words::{Text, Words, push_reply};

/// The acts of a row, with ` ; ` between them.
pub fn acts(words: &Words) -> Result<Items<Act>> {
    let mut acts = Items::new(words.alloc());
    for text in words.rest().split(';') {
        let mut words = Words::new(words.alloc(), text.trim());
        acts.push(act(&mut words)?)?;
    }
    Ok(acts)
}

fn act(words: &mut Words) -> Result<Act> {
    match words.next() {
        "boot" => Ok(Act::Boot),
        "epoch" => Ok(Act::Epoch),
        "host" => Ok(Act::Host {
            host: words.host()?,
            state: host_state(words.next()),
        }),
        "do" => Ok(Act::Do {
            host: words.host()?,
            number: words.long()?,
            call: words.call()?,
        }),
        "refuse" => refuse(words),
        "give" => give(words),
        word => move_act(word, words),
    }
}

fn refuse(words: &mut Words) -> Result<Act> {
    Ok(Act::Refuse {
        host: words.host()?,
        number: words.long()?,
        fileset: words.fileset()?,
        refusal: refusal(words.next())?,
    })
}

// `give HOST NUMBER FID LENGTH [FROM BYTES ..]`, a length that isn't a number being none
fn give(words: &mut Words) -> Result<Act> {
    Ok(Act::Give {
        host: words.host()?,
        number: words.long()?,
        fid: words.fid()?,
        length: words.next().parse::<u32>().ok(),
        pieces: pieces(words)?,
    })
}

fn pieces(words: &mut Words) -> Result<Items<Piece>> {
    let mut pieces = Items::new(words.alloc());
    for _ in 0..8 {
        if words.is_empty() {
            break;
        }
        let from = words.number()?;
        let bytes = words.bytes()?;
        pieces.push(Piece { from, bytes })?;
    }
    Ok(pieces)
}

fn move_act(word: &str, words: &mut Words) -> Result<Act> {
    match word {
        "leave" => Ok(Act::Leave {
            fileset: words.fileset()?,
            to: words.server()?,
        }),
        "back" => back(words),
        "left" => Ok(Act::Left {
            fileset: words.fileset()?,
        }),
        "settle" => Ok(Act::Settle {
            fileset: words.fileset()?,
        }),
        "free" => free_part(words),
        _ => bail!("no act: {word}"),
    }
}

// `free SERVER SHIP FILESET MOVES AT`: a part of a fileset by which the anode of this number is free
fn free_part(words: &mut Words) -> Result<Act> {
    let from = words.server()?;
    let ship = words.long()?;
    let fileset = words.fileset()?;
    let moves = words.number()?;
    let at = words.number()?;
    Ok(Act::Part {
        from,
        ship,
        fileset,
        moves,
        at,
        part: ShipPart::Object {
            anode: at,
            unique: 1,
            status: None,
            pieces: Items::new(words.alloc()),
            entries: Items::new(words.alloc()),
        },
    })
}

fn back(words: &mut Words) -> Result<Act> {
    Ok(Act::Back {
        host: words.host()?,
        number: words.long()?,
        fileset: words.fileset()?,
        refusal: refusal(words.next())?,
    })
}

fn host_state(text: &str) -> HostState {
    match text {
        "live" => HostState::Live,
        "down" => HostState::IsDown,
        "ended" => HostState::Ended,
        _ => HostState::Unknown,
    }
}

/// Writes what became of acts: `old` before the reply of one that wasn't done now.
pub fn push_dones(text: &mut Text, dones: &Items<Done>) {
    let mut apart = "";
    for done in dones.as_slice() {
        text.word(apart);
        text.word(if done.fresh { "" } else { "old " });
        push_reply(text, &done.reply);
        apart = ", ";
    }
}

// A refusal that a store may keep, by its name in the rows.
fn refusal(text: &str) -> Result<Refusal> {
    Ok(match text {
        "in-use" => Refusal::InUse,
        "no-room" => Refusal::NoRoom,
        "exists" => Refusal::Exists,
        "denied" => Refusal::Denied(Rights::WRITE),
        _ => bail!("no refusal: {text}"),
    })
}
