//! The messages that rows name.

use crate::starting::SERVER;
use anyhow::{Context, Result, bail};
use base_types::{FILE_BYTES_MAX, Fid, FilesetId, HostId, Items, Span};
use message_types::{Body, Change, Direction, Fetch, Give, Message, Named, Outstanding, Reclaim};
use server_tables::NO_FID;
use token_types::{Kind, Need, Token, TokenId};
use tree_calls::{Call, Piece};
use tree_test_words::Words;

// `FROM TO`: bytes within a file.
fn span(words: &mut Words) -> Result<Span> {
    let (from, to) = (words.number()?, words.number()?);
    if to < from || FILE_BYTES_MAX < to {
        bail!("no span");
    }
    Ok(Span { from, to })
}

fn kind(words: &mut Words) -> Result<Kind> {
    let update = words.next() == "write";
    if words.is_empty() {
        return Ok(Kind::Status { update });
    }
    let span = span(words)?;
    Ok(Kind::Bytes { update, span })
}

/// `NUMBER FID read|write [FROM TO]`: a need of bytes or of the status.
pub fn fetch(words: &mut Words) -> Result<Fetch> {
    let number = words.long()?;
    let fid = words.fid()?;
    let kind = kind(words)?;
    let needs = Items::from_slice(words.alloc(), &[Need { fid, kind }])?;
    Ok(Fetch { number, fid, needs })
}

/// `NUMBER FILESET CALL`
pub fn change(words: &mut Words) -> Result<Change> {
    let number = words.long()?;
    let fileset = words.fileset()?;
    let call = words.call()?;
    Ok(change_of(number, fileset, NO_FID, call))
}

// `NUMBER FID CALL`: a lock or an open of a file that the host found.
fn use_of(words: &mut Words) -> Result<Change> {
    let number = words.long()?;
    let fid = words.fid()?;
    let call = words.call()?;
    Ok(change_of(number, fid.fileset, fid, call))
}

fn change_of(number: u64, fileset: FilesetId, fid: Fid, call: Call) -> Change {
    Change {
        number,
        fileset,
        fid,
        enter: false,
        k: 1,
        call,
    }
}

// `EPOCH.SEQ`, or `SEQ` of epoch 1: a token of the server.
fn id_of(word: &str) -> Result<TokenId> {
    let (epoch, seq) = word.split_once('.').unwrap_or(("1", word));
    Ok(TokenId {
        server: SERVER,
        epoch: epoch.parse::<u64>().context("an epoch")?,
        seq: seq.parse::<u64>().context("a token")?,
    })
}

// None at the end.
fn ids(words: &mut Words) -> Result<Items<TokenId>> {
    if words.is_empty() {
        return Ok(Items::new(words.alloc()));
    }
    let id = id_of(words.next())?;
    Ok(Items::from_slice(words.alloc(), &[id])?)
}

// `FID TOKEN`
fn named(words: &mut Words) -> Result<Named> {
    let fid = words.fid()?;
    let ids = ids(words)?;
    Ok(Named { fid, ids })
}

// `FROM BYTES`: a piece.
fn piece(words: &mut Words) -> Result<Items<Piece>> {
    let from = words.number()?;
    let bytes = words.bytes()?;
    let mut pieces = Items::new(words.alloc());
    pieces.push(Piece { from, bytes })?;
    Ok(pieces)
}

// `NUMBER FID LENGTH FROM BYTES`, a length that isn't a number being none, and maybe a token.
fn give(words: &mut Words) -> Result<Give> {
    let number = words.long()?;
    let fid = words.fid()?;
    let length = words.next().parse::<u32>().ok();
    let pieces = piece(words)?;
    let ids = ids(words)?;
    Ok(Give {
        number,
        fid,
        ids,
        pieces,
        length,
        ends: None,
    })
}

// `FILESET GIVE`, and maybe `TOKEN ANODE UNIQUE KIND`: a claim while a give-back is outstanding.
fn claim(host: HostId, words: &mut Words) -> Result<Reclaim> {
    let outstanding = Outstanding {
        fileset: words.fileset()?,
        moves: 0,
        give: words.long()?,
        change: 0,
    };
    let numbers = Items::from_slice(words.alloc(), &[outstanding])?;
    let tokens = tokens(host, outstanding.fileset, words)?;
    Ok(Reclaim { tokens, numbers })
}

fn tokens(host: HostId, fileset: FilesetId, words: &mut Words) -> Result<Items<Token>> {
    if words.is_empty() {
        return Ok(Items::new(words.alloc()));
    }
    let token = Token {
        id: id_of(words.next())?,
        host,
        fid: Fid {
            fileset,
            anode: words.number()?,
            unique: words.number()?,
        },
        kind: kind(words)?,
    };
    Ok(Items::from_slice(words.alloc(), &[token])?)
}

// `WORD ..`: what a message says.
fn body(host: HostId, words: &mut Words) -> Result<Body> {
    match words.next() {
        "hello" => Ok(Body::Hello),
        "down" => Ok(Body::Down),
        "bye" => Ok(Body::Bye),
        word => body_with(word, host, words),
    }
}

fn body_with(word: &str, host: HostId, words: &mut Words) -> Result<Body> {
    match word {
        "fetch" => fetching(words),
        "change" => changing(words),
        "use" => using(words),
        "give" => giving(words),
        "reclaim" => claiming(host, words),
        "returned" => returning(words),
        _ => keeping(word, words),
    }
}

fn fetching(words: &mut Words) -> Result<Body> {
    let fetch = fetch(words)?;
    Ok(Body::Fetch(fetch))
}

fn changing(words: &mut Words) -> Result<Body> {
    let change = change(words)?;
    Ok(Body::Change(change))
}

fn using(words: &mut Words) -> Result<Body> {
    let change = use_of(words)?;
    Ok(Body::Change(change))
}

fn giving(words: &mut Words) -> Result<Body> {
    let give = give(words)?;
    Ok(Body::GiveBack(give))
}

fn claiming(host: HostId, words: &mut Words) -> Result<Body> {
    let claim = claim(host, words)?;
    Ok(Body::Reclaim(claim))
}

fn returning(words: &mut Words) -> Result<Body> {
    let named = named(words)?;
    Ok(Body::Returned(named))
}

fn keeping(word: &str, words: &mut Words) -> Result<Body> {
    if word != "kept" {
        bail!("no message: {word}");
    }
    let named = named(words)?;
    Ok(Body::Kept(named))
}

/// `HOST EPOCH WORD ..`: a message of a host.
pub fn message(words: &mut Words) -> Result<Message> {
    let host = words.host()?;
    let epoch = words.long()?;
    let body = body(host, words)?;
    Ok(Message {
        direction: Direction::ToServer,
        host,
        server: SERVER,
        epoch,
        moves: 0,
        body,
    })
}
