//! The messages of servers that rows name.

use anyhow::{Context, Result, bail};
use base_types::{
    AccessEntry, AccessList, FILE_BYTES_MAX, Fid, HostId, Items, Name, OpenKind, Rights, ServerId,
    Span, Who,
};
use message_types::{
    AppliedGive, Body, Bring, Direction, Done, DoneIs, Grant, Message, Reclaimed, Revoke,
};
use std::alloc::Global;
use token_types::{Kind, Token, TokenId};
use tree_calls::{DirEntry, Piece, Reply, Status};
use tree_test_words::Words;

/// `s1`, where a word is a server.
pub fn server_of(word: &str) -> Option<ServerId> {
    match word {
        "s1" => Some(ServerId(1)),
        "s2" => Some(ServerId(2)),
        _ => None,
    }
}

/// `EPOCH WORD ..`: a message of a server to a host.
pub fn message(host: HostId, server: ServerId, words: &mut Words) -> Result<Message> {
    let epoch = words.long()?;
    let body = body(host, server, words)?;
    Ok(Message {
        direction: Direction::ToHost,
        host,
        server,
        epoch,
        moves: 0,
        body,
    })
}

fn body(host: HostId, server: ServerId, words: &mut Words) -> Result<Body> {
    match words.next() {
        "grant" => grant_body(host, server, words),
        "done" => done_body(host, server, words),
        "revoke" => revoke_body(server, words),
        "gone" => Ok(Body::Gone(applied(words)?)),
        "reclaimed" => reclaimed_body(words),
        word => bare_body(word),
    }
}

fn bare_body(word: &str) -> Result<Body> {
    match word {
        "restarted" => Ok(Body::Restarted),
        "bye" => Ok(Body::Bye),
        _ => bail!("no message: {word}"),
    }
}

fn grant_body(host: HostId, server: ServerId, words: &mut Words) -> Result<Body> {
    Ok(Body::Grant(grant(host, server, words)?))
}

fn done_body(host: HostId, server: ServerId, words: &mut Words) -> Result<Body> {
    Ok(Body::Done(done(host, server, words)?))
}

fn revoke_body(server: ServerId, words: &mut Words) -> Result<Body> {
    Ok(Body::Revoke(revoke(server, words)?))
}

fn reclaimed_body(words: &mut Words) -> Result<Body> {
    Ok(Body::Reclaimed(reclaimed(words)?))
}

// `BRING PIECE ENTRY STATUS`
fn grant(host: HostId, server: ServerId, words: &mut Words) -> Result<Grant> {
    let mut grant = Grant {
        bring: bring(host, server, words)?,
        status: None,
        pieces: Items::new(words.alloc()),
        entries: Items::new(words.alloc()),
    };
    match show(&mut grant, words) {
        Ok(()) => Ok(grant),
        Err(error) => {
            drop(grant);
            Err(error)
        }
    }
}

fn show(grant: &mut Grant, words: &mut Words) -> Result<()> {
    push_piece(&mut grant.pieces, words)?;
    push_entry(&mut grant.entries, words)?;
    put_status(&mut grant.status, words)
}

// `FROM:BYTES`, or `-`.
fn push_piece(pieces: &mut Items<Piece>, words: &mut Words) -> Result<()> {
    if let Some((from, bytes)) = words.next().split_once(':') {
        let from = from.parse::<u32>().context("where it begins")?;
        let bytes = Items::from_slice(words.alloc(), bytes.as_bytes())?;
        pieces.push(Piece { from, bytes })?;
    }
    Ok(())
}

// `NAME:ANODE`, or `-`.
fn push_entry(entries: &mut Items<DirEntry>, words: &mut Words) -> Result<()> {
    if let Some((name, anode)) = words.next().split_once(':') {
        let anode = anode.parse::<u32>().context("an anode")?;
        let name = Name::new(words.alloc(), name.as_bytes())?;
        let unique = 1;
        entries.push(DirEntry {
            name,
            anode,
            unique,
        })?;
    }
    Ok(())
}

fn put_status(shown: &mut Option<Status>, words: &mut Words) -> Result<()> {
    if let Some(status) = status(words)? {
        drop(shown.replace(status));
    }
    Ok(())
}

// `file:LENGTH`, `dir:LENGTH`, or `-`.
fn status(words: &mut Words) -> Result<Option<Status>> {
    let Some((word, length)) = words.next().split_once(':') else {
        return Ok(None);
    };
    let length = length.parse::<u32>().context("a length")?;
    Ok(Some(status_of(words.alloc(), word == "dir", length)?))
}

// Of ann, who may do all; others may read and search.
fn status_of(alloc: Global, dir: bool, length: u32) -> Result<Status> {
    let owner = Name::new(alloc, b"ann")?;
    let group = Name::new(alloc, b"dev")?;
    let lists = lists(alloc, if dir { 3 } else { 1 })?;
    Ok(Status {
        dir,
        read_only: false,
        length,
        owner,
        group,
        lists,
    })
}

fn lists(alloc: Global, count: usize) -> Result<Items<AccessList>> {
    let mut lists = Items::new(alloc);
    for _ in 0..count {
        lists.push(list(alloc)?)?;
    }
    Ok(lists)
}

fn list(alloc: Global) -> Result<AccessList> {
    let seen = Rights::READ.union(Rights::EXECUTE);
    let entries = [
        entry_of(Who::UserObj, Rights::ALL),
        entry_of(Who::GroupObj, seen),
        entry_of(Who::OtherObj, seen),
    ];
    let list = AccessList::new(alloc, &entries);
    drop(entries);
    Ok(list?)
}

fn entry_of(who: Who, rights: Rights) -> AccessEntry {
    AccessEntry { who, rights }
}

// `NUMBER FID STAMP TOKENS`
fn bring(host: HostId, server: ServerId, words: &mut Words) -> Result<Bring> {
    let number = words.long()?;
    let fid = words.fid()?;
    let stamp = words.long()?;
    let tokens = tokens(host, server, fid, words)?;
    Ok(Bring {
        number,
        fid,
        stamp,
        tokens,
    })
}

// `SEQ:KIND,SEQ:KIND`, or `-`.
fn tokens(host: HostId, server: ServerId, fid: Fid, words: &mut Words) -> Result<Items<Token>> {
    let mut tokens = Items::new(words.alloc());
    let word = words.next();
    if word == "-" {
        return Ok(tokens);
    }
    for part in word.split(',') {
        tokens.push(token(host, server, fid, part)?)?;
    }
    Ok(tokens)
}

// `SEQ:KIND`
fn token(host: HostId, server: ServerId, fid: Fid, part: &str) -> Result<Token> {
    let (seq, kind) = part.split_once(':').context("a token")?;
    let id = id(server, seq)?;
    let kind = kind_of(kind)?;
    Ok(Token {
        id,
        host,
        fid,
        kind,
    })
}

// `SEQ`: a token of a server's first epoch.
fn id(server: ServerId, seq: &str) -> Result<TokenId> {
    Ok(TokenId {
        server,
        epoch: 1,
        seq: seq.parse::<u64>().context("a token")?,
    })
}

// `status`, `status-update`, `lock`, `open`, `read-FROM-TO` or `update-FROM-TO`.
fn kind_of(word: &str) -> Result<Kind> {
    match word {
        "status" => Ok(Kind::Status { update: false }),
        "status-update" => Ok(Kind::Status { update: true }),
        "open" => Ok(Kind::Opening(OpenKind::Reading)),
        word => bytes_kind(word),
    }
}

fn bytes_kind(word: &str) -> Result<Kind> {
    let (word, rest) = word.split_once('-').context("a kind")?;
    let (from, to) = rest.split_once('-').context("a span")?;
    let span = span(from.parse::<u32>()?, to.parse::<u32>()?)?;
    match word {
        "read" => Ok(Kind::Bytes {
            update: false,
            span,
        }),
        "update" => Ok(Kind::Bytes { update: true, span }),
        "lock" => Ok(Kind::Lock {
            writing: true,
            span,
        }),
        _ => bail!("no kind"),
    }
}

fn span(from: u32, to: u32) -> Result<Span> {
    if to < from || FILE_BYTES_MAX < to {
        bail!("no span");
    }
    Ok(Span { from, to })
}

// `FILESET OUTCOME BRING`
fn done(host: HostId, server: ServerId, words: &mut Words) -> Result<Done> {
    let fileset = words.fileset()?;
    let word = words.next();
    let bring = bring(host, server, words)?;
    let outcome = outcome(word, words)?;
    Ok(Done {
        fileset,
        outcome,
        bring,
    })
}

// The fileset that is known stands behind what is brought.
fn outcome(word: &str, words: &mut Words) -> Result<DoneIs> {
    match word {
        "ok" => Ok(DoneIs::Reply(Reply::Ok)),
        "known" => Ok(DoneIs::Known(words.fileset()?)),
        "granted" => Ok(DoneIs::Granted),
        _ => bail!("no outcome"),
    }
}

// `FID STAMP SEQS`
fn revoke(server: ServerId, words: &mut Words) -> Result<Revoke> {
    let fid = words.fid()?;
    let stamp = words.long()?;
    let mut ids = Items::new(words.alloc());
    for _ in 0..u64::MAX {
        if words.is_empty() {
            break;
        }
        ids.push(id(server, words.next())?)?;
    }
    Ok(Revoke { fid, stamp, ids })
}

// `FILESET NUMBER`
fn applied(words: &mut Words) -> Result<AppliedGive> {
    let fileset = words.fileset()?;
    let number = words.long()?;
    Ok(AppliedGive { fileset, number })
}

// Give-backs that were applied, as `FILESET NUMBER` each.
fn reclaimed(words: &mut Words) -> Result<Reclaimed> {
    let mut given = Items::new(words.alloc());
    for _ in 0..u64::MAX {
        if words.is_empty() {
            break;
        }
        given.push(applied(words)?)?;
    }
    Ok(Reclaimed {
        applied: given,
        left_out: Items::new(words.alloc()),
    })
}
