//! The steps of what leaves a host, and of what it says, on tables of its own.

use crate::drafting::push_draft;
use crate::looking::look_by;
use crate::reading::Words;
use crate::{caching, dirtying, giving, labelling, walking};
use anyhow::{Result, bail};
use base_types::{Fid, HostId, Items, Name, NoMemory, ServerId, User};
use host_cache::Cache;
use host_dirty::Dirty;
use host_gives::{Gives, Leavings};
use host_labels::Uses;
use host_lengths::Lengths;
use host_tables::{Draft, Request, Site, Tables, new_sites};
use message_types::{Body, Change, Fetch, Revoke};
use run_rules::Why;
use std::alloc::Global;
use token_types::TokenId;
use tree_calls::Call;
use tree_test_words::Text;

// Servers that are declared.
const SERVERS: u8 = 2;

/// Host 1.
#[derive(Drop)]
pub struct Leaver {
    tables: Tables,
}

impl Leaver {
    pub fn new(alloc: Global) -> Result<Leaver> {
        let user = walking::user(alloc)?;
        let sites = new_sites(alloc, SERVERS)?;
        let cache = Cache::new(alloc)?;
        Ok(Leaver {
            tables: tables_of(alloc, user, sites, cache)?,
        })
    }

    /// Writes the answer to a row `own ..`.
    pub fn tell(&mut self, alloc: Global, words: &mut Words, text: &mut Text) -> Result<()> {
        let tables = &mut self.tables;
        match words.next() {
            "cache" => caching::tell(alloc, &mut tables.cache, words, text),
            "dirty" => dirtying::tell(&mut tables.dirty, words, text),
            "label" => labelling::tell(alloc, &mut tables.uses, words, text),
            "give" => giving::tell(alloc, &mut tables.gives, words, text),
            word => look_by(tables, word, words, text),
        }
    }

    /// Writes the answer to a row `step ..`: what the step does.
    pub fn step(&mut self, alloc: Global, words: &mut Words, text: &mut Text) -> Result<()> {
        let mut draft = Draft::new(alloc);
        let made = step(&mut self.tables, &mut draft, words);
        push_draft(text, &draft);
        drop(draft);
        made
    }
}

// Tables in which nothing is outstanding.
fn tables_of(alloc: Global, user: User, sites: Items<Site>, cache: Cache) -> Result<Tables> {
    let leaving = Leavings::new(alloc)?;
    Ok(Tables {
        alloc,
        host: HostId(1),
        user,
        limit: 4,
        cache,
        dirty: Dirty::new(alloc),
        lengths: Lengths::new(alloc),
        uses: Uses::new(alloc),
        gives: Gives::new(alloc),
        leaving,
        ending: None,
        floors: Items::new(alloc),
        sites,
        request: None,
        fetched: Items::new(alloc),
        changed: Items::new(alloc),
        homes: Items::new(alloc),
        lost: Items::new(alloc),
        call: None,
        begun: 0,
    })
}

fn step(tables: &mut Tables, draft: &mut Draft, words: &mut Words) -> Result<()> {
    match words.next() {
        "leave" => leave(tables, draft, words),
        "leave-dirty" => Ok(host_leaves::leave_dirty(tables, draft, words.file()?)?),
        "end" => end(tables, draft, words),
        "drop" => Ok(drop_file(tables, draft, words.file()?)?),
        "revoke" => revoke(tables, draft, words),
        "fetch" => fetch(tables, draft, words),
        "change" => change(tables, draft, words),
        word => say(tables, draft, word, words),
    }
}

fn say(tables: &Tables, draft: &mut Draft, word: &str, words: &mut Words) -> Result<()> {
    match word {
        "say" => Ok(host_leaves::say(tables, draft, ServerId(2), Body::Hello)?),
        "send" => Ok(host_leaves::send_give(tables, draft, words.fileset())?),
        "due" => due(tables, draft, words),
        _ => bail!("no step"),
    }
}

// `step leave FILE IDS`: all tokens of a file leave, and some are returned that aren't held.
fn leave(tables: &mut Tables, draft: &mut Draft, words: &mut Words) -> Result<()> {
    let fid = words.file()?;
    let back = giving::ids(tables.alloc, words)?;
    let left = leave_file(tables, draft, fid, back.as_slice());
    drop(back);
    Ok(left?)
}

fn leave_file(
    tables: &mut Tables,
    draft: &mut Draft,
    fid: Fid,
    back: &[TokenId],
) -> Result<(), NoMemory> {
    let tokens = Items::from_slice(tables.alloc, tables.cache.tokens_at(fid))?;
    let tokens = tokens.as_slice();
    host_leaves::leave(tables, draft, fid, tokens, Why::Revoked, back)
}

// `step end ID K LABEL`: a held token leaves in a give-back that ends the lock with a label.
fn end(tables: &mut Tables, draft: &mut Draft, words: &mut Words) -> Result<()> {
    let id = words.id()?;
    let k = words.small()?;
    let label = words.name(tables.alloc)?;
    let call = Call::Unlock { label };
    let ended = end_held(tables, draft, id, k, &call);
    drop(call);
    Ok(ended?)
}

fn end_held(
    tables: &mut Tables,
    draft: &mut Draft,
    id: TokenId,
    k: u32,
    call: &Call,
) -> Result<(), NoMemory> {
    match tables.cache.find(id) {
        Some(held) => host_leaves::leave_ended(tables, draft, held.token, k, call),
        None => Ok(()),
    }
}

fn drop_file(tables: &mut Tables, draft: &mut Draft, fid: Fid) -> Result<(), NoMemory> {
    let tokens = Items::from_slice(tables.alloc, tables.cache.tokens_at(fid))?;
    host_leaves::drop_all(tables, draft, tokens.as_slice(), Why::Stopped)
}

// `step revoke FILE STAMP IDS`
fn revoke(tables: &mut Tables, draft: &mut Draft, words: &mut Words) -> Result<()> {
    let fid = words.file()?;
    let stamp = words.number()?;
    let ids = giving::ids(tables.alloc, words)?;
    let revoke = Revoke { fid, stamp, ids };
    let taken = host_leaves::take_revoke(tables, draft, &revoke);
    drop(revoke);
    Ok(taken?)
}

// `step due FILESET FILESET`: their give-backs became outstanding.
fn due(tables: &Tables, draft: &mut Draft, words: &mut Words) -> Result<()> {
    host_leaves::push_once(&mut draft.due, words.fileset())?;
    host_leaves::push_once(&mut draft.due, words.fileset())?;
    Ok(host_leaves::send_due(tables, draft)?)
}

// `step fetch FILE NUMBER`: a Fetch is outstanding, and is sent.
fn fetch(tables: &mut Tables, draft: &mut Draft, words: &mut Words) -> Result<()> {
    let fid = words.file()?;
    let number = words.number()?;
    let needs = Items::new(tables.alloc);
    put_request(tables, Request::Fetch(Fetch { number, fid, needs }));
    Ok(host_leaves::send_request(tables, draft)?)
}

// `step change FILE NUMBER LABEL`: server 2 is asked to end the lock with a label.
fn change(tables: &mut Tables, draft: &mut Draft, words: &mut Words) -> Result<()> {
    let fid = words.file()?;
    let number = words.number()?;
    let label = words.name(tables.alloc)?;
    put_request(
        tables,
        Request::Change(ServerId(2), unlock_asked(fid, number, label)),
    );
    Ok(host_leaves::send_request(tables, draft)?)
}

fn unlock_asked(fid: Fid, number: u64, label: Name) -> Change {
    Change {
        number,
        fileset: fid.fileset,
        fid,
        enter: false,
        k: 1,
        call: Call::Unlock { label },
    }
}

// Makes this the request that is outstanding.
fn put_request(tables: &mut Tables, request: Request) {
    let before = tables.request.replace(request);
    drop(before);
}
