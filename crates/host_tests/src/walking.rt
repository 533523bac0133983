//! Walks over a cache: the root of fileset 65537 is a directory in which the user, its owner, may read and search, with
//! the file a, 9 bytes long, which it may read and write, the directory d, in which it may do nothing, and the file x,
//! 3,000 bytes long, which it may read. Held are all bytes of a, and the second block of x.

use crate::caching::tell_tokens;
use crate::reading::{Words, push_number};
use anyhow::{Result, bail};
use base_types::{
    AccessEntry, AccessList, Fid, FilesetId, HostId, Items, Name, Rights, ServerId, Span, User, Who,
};
use host_cache::Cache;
use host_walk::{Sight, Stop};
use std::alloc::Global;
use token_types::{Kind, Need, Token, TokenId};
use tree_calls::{DirEntry, Refusal, Status, Which};
use tree_test_words::Text;

const ROOT: Fid = Fid {
    fileset: FilesetId(65_537),
    anode: 1,
    unique: 1,
};

/// The user and the cache.
#[derive(Drop)]
pub struct Walker {
    cache: Cache,
    user: User,
}

impl Walker {
    pub fn new(alloc: Global) -> Result<Walker> {
        let mut cache = Cache::new(alloc)?;
        fill_root(alloc, &mut cache)?;
        fill_files(alloc, &mut cache)?;
        let user = user(alloc)?;
        Ok(Walker { cache, user })
    }

    /// Writes the answer to a row `walk ..`.
    pub fn tell(&self, alloc: Global, words: &mut Words, text: &mut Text) -> Result<()> {
        let sight = Sight {
            cache: &self.cache,
            user: &self.user,
        };
        let word = words.next();
        let path = path(alloc, words.next())?;
        let told = tell_by(sight, word, path.as_slice(), words, text);
        drop(path);
        told
    }

    /// Writes the answer to a row `mark ..`.
    pub fn mark(&mut self, alloc: Global, words: &mut Words, text: &mut Text) -> Result<()> {
        let path = path(alloc, words.next())?;
        host_walk::mark_way(&mut self.cache, &self.user, ROOT, path.as_slice(), &[]);
        drop(path);
        if !words.is_empty() {
            let fid = words.file()?;
            host_walk::mark(&mut self.cache, host_walk::whole_need(fid));
        }
        tell_tokens(&self.cache, text)
    }
}

fn tell_by(
    sight: Sight,
    word: &str,
    names: &[Name],
    words: &mut Words,
    text: &mut Text,
) -> Result<()> {
    match word {
        "read" => {
            let from = words.small()?;
            let len = words.small()?;
            push_read(text, sight.read(ROOT, names, from, len));
        }
        "write" => {
            let from = words.small()?;
            push_write(
                text,
                sight.write(ROOT, names, from, words.next().as_bytes()),
            );
        }
        "access" => push_access(text, sight, names, which(words.next())),
        "use" => push_use(text, sight, names, words.next() == "changing"),
        word => push_look(text, sight, word, names),
    }
    Ok(())
}

// The rows that look at more than bytes.
fn push_look(text: &mut Text, sight: Sight, word: &str, names: &[Name]) {
    match word {
        "list" => push_list(text, sight, names),
        "stat" => push_stat(text, sight, names),
        "file" => push_file(text, sight, names),
        _ => text.word("no look"),
    }
}

fn push_list(text: &mut Text, sight: Sight, names: &[Name]) {
    match sight.list(ROOT, names) {
        Ok((fid, entries)) => push_count(text, fid, entries.len()),
        Err(stop) => push_stop(text, stop),
    }
}

fn push_stat(text: &mut Text, sight: Sight, names: &[Name]) {
    match sight.target(ROOT, names) {
        Ok((fid, status)) => push_count(text, fid, status.length as usize),
        Err(stop) => push_stop(text, stop),
    }
}

fn push_file(text: &mut Text, sight: Sight, names: &[Name]) {
    match sight.file(ROOT, names) {
        Ok((fid, status)) => push_count(text, fid, status.length as usize),
        Err(stop) => push_stop(text, stop),
    }
}

fn push_access(text: &mut Text, sight: Sight, names: &[Name], which: Which) {
    match sight.access(ROOT, names, which) {
        Ok((fid, list)) => push_count(text, fid, list.as_slice().len()),
        Err(stop) => push_stop(text, stop),
    }
}

fn push_use(text: &mut Text, sight: Sight, names: &[Name], changing: bool) {
    let right = if changing {
        Rights::WRITE
    } else {
        Rights::READ
    };
    match sight.usable(ROOT, names, changing, right) {
        Ok(fid) => push_count(text, fid, 0),
        Err(stop) => push_stop(text, stop),
    }
}

fn which(word: &str) -> Which {
    match word {
        "files" => Which::Files,
        "dirs" => Which::Dirs,
        _ => Which::Own,
    }
}

// `.`, or names between slashes.
fn path(alloc: Global, word: &str) -> Result<Items<Name>> {
    let mut path = Items::new(alloc);
    if word == "." {
        return Ok(path);
    }
    for name in word.split('/') {
        path.push(Name::new(alloc, name.as_bytes())?)?;
    }
    Ok(path)
}

fn push_read(text: &mut Text, read: Result<(Fid, Span), Stop>) {
    match read {
        Ok((fid, span)) => {
            text.number("f", u64::from(fid.anode));
            push_span(text, " ", span);
        }
        Err(stop) => push_stop(text, stop),
    }
}

fn push_span(text: &mut Text, word: &str, span: Span) {
    text.number(word, u64::from(span.from));
    text.number("-", u64::from(span.to));
}

fn push_write(text: &mut Text, wrote: Result<Option<Fid>, Stop>) {
    match wrote {
        Ok(fid) => push_number(text, fid.map(|fid| u64::from(fid.anode))),
        Err(stop) => push_stop(text, stop),
    }
}

fn push_count(text: &mut Text, fid: Fid, count: usize) {
    text.number("f", u64::from(fid.anode));
    text.number(" ", count as u64);
}

fn push_stop(text: &mut Text, stop: Stop) {
    match stop {
        Stop::Refused(refusal) => text.word(refusal_word(refusal)),
        Stop::Lacks(need) => push_lack(text, need),
    }
}

fn refusal_word(refusal: Refusal) -> &'static str {
    match refusal {
        Refusal::NoEntry => "no entry",
        Refusal::NotDir => "not a directory",
        Refusal::IsDir => "a directory",
        Refusal::Denied(_) => "denied",
        Refusal::TooBig => "too big",
        Refusal::ReadOnly => "read only",
        _ => "refused",
    }
}

fn push_lack(text: &mut Text, need: Need) {
    text.number("lacks f", u64::from(need.fid.anode));
    match need.kind {
        Kind::Bytes { update, span } => {
            push_span(text, if update { " update " } else { " read " }, span);
        }
        Kind::Status { update: true } => text.word(" status-update"),
        _ => text.word(" status"),
    }
}

/// The user for whom the host acts.
pub fn user(alloc: Global) -> Result<User> {
    let name = Name::new(alloc, b"u")?;
    Ok(User {
        name,
        groups: Items::new(alloc),
    })
}

// What is held of the root.
fn fill_root(alloc: Global, cache: &mut Cache) -> Result<()> {
    add_status(alloc, cache, 1, 1, (true, 3, 5))?;
    let entries = root_entries(alloc)?;
    let added = add(cache, token(2, 1, whole()), None, entries.as_slice());
    drop(entries);
    added
}

fn root_entries(alloc: Global) -> Result<Items<DirEntry>> {
    let mut entries = Items::new(alloc);
    for (name, anode) in [("a", 2), ("d", 3), ("x", 4)] {
        entries.push(entry(alloc, name.as_bytes(), anode)?)?;
    }
    Ok(entries)
}

// What is held of a, d and x.
fn fill_files(alloc: Global, cache: &mut Cache) -> Result<()> {
    add_status(alloc, cache, 3, 2, (false, 9, 3))?;
    add(cache, token(4, 2, whole()), None, &[])?;
    add_status(alloc, cache, 5, 3, (true, 0, 0))?;
    add_status(alloc, cache, 6, 4, (false, 3_000, 1))?;
    let second = Kind::Bytes {
        update: false,
        span: host_walk::positions(1_024, 2_048),
    };
    add(cache, token(7, 4, second), None, &[])
}

fn whole() -> Kind {
    Kind::Bytes {
        update: false,
        span: Span::WHOLE,
    }
}

fn token(seq: u64, anode: u32, kind: Kind) -> Token {
    Token {
        id: TokenId {
            server: ServerId(1),
            epoch: 1,
            seq,
        },
        host: HostId(1),
        fid: Fid { anode, ..ROOT },
        kind,
    }
}

fn entry(alloc: Global, name: &[u8], anode: u32) -> Result<DirEntry> {
    Ok(DirEntry {
        name: Name::new(alloc, name)?,
        anode,
        unique: 1,
    })
}

fn add_status(
    alloc: Global,
    cache: &mut Cache,
    seq: u64,
    anode: u32,
    (dir, length, rights): (bool, u32, u8),
) -> Result<()> {
    let status = status(alloc, dir, length, Rights::from_bits(rights))?;
    let kind = Kind::Status { update: false };
    let added = add(cache, token(seq, anode, kind), Some(&status), &[]);
    drop(status);
    added
}

fn status(alloc: Global, dir: bool, length: u32, rights: Rights) -> Result<Status> {
    let owner = Name::new(alloc, b"u")?;
    let group = Name::new(alloc, b"g")?;
    let lists = lists(alloc, rights)?;
    Ok(Status {
        dir,
        read_only: false,
        length,
        owner,
        group,
        lists,
    })
}

fn lists(alloc: Global, rights: Rights) -> Result<Items<AccessList>> {
    let mut lists = Items::new(alloc);
    lists.push(list(alloc, rights)?)?;
    Ok(lists)
}

// The owner's rights, and none for all others.
fn list(alloc: Global, rights: Rights) -> Result<AccessList> {
    let entries = [
        of(Who::UserObj, rights),
        of(Who::GroupObj, Rights::NONE),
        of(Who::OtherObj, Rights::NONE),
    ];
    let list = AccessList::new(alloc, &entries);
    drop(entries);
    Ok(list?)
}

fn of(who: Who, rights: Rights) -> AccessEntry {
    AccessEntry { who, rights }
}

// Adds a token that isn't held.
fn add(
    cache: &mut Cache,
    token: Token,
    status: Option<&Status>,
    entries: &[DirEntry],
) -> Result<()> {
    if cache.holds(token.id) {
        bail!("held already");
    }
    cache.add(token, status, &[], entries)?;
    Ok(())
}
