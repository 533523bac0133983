//! The steps of a cache.
ghost use Rattle.std.specs.Prelude.{◌≡◌, ◌+◌, ◌-◌, false, length, IfSome};
ghost use Rattle.host_cache.specs.Holding.{has_id};

use crate::reading::{Words, push_number, push_yes};
use anyhow::{Result, bail};
use base_types::{FILE_BYTES_MAX, Fid, HostId, Items, Name, NoMemory, Span};
use host_cache::Cache;
use std::alloc::Global;
use token_types::{Kind, Need, Token, TokenId};
use tree_calls::{DirEntry, Piece, Status};
use tree_test_words::Text;

// Bytes of one read, at most.
const READ_MAX: usize = 16;

/// Writes the answer to a row `cache ..`.
pub fn tell(alloc: Global, cache: &mut Cache, words: &mut Words, text: &mut Text) -> Result<()> {
    match words.next() {
        "add" => add(alloc, cache, words, text),
        "drop" => {
            let dropped = cache.drop_id(words.id()?);
            push_number(text, dropped.map(|token| token.id.seq));
            Ok(())
        }
        "read" => read(cache, words, text),
        "write" => write(cache, words, text),
        "used" => use_need(cache, words, text),
        "use" => set_use(cache, words, text),
        "length" => set_length(cache, words, text),
        word => look(cache, word, words, text),
    }
}

fn set_use(cache: &mut Cache, words: &mut Words, text: &mut Text) -> Result<()> {
    let id = words.id()?;
    cache.set_use(id, words.next() == "yes");
    text.number("", cache.idle() as u64);
    Ok(())
}

fn use_need(cache: &mut Cache, words: &mut Words, text: &mut Text) -> Result<()> {
    let need = need(words)?;
    cache.used(&need);
    tell_tokens(cache, text)
}

fn set_length(cache: &mut Cache, words: &mut Words, text: &mut Text) -> Result<()> {
    let fid = words.file()?;
    let Some(length) = words.length()? else {
        bail!("no length");
    };
    cache.set_length(fid, length);
    push_length(text, cache, fid);
    Ok(())
}

fn push_length(text: &mut Text, cache: &Cache, fid: Fid) {
    let status = cache.status(fid);
    push_number(text, status.map(|status| u64::from(status.length)));
}

fn look(cache: &Cache, word: &str, words: &mut Words, text: &mut Text) -> Result<()> {
    match word {
        "tokens" => return tell_tokens(cache, text),
        "oldest" => push_number(text, cache.oldest().map(|id| id.seq)),
        "covers" => push_yes(text, cache.covers(&need(words)?)),
        "find" => push_use(text, cache, words.id()?),
        word => look_at_file(cache, word, words.file()?, text),
    }
    Ok(())
}

fn look_at_file(cache: &Cache, word: &str, fid: Fid, text: &mut Text) {
    match word {
        "status" => push_length(text, cache, fid),
        "entries" => {
            let first = cache.entries(fid).first();
            push_number(text, first.map(|entry| u64::from(entry.anode)));
        }
        "at" => push_seqs(text, cache.tokens_at(fid)),
        _ => text.word("no step of a cache"),
    }
}

fn kind(words: &mut Words) -> Result<Kind> {
    match words.next() {
        "read" => Ok(Kind::Bytes {
            update: false,
            span: words.span()?,
        }),
        "update" => Ok(Kind::Bytes {
            update: true,
            span: words.span()?,
        }),
        "status" => Ok(Kind::Status { update: false }),
        "status-update" => Ok(Kind::Status { update: true }),
        word => bail!("no kind: {word}"),
    }
}

fn need(words: &mut Words) -> Result<Need> {
    let fid = words.file()?;
    Ok(Need {
        fid,
        kind: kind(words)?,
    })
}

// `cache add ID FILE KIND ..`: yes where no token of that number is held. A status token comes with a length or `none`;
// bytes with a position and bytes there, and maybe with the anode of one entry.
fn add(alloc: Global, cache: &mut Cache, words: &mut Words, text: &mut Text) -> Result<()> {
    let id = words.id()?;
    let fid = words.file()?;
    let token = Token {
        id,
        host: HostId(1),
        fid,
        kind: kind(words)?,
    };
    let is_new = !cache.holds(token.id);
    if is_new {
        add_new(alloc, cache, token, words)?;
    }
    push_yes(text, is_new);
    Ok(())
}

fn add_new(alloc: Global, cache: &mut Cache, token: Token, words: &mut Words) -> Result<()>
    requires { has_id cache.old.held token.id ≡ false }
{
    let first = words.length()?;
    if matches!(token.kind, Kind::Status { .. }) {
        return add_status(alloc, cache, token, first);
    }
    let bytes = words.next();
    let anode = words.length()?;
    add_bytes(alloc, cache, token, first, bytes, anode)
}

fn add_status(alloc: Global, cache: &mut Cache, token: Token, length: Option<u32>) -> Result<()>
    requires { has_id cache.old.held token.id ≡ false }
{
    let Some(length) = length else {
        cache.add(token, None, &[], &[])?;
        return Ok(());
    };
    let status = status(alloc, length)?;
    let added = cache.add(token, Some(&status), &[], &[]);
    drop(status);
    Ok(added?)
}

fn status(alloc: Global, length: u32) -> Result<Status> {
    let owner = Name::new(alloc, b"u")?;
    let group = Name::new(alloc, b"g")?;
    Ok(Status {
        dir: false,
        read_only: false,
        length,
        owner,
        group,
        lists: Items::new(alloc),
    })
}

fn add_bytes(
    alloc: Global,
    cache: &mut Cache,
    token: Token,
    from: Option<u32>,
    bytes: &str,
    anode: Option<u32>,
) -> Result<()>
    requires { has_id cache.old.held token.id ≡ false }
{
    let pieces = pieces(alloc, from.unwrap_or(0), bytes)?;
    let added = add_pieces(alloc, cache, token, pieces.as_slice(), anode);
    drop(pieces);
    added
}

fn add_pieces(
    alloc: Global,
    cache: &mut Cache,
    token: Token,
    pieces: &[Piece],
    anode: Option<u32>,
) -> Result<()>
    requires { has_id cache.old.held token.id ≡ false }
{
    let entries = entries(alloc, anode)?;
    let added = cache.add(token, None, pieces, entries.as_slice());
    drop(entries);
    Ok(added?)
}

fn pieces(alloc: Global, from: u32, bytes: &str) -> Result<Items<Piece>, NoMemory> {
    let bytes = Items::from_slice(alloc, bytes.as_bytes())?;
    let mut pieces = Items::new(alloc);
    pieces.push(Piece { from, bytes })?;
    Ok(pieces)
}

fn entries(alloc: Global, anode: Option<u32>) -> Result<Items<DirEntry>> {
    let mut entries = Items::new(alloc);
    if let Some(anode) = anode {
        let name = Name::new(alloc, b"a")?;
        entries.push(DirEntry {
            name,
            anode,
            unique: 1,
        })?;
    }
    Ok(entries)
}

// `cache read FILE SPAN`: the bytes, a zero as a point; or that the tokens don't cover them.
fn read(cache: &Cache, words: &mut Words, text: &mut Text) -> Result<()> {
    let fid = words.file()?;
    let span = words.span()?;
    let mut out = [0; READ_MAX];
    let count = (span.to - span.from) as usize;
    if count > READ_MAX || !read_into(cache, fid, span, &mut out[..count]) {
        text.word("not covered");
        return Ok(());
    }
    text.plain("", &out[..count]);
    Ok(())
}

// Reads the bytes of a span, where the tokens cover them.
fn read_into(cache: &Cache, fid: Fid, span: Span, out: &mut [u8]) -> bool
    requires { length out.old ≡ span.to - span.from }
{
    let kind = Kind::Bytes {
        update: false,
        span,
    };
    let is_covered = cache.covers(&Need { fid, kind });
    if is_covered {
        cache.bytes_into(fid, span.from, out);
    }
    is_covered
}

// `cache write FILE FROM BYTES`: yes where the tokens cover them for update.
fn write(cache: &mut Cache, words: &mut Words, text: &mut Text) -> Result<()> {
    let fid = words.file()?;
    let from = words.number()?;
    let bytes = words.next().as_bytes();
    let written = match span_of(from, bytes.len()) {
        Some(span) => write_at(cache, fid, span, bytes),
        None => false,
    };
    push_yes(text, written);
    Ok(())
}

fn write_at(cache: &mut Cache, fid: Fid, span: Span, bytes: &[u8]) -> bool
    requires { span.to ≡ span.from + length bytes.now }
{
    let kind = Kind::Bytes { update: true, span };
    let is_covered = cache.covers(&Need { fid, kind });
    if is_covered {
        cache.write(fid, span.from, bytes);
    }
    is_covered
}

fn span_of(from: u64, count: usize) -> Option<Span>
    ensures { IfSome result (λ span. span.to ≡ span.from + count) }
{
    if from > u64::from(FILE_BYTES_MAX) || count > FILE_BYTES_MAX as usize - from as usize {
        return None;
    }
    let from = from as u32;
    Some(Span {
        from,
        to: from + count as u32,
    })
}

/// Writes the numbers of the held tokens, the most recently used first.
pub fn tell_tokens(cache: &Cache, text: &mut Text) -> Result<()> {
    let tokens = cache.tokens()?;
    push_seqs(text, tokens.as_slice());
    drop(tokens);
    Ok(())
}

fn push_seqs(text: &mut Text, tokens: &[Token]) {
    for token in tokens {
        text.number("", token.id.seq);
        text.word(" ");
    }
}

// Whether a token that is found is in use.
fn push_use(text: &mut Text, cache: &Cache, id: TokenId) {
    match cache.find(id) {
        Some(held) => text.word(if held.in_use { "in use" } else { "idle" }),
        None => text.word("none"),
    }
}
