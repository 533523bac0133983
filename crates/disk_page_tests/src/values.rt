//! Values of pages, from words.
ghost use Rattle.std.specs.Prelude.{◌≡◌, ◌<◌, IfOk};

use anyhow::{Context, Result, bail};
use base_types::{FilesetId, Name};
use disk_pages::{HOSTS, ServerFacts, SlotHeader, SlotState, TakenShip};
use std::alloc::Global;
use tree_calls::Record;

/// The words of a text.
pub fn words_of(alloc: Global, text: &str) -> Result<Vec<&str>> {
    let mut words = Vec::new(alloc);
    for word in text.split_whitespace() {
        words.push(word)?;
    }
    Ok(words)
}

// The word at a place.
fn word_at<'a>(words: &[&'a str], at: usize) -> Result<&'a str> {
    words.get(at).copied().context("one word more")
}

fn large(word: &str) -> Result<u64> {
    word.parse::<u64>().ok().context("a number of 8 bytes")
}

fn small(word: &str) -> Result<u32> {
    word.parse::<u32>().ok().context("a number of 4 bytes")
}

fn byte(word: &str) -> Result<u8> {
    word.parse::<u8>().ok().context("a byte")
}

fn taken_of(word: &str) -> Result<TakenShip> {
    let (ship, code) = word.split_once(':').context("a ship and a code")?;
    let (ship, code) = (large(ship)?, byte(code)?);
    Ok(TakenShip { ship, code })
}

// The states of hosts, one digit each.
fn hosts_of(word: &str) -> Result<[u8; HOSTS]> {
    let digits = word.as_bytes();
    if digits.len() != HOSTS {
        bail!("17 hosts");
    }
    let mut hosts = [0; HOSTS];
    for (host, digit) in hosts.iter_mut().zip(digits.iter()) {
        *host = digit.wrapping_sub(b'0');
    }
    Ok(hosts)
}

/// The facts of a server.
pub fn facts_of(words: &[&str]) -> Result<ServerFacts>
    ensures { IfOk result (λ facts. facts.format ≡ 2) }
{
    let (epoch, next) = (large(word_at(words, 0)?)?, small(word_at(words, 1)?)?);
    let (hosts, ship) = (hosts_of(word_at(words, 2)?)?, large(word_at(words, 3)?)?);
    let (first, second) = (taken_of(word_at(words, 4)?)?, taken_of(word_at(words, 5)?)?);
    let (third, fourth) = (taken_of(word_at(words, 6)?)?, taken_of(word_at(words, 7)?)?);
    Ok(ServerFacts {
        epoch,
        next,
        hosts,
        format: 2,
        ship,
        taken: [first, second, third, fourth],
    })
}

/// What is kept of a host.
pub fn record_of(word: &str) -> Result<Record> {
    let (change, rest) = word.split_once(':').context("a change")?;
    let (give, rest) = rest.split_once(':').context("a give-back")?;
    let (code, right) = rest.split_once(':').context("a code and rights")?;
    let (change, give) = (large(change)?, large(give)?);
    let (code, right) = (byte(code)?, byte(right)?);
    Ok(Record {
        change,
        give,
        code,
        right,
    })
}

/// A host, 0 to 16, and what is kept of it.
pub fn host_and_record(words: &[&str]) -> Result<(u8, Record)>
    ensures { IfOk result (λ told. told.0 < 17) }
{
    let host = byte(word_at(words, 0)?)?;
    if host > 16 {
        bail!("hosts are 0 to 16");
    }
    let kept = record_of(word_at(words, 1)?)?;
    Ok((host, kept))
}

fn state_of(word: &str) -> Result<SlotState> {
    match word {
        "free" => Ok(SlotState::Free),
        "writable" => Ok(SlotState::Writable),
        "clone" => Ok(SlotState::Clone),
        "leaving" => Ok(SlotState::Leaving),
        "arriving" => Ok(SlotState::Arriving),
        "gone" => Ok(SlotState::Gone),
        "unknown" => Ok(SlotState::Unknown),
        _ => bail!("no such state"),
    }
}

fn name_of(alloc: Global, word: &str) -> Result<Name> {
    Name::new(alloc, word.as_bytes()).ok().context("a name")
}

/// The header of a slot.
pub fn header_of(alloc: Global, words: &[&str]) -> Result<SlotHeader> {
    let (state, id) = (
        state_of(word_at(words, 0)?)?,
        FilesetId(small(word_at(words, 1)?)?),
    );
    let (objects, other) = (small(word_at(words, 2)?)?, byte(word_at(words, 4)?)?);
    let (moves, ship) = (small(word_at(words, 5)?)?, large(word_at(words, 6)?)?);
    let parts = small(word_at(words, 7)?)?;
    let name = name_of(alloc, word_at(words, 3)?)?;
    Ok(SlotHeader {
        state,
        id,
        objects,
        name,
        other,
        moves,
        ship,
        parts,
    })
}
