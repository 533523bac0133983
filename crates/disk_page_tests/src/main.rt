//! Pages of an aggregate that are made of values, by example. Standard input is a table. Each row is a value, behind
//! `|` the bytes of its page that aren't zero, as PLACE=BYTES, and behind another `|` whether it is a page of its kind.
//! What is read of a page has to make it again. Every row that gets something else is printed, and at the end the
//! number of rows.
#![tactic(auto)]

mod bytes;
mod values;

use anyhow::{Context, Result, bail};
use bytes::page_of;
use disk_layout::{PAGE, new_server_page};
use disk_pages::{
    encode_record, format_law, header_page, is_header, is_name_at, is_numbers_page, is_server_page,
    numbers_page, read_header, record_at, server_of, server_page, sound_law,
};
use std::alloc::Global;
use values::{facts_of, header_of, host_and_record, record_of, words_of};

// A page, and whether it is of its kind.
#[derive(Clone, Copy)]
struct Told {
    page: [u8; PAGE],
    is_one: bool,
}

// EPOCH NEXT HOSTS SHIP, and SHIP:CODE of each server.
fn server_told(words: &[&str]) -> Result<Told> {
    let page = server_page(&facts_of(words)?);
    let facts = server_of(&page);
    if facts.format != 2 || server_page(&facts) != page {
        bail!("another server's page is made of what is read");
    }
    let is_one = is_server_page(&page);
    Ok(Told { page, is_one })
}

// CHANGE:GIVE:CODE:RIGHT of hosts 0, 1 and so on.
fn numbers_told(alloc: Global, words: &[&str]) -> Result<Told> {
    let mut kept = Vec::new(alloc);
    for word in words {
        kept.push(record_of(word)?)?;
    }
    if kept.len() > 17 {
        bail!("too many hosts");
    }
    let page = numbers_page(kept.as_slice());
    let is_one = is_numbers_page(&page);
    Ok(Told { page, is_one })
}

// HOST CHANGE:GIVE:CODE:RIGHT, on a page of zeros.
fn record_told(words: &[&str]) -> Result<Told> {
    let (host, kept) = host_and_record(words)?;
    let mut page = [0; PAGE];
    encode_record(&mut page, host, kept);
    if record_at(&page, host) != kept {
        bail!("something else is read of the host");
    }
    let is_one = is_numbers_page(&page);
    Ok(Told { page, is_one })
}

// The page of server 1, which has given filesets 1 to 4 and ship numbers 1 to 9.
fn judging_page() -> Result<[u8; PAGE]> {
    let mut facts = server_of(&new_server_page());
    facts.next = 5;
    facts.ship = 9;
    if facts.format != 2 {
        bail!("a new server's page is of format 2");
    }
    Ok(server_page(&facts))
}

// STATE ID OBJECTS NAME OTHER MOVES SHIP PARTS
fn header_told(alloc: Global, words: &[&str]) -> Result<Told> {
    let server = judging_page()?;
    let page = header_page(&header_of(alloc, words)?);
    if !is_name_at(&page, 12) {
        bail!("no name");
    }
    let again = read_header(alloc, &server, &page).ok().context("memory")?;
    if header_page(&again) != page {
        bail!("another header is made of what is read");
    }
    let is_one = is_header(1, &server, &page);
    Ok(Told { page, is_one })
}

fn value_told(alloc: Global, value: &str) -> Result<Told> {
    let words = words_of(alloc, value)?;
    let Some((kind, rest)) = words.as_slice().split_first() else {
        bail!("no value");
    };
    match *kind {
        "server" => server_told(rest),
        "numbers" => numbers_told(alloc, rest),
        "record" => record_told(rest),
        "header" => header_told(alloc, rest),
        _ => bail!("no such value"),
    }
}

// What is wrong with a row, if anything.
fn wrong(alloc: Global, line: &str) -> Result<Option<&'static str>> {
    let (value, rest) = line.split_once('|').context("a value")?;
    let (bytes, kind) = rest.split_once('|').context("bytes")?;
    let told = value_told(alloc, value)?;
    if told.page != page_of(alloc, bytes)? {
        return Ok(Some("other bytes"));
    }
    if told.is_one != (kind.trim() == "one") {
        return Ok(Some("judged otherwise"));
    }
    Ok(None)
}

fn main(rt: HostRuntime) -> Result<()> {
    sound_law();
    format_law();
    let alloc = rt.alloc();
    let mut rows = 0u64;
    for line in rt.lines(alloc) {
        let line = line?;
        let line = line.as_str();
        if line.is_empty() || line.starts_with("#") {
            continue;
        }
        if let Some(cause) = wrong(alloc, line)? {
            println!(rt; "{cause}: {line}")?;
        }
        rows = rows.saturating_add(1);
    }
    println!(rt; "{rows} rows")?;
    Ok(())
}
