//! Messages by example. Standard input is a table: each row has bytes, and what they are to say, or where they stop to
//! begin a message. Every row that gets something else is printed, and at the end the number of rows.
#![tactic(auto)]

mod row;
mod show;
mod show_call;
mod text;

use anyhow::Result;
use base_types::{NoMemory, Plain};
use message_laws::{sound_has_a_spelling, sound_is_read_back};
use message_spelling::{DecodeRefused, decode, encode, one_spelling, reads_back};
use message_types::{Message, sound_by_example};
use row::{Row, Wanted, row_of};
use show::show;
use std::alloc::Global;
use text::Text;

// What bytes give: the length of the message at their front, or where they stop to begin one.
fn length_or_stop(alloc: Global, bytes: &[u8]) -> Result<usize, usize> {
    let found = decode(alloc, bytes);
    let told = match &found {
        Ok((_, length)) => Ok(*length),
        Err(DecodeRefused::BadMessage(stop)) => Err(*stop),
        Err(DecodeRefused::Memory) => Err(usize::MAX),
    };
    drop(found);
    told
}

// The bytes of a copy of the message.
fn copy_written(alloc: Global, message: &Message) -> Result<Vec<u8>, NoMemory> {
    let copy = message.copy();
    let written = match &copy {
        Ok(copy) => encode(alloc, copy),
        Err(NoMemory) => Err(NoMemory),
    };
    drop(copy);
    written
}

// Whether the message, and a copy of it, is written so.
fn is_written(alloc: Global, message: &Message, bytes: &[u8]) -> Result<bool> {
    let written = encode(alloc, message)?;
    let copied = copy_written(alloc, message)?;
    Ok(written.as_slice() == bytes && copied.as_slice() == bytes)
}

// Whether each beginning of the bytes stops at its end, and the whole is read too where another byte follows.
fn is_alone(alloc: Global, bytes: &[u8]) -> Result<bool> {
    let mut followed = Vec::from_slice(alloc, bytes)?;
    followed.push(0xff)?;
    for cut in 0..bytes.len().min(1_000) {
        if length_or_stop(alloc, &bytes[..cut]) != Err(cut) {
            return Ok(false);
        }
    }
    Ok(length_or_stop(alloc, followed.as_slice()) == Ok(bytes.len()))
}

// What is wrong with a message that was read, as a line; an empty one where nothing is.
fn complaint(alloc: Global, message: &Message, row: &Row, wanted: &str) -> Result<String> {
    let bytes = row.bytes.as_slice();
    let mut said = Text::new(alloc);
    show(message, &mut said);
    let said = said.line()?;
    if said.as_str() != wanted {
        return Ok(said);
    }
    if !is_written(alloc, message, bytes)? || !is_alone(alloc, bytes)? {
        return Ok(String::from_str(alloc, "written or cut otherwise")?);
    }
    Ok(String::new(alloc))
}

// What is wrong with a row whose bytes are to say something.
fn says_otherwise(alloc: Global, row: &Row, wanted: &str) -> Result<String> {
    let found = decode(alloc, row.bytes.as_slice());
    let wrong = match &found {
        Ok((message, _)) => complaint(alloc, message, row, wanted),
        Err(refused) => refusal(alloc, refused),
    };
    drop(found);
    wrong
}

fn refusal(alloc: Global, refused: &DecodeRefused) -> Result<String> {
    Ok(format!(in alloc; "{refused:?}")?)
}

// What is wrong with a row whose bytes are to stop.
fn stops_otherwise(alloc: Global, row: &Row, wanted: usize) -> Result<String> {
    match length_or_stop(alloc, row.bytes.as_slice()) {
        Ok(length) => Ok(format!(in alloc; "a message of {length} bytes")?),
        Err(stop) if stop == wanted => Ok(String::new(alloc)),
        Err(stop) => Ok(format!(in alloc; "bad at {stop}")?),
    }
}

// Prints a row that doesn't get what it wants.
fn judge(rt: &(impl Print + AllocGlobal), row: &Row) -> Result<()> {
    let wrong = match &row.wanted {
        Wanted::Says(text) => says_otherwise(rt.alloc(), row, text.as_str())?,
        Wanted::Stops(stop) => stops_otherwise(rt.alloc(), row, *stop)?,
    };
    if !wrong.is_empty() {
        let (name, wrong) = (row.name.as_str(), wrong.as_str());
        println!(rt; "{name}: {wrong}")?;
    }
    Ok(())
}

fn main(rt: HostRuntime) -> Result<()> {
    sound_by_example();
    one_spelling();
    reads_back();
    sound_has_a_spelling();
    sound_is_read_back();
    let mut rows = 0u64;
    for line in rt.lines(rt.alloc()) {
        let line = line?;
        if !line.is_empty() && !line.starts_with("#") {
            judge(&rt, &row_of(rt.alloc(), line.as_str())?)?;
            rows = rows.saturating_add(1);
        }
    }
    println!(rt; "{rows} rows")?;
    Ok(())
}
