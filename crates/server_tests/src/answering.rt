//! Steps and looks at what was answered.
ghost use Rattle.std.specs.Prelude.{OnOk};
ghost use Rattle.server_tables.specs.Counting.{IsCounted};

use crate::reading::{Words, push_yes};
use anyhow::{Result, bail};
use base_types::{FilesetId, HostId, Name};
use message_types::{AppliedGive, Change, Done, DoneIs};
use run_rules::{Answer, Written};
use server_tables::{NO_FID, Tables, without_token};
use std::alloc::Global;
use tree_calls::{Call, Reply};
use tree_test_words::Text;

/// Writes what is told to a row about answers.
pub fn tell(tables: &mut Tables, words: &mut Words, text: &mut Text) -> Result<()>
    requires { IsCounted tables.old }
    ensures { OnOk result (IsCounted tables.new) }
{
    match words.next() {
        "give" => give(tables, words, text),
        "done" => done(tables, words),
        "gave" => gave(tables, words, text),
        word => look(tables, word, words, text),
    }
}

// `give HOST FILESET NUMBER`: the last number of the host and the fileset.
fn give(tables: &mut Tables, words: &mut Words, text: &mut Text) -> Result<()>
    requires { IsCounted tables.old }
    ensures { OnOk result (IsCounted tables.new) }
{
    let host = words.host()?;
    let fileset = words.fileset();
    let number = words.number()?;
    tables.note_give(host, AppliedGive { fileset, number })?;
    text.number("", tables.last_give(host, fileset));
    Ok(())
}

fn gave(tables: &Tables, words: &mut Words, text: &mut Text) -> Result<()> {
    let host = words.host()?;
    let fileset = words.fileset();
    text.number("", tables.last_give(host, fileset));
    Ok(())
}

// `done HOST FILESET NUMBER`: it is answered, and with `written` it was written down.
fn done(tables: &mut Tables, words: &mut Words) -> Result<()>
    requires { IsCounted tables.old }
    ensures { OnOk result (IsCounted tables.new) }
{
    let host = words.host()?;
    let fileset = words.fileset();
    let number = words.number()?;
    let written = written_if(words, host, fileset, number)?;
    let done = without_token(words.alloc, fileset, DoneIs::Known(fileset), number);
    tables.note_done(host, done, written)?;
    Ok(())
}

fn written_if(
    words: &mut Words,
    host: HostId,
    fileset: FilesetId,
    number: u64,
) -> Result<Option<Written>> {
    if words.next() != "written" {
        return Ok(None);
    }
    let call = unlock(words.alloc)?;
    Ok(Some(Written {
        fileset,
        number,
        answer: Answer {
            host,
            k: 1,
            call,
            reply: Reply::Ok,
            first: false,
        },
    }))
}

fn unlock(alloc: Global) -> Result<Call> {
    let label = Name::new(alloc, b"a")?;
    Ok(Call::Unlock { label })
}

fn look(tables: &Tables, word: &str, words: &mut Words, text: &mut Text) -> Result<()> {
    let host = words.host()?;
    let fileset = words.fileset();
    let number = words.number()?;
    let change = Change {
        number,
        fileset,
        fid: NO_FID,
        enter: false,
        k: 1,
        call: unlock(words.alloc)?,
    };
    let told = look_at(tables, word, host, &change, text);
    drop(change);
    told
}

fn look_at(
    tables: &Tables,
    word: &str,
    host: HostId,
    change: &Change,
    text: &mut Text,
) -> Result<()> {
    match word {
        "old" => push_yes(text, tables.is_old(host, change)),
        "again" => return again(tables, host, change, text),
        _ => bail!("no step: {word}"),
    }
    Ok(())
}

// The outcome that is told again, or none.
fn again(tables: &Tables, host: HostId, change: &Change, text: &mut Text) -> Result<()> {
    let done = tables.answer_again(host, change)?;
    text.word(outcome(&done));
    drop(done);
    Ok(())
}

fn outcome(done: &Option<Done>) -> &'static str {
    match done {
        None => "none",
        Some(done) => match &done.outcome {
            DoneIs::Known(_) => "known",
            DoneIs::Again => "again",
            _ => "other",
        },
    }
}
