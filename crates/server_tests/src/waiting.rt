//! Steps and looks at the wants that wait.
ghost use Rattle.std.specs.Prelude.{OnOk};
ghost use Rattle.server_tables.specs.Counting.{IsCounted};

use crate::reading::Words;
use anyhow::{Result, bail};
use base_types::Items;
use message_types::Fetch;
use run_rules::{Request, Wanted};
use server_tables::Tables;
use tree_test_words::Text;

/// Writes what is told to a row about wants.
pub fn tell(tables: &mut Tables, words: &mut Words, text: &mut Text) -> Result<()>
    requires { IsCounted tables.old }
    ensures { OnOk result (IsCounted tables.new) }
{
    match words.next() {
        "fetch" => fetch(tables, words, text),
        "out" => out(tables, words, text),
        "stamp" => stamp(tables, text),
        word => look(tables, word, text),
    }
}

// `fetch HOST NUMBER FILESET ANODE`: the number of the want that is made, or `waits`.
fn fetch(tables: &mut Tables, words: &mut Words, text: &mut Text) -> Result<()>
    requires { IsCounted tables.old }
    ensures { OnOk result (IsCounted tables.new) }
{
    let wanted = wanted(words)?;
    if tables.is_waiting(wanted.host, &wanted.request) {
        drop(wanted);
        text.word("waits");
        return Ok(());
    }
    let number = tables.enqueue(wanted)?;
    text.number("", number);
    Ok(())
}

fn wanted(words: &mut Words) -> Result<Wanted> {
    let host = words.host()?;
    let number = words.number()?;
    let need = words.need()?;
    let needs = Items::from_slice(words.alloc, &[need])?;
    let asked = Items::from_slice(words.alloc, &[need])?;
    Ok(Wanted {
        host,
        request: Request::Fetch(Fetch {
            number,
            fid: need.fid,
            needs: asked,
        }),
        moves: 0,
        needs,
    })
}

// `out PLACE`: the host and the number of the want that is taken out.
fn out(tables: &mut Tables, words: &mut Words, text: &mut Text) -> Result<()>
    requires { IsCounted tables.old }
    ensures { OnOk result (IsCounted tables.new) }
{
    let place = words.number()? as usize;
    if place >= tables.pending.len() {
        bail!("no place");
    }
    let pending = tables.unqueue(place);
    text.number("c", u64::from(pending.wanted.host.0));
    text.number(" ", pending.number);
    drop(pending);
    Ok(())
}

// `stamp`: the next one.
fn stamp(tables: &mut Tables, text: &mut Text) -> Result<()>
    requires { IsCounted tables.old }
    ensures { OnOk result (IsCounted tables.new) }
{
    let stamp = tables.next_stamp()?;
    text.number("", stamp);
    Ok(())
}

fn look(tables: &Tables, word: &str, text: &mut Text) -> Result<()> {
    match word {
        "all" => push_pending(text, tables),
        "queue" => push_queue(text, tables),
        _ => bail!("no step: {word}"),
    }
    Ok(())
}

// The numbers of all wants that wait.
fn push_pending(text: &mut Text, tables: &Tables) {
    for pending in tables.pending.as_slice() {
        text.number("", pending.number);
        text.word(" ");
    }
}

// The numbers of those in the token manager's queue.
fn push_queue(text: &mut Text, tables: &Tables) {
    for want in tables.tokens.queue() {
        text.number("", want.number);
        text.word(" ");
    }
}
