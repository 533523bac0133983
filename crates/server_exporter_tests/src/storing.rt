//! Calls that are given to a server's store, and what is asked of it.
ghost use Rattle.std.specs.Prelude.{OnOk};
ghost use Rattle.message_types.specs.Soundness.{IsCall, IsHost};
ghost use Rattle.store_acts.specs.Sound.{IsDecided, IsFor};
ghost use Rattle.server_exporter_tests.specs.Serving.{IsKept};

use crate::sound::{is_call, is_done, is_host};
use crate::wording::{change, fetch};
use anyhow::{Result, bail};
use base_types::HostId;
use message_types::{Change, Fetch};
use server_looks::{
    ExporterFault, Keeper, do_call, entries_told, found_by, pieces_told, refuse_call,
};
use server_tables::{NO_FID, Tables};
use store_memory::MapStore;
use tree_calls::{Call, Piece, Refusal, Reply};
use tree_test_words::{Text, Words, push_reply};

/// Writes what is told to a row that asks of a store.
pub fn look(
    tables: &Tables,
    keeper: &mut Keeper<MapStore>,
    word: &str,
    words: &mut Words,
    text: &mut Text,
) -> Result<()>
    requires { IsKept tables.now keeper.old }
    ensures { OnOk result (IsKept tables.now keeper.new) }
{
    match word {
        "call" => ask(tables, keeper, words, text),
        "told" => tell(tables, keeper, words, text),
        _ => bail!("no row: {word}"),
    }
}

// `call HOST NUMBER FILESET CALL`: how much a Change finds that it needs, and the reply where it is done or refused.
fn ask(
    tables: &Tables,
    keeper: &mut Keeper<MapStore>,
    words: &mut Words,
    text: &mut Text,
) -> Result<()>
    requires { IsKept tables.now keeper.old }
    ensures { OnOk result (IsKept tables.now keeper.new) }
{
    let host = words.host()?;
    let change = change(words)?;
    let asked = ask_sound(tables, keeper, host, &change, text);
    drop(change);
    asked
}

fn ask_sound(
    tables: &Tables,
    keeper: &mut Keeper<MapStore>,
    host: HostId,
    change: &Change,
    text: &mut Text,
) -> Result<()>
    requires { IsKept tables.now keeper.old }
    ensures { OnOk result (IsKept tables.now keeper.new) }
{
    if !is_host(&tables.roster, host)
        || !is_call(tables.server, &tables.roster, &change.call)
        || !is_done(tables.server, &change.call)
    {
        bail!("no sound call");
    }
    let found = found_by(tables.server, &tables.roster, keeper, host, change)?;
    let refusal = found.refusal;
    text.number("", found.needs.len() as u64);
    text.word(" ");
    drop(found);
    let reply = reply_to(tables, keeper, host, &change.call, refusal)?;
    push_reply(text, &reply);
    drop(reply);
    Ok(())
}

// A call is done, or refused.
fn reply_to(
    tables: &Tables,
    keeper: &mut Keeper<MapStore>,
    host: HostId,
    call: &Call,
    refusal: Option<Refusal>,
) -> Result<Reply, ExporterFault>
    requires kept { IsKept tables.now keeper.old }
    requires host { IsHost tables.now.roster host }
    requires call { IsCall tables.now.roster call.now }
    requires decided { IsDecided call.now }
    requires own { IsFor tables.now.server call.now }
    ensures { OnOk result (IsKept tables.now keeper.new) }
{
    match refusal {
        Some(refusal) => refuse_call(keeper, host, NO_FID.fileset, refusal),
        None => do_call(keeper, host, call),
    }
}

// `told NUMBER FID KIND`: the bytes that a Fetch is told of a file, and the names of a directory.
fn tell(
    tables: &Tables,
    keeper: &mut Keeper<MapStore>,
    words: &mut Words,
    text: &mut Text,
) -> Result<()>
    requires { IsKept tables.now keeper.old }
    ensures { OnOk result (IsKept tables.now keeper.new) }
{
    let fetch = fetch(words)?;
    let told = tell_fetch(tables, keeper, &fetch, text);
    drop(fetch);
    told
}

fn tell_fetch(
    tables: &Tables,
    keeper: &mut Keeper<MapStore>,
    fetch: &Fetch,
    text: &mut Text,
) -> Result<()>
    requires { IsKept tables.now keeper.old }
    ensures { OnOk result (IsKept tables.now keeper.new) }
{
    let pieces = pieces_told(tables.alloc(), keeper, fetch, false)?;
    push_pieces(text, pieces.as_slice());
    drop(pieces);
    let entries = entries_told(tables.alloc(), keeper, fetch, true)?;
    text.number(" names ", entries.len() as u64);
    drop(entries);
    Ok(())
}

fn push_pieces(text: &mut Text, pieces: &[Piece]) {
    for piece in pieces {
        text.number("", u64::from(piece.from));
        text.plain(" ", piece.bytes.as_slice());
    }
}
