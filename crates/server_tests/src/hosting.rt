//! Steps and looks at the list of hosts.
ghost use Rattle.std.specs.Prelude.{OnOk};
ghost use Rattle.server_tables.specs.Counting.{IsCounted};

use crate::reading::{Words, push_yes};
use anyhow::Result;
use base_types::HostId;
use server_tables::Tables;
use tree_test_words::Text;

/// Writes what is told to a row about hosts.
pub fn tell(tables: &mut Tables, words: &mut Words, text: &mut Text) -> Result<()>
    requires { IsCounted tables.old }
    ensures { OnOk result (IsCounted tables.new) }
{
    match words.next() {
        "hello" => hello(tables, words, text),
        "stop" => stop(tables, words, text),
        "away" => away(tables, words, text),
        "reclaim" => reclaim(tables, words, text),
        "begin" => begin(tables, text),
        word => look(tables, word, words, text),
    }
}

// `hello HOST`: it comes on the list.
fn hello(tables: &mut Tables, words: &mut Words, text: &mut Text) -> Result<()>
    requires { IsCounted tables.old }
    ensures { OnOk result (IsCounted tables.new) }
{
    let host = words.host()?;
    tables.welcome(host)?;
    push_flags(text, tables, host);
    Ok(())
}

#[tactic(auto, using(crate::proofs::Stopping::stopped_counted))]
fn stop_host(tables: &mut Tables, host: HostId) -> Result<()>
    requires { IsCounted tables.old }
    ensures { OnOk result (IsCounted tables.new) }
{
    tables.hosts.stop(host)?;
    Ok(())
}

// `stop HOST`: it has stopped, but is live still.
fn stop(tables: &mut Tables, words: &mut Words, text: &mut Text) -> Result<()>
    requires { IsCounted tables.old }
    ensures { OnOk result (IsCounted tables.new) }
{
    let host = words.host()?;
    stop_host(tables, host)?;
    push_flags(text, tables, host);
    Ok(())
}

// `away HOST`: it is down, or has ended.
fn away(tables: &mut Tables, words: &mut Words, text: &mut Text) -> Result<()>
    requires { IsCounted tables.old }
    ensures { OnOk result (IsCounted tables.new) }
{
    let host = words.host()?;
    tables.go_away(host)?;
    push_flags(text, tables, host);
    Ok(())
}

// `reclaim HOST`: it has reclaimed.
fn reclaim(tables: &mut Tables, words: &mut Words, text: &mut Text) -> Result<()>
    requires { IsCounted tables.old }
    ensures { OnOk result (IsCounted tables.new) }
{
    let host = words.host()?;
    tables.reclaim(host)?;
    push_flags(text, tables, host);
    Ok(())
}

// `begin`: the epoch that begins.
fn begin(tables: &mut Tables, text: &mut Text) -> Result<()>
    requires { IsCounted tables.old }
    ensures { OnOk result (IsCounted tables.new) }
{
    tables.begin()?;
    text.number("", tables.hosts.epoch);
    Ok(())
}

fn look(tables: &Tables, word: &str, words: &mut Words, text: &mut Text) -> Result<()> {
    match word {
        "over" => push_yes(text, tables.hosts.no_grace()),
        "alone" => push_yes(text, tables.hosts.is_alone()),
        "here" => push_yes(text, tables.is_here(words.fileset())),
        _ => push_flags(text, tables, words.host()?),
    }
    Ok(())
}

// A letter for each of what is so: listed, live, down, listed in this epoch, reclaimed.
fn push_flags(text: &mut Text, tables: &Tables, host: HostId) {
    let hosts = &tables.hosts;
    text.word(letter(hosts.is_listed(host), "l"));
    text.word(letter(hosts.is_live(host), "v"));
    text.word(letter(hosts.is_down(host), "d"));
    text.word(letter(hosts.is_listed_now(host), "n"));
    text.word(letter(hosts.has_reclaimed(host), "r"));
}

fn letter(is_so: bool, letter: &'static str) -> &'static str {
    if is_so { letter } else { "." }
}
