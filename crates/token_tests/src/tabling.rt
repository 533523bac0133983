//! The steps of a table of tokens.

ghost use Rattle.std.specs.Prelude.{◌≡◌, ◌+◌, ◌<◌, ◌^◌, false, IsTrue, length};
ghost use Rattle.token_table.specs.Tables.{has_id, is_past};

use crate::reading::Words;
use crate::telling::{push_ids, push_token, push_token_or_none, push_yes};
use base_types::{HostId, NEEDS_MAX, NoMemory, Plain};
use token_table::TokenTable;
use token_types::{Need, TokenId};
use tree_test_words::Text;

/// Writes the answer to a row `table ..`.
pub fn tell_table(
    table: &mut TokenTable,
    words: &mut Words,
    text: &mut Text,
) -> Result<(), NoMemory> {
    match words.next() {
        "grant" => grant(table, words, text),
        "next" => next(table, words, text),
        "insert" => insert(table, words, text),
        "drop" => {
            push_token_or_none(text, table.drop_id(words.id()).as_ref());
            Ok(())
        }
        "drop-host" => {
            table.drop_host(words.host());
            Ok(())
        }
        word => look_at_copy(table, word, words, text),
    }
}

// Looks at a copy of the table: so the copy is seen to be the same.
fn look_at_copy(
    table: &TokenTable,
    word: &str,
    words: &mut Words,
    text: &mut Text,
) -> Result<(), NoMemory> {
    let copy = table.copy()?;
    let told = look(&copy, word, words, text);
    drop(copy);
    told
}

fn look(
    table: &TokenTable,
    word: &str,
    words: &mut Words,
    text: &mut Text,
) -> Result<(), NoMemory> {
    match word {
        "of-host" => of_host(table, words, text),
        "conflicting" => conflicting(table, words, text),
        _ => {
            look_up(table, word, words, text);
            Ok(())
        }
    }
}

fn look_up(table: &TokenTable, word: &str, words: &mut Words, text: &mut Text) {
    match word {
        "get" => push_token_or_none(text, table.get(words.id())),
        "of-file" => push_ids(text, table.of_file(words.file())),
        "last" => text.number("", table.last_id().seq),
        "in-the-way" => in_the_way(table, words, text),
        _ => words.refuse(),
    }
}

fn of_host(table: &TokenTable, words: &mut Words, text: &mut Text) -> Result<(), NoMemory> {
    let tokens = table.of_host(words.host())?;
    push_ids(text, tokens.as_slice());
    drop(tokens);
    Ok(())
}

fn conflicting(table: &TokenTable, words: &mut Words, text: &mut Text) -> Result<(), NoMemory> {
    let host = words.host();
    let needs = words.needs();
    let found = table.conflicting(host, needs.as_slice());
    drop(needs);
    let found = found?;
    push_ids(text, found.as_slice());
    drop(found);
    Ok(())
}

fn in_the_way(table: &TokenTable, words: &mut Words, text: &mut Text) {
    let host = words.host();
    let needs = words.needs();
    push_yes(text, table.is_in_the_way(host, needs.as_slice()));
    drop(needs);
}

// Whether so many more tokens find their numbers.
fn has_room(table: &TokenTable, needs: &[Need]) -> bool
    ensures { IsTrue result → table.now.last + length needs.now < 2 ^ 64 }
{
    needs.len() <= NEEDS_MAX && table.last_id().seq <= 1 << 62
}

// `table next HOST NEEDS`
fn next(table: &TokenTable, words: &mut Words, text: &mut Text) -> Result<(), NoMemory> {
    let host = words.host();
    let needs = words.needs();
    let told = next_of(table, host, needs.as_slice(), text);
    drop(needs);
    told
}

fn next_of(
    table: &TokenTable,
    host: HostId,
    needs: &[Need],
    text: &mut Text,
) -> Result<(), NoMemory> {
    if !has_room(table, needs) {
        text.word("no numbers are left");
        return Ok(());
    }
    let tokens = table.next_tokens(host, needs)?;
    push_ids(text, tokens.as_slice());
    drop(tokens);
    Ok(())
}

// `table grant HOST NEEDS`
fn grant(table: &mut TokenTable, words: &mut Words, text: &mut Text) -> Result<(), NoMemory> {
    let host = words.host();
    let needs = words.needs();
    let told = grant_of(table, host, needs.as_slice(), text);
    drop(needs);
    told
}

// One need by `grant`, and several by `grant_each`.
fn grant_of(
    table: &mut TokenTable,
    host: HostId,
    needs: &[Need],
    text: &mut Text,
) -> Result<(), NoMemory> {
    if !has_room(table, needs) {
        text.word("no numbers are left");
        return Ok(());
    }
    if let [need] = needs {
        let token = table.grant(host, need.fid, need.kind)?;
        push_token(text, &token);
        return Ok(());
    }
    let tokens = table.grant_each(host, needs)?;
    push_ids(text, tokens.as_slice());
    drop(tokens);
    Ok(())
}

fn is_there(table: &TokenTable, id: TokenId) -> bool
    ensures { result ≡ has_id table.now.tokens id }
{
    match table.get(id) {
        Some(_) => true,
        None => false,
    }
}

// Whether a token with this number may be put in.
fn can_insert(table: &TokenTable, id: TokenId) -> bool
    ensures absent { IsTrue result → has_id table.now.tokens id ≡ false }
    ensures past { IsTrue result → IsTrue (is_past table.now id) }
{
    let last = table.last_id();
    if is_there(table, id) {
        return false;
    }
    id.server != last.server || id.epoch < last.epoch
}

// `table insert TOKEN`: yes where it may be put in.
fn insert(table: &mut TokenTable, words: &mut Words, text: &mut Text) -> Result<(), NoMemory> {
    let token = words.token();
    let can = can_insert(table, token.id);
    if can {
        table.insert(token)?;
    }
    push_yes(text, can);
    Ok(())
}
