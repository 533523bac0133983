//! The steps of a token manager.
ghost use Rattle.std.specs.Prelude.{◌≡◌, ◌<◌, ◌≤◌, ◌^◌, length, IsTrue, IfSome, IfOk};
ghost use Rattle.base_types.specs.declared.limits.TheConstants.{NEEDS_MAX};

use crate::reading::Words;
use crate::telling::{
    push_asked, push_ids, push_number, push_outlook, push_ready, push_wanted, push_wants, push_yes,
};
use base_types::{NEEDS_MAX, NoMemory, Plain};
use token_manager::{TokenManager, Want};
use token_types::Token;
use tree_test_words::Text;

/// Writes the answer to a step, whose row has this number: it is the number of its want, where it asks one.
pub fn tell_manager(
    manager: &mut TokenManager,
    number: u64,
    word: &str,
    words: &mut Words,
    text: &mut Text,
) -> Result<(), NoMemory> {
    match word {
        "ask" => ask(manager, number, words, text),
        "enqueue" => enqueue(manager, number, words, text),
        "next" => next(manager, text),
        "decide" => decide(manager, words, text),
        "admit" => admit(manager, words, text),
        "drop-fileset" => drop_fileset(manager, words, text),
        "of-host" => of_host(manager, words, text),
        "wanted" => wanted(manager, text),
        _ => {
            lose_or_look(manager, word, words, text);
            Ok(())
        }
    }
}

fn lose_or_look(manager: &mut TokenManager, word: &str, words: &mut Words, text: &mut Text) {
    match word {
        "returned" | "kept" | "revoked" => token_gone(manager, word, words, text),
        "give-up" => manager.give_up(words.number()),
        "down" => manager.host_down(words.host()),
        "forget" => forget(manager, words, text),
        "holds" | "granted" | "pinned" | "asked-back" => ask_of_token(manager, word, words, text),
        _ => look(manager, word, words, text),
    }
}

// `next`
fn next(manager: &mut TokenManager, text: &mut Text) -> Result<(), NoMemory> {
    let ready = manager.next_ready()?;
    push_ready(text, &ready);
    drop(ready);
    Ok(())
}

// `decide NUMBER`
fn decide(manager: &mut TokenManager, words: &mut Words, text: &mut Text) -> Result<(), NoMemory> {
    let ready = manager.decide(words.number())?;
    push_ready(text, &ready);
    drop(ready);
    Ok(())
}

// What a host says of a token.
fn token_gone(manager: &mut TokenManager, word: &str, words: &mut Words, text: &mut Text) {
    if word == "revoked" {
        push_yes(text, manager.set_revoked(words.id()));
        return;
    }
    let host = words.host();
    let id = words.id();
    push_yes(
        text,
        if word == "kept" {
            manager.kept(host, id)
        } else {
            manager.returned(host, id)
        },
    );
}

fn drop_fileset(
    manager: &mut TokenManager,
    words: &mut Words,
    text: &mut Text,
) -> Result<(), NoMemory> {
    let dropped = manager.drop_fileset(words.fileset())?;
    push_wants(text, dropped.as_slice());
    drop(dropped);
    Ok(())
}

// Looks at the manager.
fn look(manager: &TokenManager, word: &str, words: &mut Words, text: &mut Text) {
    match word {
        "outlook" => push_outlook(text, manager.outlook(words.number())),
        "first" => push_number(text, manager.first_ready()),
        "queue" => push_wants(text, manager.queue()),
        "asked" => push_number(text, Some(manager.asked())),
        "latest" => push_number(text, manager.latest()),
        "of-file" => push_ids(text, manager.of_file(words.file())),
        _ => words.refuse(),
    }
}

fn of_host(manager: &TokenManager, words: &mut Words, text: &mut Text) -> Result<(), NoMemory> {
    let tokens = manager.of_host(words.host())?;
    push_ids(text, tokens.as_slice());
    drop(tokens);
    Ok(())
}

fn wanted(manager: &TokenManager, text: &mut Text) -> Result<(), NoMemory> {
    let wanted = manager.wanted()?;
    push_wanted(text, wanted.as_slice());
    drop(wanted);
    Ok(())
}

fn ask_of_token(manager: &TokenManager, word: &str, words: &mut Words, text: &mut Text) {
    if word == "holds" {
        let host = words.host();
        push_yes(text, manager.holds(host, words.id()));
        return;
    }
    let id = words.id();
    push_yes(
        text,
        match word {
            "granted" => manager.is_granted(id),
            "pinned" => manager.is_pinned(id),
            _ => manager.is_revoked(id),
        },
    );
}

// Whether a number is above the last one, where there is one.
fn rises(latest: Option<u64>, number: u64) -> bool
    ensures { IsTrue result → IfSome latest (λ last. last < number) }
{
    match latest {
        Some(last) => last < number,
        None => true,
    }
}

// Whether a want of this number may be asked.
fn may_ask(manager: &TokenManager, number: u64) -> bool
    ensures rising { IsTrue result → IfSome manager.now.latest (λ last. last < number) }
    ensures count { IsTrue result → manager.now.asked < 2 ^ 44 }
{
    manager.asked() < 1 << 44 && rises(manager.latest(), number)
}

// `HOST NEEDS`: a want of this number, where it may be asked.
fn want_of(manager: &TokenManager, number: u64, words: &mut Words) -> Option<Want>
    ensures number { IfSome result (λ want. IfSome manager.now.latest (λ last. last < want.number)) }
    ensures count { IfSome result (λ want. manager.now.asked < 2 ^ 44) }
    ensures needs { IfSome result (λ want. length want.needs ≤ NEEDS_MAX) }
{
    let host = words.host();
    let needs = words.needs();
    if !may_ask(manager, number) || NEEDS_MAX < needs.len() {
        drop(needs);
        words.refuse();
        return None;
    }
    Some(Want {
        number,
        host,
        needs,
    })
}

fn copy_of(want: &Want) -> Result<Want, NoMemory>
    ensures { IfOk result (λ copy. copy ≡ want.now) }
{
    want.copy()
}

// `ask HOST NEEDS`: of a copy of the want.
fn ask(
    manager: &mut TokenManager,
    number: u64,
    words: &mut Words,
    text: &mut Text,
) -> Result<(), NoMemory> {
    let Some(want) = want_of(manager, number, words) else {
        return Ok(());
    };
    let copy = copy_of(&want);
    drop(want);
    let asked = manager.ask(copy?)?;
    push_asked(text, &asked);
    drop(asked);
    Ok(())
}

// `enqueue HOST NEEDS`: the numbers of the wants that wait then.
fn enqueue(
    manager: &mut TokenManager,
    number: u64,
    words: &mut Words,
    text: &mut Text,
) -> Result<(), NoMemory> {
    let Some(want) = want_of(manager, number, words) else {
        return Ok(());
    };
    manager.enqueue(want)?;
    push_wants(text, manager.queue());
    Ok(())
}

// `admit TOKENS`: yes where they may be admitted.
fn admit(manager: &mut TokenManager, words: &mut Words, text: &mut Text) -> Result<(), NoMemory> {
    let tokens = words.tokens();
    let admitted = admit_all(manager, tokens.as_slice());
    drop(tokens);
    push_yes(text, admitted?);
    Ok(())
}

fn admit_all(manager: &mut TokenManager, tokens: &[Token]) -> Result<bool, NoMemory> {
    let can = manager.can_admit(tokens);
    if can {
        manager.admit(tokens)?;
    }
    Ok(can)
}

// `forget EPOCH`: yes where the epoch is a later one.
fn forget(manager: &mut TokenManager, words: &mut Words, text: &mut Text) {
    let later = manager.forget(words.number());
    manager.laws();
    push_yes(text, later);
}
