//! Steps and looks at claims.
ghost use Rattle.std.specs.Prelude.{OnOk};
ghost use Rattle.server_tables.specs.Counting.{IsCounted};

use crate::reading::{Words, push_number, push_yes};
use anyhow::{Result, bail};
use base_types::{HostId, Items, ServerId};
use message_types::{AppliedGive, Reclaim, Reclaimed};
use server_tables::{Recovering, Tables, is_same_answer};
use tree_test_words::Text;

/// Writes what is told to a row about claims.
pub fn tell(tables: &mut Tables, word: &str, words: &mut Words, text: &mut Text) -> Result<()>
    requires { IsCounted tables.old }
    ensures { OnOk result (IsCounted tables.new) }
{
    tell_of(&mut tables.recovering, word, words, text)
}

fn tell_of(
    recovering: &mut Recovering,
    word: &str,
    words: &mut Words,
    text: &mut Text,
) -> Result<()> {
    let host = words.host()?;
    match word {
        "claims" => claim(recovering, host, words, text),
        "took" => take(recovering, host, words, text),
        "lost" => lose(recovering, host, words, text),
        "told" => note_answer(recovering, host, words, text),
        _ => look(recovering, word, host, words, text),
    }
}

// `claims HOST FILESET NUMBER TOKENS`: how many claims wait then.
fn claim(
    recovering: &mut Recovering,
    host: HostId,
    words: &mut Words,
    text: &mut Text,
) -> Result<()> {
    let claim = claim_of(host, words)?;
    let noted = recovering.note_claim(host, &claim);
    drop(claim);
    text.number("", recovering.claims.len() as u64);
    Ok(noted?)
}

fn claim_of(host: HostId, words: &mut Words) -> Result<Reclaim> {
    let outstanding = words.outstanding()?;
    let numbers = Items::from_slice(words.alloc, &[outstanding])?;
    let tokens = words.tokens(host)?;
    Ok(Reclaim { tokens, numbers })
}

// `took HOST FILESET NUMBER`: a give-back was taken. It tells how many were.
fn take(
    recovering: &mut Recovering,
    host: HostId,
    words: &mut Words,
    text: &mut Text,
) -> Result<()> {
    let fileset = words.fileset();
    let number = words.number()?;
    recovering.note_taken(host, AppliedGive { fileset, number })?;
    text.number("", recovering.taken.len() as u64);
    Ok(())
}

// `lost HOST TOKENS`: they were given up. It tells how many were.
fn lose(
    recovering: &mut Recovering,
    host: HostId,
    words: &mut Words,
    text: &mut Text,
) -> Result<()> {
    let ids = words.ids()?;
    let noted = recovering.note_given_up(host, ids.as_slice());
    drop(ids);
    text.number("", recovering.given_up.len() as u64);
    Ok(noted?)
}

// `told HOST FILESET NUMBER TOKENS`: the host's claim is answered so. It tells how many are.
fn note_answer(
    recovering: &mut Recovering,
    host: HostId,
    words: &mut Words,
    text: &mut Text,
) -> Result<()> {
    let claim = claim_of(host, words)?;
    let answer = answer_to(recovering, host, &claim);
    drop(claim);
    recovering.note_answer(host, answer?)?;
    text.number("", recovering.answers.len() as u64);
    Ok(())
}

fn answer_to(recovering: &Recovering, host: HostId, claim: &Reclaim) -> Result<Reclaimed> {
    let applied = recovering.applied(host, claim)?;
    let left_out = recovering.left_out(host, claim)?;
    Ok(Reclaimed { applied, left_out })
}

fn look(
    recovering: &Recovering,
    word: &str,
    host: HostId,
    words: &mut Words,
    text: &mut Text,
) -> Result<()> {
    match word {
        "gave-up" => push_yes(text, recovering.gave_up(host, words.id()?)),
        "ripe" => push_number(text, ripe(recovering)),
        "names" => return names(recovering, words, text),
        "all" | "same" => return look_at(recovering, word, host, words, text),
        _ => bail!("no step: {word}"),
    }
    Ok(())
}

// The host of the first claim that is ripe.
fn ripe(recovering: &Recovering) -> Option<u64> {
    match recovering.first_ripe(ServerId(1)) {
        Some(claimed) => Some(u64::from(claimed.host.0)),
        None => None,
    }
}

// Whether the first claim names a fileset.
fn names(recovering: &Recovering, words: &mut Words, text: &mut Text) -> Result<()> {
    let fileset = words.fileset();
    match recovering.claims.at(0) {
        Some(claimed) => push_yes(text, claimed.names(ServerId(1), fileset)),
        None => bail!("no claim"),
    }
    Ok(())
}

// Whether all give-backs of a claim were taken, or whether its answer is the one that was told.
fn look_at(
    recovering: &Recovering,
    word: &str,
    host: HostId,
    words: &mut Words,
    text: &mut Text,
) -> Result<()> {
    let claim = claim_of(host, words)?;
    let is_so = if word == "all" {
        Ok(recovering.has_all(ServerId(1), host, &claim))
    } else {
        is_told(recovering, host, &claim)
    };
    drop(claim);
    push_yes(text, is_so?);
    Ok(())
}

fn is_told(recovering: &Recovering, host: HostId, claim: &Reclaim) -> Result<bool> {
    let answer = answer_to(recovering, host, claim)?;
    let is_same = match recovering.answer_to(host) {
        Some(last) => is_same_answer(last, &answer),
        None => false,
    };
    drop(answer);
    Ok(is_same)
}
