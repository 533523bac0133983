//! The steps of a grace period, in which tokens are claimed again.

use crate::reading::Words;
use crate::telling::{push_ids, push_yes};
use base_types::{HostId, NoMemory};
use token_reclaim::Recovery;
use token_types::TokenId;
use tree_test_words::Text;

/// Writes the answer to a row `reclaim ..`.
pub fn tell_recovery(
    recovery: &mut Recovery,
    words: &mut Words,
    text: &mut Text,
) -> Result<(), NoMemory> {
    match words.next() {
        "from" => begin(recovery, words),
        "claim" => claim(recovery, words, text),
        "gone" => {
            recovery.host_gone(words.host());
            Ok(())
        }
        word => {
            look(recovery, word, words, text);
            Ok(())
        }
    }
}

fn look(recovery: &Recovery, word: &str, words: &mut Words, text: &mut Text) {
    match word {
        "epoch" => text.number("", recovery.epoch()),
        "grace" => push_yes(text, recovery.is_grace()),
        "awaited" => push_yes(text, recovery.is_awaited(words.host())),
        _ => words.refuse(),
    }
}

// `reclaim from HOSTS`: the grace period of epoch 2, in which these hosts are awaited.
fn begin(recovery: &mut Recovery, words: &mut Words) -> Result<(), NoMemory> {
    let hosts = words.hosts();
    let begun = Recovery::new(words.alloc(), 2, hosts.as_slice());
    drop(hosts);
    *recovery = begun?;
    Ok(())
}

// `reclaim claim HOST COUNT NUMBERS TOKENS`: of the tokens those that are admitted, where these numbers were given up.
fn claim(recovery: &mut Recovery, words: &mut Words, text: &mut Text) -> Result<(), NoMemory> {
    let host = words.host();
    let given_up = words.ids();
    let told = claim_of(recovery, host, given_up.as_slice(), words, text);
    drop(given_up);
    told
}

fn claim_of(
    recovery: &mut Recovery,
    host: HostId,
    given_up: &[TokenId],
    words: &mut Words,
    text: &mut Text,
) -> Result<(), NoMemory> {
    let tokens = words.tokens();
    let admitted = recovery.claim(host, tokens.as_slice(), given_up);
    drop(tokens);
    let admitted = admitted?;
    push_ids(text, admitted.as_slice());
    drop(admitted);
    Ok(())
}
