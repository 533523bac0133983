//! A step of a host, as text.

use message_types::{Body, Change, Fetch, Give, Message, Named, Reclaim};
use run_rules::{Step, Why};
use token_types::{Kind, TokenId};
use tree_test_words::{Text, push_reply};

/// What a step opens, takes, answers, makes and drops, and what it says.
pub fn push_step(text: &mut Text, step: &Step) {
    if let Some(asked) = &step.asked {
        text.number(" opens ", u64::from(asked.k));
    }
    for token in step.taken.as_slice() {
        text.number(" takes ", token.id.seq);
    }
    for answer in step.answers.as_slice() {
        text.number(" answers ", u64::from(answer.k));
        text.word(" ");
        push_reply(text, &answer.reply);
    }
    push_uses(text, step);
    for message in step.sent.as_slice() {
        push_message(text, message);
    }
}

// The labels that come into use, the give-backs that are made, and the tokens that leave.
fn push_uses(text: &mut Text, step: &Step) {
    for begun in step.begun.as_slice() {
        text.number(" uses ", begun.token.id.seq);
    }
    for give in step.made.as_slice() {
        push_give(text, " makes ", give);
    }
    for leave in step.dropped.as_slice() {
        text.word(why_word(leave.why));
        text.number("", leave.token.id.seq);
    }
}

fn why_word(why: Why) -> &'static str {
    match why {
        Why::Revoked => " revoked ",
        Why::Evicted => " evicted ",
        Why::ForCall => " called ",
        Why::Ended => " ended ",
        Why::Stopped => " stopped ",
    }
}

fn push_give(text: &mut Text, word: &str, give: &Give) {
    text.number(word, give.number);
    push_ids(text, give.ids.as_slice());
    for piece in give.pieces.as_slice() {
        text.number(" at ", u64::from(piece.from));
        text.plain(" ", piece.bytes.as_slice());
    }
    if let Some(length) = give.length {
        text.number(" length ", u64::from(length));
    }
    if let Some(ends) = &give.ends {
        text.number(" ends ", u64::from(ends.k));
    }
}

fn push_ids(text: &mut Text, ids: &[TokenId]) {
    for id in ids {
        text.number(" ", id.seq);
    }
}

fn push_message(text: &mut Text, message: &Message) {
    text.number("; s", u64::from(message.server.0));
    text.number(" ", message.epoch);
    match &message.body {
        Body::Fetch(fetch) => push_fetch(text, fetch),
        Body::Change(change) => push_change(text, change),
        Body::Returned(named) => push_named(text, " returned", named),
        Body::Kept(named) => push_named(text, " kept", named),
        Body::GiveBack(give) => push_give(text, " give ", give),
        Body::Reclaim(claim) => push_claim(text, claim),
        body => text.word(word_of(body)),
    }
}

fn word_of(body: &Body) -> &'static str {
    match body {
        Body::Hello => " hello",
        Body::Bye => " bye",
        Body::Down => " down",
        _ => " other",
    }
}

fn push_named(text: &mut Text, word: &str, named: &Named) {
    text.word(word);
    push_ids(text, named.ids.as_slice());
}

fn push_fetch(text: &mut Text, fetch: &Fetch) {
    text.number(" fetch ", fetch.number);
    text.number(" ", u64::from(fetch.fid.anode));
    for need in fetch.needs.as_slice() {
        push_kind(text, need.kind);
    }
}

fn push_kind(text: &mut Text, kind: Kind) {
    match kind {
        Kind::Status { update } => text.word(if update { " status-update" } else { " status" }),
        Kind::Bytes { update, span } => {
            text.number(
                if update { " update " } else { " read " },
                u64::from(span.from),
            );
            text.number(" ", u64::from(span.to));
        }
        _ => text.word(" use"),
    }
}

fn push_change(text: &mut Text, change: &Change) {
    text.number(" change ", change.number);
    text.number(" ", u64::from(change.fid.anode));
    if change.enter {
        text.word(" enter");
    }
}

// The tokens that are claimed, and the numbers of what is outstanding.
fn push_claim(text: &mut Text, claim: &Reclaim) {
    text.word(" reclaim");
    for token in claim.tokens.as_slice() {
        text.number(" ", token.id.seq);
    }
    for number in claim.numbers.as_slice() {
        text.number(" give ", number.give);
        text.number(" change ", number.change);
    }
}
