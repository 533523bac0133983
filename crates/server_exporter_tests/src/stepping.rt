//! The steps of a machine, as text.

use message_types::{Body, Bring, Done, DoneIs, Grant, Message, Reclaimed};
use run_rules::{Applied, Step};
use token_types::{Token, TokenId};
use tree_test_words::{Text, push_reply};

/// What was learnt and decided in a step, who was admitted again, and what is said.
pub fn push_step(text: &mut Text, step: &Step) {
    for applied in step.applied.as_slice() {
        push_applied(text, applied);
    }
    for admission in step.admitted.as_slice() {
        text.number(" admits c", u64::from(admission.host.0));
    }
    for message in step.sent.as_slice() {
        push_message(text, message);
    }
}

fn push_applied(text: &mut Text, applied: &Applied) {
    match applied {
        Applied::Stored { .. } => text.word(" stored"),
        Applied::Replied(_) => text.word(" replied"),
        Applied::IsDown(_) => text.word(" down"),
        Applied::Wants(_) => text.word(" wants"),
        Applied::Moves(_) => text.word(" moves"),
        Applied::Done(written) => {
            text.number(" did ", written.number);
            text.word(" ");
            push_reply(text, &written.answer.reply);
        }
    }
}

fn push_message(text: &mut Text, message: &Message) {
    text.number("; c", u64::from(message.host.0));
    text.number(" ", message.epoch);
    match &message.body {
        Body::Restarted => text.word(" restarted"),
        Body::Bye => text.word(" bye"),
        Body::Gone(give) => text.number(" gone ", give.number),
        Body::Grant(grant) => push_grant(text, grant),
        Body::Done(done) => push_done(text, done),
        Body::Revoke(revoke) => push_ids(text, " revoke", revoke.ids.as_slice()),
        Body::Reclaimed(answer) => push_reclaimed(text, answer),
        _ => text.word(" other"),
    }
}

fn push_ids(text: &mut Text, word: &str, ids: &[TokenId]) {
    text.word(word);
    for id in ids {
        text.number(" ", id.epoch);
        text.number(".", id.seq);
    }
}

fn push_bring(text: &mut Text, bring: &Bring) {
    text.number("", bring.number);
    text.number(" stamp ", bring.stamp);
    push_tokens(text, bring.tokens.as_slice());
}

fn push_tokens(text: &mut Text, tokens: &[Token]) {
    for token in tokens {
        text.number(" ", token.id.epoch);
        text.number(".", token.id.seq);
    }
}

fn push_grant(text: &mut Text, grant: &Grant) {
    text.word(" grant ");
    push_bring(text, &grant.bring);
    if let Some(status) = &grant.status {
        text.number(" length ", u64::from(status.length));
    }
    for piece in grant.pieces.as_slice() {
        text.number(" at ", u64::from(piece.from));
        text.plain(" ", piece.bytes.as_slice());
    }
}

fn push_done(text: &mut Text, done: &Done) {
    text.word(" done ");
    push_bring(text, &done.bring);
    match &done.outcome {
        DoneIs::Reply(reply) => {
            text.word(" ");
            push_reply(text, reply);
        }
        DoneIs::Known(_) => text.word(" known"),
        DoneIs::Granted => text.word(" granted"),
        DoneIs::Again => text.word(" again"),
        DoneIs::Elsewhere(_) => text.word(" elsewhere"),
    }
}

fn push_reclaimed(text: &mut Text, answer: &Reclaimed) {
    text.number(" reclaimed ", answer.applied.len() as u64);
    push_ids(text, " without", answer.left_out.as_slice());
}
