//! What a step in the making does, as text.

use host_tables::Draft;
use message_types::{Body, Give, Message};
use token_types::TokenId;
use tree_test_words::Text;

/// What a step makes, drops and says, and the filesets of which a give-back is due.
pub fn push_draft(text: &mut Text, draft: &Draft) {
    for give in draft.made.as_slice() {
        push_give(text, give);
    }
    for leave in draft.dropped.as_slice() {
        text.number(" drops ", leave.token.id.seq);
    }
    for message in draft.sent.as_slice() {
        push_message(text, message);
    }
    for fileset in draft.due.as_slice() {
        text.number(" due ", u64::from(fileset.0));
    }
}

fn push_give(text: &mut Text, give: &Give) {
    text.number(" gives ", give.number);
    push_ids(text, " names ", give.ids.as_slice());
    for piece in give.pieces.as_slice() {
        text.number(" at ", u64::from(piece.from));
        text.plain(" ", piece.bytes.as_slice());
    }
    if let Some(length) = give.length {
        text.number(" long ", u64::from(length));
    }
    if let Some(ends) = &give.ends {
        text.number(" ends ", u64::from(ends.k));
    }
}

fn push_ids(text: &mut Text, word: &str, ids: &[TokenId]) {
    for id in ids {
        text.number(word, id.seq);
    }
}

fn push_message(text: &mut Text, message: &Message) {
    text.number(" to ", u64::from(message.server.0));
    match &message.body {
        Body::Returned(named) => push_ids(text, " returns ", named.ids.as_slice()),
        Body::Kept(named) => push_ids(text, " keeps ", named.ids.as_slice()),
        Body::GiveBack(give) => text.number(" gives ", give.number),
        Body::Fetch(fetch) => text.number(" fetches ", fetch.number),
        Body::Change(change) => text.number(" changes ", change.number),
        Body::Hello => text.word(" greets"),
        _ => text.word(" else"),
    }
}
