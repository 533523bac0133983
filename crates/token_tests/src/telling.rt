//! Answers as text.

use base_types::{Fid, Items, OpenKind, Span};
use token_manager::{Asked, Outlook, Ready, Want, Wanted};
use token_types::{Kind, Token, TokenId};
use tree_test_words::Text;

/// yes or no.
pub fn push_yes(text: &mut Text, answer: bool) {
    text.word(if answer { "yes" } else { "no" });
}

/// A number, or none.
pub fn push_number(text: &mut Text, number: Option<u64>) {
    match number {
        Some(number) => text.number("", number),
        None => text.word("none"),
    }
}

/// A whole token, or none.
pub fn push_token_or_none(text: &mut Text, token: Option<&Token>) {
    match token {
        Some(token) => push_token(text, token),
        None => text.word("none"),
    }
}

/// The numbers of tokens.
pub fn push_ids(text: &mut Text, tokens: &[Token]) {
    for token in tokens {
        push_id(text, token.id);
        text.word(" ");
    }
}

/// The numbers of tokens that are asked back, with `!` at those that were before.
pub fn push_wanted(text: &mut Text, tokens: &[Wanted]) {
    for wanted in tokens {
        push_id(text, wanted.token.id);
        text.word(if wanted.revoked { "! " } else { " " });
    }
}

/// The numbers of wants.
pub fn push_wants(text: &mut Text, wants: &[Want]) {
    for want in wants {
        text.number("", want.number);
        text.word(" ");
    }
}

/// The answer to a want that was asked.
pub fn push_asked(text: &mut Text, asked: &Asked) {
    match asked {
        Asked::Granted(tokens) => {
            text.word("granted ");
            push_ids(text, tokens.as_slice());
        }
        Asked::Waits { revoke, behind } => push_waits(text, revoke, *behind),
    }
}

fn push_waits(text: &mut Text, revoke: &Items<Token>, behind: Option<u64>) {
    text.word("waits ");
    push_ids(text, revoke.as_slice());
    if let Some(number) = behind {
        text.number("behind ", number);
    }
}

/// The decision on a queued want.
pub fn push_ready(text: &mut Text, ready: &Option<Ready>) {
    match ready {
        Some(Ready::Granted(number, tokens)) => {
            text.number("ready ", *number);
            text.word(" ");
            push_ids(text, tokens.as_slice());
        }
        Some(Ready::Refused(number, token)) => {
            text.number("refused ", *number);
            text.word(" ");
            push_id(text, token.id);
        }
        None => text.word("none"),
    }
}

/// What can become of a queued want.
pub fn push_outlook(text: &mut Text, outlook: Outlook) {
    match outlook {
        Outlook::Waits => text.word("waits"),
        Outlook::Granted => text.word("granted"),
        Outlook::Refused(token) => {
            text.word("refused ");
            push_id(text, token.id);
        }
    }
}

fn push_id(text: &mut Text, id: TokenId) {
    text.number("", u64::from(id.server.0));
    text.number(".", id.epoch);
    text.number(".", id.seq);
}

/// A token: its number, host, file and kind.
pub fn push_token(text: &mut Text, token: &Token) {
    push_id(text, token.id);
    text.number(" c", u64::from(token.host.0));
    text.word(" ");
    push_file(text, token.fid);
    text.word(" ");
    push_kind(text, token.kind);
}

fn push_file(text: &mut Text, fid: Fid) {
    let letter = if fid.fileset.0 == 65_537 { "f" } else { "g" };
    text.number(letter, u64::from(fid.anode));
}

fn push_kind(text: &mut Text, kind: Kind) {
    match kind {
        Kind::Bytes { update, span } => {
            push_spanned(text, if update { "update" } else { "read" }, span);
        }
        Kind::Lock { writing, span } => {
            push_spanned(text, if writing { "wlock" } else { "rlock" }, span);
        }
        Kind::Status { update } => text.word(if update { "status-update" } else { "status" }),
        Kind::Opening(kind) => text.word(opening(kind)),
    }
}

fn push_spanned(text: &mut Text, word: &str, span: Span) {
    text.word(word);
    text.number(":", u64::from(span.from));
    text.number("-", u64::from(span.to));
}

fn opening(kind: OpenKind) -> &'static str {
    match kind {
        OpenKind::Reading => "open-read",
        OpenKind::Writing => "open-write",
        OpenKind::Executing => "open-run",
        OpenKind::Shared => "open-shared",
        OpenKind::Exclusive => "open-alone",
    }
}
