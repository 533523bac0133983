//! Which kinds conflict, what tokens cover, and sets of positions.

use crate::reading::Words;
use crate::telling::push_yes;
use base_types::{Fid, FilesetId, HostId, NoMemory, OpenKind, Plain, ServerId, Span};
use token_ranges::SpanSet;
use token_types::{Kind, Need, Token, TokenId, conflicts, covers, wants_conflict};
use tree_test_words::Text;

const FILE: Fid = Fid {
    fileset: FilesetId(65_537),
    anode: 2,
    unique: 1,
};

const OTHER_FILE: Fid = Fid {
    fileset: FilesetId(65_537),
    anode: 3,
    unique: 1,
};

const FRONT: Span = Span { from: 0, to: 4 };

const BACK: Span = Span { from: 4, to: 8 };

const MIDDLE: Span = Span { from: 3, to: 5 };

// The columns of the pictures. The spans of kinds 0, 1, 6 and 7 touch those of 2 and 8, and overlap those of 3 and 9.
const KINDS: [Kind; 15] = [
    Kind::Bytes {
        update: false,
        span: FRONT,
    },
    Kind::Bytes {
        update: true,
        span: FRONT,
    },
    Kind::Bytes {
        update: true,
        span: BACK,
    },
    Kind::Bytes {
        update: false,
        span: MIDDLE,
    },
    Kind::Status { update: false },
    Kind::Status { update: true },
    Kind::Lock {
        writing: false,
        span: FRONT,
    },
    Kind::Lock {
        writing: true,
        span: FRONT,
    },
    Kind::Lock {
        writing: true,
        span: BACK,
    },
    Kind::Lock {
        writing: false,
        span: MIDDLE,
    },
    Kind::Opening(OpenKind::Reading),
    Kind::Opening(OpenKind::Writing),
    Kind::Opening(OpenKind::Executing),
    Kind::Opening(OpenKind::Shared),
    Kind::Opening(OpenKind::Exclusive),
];

fn token(host: u8, fid: Fid, kind: Kind) -> Token {
    Token {
        id: TokenId {
            server: ServerId(1),
            epoch: 1,
            seq: u64::from(host),
        },
        host: HostId(host),
        fid,
        kind,
    }
}

// x where two hosts' kinds of one file conflict, in tokens and in wants alike; ? where the two answers differ, or where
// those of one host or of two files conflict.
fn cell(kind: Kind, other: Kind) -> &'static str {
    let ours = token(1, FILE, kind);
    let conflict = conflicts(&ours, &token(2, FILE, other));
    let needs = [token(2, FILE, other).need()];
    let in_wants = wants_conflict(HostId(1), &[ours.need()], HostId(2), &needs);
    let alone = conflicts(&ours, &token(1, FILE, other));
    let apart = conflicts(&ours, &token(2, OTHER_FILE, other));
    if conflict != in_wants || alone || apart {
        return "?";
    }
    if conflict { "x" } else { "." }
}

/// `conflicts KIND`: a picture, with a cell for each kind of another host.
pub fn tell_conflicts(words: &mut Words, text: &mut Text) {
    let kind = words.kind();
    for other in &KINDS {
        text.word(cell(kind, *other));
    }
}

/// `covers KIND KIND KIND`: whether tokens of the first two on a file cover a need of the third, and whether the same
/// tokens on another file do.
pub fn tell_covers(words: &mut Words, text: &mut Text) {
    let held = words.kind();
    let other = words.kind();
    let kind = words.kind();
    push_covers(text, held, other, Need { fid: FILE, kind });
}

fn push_covers(text: &mut Text, held: Kind, other: Kind, need: Need) {
    push_yes(
        text,
        covers(&[token(1, FILE, held), token(2, FILE, other)], &need),
    );
    let elsewhere = [token(1, OTHER_FILE, held), token(2, OTHER_FILE, other)];
    if covers(&elsewhere, &need) {
        text.word(" elsewhere");
    }
}

/// `add SPAN` or `cut SPAN`: how many spans the set has then, its first twelve positions, and its gaps in 2..10.
pub fn tell_spans(
    set: &mut SpanSet,
    adds: bool,
    words: &mut Words,
    text: &mut Text,
) -> Result<(), NoMemory> {
    changed(set, adds, words.span())?;
    text.number("", set.spans().len() as u64);
    text.word(" ");
    push_picture(text, set);
    let copy = set.copy()?;
    let told = tell_gaps(&copy, text);
    drop(copy);
    told
}

fn push_picture(text: &mut Text, set: &SpanSet) {
    for at in 0..12u32 {
        let cell = Span {
            from: at,
            to: at + 1,
        };
        text.word(if set.covers(cell) { "#" } else { "." });
    }
}

fn tell_gaps(set: &SpanSet, text: &mut Text) -> Result<(), NoMemory> {
    let gaps = set.missing(Span { from: 2, to: 10 })?;
    push_gaps(text, gaps.as_slice());
    drop(gaps);
    Ok(())
}

fn push_gaps(text: &mut Text, gaps: &[Span]) {
    for gap in gaps {
        text.number(" ", u64::from(gap.from));
        text.number("-", u64::from(gap.to));
    }
}

fn changed(set: &mut SpanSet, adds: bool, span: Span) -> Result<(), NoMemory> {
    if adds { set.add(span) } else { set.cut(span) }
}
