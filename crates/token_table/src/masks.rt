//! What tokens of one file bar for other hosts, in blocks of 1 KiB.
ghost use Rattle.std.specs.Prelude.{◌≡◌};
ghost use Rattle.token_table.specs.Masks.{mask_of, with_blocks, may_have, nothing, with_kind, may_bar, bit_of, bars_of};
ghost use Rattle.token_table.specs.Masks.{may_bar_any, barred_by};

use base_types::{FILE_BYTES_MAX, OpenKind, Span};
use token_types::{Kind, Need, Token};

// Bytes of a block.
const BLOCK: u32 = FILE_BYTES_MAX / 64;

/// The blocks in which reading is barred, and those in which writing is, a bit each.
#[derive(Clone, Copy)]
pub struct Blocks {
    pub reading: u64,
    pub writing: u64,
}

/// What tokens of one file bar for other hosts: some more than that is barred where tokens have a part of a block.
#[derive(Clone, Copy)]
pub struct Barred {
    pub bytes: Blocks,
    pub locks: Blocks,
    pub status: Blocks,
    /// The kinds in which the file is open, a bit each.
    pub opens: u64,
}

const NO_BLOCKS: Blocks = Blocks {
    reading: 0,
    writing: 0,
};

impl Blocks {
    // With blocks that a token has, for reading, or for writing, too.
    fn with(self, writes: bool, blocks: u64) -> Blocks
        ensures { result ≡ with_blocks self writes blocks }
    {
        Blocks {
            reading: if writes {
                self.reading | blocks
            } else {
                self.reading
            },
            writing: self.writing | blocks,
        }
    }

    // Whether one of these blocks may be barred.
    fn may_bar(&self, writes: bool, blocks: u64) -> bool
        ensures { result ≡ may_have self.now writes blocks }
    {
        let barred = if writes { self.writing } else { self.reading };
        barred & blocks != 0
    }
}

impl Barred {
    /// Nothing is barred.
    pub fn nothing() -> Barred
        ensures { result ≡ nothing }
    {
        Barred {
            bytes: NO_BLOCKS,
            locks: NO_BLOCKS,
            status: NO_BLOCKS,
            opens: 0,
        }
    }

    /// With a token of this kind.
    pub fn with(self, kind: Kind) -> Barred
        ensures { result ≡ with_kind self kind }
    {
        match kind {
            Kind::Bytes { update, span } => Barred {
                bytes: self.bytes.with(update, mask_of(span)),
                ..self
            },
            Kind::Lock { writing, span } => Barred {
                locks: self.locks.with(writing, mask_of(span)),
                ..self
            },
            Kind::Status { update } => Barred {
                status: self.status.with(update, 1),
                ..self
            },
            Kind::Opening(kind) => Barred {
                opens: self.opens | bit_of(kind),
                ..self
            },
        }
    }

    // Whether one of the tokens may conflict with another host's need of this kind. If not, none of them does.
    fn may_bar(&self, kind: Kind) -> bool
        ensures { result ≡ may_bar self.now kind }
    {
        match kind {
            Kind::Bytes { update, span } => self.bytes.may_bar(update, mask_of(span)),
            Kind::Lock { writing, span } => self.locks.may_bar(writing, mask_of(span)),
            Kind::Status { update } => self.status.may_bar(update, 1),
            Kind::Opening(kind) => self.opens & bars_of(kind) != 0,
        }
    }

    /// Whether one of the tokens may conflict with one of another host's needs on the file. If not, none of them does.
    pub fn may_bar_any(&self, needs: &[Need]) -> bool
        ensures { result ≡ may_bar_any needs.now self.now }
    {
        needs.iter().any(|need| self.may_bar(need.kind))
    }
}

/// What these tokens bar.
pub fn barred_by(tokens: &[Token]) -> Barred
    ensures { result ≡ barred_by tokens.now }
{
    let mut barred = Barred::nothing();
    for token in tokens {
        barred = barred.with(token.kind);
    }
    barred
}

// The blocks in which a span has a byte.
fn mask_of(span: Span) -> u64
    ensures { result ≡ mask_of span }
{
    if span.is_empty() {
        return 0;
    }
    let first = span.from / BLOCK;
    let last = (span.to - 1) / BLOCK;
    (u64::MAX >> (63 - last)) - ((1u64 << first) - 1)
}

fn bit_of(kind: OpenKind) -> u64
    ensures { result ≡ bit_of kind }
{
    match kind {
        OpenKind::Reading => 1,
        OpenKind::Writing => 2,
        OpenKind::Executing => 4,
        OpenKind::Shared => 8,
        OpenKind::Exclusive => 16,
    }
}

// The kinds that conflict with this one.
fn bars_of(kind: OpenKind) -> u64
    ensures { result ≡ bars_of kind }
{
    match kind {
        OpenKind::Reading => 16,
        OpenKind::Writing => 4 | 8 | 16,
        OpenKind::Executing => 2 | 16,
        OpenKind::Shared => 2 | 16,
        OpenKind::Exclusive => 31,
    }
}
