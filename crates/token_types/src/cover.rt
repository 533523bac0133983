ghost use Rattle.std.specs.Prelude.{◌≡◌, ◌<◌, ◌↔◌, false, IsTrue, IfSome, IfNone};
ghost use Rattle.std.specs.List.{list_any, find};
ghost use Rattle.std.specs.Option.{option_copied};
ghost use Rattle.token_types.specs.Covers.{covers_byte, kind_covers_byte, kind_covers, covers_alone, CoversBetween};
ghost use Rattle.token_types.specs.Covers.{CoversSpan, Covers};

use crate::token::{Kind, Need, Token};
use base_types::{Fid, Span};

/// Whether the tokens that a host holds cover a need. Byte needs may be covered by several tokens together, and a token
/// for update covers reading too. A lock token covers exactly the lock of its own mode and span, and an open token
/// exactly its own kind. Whose tokens they are isn't looked at.
pub fn covers(held: &[Token], need: &Need) -> bool
    ensures { IsTrue result ↔ Covers held.now need.now }
{
    match need.kind {
        Kind::Bytes { update, span } => covers_span(held, need.fid, update, span),
        kind => covers_alone(held, need.fid, kind),
    }
}

fn covers_alone(held: &[Token], fid: Fid, kind: Kind) -> bool
    ensures { result ≡ list_any (covers_alone fid kind) held.now }
{
    held.iter()
        .any(|token| token.fid == fid && kind_covers(token.kind, kind))
}

fn kind_covers(kind: Kind, needed: Kind) -> bool
    ensures { result ≡ kind_covers kind needed }
{
    match (kind, needed) {
        (Kind::Status { update }, Kind::Status { update: needed }) => update || !needed,
        (Kind::Lock { .. }, Kind::Lock { .. }) => kind == needed,
        (Kind::Opening(kind), Kind::Opening(needed)) => kind == needed,
        _ => false,
    }
}

fn covers_span(held: &[Token], fid: Fid, update: bool, span: Span) -> bool
    ensures { IsTrue result ↔ CoversSpan held.now fid update span }
{
    let mut at = span.from;
    while at < span.to {
        match end_of_cover(held, fid, update, at) {
            Some(end) => at = end,
            None => return false,
        }
    }
    true
}

/// The end of the span of a token that covers a byte.
fn end_of_cover(held: &[Token], fid: Fid, update: bool, at: u32) -> Option<u32>
    ensures beyond { IfSome result (λ end. at < end) }
    ensures covered { IfSome result (CoversBetween held.now fid update at) }
    ensures none { IfNone result (list_any (covers_byte fid update at) held.now ≡ false) }
{
    match first_cover(held, fid, update, at)?.kind {
        Kind::Bytes { span, .. } => Some(span.to),
        _ => None,
    }
}

fn first_cover(held: &[Token], fid: Fid, update: bool, at: u32) -> Option<&Token>
    ensures { option_copied result ≡ find (covers_byte fid update at) held.now }
{
    held.iter().find(|token| token.fid == fid && covers_byte(token.kind, update, at))
}

fn covers_byte(kind: Kind, update: bool, at: u32) -> bool
    ensures { result ≡ kind_covers_byte update at kind }
{
    match kind {
        Kind::Bytes {
            update: held_update,
            span,
        } => (held_update || !update) && span.from <= at && at < span.to,
        _ => false,
    }
}
