//! Tokens that are held, and which of them help to cover a need.
ghost use Rattle.std.specs.Prelude.{◌≡◌, ◌++◌, filter, length, not, true};
ghost use Rattle.host_cache.specs.Holding.{kind_has_byte, is_status, helps, helps_cover, helpers_first, AreAlikeFor};

use token_types::{Kind, Need, Token};

/// A token that is held.
#[derive(Clone, Copy, PartialEq)]
pub struct Held {
    /// The token.
    pub token: Token,
    /// Whether it is in use, so that it isn't dropped to make room.
    pub in_use: bool,
    /// Whether it is a status token that came with a status.
    pub tells: bool,
}

/// Whether a token of this kind shows a byte.
pub(crate) fn kind_has_byte(kind: Kind, at: u32) -> bool
    ensures { result ≡ kind_has_byte at kind }
{
    match kind {
        Kind::Bytes { span, .. } => span.from <= at && at < span.to,
        _ => false,
    }
}

/// Whether a token of this kind shows the status.
pub(crate) fn is_status(kind: Kind) -> bool
    ensures { result ≡ is_status kind }
{
    matches!(kind, Kind::Status { .. })
}

/// Whether a token covers a need or helps to cover it.
pub(crate) fn helps_cover(token: &Token, need: &Need) -> bool
    ensures { result ≡ helps_cover need.now token.now }
{
    token.fid == need.fid && helps(token.kind, need.kind)
}

fn helps(kind: Kind, needed: Kind) -> bool
    ensures { result ≡ helps kind needed }
{
    match (kind, needed) {
        (
            Kind::Bytes { update, span },
            Kind::Bytes {
                update: needed,
                span: other,
            },
        ) => (update || !needed) && span.overlaps(other),
        (Kind::Status { update }, Kind::Status { update: needed }) => update || !needed,
        (Kind::Lock { .. }, Kind::Lock { .. }) => kind == needed,
        (Kind::Opening(kind), Kind::Opening(needed)) => kind == needed,
        _ => false,
    }
}

/// Whether the same of these tokens are of a kind that helps to cover a need of one kind and of another.
pub(crate) fn are_alike_for(tokens: &[Token], one: Kind, other: Kind) -> bool
    ensures { result ≡ true → AreAlikeFor one other tokens.now }
{
    for token in tokens {
        if !is_alike_for(token.kind, one, other) {
            return false;
        }
    }
    true
}

fn is_alike_for(kind: Kind, one: Kind, other: Kind) -> bool
    ensures { result ≡ true → helps kind one ≡ helps kind other }
{
    helps(kind, one) == helps(kind, other)
}

/// Brings the tokens that help to cover a need to the front, and counts them. The order among these stays, and that
/// among the others.
pub(crate) fn bring_helpers(tokens: &mut [Token], need: &Need) -> usize
    ensures order { tokens.new ≡ helpers_first need.now tokens.old }
    ensures count { result ≡ length (filter (helps_cover need.now) tokens.old) }
{
    let mut front = 0;
    for index in 0..tokens.len() {
        if helps_cover(&tokens[index], need) {
            tokens[front..=index].rotate_right(1);
            front += 1;
        }
    }
    front
}
