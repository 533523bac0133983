//! Whether two needs are equal.
ghost use Rattle.std.specs.Prelude.{◌≡◌, ◌↔◌, IsTrue};

use base_types::{OpenKind, Span};
use token_types::{Kind, Need};

/// Whether two needs are equal.
pub(crate) fn is_same_need(one: &Need, other: &Need) -> bool
    ensures { IsTrue result ↔ (one.now ≡ other.now) }
{
    one.fid == other.fid && is_same_kind(&one.kind, &other.kind)
}

fn is_same_kind(one: &Kind, other: &Kind) -> bool
    ensures { IsTrue result ↔ (one.now ≡ other.now) }
{
    match (one, other) {
        (
            Kind::Bytes { update, span },
            Kind::Bytes {
                update: other,
                span: its,
            },
        ) => *update == *other && is_same_span(span, its),
        (Kind::Status { update }, Kind::Status { update: other }) => *update == *other,
        (
            Kind::Lock { writing, span },
            Kind::Lock {
                writing: other,
                span: its,
            },
        ) => *writing == *other && is_same_span(span, its),
        (Kind::Opening(kind), Kind::Opening(other)) => is_same_opening(kind, other),
        _ => false,
    }
}

fn is_same_span(one: &Span, other: &Span) -> bool
    ensures { IsTrue result ↔ (one.now ≡ other.now) }
{
    *one == *other
}

fn is_same_opening(one: &OpenKind, other: &OpenKind) -> bool
    ensures { IsTrue result ↔ (one.now ≡ other.now) }
{
    *one == *other
}
