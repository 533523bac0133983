//! Whether two claims, two answers to claims, or what two requests need are equal.
ghost use Rattle.std.specs.Prelude.{◌≡◌, ◌↔◌, IsTrue};

use base_types::{OpenKind, Span};
use message_types::{AppliedGive, Outstanding, Reclaim, Reclaimed};
use token_types::{Kind, Need, Token, TokenId};

pub(crate) fn is_same_claim(one: &Reclaim, other: &Reclaim) -> bool
    ensures { IsTrue result ↔ (one.now ≡ other.now) }
{
    are_same_tokens(one.tokens.as_slice(), other.tokens.as_slice())
        && are_same_numbers(one.numbers.as_slice(), other.numbers.as_slice())
}

/// Whether two answers to claims are equal.
pub fn is_same_answer(one: &Reclaimed, other: &Reclaimed) -> bool
    ensures { IsTrue result ↔ (one.now ≡ other.now) }
{
    are_same_gives(one.applied.as_slice(), other.applied.as_slice())
        && are_same_ids(one.left_out.as_slice(), other.left_out.as_slice())
}

/// Whether two requests need the same, in the same order.
pub fn are_same_needs(ones: &[Need], others: &[Need]) -> bool
    ensures { IsTrue result ↔ (ones.now ≡ others.now) }
{
    if ones.len() != others.len() {
        return false;
    }
    for (index, one) in ones.iter().enumerate() {
        if !is_same_need(one, &others[index]) {
            return false;
        }
    }
    true
}

fn are_same_tokens(ones: &[Token], others: &[Token]) -> bool
    ensures { IsTrue result ↔ (ones.now ≡ others.now) }
{
    if ones.len() != others.len() {
        return false;
    }
    for (index, one) in ones.iter().enumerate() {
        if !is_same_token(one, &others[index]) {
            return false;
        }
    }
    true
}

fn are_same_numbers(ones: &[Outstanding], others: &[Outstanding]) -> bool
    ensures { IsTrue result ↔ (ones.now ≡ others.now) }
{
    if ones.len() != others.len() {
        return false;
    }
    for (index, one) in ones.iter().enumerate() {
        if !is_same_number(one, &others[index]) {
            return false;
        }
    }
    true
}

fn are_same_gives(ones: &[AppliedGive], others: &[AppliedGive]) -> bool
    ensures { IsTrue result ↔ (ones.now ≡ others.now) }
{
    if ones.len() != others.len() {
        return false;
    }
    for (index, one) in ones.iter().enumerate() {
        if !is_same_give(one, &others[index]) {
            return false;
        }
    }
    true
}

fn are_same_ids(ones: &[TokenId], others: &[TokenId]) -> bool
    ensures { IsTrue result ↔ (ones.now ≡ others.now) }
{
    if ones.len() != others.len() {
        return false;
    }
    for (index, one) in ones.iter().enumerate() {
        if !is_same_id(one, &others[index]) {
            return false;
        }
    }
    true
}

fn is_same_number(one: &Outstanding, other: &Outstanding) -> bool
    ensures { IsTrue result ↔ (one.now ≡ other.now) }
{
    *one == *other
}

fn is_same_give(one: &AppliedGive, other: &AppliedGive) -> bool
    ensures { IsTrue result ↔ (one.now ≡ other.now) }
{
    *one == *other
}

fn is_same_id(one: &TokenId, other: &TokenId) -> bool
    ensures { IsTrue result ↔ (one.now ≡ other.now) }
{
    *one == *other
}

fn is_same_token(one: &Token, other: &Token) -> bool
    ensures { IsTrue result ↔ (one.now ≡ other.now) }
{
    one.id == other.id
        && one.host == other.host
        && one.fid == other.fid
        && is_same_kind(&one.kind, &other.kind)
}

fn is_same_need(one: &Need, other: &Need) -> bool
    ensures { IsTrue result ↔ (one.now ≡ other.now) }
{
    one.fid == other.fid && is_same_kind(&one.kind, &other.kind)
}

fn is_same_kind(one: &Kind, other: &Kind) -> bool
    ensures { IsTrue result ↔ (one.now ≡ other.now) }
{
    match (one, other) {
        (
            Kind::Bytes { update, span },
            Kind::Bytes {
                update: other,
                span: its,
            },
        ) => *update == *other && is_same_span(span, its),
        (Kind::Status { update }, Kind::Status { update: other }) => *update == *other,
        (
            Kind::Lock { writing, span },
            Kind::Lock {
                writing: other,
                span: its,
            },
        ) => *writing == *other && is_same_span(span, its),
        (Kind::Opening(kind), Kind::Opening(other)) => is_same_opening(kind, other),
        _ => false,
    }
}

fn is_same_span(one: &Span, other: &Span) -> bool
    ensures { IsTrue result ↔ (one.now ≡ other.now) }
{
    *one == *other
}

fn is_same_opening(one: &OpenKind, other: &OpenKind) -> bool
    ensures { IsTrue result ↔ (one.now ≡ other.now) }
{
    *one == *other
}
