//! How the last reply is kept.
ghost use Rattle.std.specs.Prelude.{◌≡◌, slice_get};
ghost use Rattle.store_state.specs.Replies.{
  refusal_code,
  refusal_right,
  reply_code,
  reply_right,
  refusals,
  reply_of,
  kept_reply,
};

use base_types::Rights;
use tree_calls::{Record, Refusal, Reply};

/// The code of a reply to a change: its refusal's, or 0.
pub fn reply_code(reply: &Reply) -> u8
    ensures { result ≡ reply_code reply.now }
{
    match reply {
        Reply::Refused(refusal) => refusal_code(*refusal),
        Reply::Ok | Reply::Bytes(_) | Reply::Names(_) | Reply::Facts(_) | Reply::Access(_) => 0,
    }
}

// The right that it tells.
pub(crate) fn reply_right(reply: &Reply) -> u8
    ensures { result ≡ reply_right reply.now }
{
    match reply {
        Reply::Refused(Refusal::Denied(right)) => right.bits() & 63,
        _ => 0,
    }
}

// The reply that is kept.
pub(crate) fn kept_reply(kept: Record) -> Reply
    ensures { result ≡ kept_reply kept }
{
    reply_of(kept.code, kept.right)
}

/// The reply of a code, where a denial tells this right.
pub fn reply_of(code: u8, right: u8) -> Reply
    ensures { result ≡ reply_of code right }
{
    if code == 0 {
        return Reply::Ok;
    }
    match refusal_at(code as usize - 1, right) {
        Some(refusal) => Reply::Refused(refusal),
        None => Reply::Ok,
    }
}

fn refusal_code(refusal: Refusal) -> u8
    ensures { result ≡ refusal_code refusal }
{
    match refusal {
        Refusal::NoEntry => 1,
        Refusal::NotDir => 2,
        Refusal::IsDir => 3,
        Refusal::Exists => 4,
        Refusal::NotEmpty => 5,
        Refusal::Denied(_) => 6,
        Refusal::TooBig => 7,
        Refusal::TooMany => 8,
        Refusal::NoRoom => 9,
        Refusal::ReadOnly => 10,
        Refusal::Locked => 11,
        Refusal::OpenConflict => 12,
        Refusal::InUse => 13,
        Refusal::Loop => 14,
        Refusal::NoFileset => 15,
        Refusal::CrossFileset => 16,
        Refusal::NotLocked => 17,
        Refusal::NotOpened => 18,
        Refusal::AlreadyLocked => 19,
        Refusal::AlreadyOpened => 20,
        Refusal::NotHome => 21,
    }
}

// The refusal at a place in the order of codes, from 0.
fn refusal_at(place: usize, right: u8) -> Option<Refusal>
    ensures { result ≡ slice_get (refusals right) place }
{
    let all = [
        Refusal::NoEntry,
        Refusal::NotDir,
        Refusal::IsDir,
        Refusal::Exists,
        Refusal::NotEmpty,
        Refusal::Denied(Rights::from_bits(right)),
        Refusal::TooBig,
        Refusal::TooMany,
        Refusal::NoRoom,
        Refusal::ReadOnly,
        Refusal::Locked,
        Refusal::OpenConflict,
        Refusal::InUse,
        Refusal::Loop,
        Refusal::NoFileset,
        Refusal::CrossFileset,
        Refusal::NotLocked,
        Refusal::NotOpened,
        Refusal::AlreadyLocked,
        Refusal::AlreadyOpened,
        Refusal::NotHome,
    ];
    pick(&all, place)
}

// The refusal at a place, where there is one.
fn pick(all: &[Refusal], place: usize) -> Option<Refusal>
    ensures { result ≡ slice_get all.now place }
{
    all.get(place).copied()
}
