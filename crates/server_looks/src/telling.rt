ghost use Rattle.std.specs.Prelude.{◌≡◌, ◌≤◌, length, IfOk};
ghost use Rattle.base_types.specs.declared.limits.TheConstants.{OBJECTS_MAX};
ghost use Rattle.message_types.specs.Soundness.{AreFileBytes, NamesRise};
ghost use Rattle.server_looks.specs.Keepers.{HasAsked, IsFit};
ghost use Rattle.server_keeps.specs.Granting.{asked_with, entries_for, joined, piece_if_some, pieces_for, span_asked};

use crate::fault::ExporterFault;
use crate::keeper::Keeper;
use base_types::{Items, NoMemory, Span};
use message_types::Fetch;
use std::alloc::Global;
use store_memory::Store;
use token_types::{Kind, Need};
use tree_calls::{DirEntry, Piece};
use tree_objects::span_between;

/// The bytes of a file that a Fetch asks for, in one piece.
pub fn pieces_told<S: Store>(
    alloc: Global,
    keeper: &mut Keeper<S>,
    fetch: &Fetch,
    dir: bool,
) -> Result<Items<Piece>, ExporterFault>
    requires fit { IsFit (S.view keeper.old.store) keeper.old.left }
    ensures pieces { S.tells → IfOk result (λ pieces.
        pieces ≡ pieces_for (S.view keeper.old.store).state fetch.now.fid dir fetch.now.needs) }
    ensures sound { IfOk result AreFileBytes }
    ensures asked { HasAsked S.tells result (S.view keeper.old.store) (S.view keeper.new.store) keeper.new.left }
{
    if dir {
        return Ok(Items::new(alloc));
    }
    let Some(span) = span_asked(fetch.needs.as_slice()) else {
        return Ok(Items::new(alloc));
    };
    let bytes = keeper.bytes(fetch.fid, span)?;
    Ok(piece_if_some(alloc, span.from, bytes)?)
}

fn piece_if_some(alloc: Global, from: u32, bytes: Items<u8>) -> Result<Items<Piece>, NoMemory>
    ensures { IfOk result (λ pieces. pieces ≡ piece_if_some from bytes) }
{
    let mut pieces = Items::new(alloc);
    if !bytes.is_empty() {
        pieces.push(Piece { from, bytes })?;
    }
    Ok(pieces)
}

/// The entries of a directory, where a Fetch asks for them.
pub fn entries_told<S: Store>(
    alloc: Global,
    keeper: &mut Keeper<S>,
    fetch: &Fetch,
    dir: bool,
) -> Result<Items<DirEntry>, ExporterFault>
    requires fit { IsFit (S.view keeper.old.store) keeper.old.left }
    ensures entries { S.tells → IfOk result (λ entries.
        entries ≡ entries_for (S.view keeper.old.store).state fetch.now.fid dir fetch.now.needs) }
    ensures few { IfOk result (λ entries. length entries ≤ OBJECTS_MAX) }
    ensures order { IfOk result NamesRise }
    ensures asked { HasAsked S.tells result (S.view keeper.old.store) (S.view keeper.new.store) keeper.new.left }
{
    if dir && span_asked(fetch.needs.as_slice()).is_some() {
        keeper.entries(fetch.fid)
    } else {
        Ok(Items::new(alloc))
    }
}

/// From the first byte that some needs are of to the last one.
fn span_asked(needs: &[Need]) -> Option<Span>
    ensures { result ≡ span_asked needs.now }
{
    let mut asked: Option<Span> = None;
    for need in needs {
        asked = asked_with(asked, need.kind);
    }
    asked
}

fn asked_with(asked: Option<Span>, kind: Kind) -> Option<Span>
    ensures { result ≡ asked_with asked kind }
{
    match (kind, asked) {
        (Kind::Bytes { span, .. }, Some(other)) => Some(joined(other, span)),
        (Kind::Bytes { span, .. }, None) => Some(span),
        _ => asked,
    }
}

fn joined(one: Span, other: Span) -> Span
    ensures { result ≡ joined one other }
{
    span_between(
        u64::from(one.from.min(other.from)),
        u64::from(one.to.max(other.to)),
    )
}
