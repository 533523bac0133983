//! What is dirty under tokens.
ghost use Rattle.std.specs.Prelude.{◌≡◌, ◌++◌, ℕ, ◌&&◌, ◌||◌, not, IfOk, OnOk};
ghost use Rattle.std.specs.List.{list_any};
ghost use Rattle.base_types.specs.Spans.{in_spans, overlap};
ghost use Rattle.host_tables.specs.Tables.{has_dirty_byte, is_clean_file};
ghost use Rattle.host_leaves.specs.Dirtying.{common, covers_left, is_dirty_left, is_dirty_under, is_named};
ghost use Rattle.host_leaves.specs.Dirtying.{spans_within, staying_of, updates_byte, within};

use crate::owning::{is_length_dirty, is_length_update, update_span};
use base_types::{Fid, Items, NoMemory, Span};
use host_dirty::Dirty;
use host_tables::Tables;
use host_walk::positions;
use std::alloc::Global;
use token_ranges::SpanSet;
use token_types::Token;

/// Whether nothing of a file is dirty, and nothing that was given back of it isn't known as applied. It takes no
/// memory.
pub fn is_clean(tables: &Tables, fid: Fid) -> bool
    ensures { result ≡ is_clean_file tables.now fid }
{
    !has_dirty_byte(&tables.dirty, fid)
        && !is_length_dirty(tables, fid)
        && !tables.gives.of_file(fid)
}

// Whether a byte of a file is dirty.
fn has_dirty_byte(dirty: &Dirty, fid: Fid) -> bool
    ensures { result ≡ has_dirty_byte dirty.now fid }
{
    dirty.spans(fid).iter().any(|span| span.from < span.to)
}

/// Whether something is dirty under a token: one of these spans, or the length of its file. It takes no memory.
pub(crate) fn is_dirty_under(token: &Token, spans: &[Span], length: Option<u32>) -> bool
    ensures { result ≡ is_dirty_under spans.now length token.now }
{
    match update_span(token.kind) {
        Some(span) => overlaps_any(spans, span),
        None => is_length_update(token.kind) && length.is_some(),
    }
}

// Whether a span has positions in common with one of some.
fn overlaps_any(spans: &[Span], span: Span) -> bool
    ensures { result ≡ list_any (λ other. overlap other span) spans.now }
{
    spans.iter().any(|other| other.overlaps(span))
}

/// The positions of a file that some tokens are for changing, and none that stays where others leave. The only error is
/// that memory ran out.
pub(crate) fn cover_left(
    tables: &Tables,
    fid: Fid,
    giving: &[Token],
    leaving: &[Token],
) -> Result<SpanSet, NoMemory>
    ensures { IfOk result (λ cover.
        (at : ℕ) → in_spans cover at ≡ covers_left tables.now fid giving.now leaving.now at) }
{
    let mut cover = cover_of(tables.alloc, giving)?;
    cut_staying(&mut cover, tables.cache.tokens_at(fid), leaving)?;
    Ok(cover)
}

// Takes the positions out that tokens are for changing which stay where others leave.
fn cut_staying(cover: &mut SpanSet, held: &[Token], leaving: &[Token]) -> Result<(), NoMemory>
    ensures { OnOk result ((at : ℕ) → in_spans cover.new at ≡ (in_spans cover.old at
        && not (list_any (updates_byte at) (staying_of held.now leaving.now)))) }
{
    for token in held {
        if !names(leaving, token) {
            cut_span(cover, token)?;
        }
    }
    Ok(())
}

// The positions that some tokens are for changing.
fn cover_of(alloc: Global, tokens: &[Token]) -> Result<SpanSet, NoMemory>
    ensures { IfOk result (λ cover. (at : ℕ) → in_spans cover at ≡ list_any (updates_byte at) tokens.now) }
{
    let mut cover = SpanSet::new(alloc);
    for token in tokens {
        add_span(&mut cover, token)?;
    }
    Ok(cover)
}

/// The dirty positions of a file that only tokens cover which leave, as spans. The only error is that memory ran out.
pub(crate) fn dirty_left(
    tables: &Tables,
    fid: Fid,
    leaving: &[Token],
) -> Result<Items<Span>, NoMemory>
    ensures { IfOk result (λ spans. (at : ℕ) → in_spans spans at ≡ is_dirty_left tables.now fid leaving.now at) }
{
    let dirty = tables.dirty.spans(fid);
    if dirty.is_empty() {
        return Ok(Items::new(tables.alloc));
    }
    let cover = cover_left(tables, fid, leaving, leaving)?;
    spans_within(tables.alloc, dirty, cover.spans())
}

/// The positions that are in both of two lists of spans, as spans. The only error is that memory ran out.
pub(crate) fn spans_within(
    alloc: Global,
    spans: &[Span],
    others: &[Span],
) -> Result<Items<Span>, NoMemory>
    ensures { IfOk result (λ out. out ≡ spans_within spans.now others.now) }
{
    let mut out = Items::new(alloc);
    for span in spans {
        push_within(&mut out, *span, others)?;
    }
    Ok(out)
}

/// Whether one of some tokens has the number of another.
pub(crate) fn names(tokens: &[Token], token: &Token) -> bool
    ensures { result ≡ is_named tokens.now token.now }
{
    tokens.iter().any(|other| other.id == token.id)
}

// Adds the positions that a token is for changing.
fn add_span(cover: &mut SpanSet, token: &Token) -> Result<(), NoMemory>
    ensures { OnOk result ((at : ℕ) → in_spans cover.new at ≡ (in_spans cover.old at || updates_byte at token.now)) }
{
    match update_span(token.kind) {
        Some(span) => cover.add(span),
        None => Ok(()),
    }
}

// Takes them out.
fn cut_span(cover: &mut SpanSet, token: &Token) -> Result<(), NoMemory>
    ensures { OnOk result ((at : ℕ) →
        in_spans cover.new at ≡ (in_spans cover.old at && not (updates_byte at token.now))) }
{
    match update_span(token.kind) {
        Some(span) => cover.cut(span),
        None => Ok(()),
    }
}

// Adds the positions of a span within others at the end.
fn push_within(out: &mut Items<Span>, span: Span, others: &[Span]) -> Result<(), NoMemory>
    ensures { OnOk result (out.new ≡ out.old ++ within span others.now) }
{
    for other in others {
        if other.overlaps(span) {
            out.push(common(*other, span))?;
        }
    }
    Ok(())
}

// The positions in both of two spans that overlap.
fn common(a: Span, b: Span) -> Span
    ensures { result ≡ common a b }
{
    positions(a.from.max(b.from), a.to.min(b.to))
}
