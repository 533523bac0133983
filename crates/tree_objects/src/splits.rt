//! How stretches are split, as a host stores some of their bytes.
ghost use Rattle.std.specs.Prelude.{◌≡◌, ◌+◌, ◌-◌, ◌≤◌, ◌<◌, ◌++◌, ◌==◌, ◌&&◌, ℕ, nat_lt, not, if◌then◌else◌, true};
ghost use Rattle.std.specs.Prelude.{take, drop, length, filter, IfOk, OnOk};
ghost use Rattle.std.specs.List.{find, list_all};
ghost use Rattle.base_types.specs.Spans.{has_byte, in_spans};
ghost use Rattle.base_types.specs.declared.limits.TheConstants.{FILE_BYTES_MAX};
ghost use Rattle.tree_objects.specs.Cuts.{next_of};
ghost use Rattle.tree_objects.specs.Positions.{written};
ghost use Rattle.tree_objects.specs.Stores.{is_stored};
ghost use Rattle.tree_objects.specs.Stretches.{bytes_of, all_bytes, is_stretch};

use crate::stretch::{Stretch, push_part};
use base_types::{FILE_BYTES_MAX, HostId, NoMemory, Span};
use std::alloc::Global;

/// The stretches that become kept, and those that don't.
pub(crate) fn split_stored(
    alloc: Global,
    stretches: &[Stretch],
    host: HostId,
    spans: &[Span],
    end: usize,
) -> Result<(Vec<Stretch>, Vec<Stretch>), NoMemory>
    requires { list_all is_stretch stretches.now ≡ true }
    ensures stored { IfOk result
        (λ both. all_bytes both.0.items ≡ filter (is_stored host spans.now end) (all_bytes stretches.now)) }
    ensures left { IfOk result (λ both. all_bytes both.1.items
        ≡ filter (λ byte. not (is_stored host spans.now end byte)) (all_bytes stretches.now)) }
    ensures each { IfOk result (λ both. list_all is_stretch both.1.items ≡ true) }
{
    let mut stored = Vec::new(alloc);
    let mut left = Vec::new(alloc);
    let mut near = 0;
    for stretch in stretches {
        near = split_one(&mut stored, &mut left, stretch, host, spans, near, end)?;
    }
    Ok((stored, left))
}

// Adds the parts of a stretch that become kept, and those that don't. The search for the spans begins at the place
// `near` among them; the result is the place at which that of the next stretch may begin.
fn split_one(
    stored: &mut Vec<Stretch>,
    left: &mut Vec<Stretch>,
    stretch: &Stretch,
    host: HostId,
    spans: &[Span],
    near: usize,
    end: usize,
) -> Result<usize, NoMemory>
    requires near { near ≤ length spans.now }
    requires stretch { is_stretch stretch.now ≡ true }
    ensures near { IfOk result (λ near. near ≤ length spans.now) }
    ensures stored { OnOk result (all_bytes stored.new.items
        ≡ all_bytes stored.old.items ++ filter (is_stored host spans.now end) (bytes_of stretch.now)) }
    ensures left { OnOk result (all_bytes left.new.items
        ≡ all_bytes left.old.items ++ filter (λ byte. not (is_stored host spans.now end byte)) (bytes_of stretch.now)) }
    ensures each { OnOk result (list_all is_stretch left.old.items ≡ true → list_all is_stretch left.new.items ≡ true) }
{
    let count = stretch.bytes.len();
    let limit = limit_of(stretch, host, end);
    let mut near = near;
    let mut done = 0;
    while done < count {
        let part = part_at(spans, near, limit, stretch.from as usize + done);
        let next = (part.to - stretch.from as usize).min(count);
        push_either(stored, left, stretch, done, next, part.stored)?;
        near = part.near;
        done = next;
    }
    Ok(near)
}

// Adds a part of a stretch to those that become kept, or to those that don't.
fn push_either(
    stored: &mut Vec<Stretch>,
    left: &mut Vec<Stretch>,
    stretch: &Stretch,
    from: usize,
    to: usize,
    is_stored: bool,
) -> Result<(), NoMemory>
    requires ordered { from ≤ to }
    requires within { to ≤ length stretch.now.bytes }
    requires stretch { is_stretch stretch.now ≡ true }
    ensures stored { OnOk result (all_bytes stored.new.items ≡ if is_stored then all_bytes stored.old.items
        ++ written stretch.now.writer (stretch.now.from + from) (take (to - from) (drop from stretch.now.bytes))
        else all_bytes stored.old.items) }
    ensures left { OnOk result (all_bytes left.new.items ≡ if not is_stored then all_bytes left.old.items
        ++ written stretch.now.writer (stretch.now.from + from) (take (to - from) (drop from stretch.now.bytes))
        else all_bytes left.old.items) }
    ensures each { OnOk result (list_all is_stretch left.old.items ≡ true → list_all is_stretch left.new.items ≡ true) }
{
    if is_stored {
        push_part(stored, stretch, from, to)
    } else {
        push_part(left, stretch, from, to)
    }
}

/// Positions before `to`, the bytes at which all become kept, or none.
#[derive(Clone, Copy)]
struct Part {
    stored: bool,
    to: usize,
    // Where among the spans the search for the next part may begin.
    near: usize,
}

// Below which position the bytes of a stretch become kept, as a host stores.
fn limit_of(stretch: &Stretch, host: HostId, end: usize) -> usize
    ensures { result ≡ if stretch.now.writer.0 == host.0 then end else 0 }
{
    if stretch.writer == host { end } else { 0 }
}

// The part from a position on, as spans are stored below `end`. The search begins at the place `near`.
#[tactic(auto, using(crate::proofs::Stored::past_stored))]
fn part_at(spans: &[Span], near: usize, end: usize, at: usize) -> Part
    requires within { at < FILE_BYTES_MAX }
    requires near { near ≤ length spans.now }
    ensures more { at < result.to }
    ensures alike { (place : ℕ) → at ≤ place → place < result.to
        → (nat_lt place end && in_spans spans.now place) ≡ result.stored }
    ensures near { result.near ≤ length spans.now }
{
    if at < end {
        part_below(spans, near, end, at)
    } else {
        Part {
            stored: false,
            to: FILE_BYTES_MAX as usize,
            near,
        }
    }
}

fn part_below(spans: &[Span], near: usize, end: usize, at: usize) -> Part
    requires within { at < FILE_BYTES_MAX }
    requires near { near ≤ length spans.now }
    requires below { at < end }
    ensures more { at < result.to }
    ensures alike { (place : ℕ) → at ≤ place → place < result.to
        → (nat_lt place end && in_spans spans.now place) ≡ result.stored }
    ensures near { result.near ≤ length spans.now }
{
    let near = reaching(spans, near, at);
    match spans.get(near) {
        Some(span) if has(span, at) => Part {
            stored: true,
            to: end.min(span.to as usize),
            near,
        },
        _ => part_sought(spans, near, end, at),
    }
}

// The first place from `near` on at which a span ends behind a position.
fn reaching(spans: &[Span], near: usize, at: usize) -> usize
    requires { near ≤ length spans.now }
    ensures { result ≤ length spans.now }
{
    let mut near = near;
    while near < spans.len() && spans[near].to as usize <= at {
        near += 1;
    }
    near
}

#[tactic(auto, using(crate::proofs::Stored::next_more))]
fn part_sought(spans: &[Span], near: usize, end: usize, at: usize) -> Part
    requires within { at < FILE_BYTES_MAX }
    requires near { near ≤ length spans.now }
    requires below { at < end }
    ensures more { at < result.to }
    ensures alike { (place : ℕ) → at ≤ place → place < result.to
        → (nat_lt place end && in_spans spans.now place) ≡ result.stored }
    ensures near { result.near ≤ length spans.now }
{
    match span_with(spans, at) {
        Some(span) => Part {
            stored: true,
            to: end.min(span.to as usize),
            near,
        },
        None => Part {
            stored: false,
            to: next_of(spans, at),
            near,
        },
    }
}

// The first span that has a position, where one has.
fn span_with(spans: &[Span], at: usize) -> Option<Span>
    ensures { result ≡ find (λ span. has_byte span at) spans.now }
{
    spans.iter().copied().find(|span| has(span, at))
}

fn has(span: &Span, at: usize) -> bool
    ensures { result ≡ has_byte span.now at }
{
    span.from as usize <= at && at < span.to as usize
}

// The first position behind `at` that spans begin at, and the end of the longest file where none begins there.
fn next_of(spans: &[Span], at: usize) -> usize
    ensures { result ≡ next_of spans.now at }
{
    spans.iter().fold(FILE_BYTES_MAX as usize, |next, span| {
        let from = span.from as usize;
        if at < from { next.min(from) } else { next }
    })
}
