//! Parts of a list of stretches.
ghost use Rattle.std.specs.Prelude.{◌≡◌, ◌≤◌, nat_lt, nat_le, min, max, true, take, drop, length, OnOk, OnErr};
ghost use Rattle.std.specs.List.{list_all, splice};
ghost use Rattle.tree_objects.specs.Cuts.{IsCut, first_of, end_of};
ghost use Rattle.tree_objects.specs.Stretches.{all_bytes, are_stretches};

use crate::stretch::{Stretch, end};
use base_types::{Items, NoMemory, Span};
use std::mem;

/// A part of a list: the places from `from` on and before `to`.
#[derive(Clone, Copy)]
pub(crate) struct Cut {
    pub from: usize,
    pub to: usize,
}

// How many of the stretches end at a position or before it.
fn count_ended(stretches: &[Stretch], at: usize) -> usize
    requires { are_stretches stretches.now ≡ true }
    ensures within { result ≤ length stretches.now }
    ensures below { list_all (λ byte. nat_lt byte.at at) (all_bytes (take result stretches.now)) ≡ true }
{
    stretches.partition_point(|stretch| end(stretch) <= at)
}

// How many of the stretches begin below a position.
fn count_begun(stretches: &[Stretch], at: usize) -> usize
    requires { are_stretches stretches.now ≡ true }
    ensures within { result ≤ length stretches.now }
    ensures above { list_all (λ byte. nat_le at byte.at) (all_bytes (drop result stretches.now)) ≡ true }
{
    stretches.partition_point(|stretch| (stretch.from as usize) < at)
}

/// A part of the stretches in which all bytes of a span stand.
pub(crate) fn cut_at(stretches: &[Stretch], from: usize, to: usize) -> Cut
    requires { are_stretches stretches.now ≡ true }
    ensures { IsCut stretches.now from to result.from result.to }
{
    let first = count_ended(stretches, from);
    Cut {
        from: first,
        to: count_begun(stretches, to).max(first),
    }
}

/// A part of the stretches in which all bytes stand that lie between the first position and the last one of spans,
/// below `end`.
pub(crate) fn cut_of(stretches: &[Stretch], spans: &[Span], end: usize) -> Cut
    requires { are_stretches stretches.now ≡ true }
    ensures { IsCut stretches.now (first_of spans.now end)
        (max (min (end_of spans.now) end) (first_of spans.now end)) result.from result.to }
{
    let from = first_of(spans, end);
    let to = end_of(spans).min(end).max(from);
    cut_at(stretches, from, to)
}

// The first position that spans begin at, and `end` where none begins before it.
fn first_of(spans: &[Span], end: usize) -> usize
    ensures { result ≡ first_of spans.now end }
{
    spans
        .iter()
        .fold(end, |from, span| from.min(span.from as usize))
}

// The last position that spans end before, and 0 of none.
fn end_of(spans: &[Span]) -> usize
    ensures { result ≡ end_of spans.now }
{
    spans.iter().fold(0, |to, span| to.max(span.to as usize))
}

/// Puts these stretches in the place of a part of the list.
pub(crate) fn put_between(
    stretches: &mut Items<Stretch>,
    cut: Cut,
    written: Vec<Stretch>,
) -> Result<(), NoMemory>
    requires ordered { cut.from ≤ cut.to }
    requires within { cut.to ≤ length stretches.old }
    ensures ok { OnOk result (stretches.new ≡ splice stretches.old cut.from cut.to written.items) }
    ensures err { OnErr result (stretches.new ≡ stretches.old) }
{
    let alloc = stretches.alloc();
    let mut list = mem::replace(stretches, Items::new(alloc)).into_vec();
    let put = put_in(&mut list, cut, written);
    *stretches = Items::from_vec(list);
    put
}

fn put_in(list: &mut Vec<Stretch>, cut: Cut, mut written: Vec<Stretch>) -> Result<(), NoMemory>
    requires ordered { cut.from ≤ cut.to }
    requires within { cut.to ≤ length list.old.items }
    ensures ok { OnOk result (list.new.items ≡ splice list.old.items cut.from cut.to written.items) }
    ensures err { OnErr result (list.new.items ≡ list.old.items) }
{
    list.reserve(written.len())?;
    let mut behind = list.split_off(cut.to)?;
    list.truncate(cut.from);
    let Ok(()) = list.append(&mut written) else {
        unreachable!();
    };
    let Ok(()) = list.append(&mut behind) else {
        unreachable!();
    };
    Ok(())
}
