ghost use Rattle.std.specs.Prelude.{◌≡◌, ◌↔◌, ◌<◌, ◌≤◌, ◌&&◌, min, max, length, nat_le, IsTrue, [], OnOk, OnErr, IfOk};
ghost use Rattle.base_types.specs.declared.limits.TheConstants.{FILE_BYTES_MAX};
ghost use Rattle.token_ranges.specs.Joints.{with_joint};
ghost use Rattle.token_ranges.specs.Positions.{IsApart, Joins, Leaves, Misses, HasAll, StaysApart, AddsBetween};
ghost use Rattle.std.specs.List.{list_any};

use base_types::{Items, NoMemory, Plain, Span};
use std::alloc::Global;
use std::marker::Model;

/// A set of positions in a file, in bytes. Contracts see it as its spans: they are in order, none is empty, and between
/// two of them some position is missing.
#[derive(Drop)]
pub struct SpanSet {
    spans: Items<Span>,
}

impl Model for SpanSet {
    ghost use Rattle.std.specs.Prelude.{List};
    ghost use Rattle.base_types.specs.declared.span.Span.{Span};
    ghost use Rattle.token_ranges.specs.Positions.{IsApart};

    ghost Value = { List Span };

    ghost view = { λ s. s.spans };

    ghost invariant = { λ s. IsApart s.spans };
}

impl SpanSet {
    /// The empty set. It takes no memory.
    pub fn new(alloc: Global) -> SpanSet
        ensures { result ≡ [] }
    {
        SpanSet {
            spans: Items::new(alloc),
        }
    }

    /// The spans, in order. It takes no memory.
    pub fn spans(&self) -> &[Span]
        ensures value { result.now ≡ self.now }
        ensures apart { IsApart self.now }
    {
        self.spans.as_slice()
    }

    /// Adds the positions of a span. On an error the set is as before.
    #[tactic(auto, unfolding(crate::specs::Positions::Joins))]
    pub fn add(&mut self, span: Span) -> Result<(), NoMemory>
        ensures ok { OnOk result (Joins self.old span self.new) }
        ensures err { OnErr result (self.new ≡ self.old) }
    {
        if !span.is_empty() {
            let joint = joint_of(self.spans.as_slice(), span);
            put_joint(&mut self.spans, joint)?;
        }
        Ok(())
    }

    /// Takes the positions of a span out. On an error the set is as before.
    #[tactic(auto, unfolding(crate::specs::Positions::Leaves))]
    pub fn cut(&mut self, span: Span) -> Result<(), NoMemory>
        ensures ok { OnOk result (Leaves self.old span self.new) }
        ensures err { OnErr result (self.new ≡ self.old) }
    {
        if !span.is_empty() {
            self.spans = left(self.spans.as_slice(), span, self.spans.alloc())?;
        }
        Ok(())
    }

    /// Whether all positions of a span are in the set. It takes no memory.
    #[tactic(auto, unfolding(crate::specs::Positions::HasAll))]
    pub fn covers(&self, span: Span) -> bool
        ensures { IsTrue result ↔ HasAll self.now span }
    {
        span.is_empty() || has_around(self.spans.as_slice(), span)
    }

    /// The spans of those positions of a span that aren't in the set, each as long as can be, in order.
    pub fn missing(&self, span: Span) -> Result<Items<Span>, NoMemory>
        ensures { IfOk result (Misses self.now span) }
    {
        gaps(self.spans.as_slice(), span, self.spans.alloc())
    }
}

impl Plain for SpanSet {
    fn copy(&self) -> Result<SpanSet, NoMemory> {
        Ok(SpanSet {
            spans: self.spans.copy()?,
        })
    }
}

/// Whether one of the spans has all positions of another.
fn has_around(spans: &[Span], span: Span) -> bool
    ensures { result ≡ list_any (λ around. nat_le around.from span.from && nat_le span.to around.to) spans.now }
{
    spans
        .iter()
        .any(|around| around.from <= span.from && span.to <= around.to)
}

/// Where a span goes among others: in the place of those from `front` on and before `end`, as one with them.
#[derive(Clone, Copy)]
struct Joint {
    front: usize,
    end: usize,
    merged: Span,
}

/// Where a span goes among others, which isn't empty.
#[tactic(auto, unfolding(crate::specs::Positions::Joins))]
fn joint_of(spans: &[Span], span: Span) -> Joint
    requires apart { IsApart spans.now }
    requires filled { span.from < span.to }
    ensures ordered { result.front ≤ result.end }
    ensures within { result.end ≤ length spans.now }
    ensures apart { IsApart (with_joint result spans.now) }
    ensures positions { Joins spans.now span (with_joint result spans.now) }
{
    let front = spans.partition_point(|next| next.to < span.from);
    let mut merged = span;
    let mut end = front;
    while end < spans.len() && spans[end].from <= merged.to {
        merged = around(merged, spans[end]);
        end += 1;
    }
    Joint { front, end, merged }
}

/// Puts a span where it goes. It takes no memory where it is one with another, and no more than for one where it is one
/// with none.
fn put_joint(spans: &mut Items<Span>, joint: Joint) -> Result<(), NoMemory>
    requires ordered { joint.front ≤ joint.end }
    requires within { joint.end ≤ length spans.old }
    ensures ok { OnOk result (spans.new ≡ with_joint joint spans.old) }
    ensures err { OnErr result (spans.new ≡ spans.old) }
{
    if joint.end == joint.front {
        return spans.insert(joint.front, joint.merged);
    }
    if joint.end == joint.front + 1 {
        spans.set(joint.front, joint.merged);
        return Ok(());
    }
    *spans = joined(spans.as_slice(), joint, spans.alloc())?;
    Ok(())
}

/// The spans with one where it goes.
fn joined(spans: &[Span], joint: Joint, alloc: Global) -> Result<Items<Span>, NoMemory>
    requires ordered { joint.front ≤ joint.end }
    requires within { joint.end ≤ length spans.now }
    ensures { IfOk result (λ all. all ≡ with_joint joint spans.now) }
{
    let mut done = Items::from_vec(Vec::with_capacity(alloc, spans.len())?);
    done.extend(&spans[..joint.front])?;
    done.push(joint.merged)?;
    done.extend(&spans[joint.end..])?;
    Ok(done)
}

/// The span from the first position of either to the last.
fn around(a: Span, b: Span) -> Span
    ensures from { result.from ≡ min a.from b.from }
    ensures to { result.to ≡ max a.to b.to }
{
    Span {
        from: a.from.min(b.from),
        to: a.to.max(b.to),
    }
}

/// The spans without the positions of another, which isn't empty.
#[tactic(auto, unfolding(crate::specs::Positions::Leaves))]
fn left(spans: &[Span], span: Span, alloc: Global) -> Result<Items<Span>, NoMemory>
    requires apart { IsApart spans.now }
    requires filled { span.from < span.to }
    ensures apart { IfOk result IsApart }
    ensures positions { IfOk result (Leaves spans.now span) }
{
    let mut done = Items::new(alloc);
    for next in spans {
        push_between(&mut done, next.from, next.to.min(span.from))?;
        push_between(&mut done, next.from.max(span.to), next.to)?;
    }
    Ok(done)
}

/// The positions of a span that aren't in the spans.
fn gaps(spans: &[Span], span: Span, alloc: Global) -> Result<Items<Span>, NoMemory>
    requires { IsApart spans.now }
    ensures { IfOk result (Misses spans.now span) }
{
    let mut done = Items::new(alloc);
    let mut at = span.from;
    for next in spans {
        push_between(&mut done, at, next.from.min(span.to))?;
        at = at.max(next.to);
    }
    push_between(&mut done, at, span.to)?;
    Ok(done)
}

/// Adds the span between two places at the end, where it isn't empty.
fn push_between(spans: &mut Items<Span>, from: u32, to: u32) -> Result<(), NoMemory>
    requires { to ≤ FILE_BYTES_MAX }
    ensures apart { OnOk result (StaysApart spans.old from to spans.new) }
    ensures positions { OnOk result (AddsBetween spans.old from to spans.new) }
{
    if from < to {
        spans.push(Span { from, to })?;
    }
    Ok(())
}
