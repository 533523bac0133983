ghost use Rattle.std.specs.Prelude.{◌≡◌, ◌<◌, ◌≤◌, ◌++◌, ◌==◌, List, true, nat_eq, IfOk};
ghost use Rattle.std.specs.List.{list_all};
ghost use Rattle.tree_objects.specs.declared.content.Unsaved.{Unsaved};
ghost use Rattle.tree_objects.specs.Spans.{span_between};
ghost use Rattle.tree_objects.specs.Stores.{own_length_of};
ghost use Rattle.tree_objects.specs.Losses.{spans_of, spans_from, own_bytes, own_spans};
ghost use Rattle.tree_objects.specs.Stretches.{bytes_of, all_bytes, is_stretch};

use crate::content::{Content, Object};
use crate::stretch::Stretch;
use base_types::{FILE_BYTES_MAX, HostId, Items, NoMemory, Span};
use std::alloc::Global;

impl Object {
    /// The spans in which a host's unsaved bytes of a file stand together; none in a directory.
    pub fn own_spans(&self, host: HostId) -> Result<Items<Span>, NoMemory>
        ensures { IfOk result (λ spans. spans ≡ own_spans host self.now.content) }
    {
        match &self.content {
            Content::Dir { entries, lists: _ } => Ok(Items::new(entries.alloc())),
            Content::File {
                list: _,
                kept,
                unsaved,
                length: _,
            } => own_spans(kept.alloc(), unsaved.stretches(), host),
        }
    }

    /// The unsaved length in bytes of a file, where it is the host's.
    pub fn own_length(&self, host: HostId) -> Option<u32>
        ensures { result ≡ own_length_of host self.now.content }
    {
        self.content.own_length(host)
    }
}

// The spans in which the unsaved bytes of a host stand together.
fn own_spans(alloc: Global, stretches: &[Stretch], host: HostId) -> Result<Items<Span>, NoMemory>
    requires { list_all is_stretch stretches.now ≡ true }
    ensures { IfOk result (λ spans. spans ≡ spans_of (own_bytes host (all_bytes stretches.now))) }
{
    let mut spans = Items::new(alloc);
    let mut last = Running { from: 0, to: 0 };
    for stretch in stretches {
        if stretch.writer == host {
            last = joined(&mut spans, last, stretch)?;
        }
    }
    if last.from < last.to {
        spans.push(span_between(last.from, last.to))?;
    }
    Ok(spans)
}

/// The last span so far, which further bytes may make longer; of no bytes it is empty.
#[derive(Clone, Copy)]
struct Running {
    from: u64,
    to: u64,
}

// The last span after one more stretch; one that is complete is added to the others.
#[tactic(auto, using(crate::proofs::Pieces::some_of, crate::proofs::Pieces::within_of))]
fn joined(spans: &mut Items<Span>, last: Running, stretch: &Stretch) -> Result<Running, NoMemory>
    requires ordered { last.from ≤ last.to }
    requires stretch { is_stretch stretch.now ≡ true }
    ensures spans { (rest : List Unsaved) → IfOk result (λ next. spans.new ++ spans_from next.from next.to rest
        ≡ spans.old ++ spans_from last.from last.to (bytes_of stretch.now ++ rest)) }
    ensures more { IfOk result (λ next. next.from < next.to) }
{
    let from = u64::from(stretch.from);
    let to = from + stretch.bytes.len() as u64;
    if from == last.to {
        return Ok(Running {
            from: last.from,
            to,
        });
    }
    if last.from < last.to {
        spans.push(span_between(last.from, last.to))?;
    }
    Ok(Running { from, to })
}

/// The bytes from `from` on and before `to`, none of them behind the last byte that a file can have.
pub fn span_between(from: u64, to: u64) -> Span
    ensures { result ≡ span_between from to }
{
    let to = to.min(FILE_BYTES_MAX as u64);
    Span {
        from: from.min(to) as u32,
        to: to as u32,
    }
}
