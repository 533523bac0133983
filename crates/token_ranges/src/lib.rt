//! Sets of positions in a file, kept as spans.
#![tactic(auto)]

mod span_set;

pub use span_set::SpanSet;
