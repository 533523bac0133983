//! What a run of a script is for each host: each function does nothing, and what it ensures is a law.
ghost use Rattle.service_plain.specs.Laws.{CallsFollowLines, DownIsLast};

/// The calls of each host are those that its lines ask for, in their order, each once; after them come those that it
/// makes by itself to end what it has in use.
#[tactic(auto, using(crate::proofs::Each::calls_follow))]
pub fn calls_law()
    ensures { CallsFollowLines }
{}

/// A host makes no call and stores nothing after it is down: its stop is its last line.
#[tactic(auto, using(crate::proofs::Last::down_is_last))]
pub fn down_law()
    ensures { DownIsLast }
{}
