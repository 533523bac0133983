//! What is true of each run of hosts and servers, in one place.
#![tactic(auto)]

ghost use Rattle.run_promises.specs.Promises.{PromisesAreKept};

/// In each ended run of a sound script the history is legal on one file tree; each host's calls are answered once, in
/// the order of its lines, and each has its line in what is printed; flags are met; calls are answered from cache just
/// where tokens cover them, and tokens leave hosts with cause; no two hosts that haven't stopped hold conflicting
/// tokens; what is printed of filesets shows the tree that the history leaves, from which another run may start.
pub fn promises_law()
    ensures { PromisesAreKept }
{}
