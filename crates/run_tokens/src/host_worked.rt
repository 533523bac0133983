ghost use Rattle.std.specs.Prelude.{[], ◌∷◌};
ghost use Rattle.tree_objects.specs.Spans.{whole};
ghost use Rattle.run_tokens.specs.Worked.{client, greets, enters, fetches, takes, from_cache};
ghost use Rattle.run_tokens.specs.JournalWorked.{script};
ghost use Rattle.run_rules.specs.HostMay.{HostMay};

/// The rules admit each step of a host that greets a server, enters a fileset, asks for its root, answers a call under
/// the tokens that it gets, and answers the next call from its cache.
pub fn a_host_runs()
    ensures greets { HostMay script client [] greets }
    ensures enters { HostMay script client (greets ∷ []) enters }
    ensures asks { HostMay script client (enters ∷ greets ∷ []) (fetches whole) }
    ensures answers { HostMay script client (fetches whole ∷ enters ∷ greets ∷ []) (takes whole) }
    ensures caches { HostMay script client (takes whole ∷ fetches whole ∷ enters ∷ greets ∷ []) from_cache }
{}
