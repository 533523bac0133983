ghost use Rattle.run_rules.specs.Runs.{IsRun};
ghost use Rattle.run_tokens.specs.RunWorked.{worked_journal};
ghost use Rattle.run_tokens.specs.JournalWorked.{script};

/// The rules admit a run: a host greets a server, enters a fileset, asks for its root, answers a call under the tokens
/// that it gets, and answers the next call from its cache.
pub fn a_run_is_admitted()
    ensures { IsRun script worked_journal }
{}
