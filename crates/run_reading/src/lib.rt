//! The text of a journal tells the journal.
#![tactic(auto)]

ghost use Rattle.run_reading.specs.Laws.{OneTextOneJournal};

/// Two journals of programs, of which the texts are the same, are the same.
pub fn one_journal()
    ensures { OneTextOneJournal }
{}
