ghost use Rattle.std.specs.Prelude.{[]};
ghost use Rattle.run_tokens.specs.JournalWorked.{script};
ghost use Rattle.hub_laws.specs.Example.{journal, turns};
ghost use Rattle.hub_laws.specs.Laws.{GivenIsBegun, IsKept, KeptIsMet, KeptIsPlanned, KeptIsSent, KeptIsSound};

/// In a run at a board whose nodes keep, each by its own turns alone, to what they are given: the message that is the
/// cause of a step was sent before, to its node; each message that a turn gives is sound; a step that passes an
/// `await` stands after one that raised the flag; and the journal keeps to the plan of its script.
pub fn what_is_kept_is_planned()
    ensures sent { KeptIsSent }
    ensures sound { KeptIsSound }
    ensures met { KeptIsMet }
    ensures planned { KeptIsPlanned }
{}

/// At a board where each turn gives what there is, each host but the setup host is told once at most that the setup
/// host has ended, no other node is told so, and then it has ended.
pub fn what_is_told_once()
    ensures { GivenIsBegun }
{}

/// A run that is kept: a host is told that the setup host has ended, and greets a server, which welcomes it.
pub fn a_run_is_kept()
    ensures { IsKept script [] turns journal }
{}
