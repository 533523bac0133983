ghost use Rattle.run_goes_on.specs.Ended.{EndedRunsRest, NoCallsAreOpen, NoWantsWait, RequestsStandAsWants, RunsEnd};
ghost use Rattle.run_goes_on.specs.Resting.{HostsAreDone, HostsComeToTheirEnd, OpenCallsStandAtServers};
ghost use Rattle.run_goes_on.specs.Waiting.{ByesAreAnswered, ClaimsAreAnswered, GivesAreKnown, GreetingsAreAnswered};
ghost use Rattle.run_goes_on.specs.Waiting.{NoGracePeriodStands, NothingIsOwed, OpenCallsAwaitAnswers};
ghost use Rattle.run_goes_on.specs.Waiting.{WhatWaitsHasCome};
ghost use Rattle.run_goes_on.specs.Worked.{RestsWhole};

/// After each step of a run a host that has an open call, and hasn't stopped, awaits an answer: a message of it is
/// outstanding, which each lapse sends again. Refused: a call that waits for nothing.
pub fn open_calls_await_answers()
    ensures { OpenCallsAwaitAnswers }
{}

/// Where all that was sent is over, each message of a host that is outstanding at a server has come there. Refused: a
/// request that is lost, and that no lapse sends again; one that is outstanding and was sent to another server.
pub fn what_waits_has_come()
    ensures { WhatWaitsHasCome }
{}

/// And each give-back that a host has made is known to it as applied, over losses and restarts. Refused: a give-back
/// that comes to a server of a later epoch and isn't sent again; a Gone that is lost and never said again; a host that
/// isn't told of a restart.
pub fn gives_are_known()
    ensures { GivesAreKnown }
{}

/// Nor does a claim wait for its answer, at a server where its host hasn't gone away. Refused: a claim that waits for a
/// give-back which isn't sent again; one that isn't answered once its give-backs were taken; an answer that is lost.
pub fn claims_are_answered()
    ensures { ClaimsAreAnswered }
{}

/// Nor a greeting. Refused: a Hello of a live host of an older epoch that isn't answered by Restarted.
pub fn greetings_are_answered()
    ensures { GreetingsAreAnswered }
{}

/// Nor a Bye. Refused: a Bye of an older epoch that a server passes over; one that isn't said again once the host has
/// claimed in the new epoch; one to a server that hasn't welcomed the host yet.
pub fn byes_are_answered()
    ensures { ByesAreAnswered }
{}

/// So no server is in a grace period: each host on its list has reclaimed in its epoch, or has gone away. Refused: a
/// live host of an older epoch that is welcomed without a claim; a restart that isn't told, or not told again where
/// that is lost; a stop that a server doesn't hear of.
pub fn no_grace_period_stands()
    ensures { NoGracePeriodStands }
{}

/// And no server waits for a token that it asked back. Refused: a Revoke that is lost and not said again; one that a
/// host doesn't answer; an answer that is lost, for which nobody asks again.
pub fn nothing_is_owed()
    ensures { NothingIsOwed }
{}

/// So each open call stands at a server: its greeting or its request is outstanding there, and has come. Refused: a
/// call that waits for a give-back for ever.
pub fn open_calls_stand_at_servers()
    ensures { OpenCallsStandAtServers }
{}

/// In a run that rests, in which no line awaits a flag, each host without an open call comes to its end, once the setup
/// host is done: its lines have gone, it has no label and no token any more, and it has said its Byes. Refused: an end
/// that waits for a give-back; a host that stays with a token, or greets and doesn't leave.
pub fn hosts_come_to_their_end()
    ensures { HostsComeToTheirEnd }
{}

/// And each server that it greeted has said Bye to it: it is done. Refused: a server that doesn't answer a Bye.
pub fn hosts_are_done()
    ensures { HostsAreDone }
{}

/// Where all that was sent is over, a request that is outstanding isn't without its want at its server. Refused: a
/// request that is passed over; an answer that is lost, and isn't asked for again; a want that a restart forgets, and
/// that isn't asked for anew; a repeated Change that is neither decided nor answered.
pub fn requests_stand_as_wants()
    ensures { RequestsStandAsWants }
{}

/// In a run that rests, in which no move of a fileset waits, no want waits: each token in the way of the first one came
/// back, or is pinned. Refused: a token in the way that isn't asked back; wants that wait for one another.
pub fn no_wants_wait()
    ensures { NoWantsWait }
{}

/// So no host has an open call there, but one that has stopped. Refused: a request that is meant so that no server
/// answers it.
pub fn no_calls_are_open()
    ensures { NoCallsAreOpen }
{}

/// So a run in which nothing more can happen is ended: each host is done, each server's lines have gone, and each host
/// that a server knows is away; where no held message and no line waits for a flag that isn't raised, and no move of a
/// fileset waits. Refused: a late Bye of a live host that is answered by Bye; a stop of which a server doesn't hear.
pub fn runs_end()
    ensures { RunsEnd }
{}

/// And the other way round: where a run is ended, and what its servers wrote down is on their disks, it rests, no line
/// awaits a flag, and no move waits. Refused: a rest that no ended run comes to.
pub fn ended_runs_rest()
    ensures { EndedRunsRest }
{}

/// All that these laws ask for is so of a run of two hosts, from its first step to its end, over a restart. Refused: a
/// premise that no run meets.
pub fn a_run_rests()
    ensures { RestsWhole }
{}
