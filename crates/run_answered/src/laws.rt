//! Each function does nothing, and what it ensures is a law.
ghost use Rattle.run_answered.specs.Answered.{CallsAreAnswered, CallsHaveEntries, EndedRunsLeaveNoneOpen};
ghost use Rattle.run_answered.specs.Printed.{EachLineIsTold, RunsTellReplies};

/// In every run, after each step, the history has the calls that a host has begun, each once and in their order; or all
/// of these but the last one, where that is open. Refused: a call that is written into the history twice, by two
/// servers, for two Changes, or by a server and by the host that answers it too; one that is answered and isn't
/// written; an entry with another number or another call than was begun.
pub fn calls_have_entries()
    ensures { CallsHaveEntries }
{}

/// In an ended run no host has an open call. Refused: a run that may end while a call waits at a server that ignores
/// it, since its host counts as welcome there without having greeted it.
pub fn ended_runs_leave_none_open()
    ensures { EndedRunsLeaveNoneOpen }
{}

/// In an ended run the calls of each host are those of its lines, each once and in their order, numbered from 1, and
/// then those by which the host ends what it has in use; none of these where it stops. Refused: an entry twice, or with
/// the number of the call before; a line whose call is never answered; a host that calls what no line asks for.
pub fn calls_are_answered()
    ensures { CallsAreAnswered }
{}

/// What is printed of a host in an ended run: its K-th line has the number K and the reply to the K-th of its calls,
/// and there is one for each line of the script that asks the host for a call. Refused: output that leaves a reply out,
/// tells one twice, or under another number; output that tells of the calls that no line asks for.
pub fn runs_tell_replies()
    ensures replies { RunsTellReplies }
    ensures lines { EachLineIsTold }
{}
