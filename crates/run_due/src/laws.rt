ghost use Rattle.run_due.specs.Due.{HostsSpeak, ServersSpeak};
ghost use Rattle.run_due.specs.HostsDo.{HostsDo};
ghost use Rattle.run_due.specs.ServersDo.{ServersDo};
ghost use Rattle.run_due.specs.RunsGoOn.{RunsGoOn};
ghost use Rattle.run_due.specs.Begun.{CallsAreOfLines, EndedRunsBeginAll};

/// In a run in which what is due is done no step says nothing where something is to be said.
pub fn silence_is_refused()
    ensures hosts { HostsSpeak }
    ensures servers { ServersSpeak }
{}

/// What is due is done, and nothing is done early; and a run with a line left isn't ended.
pub fn what_is_due_is_done()
    ensures hosts { HostsDo }
    ensures servers { ServersDo }
    ensures runs { RunsGoOn }
{}

/// In every run of a host by its rules the calls that it begins are those of its lines, each once and in their order,
/// numbered from 1, and behind them those that it makes by itself at its end, each of which ends the use of a label;
/// so in an ended run all of them.
pub fn calls_are_of_lines()
    ensures so_far { CallsAreOfLines }
    ensures ended { EndedRunsBeginAll }
{}
