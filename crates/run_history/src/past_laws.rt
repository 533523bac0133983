//! Each function does nothing, and what it ensures is a law.
ghost use Rattle.run_history.specs.PastEnded.{EndedRunsMayBeFollowed};
ghost use Rattle.run_history.specs.Idle.{AnswersLeaveIdle, IdleHostsHaveLabels, LabelsAreTheRuns};
ghost use Rattle.run_history.specs.Passing.{HostPasses, InEachStep, ServerPasses, StartsStand};
ghost use Rattle.run_history.specs.Past.{
  CachesAreExact,
  HistoriesMakeTheTree,
  JournalsAreLegal,
  RunsAreLegal,
  ServersKeepTheTree,
};
ghost use Rattle.run_history.specs.Worked.{IsCarried};

/// In every run the start tree agrees with the run; and each step passes a tree on that agrees with the run before it:
/// what the step adds to the history is legal there, and the tree after it agrees with the run after the step. A tree
/// agrees that is well formed, with the run's roster and parts, kept and unsaved, with each fileset where it was made,
/// and of which each server keeps just what is kept of it; its labels in use are those of the run, and names lead to
/// the filesets that hosts were told. Of a server's step this is said where each Change that it writes down is legal.
pub fn steps_pass_the_tree_on()
    ensures start { StartsStand }
    ensures hosts { InEachStep HostPasses }
    ensures servers { InEachStep ServerPasses }
{}

/// The history of every run is legal: one after the other, each call that a host answered, each Change that a server
/// wrote down and each call that a give-back ended has the reply that the file tree gives there, and what a server
/// stored of a give-back may be stored. So it is with the history of its journal, of which the output is made. After
/// each step the tree that this history makes is well formed; its parts are those of the run, kept and unsaved; of each
/// server's files it keeps just what the server keeps; and its locks and open files are those under the labels that the
/// hosts of the run have in use. So at the end each server keeps of that tree its own filesets, and nothing else.
pub fn every_past_is_legal()
    ensures legal { RunsAreLegal }
    ensures journal { JournalsAreLegal }
    ensures tree { HistoriesMakeTheTree }
    ensures servers { ServersKeepTheTree }
{}

/// In every run the step of a host that begins a call answers it exactly where the host's tokens cover the walk and
/// the need of the call as these are on the tree of the history so far; it then sends nothing, and takes and drops no
/// token.
pub fn caches_are_exact()
    ensures { CachesAreExact }
{}

/// Once a run is ended, the tree that its history makes is one from which another run with the same roster may start:
/// it is well formed, nothing in it is unsaved, no lock and no open file is in use, and each fileset is where it was
/// made and never moved.
pub fn an_ended_run_may_be_followed()
    ensures { EndedRunsMayBeFollowed }
{}

/// The laws on every run's history, of the run of `run_examples`: no step of it is computed here. Its history is legal,
/// its tree is at each time that of the run, the calls in it that are answered from cache are just those that tokens
/// cover, and another run may start from the tree that it leaves.
pub fn the_worked_past_is_legal()
    ensures { IsCarried }
{}

/// In every run, from the start on and after each step: each label that a host has in use is one that the run has
/// locked in the tree, until the host stops; and each that is locked there its host has in use, or the host's open
/// call is the one that ends it. So where no call of a host is open that hasn't stopped, its locks and open files in
/// the tree of the history are just those under the labels that it has in use. After each answer of a host it is so.
pub fn hosts_have_their_labels()
    ensures labels { LabelsAreTheRuns }
    ensures tree { IdleHostsHaveLabels }
    ensures idle { AnswersLeaveIdle }
{}
