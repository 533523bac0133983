//! Each function does nothing, and what it ensures is a law.
ghost use Rattle.run_history.specs.Agreement.{DownsForget, HostsAnswerLegally, ServersStoreLegally, StoresLegally};
ghost use Rattle.run_history.specs.Changes.{ServersDecideLegally};
ghost use Rattle.run_history.specs.Coherent.{RunsAreCoherent};
ghost use Rattle.run_history.specs.Ended.{EndsSaved};
ghost use Rattle.run_history.specs.Exactly.{AnswersFromCacheExactly};
ghost use Rattle.run_history.specs.Granted.{UnsavedIsGranted};

/// In every run, after each step, restarts and grace periods included: what a host sees under a token that it holds is
/// present in the tree; what a server keeps is what the tree keeps; until a server takes a host's Down, the host's
/// unsaved bytes are exactly its dirty ones and those in its give-backs that aren't applied; what a give-back stores is
/// its host's unsaved; a Change finds nothing unsaved where it sets something, nor where it looks; and what is unsaved
/// lies inside a file that can keep it. Here the tree is that of the parts: what the steps of hosts write, and the
/// deeds of servers store, set and lose.
pub fn runs_are_coherent()
    ensures { RunsAreCoherent }
{}

/// In every run each call that a host answers has the reply of each tree that agrees with the run there, as the call
/// table says, and leaves the cells that the run has after the step. A tree agrees where it has the run's roster and
/// cells; where names lead to the filesets that the host has entered; where of the host the labels are in use that it
/// has, and no other host's are in the way of one that begins.
pub fn hosts_answer_legally()
    ensures { HostsAnswerLegally }
{}

/// In every run what a server stores of a give-back is, in each tree with the cells of the run there, unsaved and its
/// host's, below the kept length that it leaves, with a legal length; and it leaves the cells that the cause of the
/// step leaves. So does a Down that is taken.
pub fn servers_store_legally()
    ensures stores { ServersStoreLegally StoresLegally }
    ensures downs { ServersStoreLegally DownsForget }
{}

/// In every run the step of a host that begins a call answers it exactly where the host could answer it by itself,
/// from where it stands, on each well formed tree that has the cells of the run there: its tokens cover the walk and
/// the need of the call as these are on that tree. It then sends nothing, and takes and drops no token.
pub fn calls_are_answered_from_cache_exactly()
    ensures { AnswersFromCacheExactly }
{}

/// Once a run is ended nothing is unsaved at any part of any object, also not of hosts that stopped: what these hadn't
/// stored is lost by then. Here the tree is that of the parts: what the steps of hosts write, and the deeds of servers
/// store, set and lose.
pub fn an_ended_run_leaves_nothing_unsaved()
    ensures { EndsSaved }
{}

/// In every run each Change that a server writes down, of those that look at no locks and open files, has the reply of
/// each tree that agrees with what the server keeps there, and leaves of that tree what the server keeps then and the
/// cells that the doing leaves. A tree agrees that is well formed, with no fileset moved, with the server's filesets,
/// room and records; and with nothing unsaved but under granted tokens for update, when no grace period is on.
pub fn servers_decide_legally()
    ensures { ServersDecideLegally }
{}

/// In every run, before and after each doing of a server while no grace period is on, each part of its files that is
/// unsaved is under a granted token for update.
pub fn unsaved_is_granted()
    ensures { UnsavedIsGranted }
{}
