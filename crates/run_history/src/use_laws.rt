//! Each function does nothing, and what it ensures is a law.
ghost use Rattle.run_history.specs.Asked.{ChangesAskRightly};
ghost use Rattle.run_history.specs.Deciding.{DecisionsFindLabels, UsesDecideLegally};
ghost use Rattle.run_history.specs.UseGranted.{DecisionsAreGranted};
ghost use Rattle.run_history.specs.HostLaws.{HostsKnowLabels, HostsLeaveLabels, LabelsAreOfUses, LabelsBegin};
ghost use Rattle.run_history.specs.Meant.{ChangesAreMeant};
ghost use Rattle.run_history.specs.Names.{NamesAreKnown, NamesGoOn, NamesStartSo};
ghost use Rattle.run_history.specs.ServerLaws.{EndsAreLegal, ServersLeaveLabels};

/// At the start of a run nothing is in use, in a tree or by a host. Where the labels in use in a tree are those of the
/// run: a host that answers a call knows which of them are its own, and no other host's is in the way of one that
/// begins;
/// and after what it answers they are those of the run again.
pub fn hosts_keep_labels()
    ensures same { LabelsAreOfUses }
    ensures start { LabelsBegin }
    ensures known { HostsKnowLabels }
    ensures after { HostsLeaveLabels }
{}

/// In every run, before each Change that a server decides while no grace period is on, each part of its files that is
/// unsaved is under a granted token for update.
pub fn decisions_are_granted()
    ensures { DecisionsAreGranted }
{}

/// In every run a Change asks a server to enter a fileset that its call names at this server, whatever the call is; or
/// to decide a call that servers decide, and that names filesets of this server alone; or to move one of them.
pub fn changes_ask_rightly()
    ensures { ChangesAskRightly }
{}

/// In every run each Change that a server writes down has a call that servers decide, about filesets of this server;
/// or, where it only enters a fileset or moves one, it is refused, and each tree that agrees with what the server keeps
/// refuses it alike. Such a tree has the Change's label free, and has in use what is pinned.
pub fn changes_are_meant()
    ensures { ChangesAreMeant }
{}

/// In every run the names by which hosts have entered filesets lead to these, in each tree in which those that servers
/// have told do. They do at the start, when nothing was told, and after each step that leaves names leading on, in a
/// tree that has what each server keeps.
pub fn names_lead_on()
    ensures starts { NamesStartSo }
    ensures known { NamesAreKnown }
    ensures goes_on { NamesGoOn }
{}

/// Where the labels in use in a tree are those of the run: the end of a use that a server takes with a give-back is
/// legal, and after what the server stores and learns by the cause of its step they are those of the run again.
pub fn servers_keep_labels()
    ensures ends { EndsAreLegal }
    ensures after { ServersLeaveLabels }
{}

/// Each Change that looks at what is in use is decided legally in each tree that agrees with what the server keeps,
/// where the labels in use are those of the run; and a lock or an open that is written down has a label that is free
/// there.
pub fn servers_decide_uses()
    ensures legal { UsesDecideLegally }
    ensures free { DecisionsFindLabels }
{}
