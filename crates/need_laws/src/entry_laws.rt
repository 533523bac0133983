//! Each function does nothing, and what it ensures is a law.
ghost use Rattle.need_laws.specs.Keeps.{CallsKeepAll, CallsLeaveOthers, DownsKeepAll};

/// A call that a host answers by itself, and that changes no kept part, changes nothing that servers keep: it writes
/// what is unsaved, or what is in use. Nor does a Down.
pub fn keep_law()
    ensures calls { CallsKeepAll }
    ensures downs { DownsKeepAll }
{}

/// Where no fileset has moved, a call at a server leaves each part of the files of any other server.
pub fn stay_law()
    ensures { CallsLeaveOthers }
{}
