//! What keeps apart what hosts have unsaved: each function does nothing, and what it ensures is a law.
ghost use Rattle.tree_saving.specs.Laws.{StaysApart, StaysSaved, SavedIsAtRest, StartsWithout, RosterStays};

/// What each file has unsaved stays one host's, where others' changes are stored before a host writes.
pub fn apart_law()
    ensures { StaysApart }
{}

/// A host that has saved all has so until it writes.
pub fn saved_law()
    ensures { StaysSaved }
{}

/// Where each host has saved all, nothing is unsaved; so it is in a new tree.
pub fn rest_law()
    ensures rest { SavedIsAtRest }
    ensures start { StartsWithout }
{}

/// No entry changes the roster.
pub fn roster_law()
    ensures { RosterStays }
{}
