//! Each function does nothing, and what it ensures is a law.
ghost use Rattle.service_starts.specs.Kept.{NewStoresStart, StartsAreKept};
ghost use Rattle.service_starts.specs.Settles.{StoresSettle};
ghost use Rattle.service_starts.specs.Starts.{TreesStart};

/// A script can be run from the tree that is made of stores whose disks fit one another.
pub fn start_law()
    ensures { TreesStart }
{}

/// A store that has settled what it had to tells just what is told once the unfinished moves are settled.
pub fn settle_law()
    ensures { StoresSettle }
{}

/// Where the moves are settled, each store keeps its part of the tree that is made of all of them.
pub fn tie_law()
    ensures { StartsAreKept }
{}

/// The tree that is made of new stores is the new tree.
pub fn new_law()
    ensures { NewStoresStart }
{}
