//! Each function does nothing, and what it ensures is a law.
ghost use Rattle.store_laws.specs.Calls.{FoundsAreKept, RowsAreKept};
ghost use Rattle.store_laws.specs.Exact.{StoresKeepExactly};
ghost use Rattle.store_laws.specs.KeptGives.{WritesAreKept};
ghost use Rattle.store_laws.specs.Idle.{IdlesAreKept};
ghost use Rattle.store_laws.specs.KeptMoves.{MovesAreKept};

/// A store that keeps its part of a well formed tree has exactly the filesets of its server, and the records of those
/// that moved away from there; it has the server's room for further ones. Where each server's store does, nothing in
/// the tree is unsaved. A new store keeps its part of a new tree.
pub fn keep_law()
    ensures { StoresKeepExactly }
{}

/// Where nothing is unsaved, an entry that tells, is refused, stores, or is about what is in use or who is down leaves
/// all that servers keep, and each store keeps its part of the tree as it is.
pub fn idle_law()
    ensures { IdlesAreKept }
{}

/// A call that one fileset decides, and that is accepted, is done by the store of the fileset's server under a number
/// that is new: it keeps its part of the next tree then. Each other store keeps its part as it is.
pub fn row_kept_law()
    ensures { RowsAreKept }
{}

/// A new fileset, or a clone, that is accepted comes about in the store of its server under a number that is new: it
/// keeps its part of the next tree then. Each other store keeps its part as it is.
pub fn found_kept_law()
    ensures { FoundsAreKept }
{}

/// A host that writes, and then stores what it wrote, gives the bytes that readers see there to the store of the file's
/// server under a number that is new: it keeps its part of the tree then. Each other store keeps its part as it is.
pub fn give_kept_law()
    ensures { WritesAreKept }
{}

/// A fileset that moves leaves the store of its server by `Leave` and `Left`, and comes to that of the other one, which
/// has room for it, by all its parts: both keep their part of the tree then. Each other store keeps its part as it is.
pub fn move_kept_law()
    ensures { MovesAreKept }
{}
