//! What ties a history of the file tree to the stores of servers.
ghost use Rattle.store_laws.specs.Boots.{BootsAreKept};
ghost use Rattle.store_laws.specs.HistoryLaws.{HistoriesAreKept};

/// The store of each server follows a history in which no fileset moves: it does the acts that the history gives it,
/// each now and with success, and keeps its part of the tree then.
pub fn history_law()
    ensures { HistoriesAreKept }
{}

/// A store that keeps its part of a tree keeps it when a run begins, when its server starts anew, and when something
/// is learned of a host. Once a run has begun, what it kept of requests is forgotten, so each number is new, from 1 on.
pub fn boot_law()
    ensures { BootsAreKept }
{}
