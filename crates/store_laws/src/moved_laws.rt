//! What ties a history of the file tree, also one in which filesets move, to the stores of all servers.
ghost use Rattle.store_laws.specs.MovedLaws.{HistoriesSplit, MovesGoOver, PiecesAreKept};

/// Where no fileset moves, the stores of all servers do their acts of a history, and keep the tree where it ends.
pub fn piece_law()
    ensures { PiecesAreKept }
{}

/// A history that may happen moves nothing, or can be cut at its first move: what comes before moves nothing, directly
/// behind the move the server that the fileset left learns that it has arrived, and what follows may happen then.
pub fn split_law()
    ensures { HistoriesSplit }
{}

/// A move goes over the stores of two servers: that of the fileset's server does `Leave`, that of the other one takes
/// all parts, and then the first does `Left`. Each act fits the store that does it, and in the end the stores of all
/// servers keep the tree behind the move.
pub fn moved_law()
    ensures { MovesGoOver }
{}
