//! Each function does nothing, and what it ensures is a law.
ghost use Rattle.service_starts.specs.Laws.{FilesetsAreOnce, SettlesOnce, WorkedFits};

/// Which disks fit, and what is settled of them, by example.
pub fn worked_law()
    ensures { WorkedFits }
{}

/// Where disks fit, each fileset is at one server, with no fewer moves than any slot tells of.
pub fn once_law()
    ensures { FilesetsAreOnce }
{}

/// Unfinished moves are settled once: then nothing more is to be settled, and the tree that a run starts from is the
/// same.
pub fn settled_law()
    ensures { SettlesOnce }
{}
