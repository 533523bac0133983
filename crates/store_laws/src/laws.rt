//! Each function does nothing, and what it ensures is a law.
ghost use Rattle.store_laws.specs.Founds.{StoresFoundAsTrees, StoresLeaveAsTrees};
ghost use Rattle.store_laws.specs.Gives.{GivesAreStores};
ghost use Rattle.store_laws.specs.Moves.{ArrivesAsMoved};
ghost use Rattle.store_laws.specs.Rows.{StoresAnswerAsTrees, UnusedAnswersAlike};

/// A call on a fileset does to it in a store what it does to it in a tree, with the same reply, where nothing of the
/// fileset is locked or open.
pub fn row_law()
    ensures rows { StoresAnswerAsTrees }
    ensures unused { UnusedAnswersAlike }
{}

/// A new fileset, and a clone, come about in a store and in a tree or are refused alike by both, where a server has the
/// same room in them.
pub fn found_law()
    ensures { StoresFoundAsTrees }
{}

/// A host that gives back the bytes of some spans of a file, and a length, leaves in a store the bytes that are kept in
/// a tree once it has stored these spans and this length.
pub fn give_law()
    ensures { GivesAreStores }
{}

/// A fileset that left a server and arrived at another one, part by part, is there just what the tree's move makes of
/// it.
pub fn move_law()
    ensures { ArrivesAsMoved }
{}

/// A fileset that has left keeps its name from others, and its room no more, as a tree's record of it.
pub fn left_law()
    ensures { StoresLeaveAsTrees }
{}
