//! What makes the definitions of trees believable: each function does nothing, and what it ensures is a law.
ghost use Rattle.tree_answers.specs.Laws.{RefusedChangesNothing, StartsWellFormed, StaysWellFormed, ClonesStay};
ghost use Rattle.tree_answers.specs.MoveLaws.{FilesetsAreOnce, MovesAreWhole, MovesCount};
ghost use Rattle.tree_answers.specs.Worked.{WorkedReplies};

/// A refused call changes nothing.
pub fn refusal_law()
    ensures { RefusedChangesNothing }
{}

/// The tree of a roster is well formed, and a well formed tree stays so under each legal entry. A roster and a new
/// fileset keep the limits of the service.
pub fn well_formed_law()
    ensures start { StartsWellFormed }
    ensures entry { StaysWellFormed }
{}

/// A clone shows what its source showed, and no later entry changes it.
pub fn clone_law()
    ensures { ClonesStay }
{}

/// What small trees reply to some calls, and what is lost of one: each by computing the definitions.
pub fn worked_law()
    ensures { WorkedReplies }
{}

/// A fileset is at one server, whatever the history. A move takes it to another server whole, so that its name still
/// leads to it there, and leaves all others; its number of moves rises by one at a move, and never falls. What a
/// fileset that moved shows is told by the laws of `tree_filesets`.
pub fn move_law()
    ensures once { FilesetsAreOnce }
    ensures whole { MovesAreWhole }
    ensures count { MovesCount }
{}
