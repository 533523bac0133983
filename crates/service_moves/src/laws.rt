//! Each function does nothing, and what it ensures is a law.
ghost use Rattle.service_moves.specs.Again.{AgainChangesNothing, AgainAddsNothing, NumbersAreKept, MovesAreRepeatable};

/// Acts that were done once, each under a number of a host on a fileset, change nothing when they come again.
pub fn again_law()
    ensures whole { AgainChangesNothing }
    ensures part { AgainAddsNothing }
    ensures kept { NumbersAreKept }
{}

/// Nor does an act by which a fileset moves, where it has just been done.
pub fn repeat_law()
    ensures { MovesAreRepeatable }
{}
