ghost use Rattle.store_acts.specs.Laws.{PartsAreWhole};

/// A part of a fileset that moves tells of its anode whole.
pub fn part_law()
    ensures { PartsAreWhole }
{}
