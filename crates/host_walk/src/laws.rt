ghost use Rattle.host_walk.specs.WalkLaws.{AllMarksAreNeeds};

/// What is marked of a walk is what it needs, and at its end the further needs, where it gets there.
pub fn walk_law()
    ensures { AllMarksAreNeeds }
{}
