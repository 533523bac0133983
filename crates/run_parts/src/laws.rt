ghost use Rattle.run_parts.specs.Laws.{StepsAreTheirDoings};

/// After its doings, one after the other, a server has come to where its step brings it.
pub fn a_step_is_its_doings()
    ensures { StepsAreTheirDoings }
{}
