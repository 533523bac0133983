ghost use Rattle.host_gives.specs.GiveLaws.{Adds, TakesOut, TakesAny};

/// Laws of give-backs: what is outstanding, named and counted after one was added, and after one was taken out, the
/// outstanding one or any.
pub fn gives_law()
    ensures adds { Adds }
    ensures takes_out { TakesOut }
    ensures takes_any { TakesAny }
{}
