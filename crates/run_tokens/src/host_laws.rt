ghost use Rattle.run_tokens.specs.Evictions.{OldestGoes};
ghost use Rattle.run_tokens.specs.HostRest.{HostMayRest};

/// A host that waits for nothing may do nothing at a lapse: all rules allow it, so none is in another's way.
pub fn host_may_rest()
    ensures { HostMayRest }
{}

/// A token that the last step used isn't the one that is evicted, where another was used earlier.
pub fn the_oldest_goes()
    ensures { OldestGoes }
{}
