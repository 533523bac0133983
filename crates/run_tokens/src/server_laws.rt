ghost use Rattle.run_tokens.specs.ServerRest.{ServerMayRest};
ghost use Rattle.run_tokens.specs.Turns.{ServedInTurn};

/// A server for which nothing waits that could go on may do nothing at a lapse: all rules allow it, so none is in
/// another's way.
pub fn server_may_rest()
    ensures { ServerMayRest }
{}

/// Wants are served in the order in which they were made: a later one that conflicts is behind an earlier one until
/// that is decided, and could not be decided meanwhile.
pub fn wants_are_served_in_turn()
    ensures { ServedInTurn }
{}
