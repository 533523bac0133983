ghost use Rattle.store_state.specs.Laws.{RepliesAreKept};

/// The reply to a change that is kept is the one that was given.
pub fn reply_law()
    ensures { RepliesAreKept }
{}
