//! What makes the definitions of this crate believable: each function does nothing, and what it ensures is a law.
ghost use Rattle.token_manager.specs.RevokeLaws.{RevokesJustThose, WaitsJustWhere, GrantsInPeace};
ghost use Rattle.token_manager.specs.WantedLaws.{AreJustWanted, AreMarked};
ghost use Rattle.token_manager.specs.PeaceLaws.{PeaceThroughAsk, PeaceThroughReady};
ghost use Rattle.token_manager.specs.PeaceLaws.{PeaceThroughAdmit, PeaceThroughLoss};
ghost use Rattle.token_manager.specs.ReadyLaws.{AskMakesNoneReady, AskMakesNoneWanted, GrantMakesNoneReady};
ghost use Rattle.token_manager.specs.AdmitLaws.{AdmitsEachOnce, AdmitsUnpinned};

/// A want that waits asks back just those granted tokens that are in its way and aren't pinned: all of them, and no
/// other.
pub fn revoke_law()
    ensures { RevokesJustThose }
{}

/// A want that is asked waits exactly where a granted token of another host or an earlier queued want conflicts with
/// it. The tokens that a want is granted conflict with none that was granted before.
pub fn wait_law()
    ensures waits { WaitsJustWhere }
    ensures peace { GrantsInPeace }
{}

/// What queued wants ask back is just those granted tokens that are in the way of one of them, aren't pinned and aren't
/// the server's own; each with whether it is noted as asked back.
pub fn wanted_law()
    ensures wanted { AreJustWanted }
    ensures marked { AreMarked }
{}

/// Where granted tokens of two hosts don't conflict, they don't after any call: after `ask` and `next_ready`, which
/// grant; after `admit`, where none of the given tokens conflicts with a granted or a given one; and after each call
/// that takes tokens out or changes none.
pub fn peace_law()
    ensures ask { PeaceThroughAsk }
    ensures ready { PeaceThroughReady }
    ensures admit { PeaceThroughAdmit }
    ensures loss { PeaceThroughLoss }
{}

/// A want that is granted when it is asked makes no queued want ready, and lets none ask another token back. A queued
/// want that is granted lets no other be granted that couldn't be before.
pub fn ready_law()
    ensures asked { AskMakesNoneReady }
    ensures wanted { AskMakesNoneWanted }
    ensures granted { GrantMakesNoneReady }
{}

/// After tokens are admitted, the token of each number is the one that was granted before, and else the first of these
/// that has it. None of those that weren't granted before is pinned, asked back or of a want, and what was noted of the
/// others stays.
pub fn admit_law()
    ensures once { AdmitsEachOnce }
    ensures unpinned { AdmitsUnpinned }
{}
