//! Why tokens leave hosts, told on tokens and messages.
#![tactic(auto)]

ghost use Rattle.run_leaving.specs.Leaving.{FewStay, LimitsAreTold, TokensLeaveSo, YoungerStay};

/// In every run a token leaves a host only so: a Revoke names it while it isn't in use; more tokens are unused than the
/// host may cache, and of those it was used longest ago; a Sync of its file gives back what is dirty under it; the last
/// use of it ends, and it was pinned; the host ends, with nothing in use; or it stops. With no more unused tokens than
/// the host may cache, which is what the script says of it, none is evicted, and no step tries. Of two unused tokens
/// the one that came later stays, where no call was answered since.
pub fn leaving_law()
    ensures leaves { TokensLeaveSo }
    ensures few { FewStay }
    ensures younger { YoungerStay }
    ensures limits { LimitsAreTold }
{}
