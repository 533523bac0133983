ghost use Rattle.run_tokens.specs.DoingNothing.{MayDoNothing};
ghost use Rattle.run_tokens.specs.TokenLaws.{TokensNeverConflict};
ghost use Rattle.run_tokens.specs.Effects.{Effects};
ghost use Rattle.run_tokens.specs.Forgetting.{Forgetting};

/// A step that does nothing meets every rule of tokens: a host's that hasn't stopped, whatever came, and a server's.
pub fn nothing_is_allowed()
    ensures { MayDoNothing }
{}

/// In every list of steps that meets the rules of tokens, after each step: no two hosts that haven't stopped hold
/// conflicting tokens; no two tokens that servers have granted conflict, in a grace period too, nor does one with what
/// an exporter keeps; a token is granted only where its fileset is; what a host holds is granted once it has reclaimed;
/// no claim is refused but for tokens that the host no longer has; no give-back is passed over, and what an applied one
/// names isn't granted; no give-back and no Change of one number takes effect twice.
pub fn tokens_of_steps_never_conflict()
    ensures { TokensNeverConflict }
{}

/// A restart forgets which tokens are granted, pinned or kept, who has reclaimed and what was told; the list of hosts
/// and the numbers of give-backs and Changes outlive it. A flush lets the exporter's tokens go, and changes no host's.
pub fn a_restart_forgets()
    ensures { Forgetting }
{}

/// What a server brings, and a claim that counts names, is granted; what comes back isn't, nor is anything of a host
/// that is down; a Kept pins, a give-back that is taken is applied, a Change that is written down counts; and a Revoke
/// raises the floor of its file at the host that takes it.
pub fn a_doing_takes_effect()
    ensures { Effects }
{}
