//! What the lines that are printed of a run tell: each function does nothing, and what it ensures is a law.
ghost use Rattle.service_run.specs.Complete.{RunsAreComplete};
ghost use Rattle.service_run.specs.Laws.{RepliesFollowCalls, LossesAreTaken};

use base_types::{Disk, Sink, Source};

/// The line `cH K REPLY` has the reply to the K-th call of host H, and there is one for each call that its lines ask
/// for.
#[tactic(auto, using(crate::proofs::Told::replies_follow))]
pub fn replies_law()
    ensures { RepliesFollowCalls }
{}

/// Each loss that is printed is what a host's going down at a server took, and each such loss is printed.
#[tactic(auto, using(crate::proofs::Told::losses_taken))]
pub fn losses_law()
    ensures { LossesAreTaken }
{}

/// Where nothing outside fails, a script that can run over disks that tell their bytes runs to its end, and the output
/// is whole; or hosts and servers come to no end, which the status tells; or memory runs out.
pub fn complete_law<D: Disk, R: Source, K: Sink>()
    ensures { RunsAreComplete D.tells R.tells K.tells D.view }
{}
