ghost use Rattle.std.specs.Prelude.{◌≡◌};
ghost use Rattle.std.specs.List.{list_any};
ghost use Rattle.token_types.specs.Conflicts.{kinds_conflict, needs_conflict, any_conflict, wants_conflict};
ghost use Rattle.token_types.specs.Conflicts.{conflict, blocks};

use crate::token::{Kind, Need, Token};
use base_types::HostId;

/// Whether two tokens conflict: they are of two hosts and of one object and type, and what they allow cannot be
/// allowed at once. Byte and lock tokens conflict where their spans overlap and one of them is for update or writing,
/// status tokens where one of them is for update, and open tokens by a table of their kinds.
#[tactic(auto, using(crate::proofs::Symmetric::conflict_both))]
pub fn conflicts(a: &Token, b: &Token) -> bool
    ensures value { result ≡ conflict a.now b.now }
    ensures symmetric { result ≡ conflict b.now a.now }
{
    a.host != b.host && a.need().conflicts(&b.need())
}

/// Whether two wants cannot both be met: they are of two hosts, and a need of one conflicts with a need of the other. A
/// want without needs conflicts with nothing.
#[tactic(auto, using(crate::proofs::Wants::wants_both))]
pub fn wants_conflict(host: HostId, needs: &[Need], other: HostId, others: &[Need]) -> bool
    ensures value { result ≡ wants_conflict host needs.now other others.now }
    ensures symmetric { result ≡ wants_conflict other others.now host needs.now }
{
    host != other && needs_conflict(needs, others)
}

fn needs_conflict(needs: &[Need], others: &[Need]) -> bool
    ensures { result ≡ list_any (λ need. any_conflict need others.now) needs.now }
{
    needs.iter().any(|need| need.conflicts_any(others))
}

impl Need {
    /// Whether this need and that of another host cannot be met at once.
    pub fn conflicts(&self, other: &Need) -> bool
        ensures { result ≡ needs_conflict self.now other.now }
    {
        self.fid == other.fid && kinds_conflict(self.kind, other.kind)
    }

    /// Whether this need and one of those of another host cannot both be met.
    pub fn conflicts_any(&self, others: &[Need]) -> bool
        ensures { result ≡ any_conflict self.now others.now }
    {
        others.iter().any(|other| self.conflicts(other))
    }
}

impl Token {
    /// Whether it is in the way of a host's needs: it is another host's, and conflicts with one of them.
    pub fn blocks(&self, host: HostId, needs: &[Need]) -> bool
        ensures { result ≡ blocks host needs.now self.now }
    {
        self.host != host && self.need().conflicts_any(needs)
    }
}

fn kinds_conflict(a: Kind, b: Kind) -> bool
    ensures { result ≡ kinds_conflict a b }
{
    match (a, b) {
        (
            Kind::Bytes { update, span },
            Kind::Bytes {
                update: other_update,
                span: other_span,
            },
        ) => { (update || other_update) && span.overlaps(other_span) }
        (
            Kind::Status { update },
            Kind::Status {
                update: other_update,
            },
        ) => update || other_update,
        (
            Kind::Lock { writing, span },
            Kind::Lock {
                writing: other_writing,
                span: other_span,
            },
        ) => { (writing || other_writing) && span.overlaps(other_span) }
        (Kind::Opening(kind), Kind::Opening(other_kind)) => kind.conflicts(other_kind),
        _ => false,
    }
}
