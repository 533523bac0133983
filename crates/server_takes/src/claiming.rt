ghost use Rattle.std.specs.Prelude.{◌≡◌, true, OnOk};
ghost use Rattle.server_tables.specs.Counting.{IsCounted};
ghost use Rattle.server_tables.specs.Listing.{has_host};
ghost use Rattle.server_takes.specs.Taking.{IsClaimed, claim_draft};

use crate::draft::Draft;
use base_types::{HostId, NoMemory, Plain};
use message_types::{Body, Reclaim};
use server_tables::Tables;

/// A host claims its tokens. One that has reclaimed is answered as before; else the claim waits.
pub(crate) fn take_claim(
    tables: &mut Tables,
    draft: &mut Draft,
    host: HostId,
    claim: &Reclaim,
) -> Result<(), NoMemory>
    requires counted { IsCounted tables.old }
    ensures tables { OnOk result (IsClaimed tables.old host claim.now tables.new) }
    ensures draft { OnOk result (draft.new ≡ claim_draft tables.old draft.old host) }
    ensures counted { OnOk result (IsCounted tables.new) }
{
    if tables.hosts.has_reclaimed(host) {
        claim_again(tables, draft, host)
    } else {
        tables.recovering.note_claim(host, claim)
    }
}

/// What was answered to a host's claim is answered again.
fn claim_again(tables: &Tables, draft: &mut Draft, host: HostId) -> Result<(), NoMemory>
    requires { has_host tables.now.hosts.reclaimed host ≡ true }
    ensures { OnOk result (draft.new ≡ claim_draft tables.now draft.old host) }
{
    match tables.recovering.answer_to(host) {
        Some(answer) => {
            let answer = answer.copy()?;
            draft.say(tables, host, Body::Reclaimed(answer))
        }
        None => Ok(()),
    }
}
