ghost use Rattle.std.specs.Prelude.{◌≡◌, IfOk, OnOk};
ghost use Rattle.server_says.specs.Hailing.{hailing, hailed_one, needs_hail};
ghost use Rattle.server_takes.specs.Drafts.{no_draft, step_of};

use crate::stepping::step_if;
use base_types::{HostId, NoMemory};
use message_types::Body;
use run_rules::{Cause, Step};
use server_tables::Tables;
use server_takes::Draft;

/// A step with this cause that tells each live host which hasn't reclaimed that the server has restarted.
pub fn hail_step(tables: &Tables, cause: Cause) -> Result<Step, NoMemory>
    ensures { IfOk result (λ step. step ≡ step_of tables.now.server cause (hailing tables.now no_draft)) }
{
    let mut draft = Draft::new(tables.alloc());
    let hailed = hail_all(tables, &mut draft);
    step_if(hailed, draft.into_step(tables.server, cause))
}

/// Tells each live host that hasn't reclaimed that the server has restarted.
pub(crate) fn hail_all(tables: &Tables, draft: &mut Draft) -> Result<(), NoMemory>
    ensures { OnOk result (draft.new ≡ hailing tables.now draft.old) }
{
    for host in tables.hosts.listed.as_slice() {
        hail(tables, draft, *host)?;
    }
    Ok(())
}

#[tactic(auto, unfolding(crate::specs::Hailing::hailed_one))]
fn hail(tables: &Tables, draft: &mut Draft, host: HostId) -> Result<(), NoMemory>
    ensures { OnOk result (draft.new ≡ hailed_one tables.now draft.old host) }
{
    if !needs_hail(tables, host) {
        return Ok(());
    }
    draft.say(tables, host, Body::Restarted)
}

fn needs_hail(tables: &Tables, host: HostId) -> bool
    ensures { result ≡ needs_hail tables.now host }
{
    tables.hosts.is_live(host) && !tables.hosts.has_reclaimed(host)
}
