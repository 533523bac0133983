ghost use Rattle.std.specs.Prelude.{◌≡◌, IfOk, OnOk};
ghost use Rattle.token_manager.specs.Laws.{KeepsLaws};
ghost use Rattle.server_says.specs.Hailing.{hailing};
ghost use Rattle.server_says.specs.Revoking.{asking_back, lapse_step, lapsing, owed};

use crate::hailing::hail_all;
use crate::revoking::revoke_again;
use crate::stepping::step_if;
use base_types::NoMemory;
use run_rules::{Cause, Step};
use server_tables::Tables;
use server_takes::Draft;

/// The step of a lapse: what may be lost is sent again.
pub fn lapse_step(tables: &mut Tables) -> Result<Step, NoMemory>
    ensures step { IfOk result (λ step. step ≡ lapse_step tables.old) }
    ensures tables { OnOk result (tables.new ≡ (lapsing tables.old).tables) }
    ensures laws { KeepsLaws tables.old.tokens }
{
    tables.tokens.laws();
    let server = tables.server;
    let mut draft = Draft::new(tables.alloc());
    let sent = hail_and_revoke(tables, &mut draft);
    step_if(sent, draft.into_step(server, Cause::Lapse))
}

fn hail_and_revoke(tables: &mut Tables, draft: &mut Draft) -> Result<(), NoMemory>
    ensures tables { OnOk result
        (tables.new ≡ (asking_back tables.old (hailing tables.old draft.old) (owed tables.old)).tables) }
    ensures draft { OnOk result
        (draft.new ≡ (asking_back tables.old (hailing tables.old draft.old) (owed tables.old)).draft) }
{
    hail_all(tables, draft)?;
    revoke_again(tables, draft)
}
