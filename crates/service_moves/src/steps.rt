//! Acts of the store of a server, as steps of a run.
ghost use Rattle.std.specs.Prelude.{◌≤◌, ◌+◌, ◌^◌, [], ◌∷◌, IfErr};
ghost use Rattle.store_acts.specs.Sound.{Fits, IsAct};
ghost use Rattle.store_memory.specs.Views.{DoesActs};
ghost use Rattle.service_moves.specs.Again.{IsRepeatable};
ghost use Rattle.service_moves.specs.Batches.{batch_wear};
ghost use Rattle.service_moves.specs.Steps.{GoesOn, StopsAt};

use crate::single::apply_once;
use crate::stopped::{RunStopped, stopped_at};
use base_types::ServerId;
use store_memory::{Act, Store};

/// The store of a server does one act.
pub(crate) fn do_act<S: Store>(store: &mut S, server: ServerId, act: Act) -> Result<(), RunStopped>
    requires act { IsAct (S.view store.old).state.roster (S.view store.old).state.server act }
    requires ready { (S.view store.old).ready }
    requires wear { (S.view store.old).wear + batch_wear ≤ 2 ^ 47 }
    ensures does { S.tells → Fits (S.view store.old).state act → IsRepeatable (S.view store.old).state act
        → DoesActs result (act ∷ []) (S.view store.old) (S.view store.new) }
    ensures goes_on { GoesOn batch_wear result (S.view store.old) (S.view store.new) }
    ensures stopped { IfErr result (StopsAt server (S.view store.old) (S.view store.new)) }
{
    match apply_once(store, act) {
        Ok(()) => Ok(()),
        Err(fault) => Err(stopped_at(server, fault)),
    }
}
