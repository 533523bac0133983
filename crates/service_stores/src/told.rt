// What the stores of servers tell.
ghost use Rattle.std.specs.Prelude.{◌≡◌, ◌≤◌, ◌+◌, ◌*◌, ◌^◌, [], length, IfOk, IfErr, OnOk};
ghost use Rattle.base_types.specs.declared.limits.TheConstants.{SERVERS_MAX};
ghost use Rattle.store_memory.specs.Views.{IsFirstOf, Leaves};
ghost use Rattle.service_moves.specs.Batches.{batch_wear, IsBlamedTwice};
ghost use Rattle.service_moves.specs.Doing.{DoSteps};
ghost use Rattle.service_moves.specs.Stores.{states_of, AreSame};
ghost use Rattle.service_moves.specs.Stopping.{IsStopped};
ghost use Rattle.service_stores.specs.Starting.{told_of, told_by};
ghost use Rattle.service_stores.specs.Steps.{AreReady, IsStill};

use base_types::{Items, ServerId};
use service_moves::{RunStopped, kept_by, slots_by, stopped_at};
use service_starts::Told;
use std::alloc::Global;
use store_memory::{Store, StoreFault};

// What a store tells.
fn told_by<S: Store>(store: &mut S, on_disk: bool) -> Result<Told, StoreFault>
    requires ready { (S.view store.old).ready }
    requires wear { (S.view store.old).wear ≤ 2 ^ 40 }
    ensures told { S.tells → IfOk result (λ told. told ≡ told_of on_disk (S.view store.old).state) }
    ensures state { S.tells → (S.view store.new).state ≡ (S.view store.old).state }
    ensures leaves { S.tells → Leaves (IsFirstOf (S.view store.old).state []) (S.view store.old) (S.view store.new) }
    ensures still { IsStill (S.view store.old) (S.view store.new) }
    ensures ready { OnOk result (S.view store.new).ready }
    ensures wear { (S.view store.new).wear ≤ (S.view store.old).wear + 2 * batch_wear }
    ensures blame { IsBlamedTwice result (S.view store.old) (S.view store.new) }
{
    let slots = slots_by(store)?;
    Ok(Told {
        on_disk,
        kept: kept_by(store)?,
        slots,
    })
}

/// What all stores tell, of which so many in front are on disks. `Failed` comes where the disk of a server failed
/// twice, and `Memory` where memory runs out. They keep what they kept.
pub(crate) fn all_told<S: Store>(
    alloc: Global,
    stores: &mut [S],
    disks: usize,
) -> Result<Items<Told>, RunStopped>
    requires few { length stores.old ≤ SERVERS_MAX }
    requires ready { AreReady S.view 0 stores.old }
    ensures told { S.tells → IfOk result (λ all. all ≡ told_by S.view disks stores.old) }
    ensures count { IfOk result (λ all. length all ≡ length stores.old) }
    ensures states { S.tells → states_of S.view stores.new ≡ states_of S.view stores.old }
    ensures does { S.tells → DoSteps S.view result [] stores.old stores.new }
    ensures same { AreSame S.view stores.old stores.new }
    ensures ready { OnOk result (AreReady S.view (2 * batch_wear) stores.new) }
    ensures stopped { IfErr result (IsStopped S.tells S.view [] stores.old stores.new) }
{
    let mut all = Items::new(alloc);
    for (k, store) in stores.iter_mut().enumerate() {
        match told_by(store, k < disks) {
            Ok(told) => all.push(told)?,
            Err(fault) => return Err(stopped_at(ServerId(k as u8 + 1), fault)),
        }
    }
    Ok(all)
}
