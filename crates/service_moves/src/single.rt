//! Single acts.
ghost use Rattle.std.specs.Prelude.{◌≤◌, ◌+◌, ◌^◌, [], ◌∷◌, OnOk};
ghost use Rattle.store_acts.specs.Sound.{Fits, IsAct};
ghost use Rattle.store_acts.specs.declared.act.Act.TheVariants.{Boot};
ghost use Rattle.store_memory.specs.Views.{DoesActs, IsSameStore};
ghost use Rattle.service_moves.specs.Again.{IsRepeatable};
ghost use Rattle.service_moves.specs.Batches.{batch_wear, IsBlamedTwice};

use crate::batches::apply_batch;
use store_memory::{Act, Store, StoreFault};

/// Does one act. Where the disk fails the store is opened anew, and the act tried once more: where it was done already,
/// it changes nothing then, if it is repeatable.
///
/// `Failed` comes where it failed again, or the opening did. `Memory` comes where memory runs out. After either the act
/// was done or not, and `reopen` has to succeed before anything is asked. It wears the store by `batch_wear` at most.
pub fn apply_once<S: Store>(store: &mut S, act: Act) -> Result<(), StoreFault>
    requires act { IsAct (S.view store.old).state.roster (S.view store.old).state.server act }
    requires ready { (S.view store.old).ready }
    requires wear { (S.view store.old).wear + batch_wear ≤ 2 ^ 47 }
    ensures does { S.tells → Fits (S.view store.old).state act → IsRepeatable (S.view store.old).state act
        → DoesActs result (act ∷ []) (S.view store.old) (S.view store.new) }
    ensures same { IsSameStore (S.view store.old) (S.view store.new) }
    ensures ready { OnOk result (S.view store.new).ready }
    ensures mendable { (S.view store.new).mendable }
    ensures wear { (S.view store.new).wear ≤ (S.view store.old).wear + batch_wear }
    ensures blame { IsBlamedTwice result (S.view store.old) (S.view store.new) }
{
    apply_batch(store, &[act])
}

/// Begins a run of a server: its epoch rises, and what it knew of hosts is forgotten. Where the disk fails the store is
/// opened anew, and its epoch tells whether the run has begun; if not, that is tried once more.
///
/// `Failed` comes where the disk failed again. `Memory` comes where memory runs out. After either the run has begun or
/// not, and `reopen` has to succeed before anything is asked. It wears the store by `batch_wear` at most.
pub fn boot<S: Store>(store: &mut S) -> Result<(), StoreFault>
    requires ready { (S.view store.old).ready }
    requires wear { (S.view store.old).wear + batch_wear ≤ 2 ^ 47 }
    ensures does { S.tells → DoesActs result (Boot ∷ []) (S.view store.old) (S.view store.new) }
    ensures same { IsSameStore (S.view store.old) (S.view store.new) }
    ensures ready { OnOk result (S.view store.new).ready }
    ensures mendable { (S.view store.new).mendable }
    ensures wear { (S.view store.new).wear ≤ (S.view store.old).wear + batch_wear }
    ensures blame { IsBlamedTwice result (S.view store.old) (S.view store.new) }
{
    let epoch = store.epoch();
    match store.apply(&[Act::Boot]) {
        Ok(_) => return Ok(()),
        Err(StoreFault::Memory) => return Err(StoreFault::Memory),
        Err(StoreFault::Failed) => {}
    }
    store.reopen()?;
    if store.epoch() == epoch {
        store.apply(&[Act::Boot])?;
    }
    Ok(())
}
