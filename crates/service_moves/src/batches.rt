//! Batches of acts.
ghost use Rattle.std.specs.Prelude.{◌≤◌, ◌+◌, ◌*◌, ◌^◌, OnOk};
ghost use Rattle.message_types.specs.Soundness.{Each};
ghost use Rattle.store_acts.specs.Sound.{AllFit, AreActs, IsAct};
ghost use Rattle.store_memory.specs.Views.{DoesActs, IsSameStore};
ghost use Rattle.service_moves.specs.Again.{AreNew, IsAgain};
ghost use Rattle.service_moves.specs.Batches.{batch_count, batch_wear, IsBlamedTwice};

use base_types::BATCH_ACTS_MAX;
use store_memory::{Act, Store, StoreFault};

// Does a batch. Where the disk fails it is opened anew, and the batch tried once more.
pub(crate) fn apply_batch<S: Store>(store: &mut S, batch: &[Act]) -> Result<(), StoreFault>
    requires acts { AreActs (S.view store.old).state.roster (S.view store.old).state.server batch.now }
    requires ready { (S.view store.old).ready }
    requires wear { (S.view store.old).wear + batch_wear ≤ 2 ^ 47 }
    ensures does { S.tells → IsAgain (S.view store.old).state batch.now
        → DoesActs result batch.now (S.view store.old) (S.view store.new) }
    ensures same { IsSameStore (S.view store.old) (S.view store.new) }
    ensures ready { OnOk result (S.view store.new).ready }
    ensures mendable { (S.view store.new).mendable }
    ensures wear { (S.view store.new).wear ≤ (S.view store.old).wear + batch_wear }
    ensures blame { IsBlamedTwice result (S.view store.old) (S.view store.new) }
{
    match store.apply(batch) {
        Ok(_) => return Ok(()),
        Err(StoreFault::Memory) => return Err(StoreFault::Memory),
        Err(StoreFault::Failed) => {}
    }
    store.reopen()?;
    store.apply(batch)?;
    Ok(())
}

/// Does many acts, in their order and in batches of up to `BATCH_ACTS_MAX`. Where the disk fails in a batch the store
/// is opened anew, and the batch tried once more: acts that it did already change nothing then, where each has a number
/// of a host on a fileset.
///
/// `Failed` comes where a batch failed again, or the opening did. `Memory` comes where memory runs out. After either
/// the store holds what the first acts made, up to one of them, and `reopen` has to succeed before anything is asked. A
/// crash at any moment leaves what the first acts made, or what one before could leave.
/// Each batch that was begun wears the store by `batch_wear` at most.
pub fn apply_all<S: Store>(store: &mut S, acts: &[Act]) -> Result<(), StoreFault>
    requires acts { Each (IsAct (S.view store.old).state.roster (S.view store.old).state.server) acts.now }
    requires ready { (S.view store.old).ready }
    requires mendable { (S.view store.old).mendable }
    requires wear { (S.view store.old).wear + batch_wear * batch_count acts.now ≤ 2 ^ 47 }
    ensures does { S.tells → AllFit (S.view store.old).state acts.now → AreNew (S.view store.old).state acts.now
        → DoesActs result acts.now (S.view store.old) (S.view store.new) }
    ensures same { IsSameStore (S.view store.old) (S.view store.new) }
    ensures ready { OnOk result (S.view store.new).ready }
    ensures mendable { (S.view store.new).mendable }
    ensures wear { (S.view store.new).wear ≤ (S.view store.old).wear + batch_wear * batch_count acts.now }
    ensures blame { IsBlamedTwice result (S.view store.old) (S.view store.new) }
{
    for at in 0..acts.len().div_ceil(BATCH_ACTS_MAX) {
        let from = at * BATCH_ACTS_MAX;
        let to = acts.len().min(from + BATCH_ACTS_MAX);
        apply_batch(store, &acts[from..to])?;
    }
    Ok(())
}
