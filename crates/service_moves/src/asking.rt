//! What the store of a server is asked, once more where its disk fails.
ghost use Rattle.std.specs.Prelude.{◌≡◌, ◌≤◌, ◌+◌, ◌^◌, [], IfOk, OnOk};
ghost use Rattle.base_types.specs.declared.limits.TheConstants.{OBJECTS_MAX};
ghost use Rattle.store_memory.specs.Reading.{kept_of, shipped, slots_from};
ghost use Rattle.store_memory.specs.Sound.{IsLeavingOf, IsMover, IsSlot};
ghost use Rattle.store_memory.specs.Views.{IsFirstOf, IsSameStore, Leaves};
ghost use Rattle.message_types.specs.Soundness.{Each, IsPart};
ghost use Rattle.service_moves.specs.Batches.{batch_wear, IsBlamedTwice};

use base_types::{FilesetId, Items};
use store_memory::{Kept, Slot, Store, StoreFault};
use tree_calls::{Mover, ShipPart};

/// What a store keeps. Where its disk fails it is opened anew, and asked once more.
///
/// `Failed` comes where it failed again, or the opening did, and `Memory` where memory runs out. The store keeps what
/// it kept; after an error `reopen` has to succeed before anything else is asked.
pub fn kept_by<S: Store>(store: &mut S) -> Result<Kept, StoreFault>
    requires ready { (S.view store.old).ready }
    requires wear { (S.view store.old).wear + batch_wear ≤ 2 ^ 47 }
    ensures kept { S.tells → IfOk result (λ kept. kept ≡ kept_of (S.view store.old).state) }
    ensures state { S.tells → (S.view store.new).state ≡ (S.view store.old).state }
    ensures leaves { S.tells → Leaves (IsFirstOf (S.view store.old).state []) (S.view store.old) (S.view store.new) }
    ensures same { IsSameStore (S.view store.old) (S.view store.new) }
    ensures ready { OnOk result (S.view store.new).ready }
    ensures mendable { (S.view store.new).mendable }
    ensures wear { (S.view store.new).wear ≤ (S.view store.old).wear + batch_wear }
    ensures blame { IsBlamedTwice result (S.view store.old) (S.view store.new) }
{
    match store.kept() {
        Err(StoreFault::Failed) => {
            store.reopen()?;
            store.kept()
        }
        answer => answer,
    }
}

/// The slots that a store uses, in the order of its table. Where its disk fails it is opened anew, and asked once more.
///
/// `Failed` comes where it failed again, or the opening did, and `Memory` where memory runs out. The store keeps what
/// it kept; after an error `reopen` has to succeed before anything else is asked.
pub fn slots_by<S: Store>(store: &mut S) -> Result<Items<Slot>, StoreFault>
    requires ready { (S.view store.old).ready }
    requires wear { (S.view store.old).wear + batch_wear ≤ 2 ^ 47 }
    ensures slots { S.tells → IfOk result (λ slots. slots ≡ slots_from 0 (S.view store.old).state.slots) }
    ensures sound { IfOk result (λ slots. Each (IsSlot (S.view store.old).state.roster) slots) }
    ensures state { S.tells → (S.view store.new).state ≡ (S.view store.old).state }
    ensures leaves { S.tells → Leaves (IsFirstOf (S.view store.old).state []) (S.view store.old) (S.view store.new) }
    ensures same { IsSameStore (S.view store.old) (S.view store.new) }
    ensures ready { OnOk result (S.view store.new).ready }
    ensures mendable { (S.view store.new).mendable }
    ensures wear { (S.view store.new).wear ≤ (S.view store.old).wear + batch_wear }
    ensures blame { IsBlamedTwice result (S.view store.old) (S.view store.new) }
{
    match store.slots() {
        Err(StoreFault::Failed) => {
            store.reopen()?;
            store.slots()
        }
        answer => answer,
    }
}

/// A part of a fileset that is leaving a store, asked so too.
pub(crate) fn part_by<S: Store>(
    store: &mut S,
    fileset: FilesetId,
    at: u32,
    mover: &Mover,
) -> Result<ShipPart, StoreFault>
    requires leaving { S.tells → IsLeavingOf (S.view store.old).state fileset at }
    requires limit { at ≤ OBJECTS_MAX }
    requires mover { IsMover (S.view store.old).state.roster mover.now }
    requires ready { (S.view store.old).ready }
    requires wear { (S.view store.old).wear + batch_wear ≤ 2 ^ 47 }
    ensures part { S.tells → IfOk result (λ part. part ≡ shipped (S.view store.old).state fileset at mover.now) }
    ensures sound { IfOk result (λ part. IsPart (S.view store.old).state.roster at part) }
    ensures state { S.tells → (S.view store.new).state ≡ (S.view store.old).state }
    ensures leaves { S.tells → Leaves (IsFirstOf (S.view store.old).state []) (S.view store.old) (S.view store.new) }
    ensures same { IsSameStore (S.view store.old) (S.view store.new) }
    ensures ready { OnOk result (S.view store.new).ready }
    ensures mendable { (S.view store.new).mendable }
    ensures wear { (S.view store.new).wear ≤ (S.view store.old).wear + batch_wear }
    ensures blame { IsBlamedTwice result (S.view store.old) (S.view store.new) }
{
    match store.ship_part(fileset, at, mover) {
        Err(StoreFault::Failed) => {
            store.reopen()?;
            store.ship_part(fileset, at, mover)
        }
        answer => answer,
    }
}
