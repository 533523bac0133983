//! What holds of stores that have gone on: each function does nothing, and what it ensures is a law.
ghost use Rattle.std.specs.Prelude.{◌≡◌, [], List, Result};
ghost use Rattle.message_types.specs.Soundness.{Each};
ghost use Rattle.service_watch.specs.Gone.{HasGone};
ghost use Rattle.store_acts.specs.Sound.{IsAct};
ghost use Rattle.store_acts.specs.declared.act.Act.{Act};
ghost use Rattle.store_memory.specs.Views.{DoesActs, IsSameStore};
ghost use Rattle.store_memory.specs.declared.store.StoreFault.{StoreFault};

use store_memory::Store;

/// A store that was only seen has done nothing, one that has done nothing keeps what it kept, and one that went on may
/// go on.
#[tactic(auto, using(crate::proofs::Going::gone_none, crate::proofs::Going::gone_then))]
pub fn going_law<S: Store>()
    ensures seen { (store : S) → HasGone (S.view store) (S.view store) }
    ensures idle { (old new : S) → (gone : HasGone (S.view old) (S.view new)) → gone.acts ≡ []
        → (S.view new).state ≡ (S.view old).state }
    ensures on { (old mid new : S) → HasGone (S.view old) (S.view mid) → HasGone (S.view mid) (S.view new)
        → HasGone (S.view old) (S.view new) }
{}

/// A store that did some acts as stores do has gone on.
#[tactic(auto, using(crate::proofs::Going::gone_acts))]
pub fn doing_law<S: Store>()
    ensures { (result : Result (Unit {0}) StoreFault) → (acts : List Act) → (old new : S)
        → Each (IsAct (S.view old).state.roster (S.view old).state.server) acts → IsSameStore (S.view old) (S.view new)
        → DoesActs result acts (S.view old) (S.view new) → HasGone (S.view old) (S.view new) }
{}
