//! Acts that any store can do as they are.
ghost use Rattle.std.specs.Prelude.{◌≡◌, ◌≤◌, ◌↔◌, IsTrue, Some, length, slice_get, take};
ghost use Rattle.store_acts.specs.Sound.{AllFit, Fits, HasName};
ghost use Rattle.store_acts.specs.declared.act.Act.{Act as ActOf};
ghost use Rattle.store_state.specs.declared.state.StoreState.{StoreState};

use base_types::Name;
use store_acts::Act;
use tree_calls::Call;

// Whether the fileset that a call makes gets a name, as it always does.
fn has_name(call: &Call) -> bool
    ensures { IsTrue result ↔ HasName call.now }
{
    match call {
        Call::NewFileset { name, .. } => Name::accepts(name.as_bytes()),
        Call::CloneFileset { new, .. } => Name::accepts(new.as_bytes()),
        _ => true,
    }
}

// Whether an act fits any store: what comes from another server, or begins to leave for one, may not.
fn is_plain(act: &Act) -> bool
    ensures { IsTrue result ↔ ((state : StoreState) → Fits state act.now) }
{
    match act {
        Act::Do { call, .. } => has_name(call),
        Act::Leave { .. } | Act::Part { .. } => false,
        _ => true,
    }
}

/// How many acts of a batch fit any store, up to the first that may not.
pub(crate) fn plain_acts(batch: &[Act]) -> usize
    ensures within { result ≤ length batch.now }
    ensures fit { (state : StoreState) → AllFit state (take result batch.now) }
    ensures stops { (act : ActOf) → slice_get batch.now result ≡ Some act
        → ((state : StoreState) → Fits state act) → ⊥ }
{
    let mut count = 0;
    while count < batch.len() && is_plain(&batch[count]) {
        count += 1;
    }
    count
}
