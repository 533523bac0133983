//! What is kept of a store before an act.
ghost use Rattle.std.specs.Prelude.{◌≡◌, IfOk, map, replicate};
ghost use Rattle.std.specs.Option.{option_copied};
ghost use Rattle.tree_filesets.specs.Founding.{unused_anode};
ghost use Rattle.tree_filesets.specs.Laws.{is_file_at};
ghost use Rattle.store_acts.specs.Moving.{arrival_slot};
ghost use Rattle.store_state.specs.State.{held_at as held_in};
ghost use Rattle.disk_acts.specs.Seen.{seen_anode};
ghost use Rattle.disk_acts.specs.Touched.{
  called_name,
  called_slot,
  slot_touched,
  other_touched,
  source_called,
  source_touched,
  renews,
  gives,
  anodes_before,
  IsBefore,
};

use crate::seen::{SeenAnode, see_anodes};
use base_types::{Fid, FilesetId, Items, Name, NoMemory};
use std::alloc::Global;
use store_acts::Act;
use store_state::{Coming, Sought, StoreState, free_slot, held, held_at, slot_of, unique_at};
use tree_calls::Call;
use tree_filesets::{Fileset, object_at};

// Slots of a store, and anodes of each.
const SLOTS: usize = 16;

const ANODES: usize = 64;

/// Which slots an act may change, and what is seen before it of the anodes of the slot whose anodes it may change.
#[derive(Drop)]
pub struct Before {
    pub(crate) slot: usize,
    pub(crate) other: usize,
    pub(crate) source: usize,
    pub(crate) gives: bool,
    pub(crate) anodes: Items<SeenAnode>,
}

// The name of the fileset that a call changes.
fn called_name(call: &Call) -> Option<&Name>
    ensures { option_copied result ≡ called_name call.now }
{
    match call {
        Call::Create { place }
        | Call::MakeDir { place }
        | Call::Remove { place }
        | Call::Truncate { place, .. }
        | Call::SetAcl { place, .. } => Some(&place.fileset),
        Call::Rename { from, .. } => Some(&from.fileset),
        _ => None,
    }
}

// The slot that a call changes.
fn called_slot(state: &StoreState, call: &Call) -> usize
    ensures { result ≡ called_slot state.now (called_name call.now) }
{
    match called_name(call) {
        Some(name) => slot_of(&state.slots, &Sought::HereAs(name)),
        None => free_slot(&state.slots),
    }
}

// The slot for a fileset that arrives.
fn arrival_slot(state: &StoreState, id: FilesetId) -> usize
    ensures { result ≡ arrival_slot state.now id }
{
    let own = slot_of(&state.slots, &Sought::Of(id));
    if own < state.slots.len() {
        own
    } else {
        free_slot(&state.slots)
    }
}

// The slot whose anodes an act may change, or the end of the table.
fn slot_touched(state: &StoreState, act: &Act) -> usize
    ensures { result ≡ slot_touched state.now act.now }
{
    match act {
        Act::Do { call, .. } => called_slot(state, call),
        Act::Give { fid, .. } => slot_of(&state.slots, &Sought::Of(fid.fileset)),
        Act::Left { fileset } | Act::Settle { fileset } => {
            slot_of(&state.slots, &Sought::Of(*fileset))
        }
        Act::Part {
            from,
            ship,
            fileset,
            moves,
            at,
            part: _,
        } => {
            if *at == 0 {
                return arrival_slot(state, *fileset);
            }
            let coming = Coming {
                id: *fileset,
                from: *from,
                ship: *ship,
                moves: *moves,
                at: *at,
            };
            slot_of(&state.slots, &Sought::Awaiting(coming))
        }
        _ => SLOTS,
    }
}

// The slot of which it may change all else.
fn other_touched(state: &StoreState, act: &Act) -> usize
    ensures { result ≡ other_touched state.now act.now }
{
    match act {
        Act::Do { call, .. } => match state.numbered_id(call) {
            Some(id) => slot_of(&state.slots, &Sought::Of(id)),
            None => SLOTS,
        },
        Act::Refuse { fileset, .. } | Act::Leave { fileset, .. } | Act::Back { fileset, .. } => {
            slot_of(&state.slots, &Sought::Of(*fileset))
        }
        _ => slot_touched(state, act),
    }
}

// The slot that it clones.
fn source_touched(state: &StoreState, act: &Act) -> usize
    ensures { result ≡ source_touched state.now act.now }
{
    match act {
        Act::Do {
            call: Call::CloneFileset { fileset, .. },
            ..
        } => slot_of(&state.slots, &Sought::HereAs(fileset)),
        _ => SLOTS,
    }
}

// Whether an act may change more of anodes than the bytes of one file.
pub(crate) fn renews(act: &Act) -> bool
    ensures { result ≡ renews act.now }
{
    matches!(
        act,
        Act::Do { .. } | Act::Left { .. } | Act::Settle { .. } | Act::Part { .. }
    )
}

// What is seen of anodes that were never used.
fn unused_anodes(alloc: Global) -> Result<Items<SeenAnode>, NoMemory>
    ensures { IfOk result (λ anodes. anodes ≡ map seen_anode (replicate 64 unused_anode)) }
{
    let mut anodes = Items::new(alloc);
    for at in 0..ANODES {
        anodes.push(SeenAnode {
            unique: 0,
            object: None,
        })?;
    }
    Ok(anodes)
}

fn anodes_before(state: &StoreState, slot: usize) -> Result<Items<SeenAnode>, NoMemory>
    ensures { IfOk result (λ seen. seen ≡ map seen_anode (anodes_before (held_in state.now.slots slot))) }
{
    let alloc = state.slots.alloc();
    match held_at(&state.slots, slot) {
        Some(holding) => see_anodes(alloc, holding.fileset.anodes.as_slice()),
        None => unused_anodes(alloc),
    }
}

// Whether a fid names a file that is there.
fn is_file_at(fileset: &Fileset, fid: Fid) -> bool
    ensures { result ≡ is_file_at fileset.now fid }
{
    let is_file = match object_at(&fileset.anodes, fid.anode) {
        Some(object) => !object.is_dir(),
        None => false,
    };
    unique_at(&fileset.anodes, fid.anode) == fid.unique && is_file
}

// Whether a give-back is on a file that is there and may be changed.
fn gives(state: &StoreState, act: &Act) -> bool
    ensures { result ≡ gives state.now act.now }
{
    let Act::Give { fid, .. } = act else {
        return false;
    };
    match held(&state.slots, &Sought::Of(fid.fileset)) {
        Some(holding) => holding.stay.is_writable() && is_file_at(&holding.fileset, *fid),
        None => false,
    }
}

/// What has to be kept of a store before an act, so that its change can be put on the disk. `NoMemory` comes where
/// memory runs out, and nothing has changed then.
pub fn keep_before(state: &StoreState, act: &Act) -> Result<Before, NoMemory>
    ensures { IfOk result (λ before. IsBefore state.now act.now before) }
{
    let alloc = state.slots.alloc();
    let slot = slot_touched(state, act);
    let anodes = if renews(act) {
        anodes_before(state, slot)?
    } else {
        Items::new(alloc)
    };
    Ok(Before {
        slot,
        other: other_touched(state, act),
        source: source_touched(state, act),
        gives: gives(state, act),
        anodes,
    })
}
