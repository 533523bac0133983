// Whether what an act left is what a disk can have.
ghost use Rattle.std.specs.Prelude.{◌≡◌, ◌↔◌, true, false, IsTrue, IfOk};
ghost use Rattle.std.specs.List.{list_all};
ghost use Rattle.std.specs.Option.{option_map_or};
ghost use Rattle.tree_filesets.specs.Laws.{entries_in};
ghost use Rattle.store_acts.specs.Sound.{HasName, IsAllowed};
ghost use Rattle.store_records.specs.Stored.{MayArrive};
ghost use Rattle.store_records.specs.Stands.{
  are_within,
  is_within,
  AllRise,
  CamePlain,
  DidntFit,
  IsPlain,
  LeavesStorable,
  MayCome,
  MayHold,
};

use crate::tree::{has_root, is_well_formed};
use base_types::{FilesetId, Items, Name, NoMemory, OBJECTS_MAX, SERVERS_MAX, ServerId};
use store_acts::Act;
use store_state::{Holding, Sought, Stay, StoreState, held};
use tree_calls::{Call, DirEntry, ShipPart};
use tree_objects::{Anode, Content};

// Whether an entry leads to an anode that there may be.
fn is_within(entry: &DirEntry) -> bool
    ensures { result ≡ is_within entry.now }
{
    1 <= entry.anode && entry.anode <= OBJECTS_MAX
}

// Whether all entries of a directory do.
fn entries_within(content: &Content) -> bool
    ensures { result ≡ list_all is_within (entries_in content.now) }
{
    match content {
        Content::Dir { entries, .. } => entries.as_slice().iter().all(|entry| is_within(entry)),
        Content::File { .. } => true,
    }
}

fn object_within(anode: &Anode) -> bool
    ensures { result ≡ option_map_or (λ object. list_all is_within (entries_in object.content)) anode.now.object true }
{
    match &anode.object {
        Some(object) => entries_within(&object.content),
        None => true,
    }
}

// Whether all entries of all directories do.
fn are_within(anodes: &Items<Anode>) -> bool
    ensures { result ≡ are_within anodes.now }
{
    anodes.as_slice().iter().all(|anode| object_within(anode))
}

// Whether these anodes may have come with so many parts.
fn may_arrive(objects: u32, parts: u32, anodes: &Items<Anode>) -> bool
    ensures arrive { result ≡ true → MayArrive objects parts anodes.now }
    ensures refused { result ≡ false → AllRise anodes.now → MayArrive objects parts anodes.now → ⊥ }
{
    if parts < 1 || parts > objects || anodes.len() != parts as usize - 1 {
        return false;
    }
    (parts == 1 || has_root(anodes)) && are_within(anodes)
}

// Whether what came of a fileset may be held.
fn may_hold(holding: &Holding) -> Result<bool, NoMemory>
    ensures hold { IfOk result (λ may. may ≡ true → MayHold holding.now.fileset holding.now.stay) }
    ensures refused { IfOk result (λ may. may ≡ false
        → IsPlain holding.now.fileset → MayHold holding.now.fileset holding.now.stay → ⊥) }
{
    let fileset = &holding.fileset;
    match holding.stay {
        Stay::Writable => is_well_formed(fileset),
        Stay::Arriving { parts, .. } => Ok(may_arrive(fileset.objects, parts, &fileset.anodes)),
        Stay::Clone | Stay::Leaving { .. } | Stay::Gone { .. } => Ok(true),
    }
}

// Whether a fileset in a store can have this id.
fn is_allowed(state: &StoreState, id: FilesetId) -> bool
    ensures { IsTrue result ↔ IsAllowed state.now id }
{
    let (server, number) = (id.0 / 65_536, id.0 % 65_536);
    1 <= server
        && server <= u32::from(SERVERS_MAX)
        && 1 <= number
        && (server != u32::from(state.server.0) || number < state.next)
}

// Whether a part of a fileset may come.
fn may_come(
    after: &StoreState,
    from: ServerId,
    id: FilesetId,
    part: &ShipPart,
) -> Result<bool, NoMemory>
    ensures come { IfOk result (λ may. may ≡ true → MayCome after.now from id part.now) }
    ensures refused { IfOk result (λ may. may ≡ false
        → CamePlain after.now id part.now → MayCome after.now from id part.now → ⊥) }
{
    match part {
        ShipPart::Head { name, .. } => {
            Ok(from != after.server && is_allowed(after, id) && Name::accepts(name.as_bytes()))
        }
        ShipPart::Object { .. } => match held(&after.slots, &Sought::Of(id)) {
            Some(holding) => may_hold(holding),
            None => Ok(true),
        },
    }
}

// Whether a fileset that a call makes gets a name. It always does, by the type of names.
fn has_name(call: &Call) -> bool
    ensures { IsTrue result ↔ HasName call.now }
{
    match call {
        Call::NewFileset { name, .. } => Name::accepts(name.as_bytes()),
        Call::CloneFileset { new, .. } => Name::accepts(new.as_bytes()),
        _ => true,
    }
}

/// Whether what an act left of a store's record is one that a disk can have, where the record before it was one. It is
/// so of each act that was done now and fits. The only error is want of memory.
pub fn may_stand(act: &Act, after: &StoreState) -> Result<bool, NoMemory>
    ensures stands { IfOk result (λ may. may ≡ true → LeavesStorable act.now after.now) }
    ensures refused { IfOk result (λ may. may ≡ false → DidntFit act.now after.now) }
{
    match act {
        Act::Do { call, .. } => Ok(has_name(call)),
        Act::Leave { to, .. } => Ok(*to != after.server),
        Act::Part {
            from,
            fileset,
            part,
            ..
        } => may_come(after, *from, *fileset, part),
        _ => Ok(true),
    }
}
