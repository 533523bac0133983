//! What a store tells.
ghost use Rattle.std.specs.Prelude.{◌≡◌, ◌≤◌, ◌-◌, true, take, drop, length, IfOk, IfSome};
ghost use Rattle.std.specs.Option.{option_copied};
ghost use Rattle.base_types.specs.declared.limits.TheConstants.{OBJECTS_MAX, FILESETS_MAX};
ghost use Rattle.store_acts.specs.Parts.{is_tellable, kept_bytes};
ghost use Rattle.store_memory.specs.Sound.{IsLeavingOf};
ghost use Rattle.store_memory.specs.Reading.{
  host_state,
  last_of,
  fileset_of,
  fids_from,
  files_of,
  walk_in,
  looked_up,
  object_in,
  object_named,
  status_told,
  bytes_told,
  entries_told,
  is_kept,
  filesets_kept,
  kept_of,
  slot_told,
  slots_from,
  shipped,
};

use crate::told::{Kept, Looked, Slot};
use crate::walking::walk;
use base_types::{Fid, FilesetId, HostId, Items, NoMemory, OBJECTS_MAX, Plain, Span, User};
use std::alloc::Global;
use store_acts::{entries_in, free_part, part_of, status_of, told_object};
use store_state::{
    Holding, HostState, NO_RECORD, Sought, Stay, StoreState, held, record_of, unique_at,
};
use tree_calls::{DirEntry, Mover, Place, Record, ShipPart, Status};
use tree_filesets::Fileset;
use tree_objects::{Anode, Content, Object};

// The objects at anodes, of which the first has this number.
fn fids_from(alloc: Global, id: FilesetId, anodes: &[Anode]) -> Result<Items<Fid>, NoMemory>
    requires { length anodes.now ≤ OBJECTS_MAX }
    ensures { IfOk result (λ fids. fids ≡ fids_from id 1 anodes.now) }
{
    let mut fids = Items::new(alloc);
    for (place, anode) in anodes.iter().enumerate() {
        if anode.object.is_some() {
            fids.push(Fid {
                fileset: id,
                anode: place as u32 + 1,
                unique: anode.unique,
            })?;
        }
    }
    Ok(fids)
}

// The objects at anodes that are counted from 1.
#[tactic(auto, using(std::proofs::lemmas::List::take_min))]
fn fids_of(alloc: Global, id: FilesetId, anodes: &Items<Anode>) -> Result<Items<Fid>, NoMemory>
    ensures { IfOk result (λ fids. fids ≡ fids_from id 1 (take OBJECTS_MAX anodes.now)) }
{
    let end = (OBJECTS_MAX as usize).min(anodes.len());
    fids_from(alloc, id, &anodes.as_slice()[..end])
}

// A part of the bytes of a file.
fn part_of_bytes(bytes: &Items<u8>, span: Span) -> &[u8]
    ensures { result.now ≡ take (span.to - span.from) (drop span.from bytes.now) }
{
    let from = (span.from as usize).min(bytes.len());
    let rest = &bytes.as_slice()[from..];
    let len = (span.len() as usize).min(rest.len());
    &rest[..len]
}

// The bytes of an object in a span.
fn bytes_in(alloc: Global, content: &Content, span: Span) -> Result<Items<u8>, NoMemory>
    ensures { IfOk result (λ bytes. bytes ≡ take (span.to - span.from) (drop span.from (kept_bytes content.now))) }
{
    match content {
        Content::Dir { .. } => Ok(Items::new(alloc)),
        Content::File { kept, .. } => Items::from_slice(alloc, part_of_bytes(kept, span)),
    }
}

// The object that a fid names in a fileset, as far as it may be told.
fn object_in(fileset: &Fileset, fid: Fid) -> Option<&Object>
    ensures value { option_copied result ≡ object_in fileset.now fid }
    ensures tellable { IfSome result (λ object. is_tellable object.now.content ≡ true) }
{
    if unique_at(&fileset.anodes, fid.anode) != fid.unique {
        return None;
    }
    told_object(&fileset.anodes, fid.anode)
}

// Where a path leads in a fileset.
fn walk_in(fileset: &Fileset, user: &User, place: &Place) -> Looked
    ensures { result ≡ walk_in fileset.now user.now place.now }
{
    match walk(fileset, user, place.path.as_slice()) {
        Ok(anode) => Looked::Found(Fid {
            fileset: fileset.id,
            anode,
            unique: unique_at(&fileset.anodes, anode),
        }),
        Err(refusal) => Looked::Refused(refusal),
    }
}

// Whether a fileset is here or leaving.
fn is_kept(stay: Stay) -> bool
    ensures { result ≡ is_kept stay }
{
    stay.is_here() || stay.is_leaving()
}

fn slot_told(at: u32, holding: &Holding) -> Result<Slot, NoMemory>
    ensures { IfOk result (λ slot. slot ≡ slot_told at holding.now) }
{
    Ok(Slot {
        at,
        fileset: holding.fileset.id,
        name: holding.fileset.name.copy()?,
        objects: holding.fileset.objects,
        moves: holding.fileset.moves,
        stay: holding.stay,
    })
}

// The filesets that are kept.
fn filesets_kept(slots: &Items<Option<Holding>>) -> Result<Items<Fileset>, NoMemory>
    ensures { IfOk result (λ filesets. filesets ≡ filesets_kept slots.now) }
{
    let mut filesets = Items::new(slots.alloc());
    for slot in slots.as_slice() {
        if let Some(holding) = slot {
            if is_kept(holding.stay) {
                filesets.push(holding.fileset.copy()?)?;
            }
        }
    }
    Ok(filesets)
}

/// What is known of a host.
pub(crate) fn host_state(state: &StoreState, host: HostId) -> HostState
    ensures { result ≡ host_state state.now host }
{
    match state.hosts.at(host.0 as usize) {
        Some(known) => *known,
        None => HostState::Unknown,
    }
}

/// What is kept of a host's requests on a fileset; nothing where it isn't here.
pub(crate) fn last_of(state: &StoreState, host: HostId, id: FilesetId) -> Record
    ensures change { result.change ≡ last_of state.now host id (λ kept. kept.change) }
    ensures give { result.give ≡ last_of state.now host id (λ kept. kept.give) }
{
    match state.records_of(id) {
        Some(records) => record_of(records, host),
        None => NO_RECORD,
    }
}

// The fileset of an id that is here.
fn fileset_of(state: &StoreState, id: FilesetId) -> Option<&Fileset>
    ensures { option_copied result ≡ fileset_of state.now id }
{
    match held(&state.slots, &Sought::HereOf(id)) {
        Some(holding) => Some(&holding.fileset),
        None => None,
    }
}

/// The objects of a fileset that is here.
pub(crate) fn files(state: &StoreState, id: FilesetId) -> Result<Items<Fid>, NoMemory>
    ensures { IfOk result (λ files. files ≡ files_of state.now id) }
{
    let alloc = state.slots.alloc();
    match fileset_of(state, id) {
        Some(fileset) => fids_of(alloc, id, &fileset.anodes),
        None => Ok(Items::new(alloc)),
    }
}

/// Where a place leads.
pub(crate) fn look_up(state: &StoreState, user: &User, place: &Place) -> Looked
    ensures { result ≡ looked_up state.now user.now place.now }
{
    match state.fileset_here(&place.fileset) {
        Ok(fileset) => walk_in(fileset, user, place),
        Err(refusal) => Looked::Refused(refusal),
    }
}

// The object that a fid names, as far as it may be told.
fn object_named(state: &StoreState, fid: Fid) -> Option<&Object>
    ensures value { option_copied result ≡ object_named state.now fid }
    ensures tellable { IfSome result (λ object. is_tellable object.now.content ≡ true) }
{
    match fileset_of(state, fid.fileset) {
        Some(fileset) => object_in(fileset, fid),
        None => None,
    }
}

/// What is told of an object.
pub(crate) fn status(state: &StoreState, fid: Fid) -> Result<Option<Status>, NoMemory>
    ensures { IfOk result (λ status. status ≡ status_told state.now fid) }
{
    let Some(fileset) = fileset_of(state, fid.fileset) else {
        return Ok(None);
    };
    match object_in(fileset, fid) {
        Some(object) => Ok(Some(status_of(fileset.read_only, object)?)),
        None => Ok(None),
    }
}

/// The bytes of a file in a span.
pub(crate) fn bytes(state: &StoreState, fid: Fid, span: Span) -> Result<Items<u8>, NoMemory>
    ensures { IfOk result (λ bytes. bytes ≡ bytes_told state.now fid span) }
{
    let alloc = state.slots.alloc();
    match object_named(state, fid) {
        Some(object) => bytes_in(alloc, &object.content, span),
        None => Ok(Items::new(alloc)),
    }
}

/// The entries of a directory.
pub(crate) fn entries(state: &StoreState, fid: Fid) -> Result<Items<DirEntry>, NoMemory>
    ensures { IfOk result (λ entries. entries ≡ entries_told state.now fid) }
{
    match object_named(state, fid) {
        Some(object) => entries_in(&object.content),
        None => Ok(Items::new(state.slots.alloc())),
    }
}

/// The filesets that are kept.
pub(crate) fn kept(state: &StoreState) -> Result<Kept, NoMemory>
    ensures { IfOk result (λ kept. kept ≡ kept_of state.now) }
{
    Ok(Kept {
        capacity: state.capacity,
        next: state.next,
        filesets: filesets_kept(&state.slots)?,
    })
}

/// The slots that are used.
pub(crate) fn slots_told(state: &StoreState) -> Result<Items<Slot>, NoMemory>
    requires { length state.now.slots ≤ FILESETS_MAX }
    ensures { IfOk result (λ slots. slots ≡ slots_from 0 state.now.slots) }
{
    let mut slots = Items::new(state.slots.alloc());
    for (at, slot) in state.slots.as_slice().iter().enumerate() {
        if let Some(holding) = slot {
            slots.push(slot_told(at as u32, holding)?)?;
        }
    }
    Ok(slots)
}

/// Whether a part of a fileset that is leaving may be told: the fileset is leaving, and has an anode of that number.
pub fn tells_part(state: &StoreState, fileset: FilesetId, at: u32) -> bool
    ensures is { result ≡ true → IsLeavingOf state.now fileset at }
    ensures each { IsLeavingOf state.now fileset at → result ≡ true }
{
    match held(&state.slots, &Sought::Of(fileset)) {
        Some(holding) => holding.stay.is_leaving() && at <= holding.fileset.objects,
        None => false,
    }
}

/// A part of a fileset that is leaving.
pub(crate) fn ship_part(
    state: &StoreState,
    id: FilesetId,
    at: u32,
    mover: &Mover,
) -> Result<ShipPart, NoMemory>
    ensures { IfOk result (λ part. part ≡ shipped state.now id at mover.now) }
{
    let alloc = state.slots.alloc();
    match held(&state.slots, &Sought::Of(id)) {
        Some(holding) => part_of(alloc, holding, at, mover),
        None => Ok(free_part(alloc, at, 0)),
    }
}
