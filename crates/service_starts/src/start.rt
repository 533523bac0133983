//! The file tree that a run starts from.
ghost use Rattle.std.specs.Prelude.{◌≡◌, ◌<◌, ◌≤◌, [], fold, length, nat_lt, IfOk, OnOk, IfSome};
ghost use Rattle.std.specs.List.{find, filter_map, position};
ghost use Rattle.std.specs.Option.{option_copied, option_map_or};
ghost use Rattle.base_types.specs.declared.limits.TheConstants.{SERVERS_MAX};
ghost use Rattle.tree_answers.specs.Away.{away_before, away_place, with_away};
ghost use Rattle.tree_answers.specs.Finding.{has_id, id_place};
ghost use Rattle.service_starts.specs.Told.{placed, placed_at, rooms_of};
ghost use Rattle.service_starts.specs.Starting.{kept_by, keeper_of, fileset_of, fileset_in, left_for, away_of, away_in};
ghost use Rattle.service_starts.specs.Starting.{with_one, start_of};

use crate::told::{Told, stands, told_of};
use base_types::{FilesetId, Items, NoMemory, Plain, ServerId};
use std::alloc::Global;
use store_memory::{Slot, Stay};
use tree_answers::{Away, ServerRoom, Tree};
use tree_calls::Roster;
use tree_filesets::Fileset;

// The filesets that a server's store keeps.
fn kept_by(all: &[Told], server: ServerId) -> &[Fileset]
    ensures { result.now ≡ kept_by all.now server }
{
    match told_of(all, server) {
        Some(told) => told.kept.filesets.as_slice(),
        None => &[],
    }
}

// The server that keeps what there is of a fileset in a slot.
fn keeper_of(server: ServerId, stay: Stay) -> ServerId
    ensures { result ≡ keeper_of server stay }
{
    match stay {
        Stay::Arriving { from, .. } => from,
        Stay::Writable | Stay::Clone | Stay::Leaving { .. } | Stay::Gone { .. } => server,
    }
}

fn find_with_id(filesets: &[Fileset], id: FilesetId) -> Option<&Fileset>
    ensures { option_copied result ≡ find (has_id id) filesets.now }
{
    filesets.iter().find(|fileset| fileset.id == id)
}

// The fileset of a slot, at the slot's server and with its moves.
fn fileset_of(all: &[Told], server: ServerId, slot: &Slot) -> Result<Option<Fileset>, NoMemory>
    ensures { IfOk result (λ found. found ≡ fileset_of all.now (record { server = server; slot = slot.now })) }
{
    let kept = kept_by(all, keeper_of(server, slot.stay));
    match find_with_id(kept, slot.fileset) {
        Some(fileset) => {
            let mut fileset = fileset.copy()?;
            fileset.server = server;
            fileset.moves = slot.moves;
            Ok(Some(fileset))
        }
        None => Ok(None),
    }
}

// The fileset that is in a slot.
fn fileset_in(all: &[Told], server: ServerId, slot: &Slot) -> Result<Option<Fileset>, NoMemory>
    ensures { IfOk result (λ found. found ≡ fileset_in all.now (record { server = server; slot = slot.now })) }
{
    if stands(all, slot) {
        fileset_of(all, server, slot)
    } else {
        Ok(None)
    }
}

fn position_above(filesets: &Items<Fileset>, id: FilesetId) -> Option<usize>
    ensures value { result ≡ position (λ fileset. nat_lt id.0 fileset.id.0) filesets.now }
    ensures within { IfSome result (λ place. place < length filesets.now) }
{
    filesets
        .as_slice()
        .iter()
        .position(|fileset| id.0 < fileset.id.0)
}

// Where a fileset goes in the list.
fn id_place(filesets: &Items<Fileset>, id: FilesetId) -> usize
    ensures value { result ≡ id_place filesets.now id }
    ensures within { result ≤ length filesets.now }
{
    match position_above(filesets, id) {
        Some(place) => place,
        None => filesets.len(),
    }
}

// Puts a fileset among the others, if there is one.
fn put_fileset(filesets: &mut Items<Fileset>, found: Option<Fileset>) -> Result<(), NoMemory>
    ensures { OnOk result (filesets.new ≡ option_map_or (with_one filesets.old) found filesets.old) }
{
    if let Some(fileset) = found {
        let place = id_place(filesets, fileset.id);
        filesets.insert(place, fileset)?;
    }
    Ok(())
}

// Puts the filesets that are in a server's slots among the others.
fn put_filesets(
    all: &[Told],
    server: ServerId,
    slots: &[Slot],
    filesets: &mut Items<Fileset>,
) -> Result<(), NoMemory>
    ensures { OnOk result
        (filesets.new ≡ fold with_one filesets.old (filter_map (fileset_in all.now) (placed_at server.0 slots.now))) }
{
    for slot in slots {
        put_fileset(filesets, fileset_in(all, server, slot)?)?;
    }
    Ok(())
}

// The filesets of all servers, in the order of their ids.
fn filesets_of(alloc: Global, all: &[Told]) -> Result<Items<Fileset>, NoMemory>
    requires { length all.now ≤ SERVERS_MAX }
    ensures { IfOk result (λ filesets. filesets ≡ fold with_one [] (filter_map (fileset_in all.now) (placed all.now))) }
{
    let mut filesets = Items::new(alloc);
    for (place, told) in all.iter().enumerate() {
        let server = ServerId(place as u8 + 1);
        put_filesets(all, server, told.slots.as_slice(), &mut filesets)?;
    }
    Ok(filesets)
}

fn left_for(server: ServerId, slot: &Slot, to: ServerId, room_kept: bool) -> Result<Away, NoMemory>
    ensures { IfOk result (λ away. away
        ≡ record (left_for (record { server = server; slot = slot.now }) to) { room_kept = room_kept }) }
{
    Ok(Away {
        server,
        fileset: slot.fileset,
        name: slot.name.copy()?,
        to,
        room_kept,
    })
}

// The record of a slot in which the fileset isn't.
fn away_in(all: &[Told], server: ServerId, slot: &Slot) -> Result<Option<Away>, NoMemory>
    ensures { IfOk result (λ found. found ≡ away_in all.now (record { server = server; slot = slot.now })) }
{
    if stands(all, slot) {
        return Ok(None);
    }
    match slot.stay {
        Stay::Writable | Stay::Clone | Stay::Arriving { .. } => Ok(None),
        Stay::Leaving { to, .. } => Ok(Some(left_for(server, slot, to, true)?)),
        Stay::Gone { to } => Ok(Some(left_for(server, slot, to, false)?)),
    }
}

fn is_before(server: ServerId, id: FilesetId, away: &Away) -> bool
    ensures { result ≡ away_before server id away.now }
{
    server < away.server || (server == away.server && id < away.fileset)
}

fn position_behind(records: &Items<Away>, server: ServerId, id: FilesetId) -> Option<usize>
    ensures value { result ≡ position (away_before server id) records.now }
    ensures within { IfSome result (λ place. place < length records.now) }
{
    records
        .as_slice()
        .iter()
        .position(|away| is_before(server, id, away))
}

// Where a server's record of a fileset goes in the list.
fn away_place(records: &Items<Away>, server: ServerId, id: FilesetId) -> usize
    ensures value { result ≡ away_place records.now server id }
    ensures within { result ≤ length records.now }
{
    match position_behind(records, server, id) {
        Some(place) => place,
        None => records.len(),
    }
}

// Puts a record among the others, if there is one.
fn put_record(records: &mut Items<Away>, found: Option<Away>) -> Result<(), NoMemory>
    ensures { OnOk result (records.new ≡ option_map_or (with_away records.old) found records.old) }
{
    if let Some(away) = found {
        let place = away_place(records, away.server, away.fileset);
        records.insert(place, away)?;
    }
    Ok(())
}

// Puts the records of a server's slots among the others.
fn put_records(
    all: &[Told],
    server: ServerId,
    slots: &[Slot],
    records: &mut Items<Away>,
) -> Result<(), NoMemory>
    ensures { OnOk result
        (records.new ≡ fold with_away records.old (filter_map (away_in all.now) (placed_at server.0 slots.now))) }
{
    for slot in slots {
        put_record(records, away_in(all, server, slot)?)?;
    }
    Ok(())
}

// The records of all servers, in the order of servers and then of ids.
fn records_of(alloc: Global, all: &[Told]) -> Result<Items<Away>, NoMemory>
    requires { length all.now ≤ SERVERS_MAX }
    ensures { IfOk result (λ records. records ≡ fold with_away [] (filter_map (away_in all.now) (placed all.now))) }
{
    let mut records = Items::new(alloc);
    for (place, told) in all.iter().enumerate() {
        let server = ServerId(place as u8 + 1);
        put_records(all, server, told.slots.as_slice(), &mut records)?;
    }
    Ok(records)
}

// What the servers have for further filesets.
fn rooms_of(alloc: Global, all: &[Told]) -> Result<Items<ServerRoom>, NoMemory>
    ensures { IfOk result (λ rooms. rooms ≡ rooms_of all.now) }
{
    let mut rooms = Items::new(alloc);
    for told in all {
        rooms.push(ServerRoom {
            capacity: told.kept.capacity,
            next: told.kept.next,
        })?;
    }
    Ok(rooms)
}

/// The file tree that a run starts from, with who takes part in it: the filesets that the stores keep, each where it is
/// once the unfinished moves are settled, whether they were or not; of those that left a server, its record. Nothing is
/// in use. It is told of each declared server, from the first on. `NoMemory` comes where memory runs out.
pub fn start_tree(alloc: Global, roster: &Roster, all: &[Told]) -> Result<Tree, NoMemory>
    requires { length all.now ≤ SERVERS_MAX }
    ensures { IfOk result (λ tree. tree ≡ start_of roster.now all.now) }
{
    let (rooms, filesets) = (rooms_of(alloc, all)?, filesets_of(alloc, all)?);
    let records = records_of(alloc, all)?;
    Ok(Tree {
        roster: roster.copy()?,
        servers: rooms,
        filesets,
        away: records,
        locks: Items::new(alloc),
        opens: Items::new(alloc),
    })
}
