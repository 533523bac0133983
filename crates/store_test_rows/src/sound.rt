//! Whether acts and calls may be given to a store.
ghost use Rattle.std.specs.Prelude.{IsTrue, ◌+◌, ◌≤◌, ◌≡◌, ◌==◌};
ghost use Rattle.std.specs.Prelude.{nat_eq, true, false, length, Some, IfSome};
ghost use Rattle.std.specs.Option.{option_copied};
ghost use Rattle.store_memory.specs.declared.told.Slot.{Slot};
ghost use Rattle.std.specs.List.{find};
ghost use Rattle.base_types.specs.declared.limits.TheConstants.{FILE_BYTES_MAX};
ghost use Rattle.store_state.specs.State.{is_leaving};
ghost use Rattle.message_types.specs.Soundness.{Each, IsServer, IsHost, IsCall, IsShort, IsMove, IsPart};
ghost use Rattle.store_acts.specs.Sound.{IsAct, AreActs, IsDecided, IsFor};

use base_types::{
    BATCH_ACTS_MAX, FILE_BYTES_MAX, FilesetId, GROUPS_MAX, HostId, OBJECTS_MAX, ServerId,
};
use store_memory::{Act, Slot};
use tree_calls::{Call, Piece, Place, Roster, ShipPart};

pub fn is_server(roster: &Roster, server: ServerId) -> bool
    ensures { IsTrue result → IsServer roster.now server }
{
    1 <= server.0 && server.0 as usize <= roster.capacity.len()
}

pub fn is_host(roster: &Roster, host: HostId) -> bool
    ensures { IsTrue result → IsHost roster.now host }
{
    host.0 as usize <= roster.hosts.len()
}

fn is_place(roster: &Roster, place: &Place) -> bool
    ensures server { IsTrue result → IsServer roster.now place.now.server }
    ensures path { IsTrue result → IsShort place.now.path }
{
    place.path.len() <= 65_535 && is_server(roster, place.server)
}

/// Whether a call may be asked.
pub fn is_call(roster: &Roster, call: &Call) -> bool
    ensures { IsTrue result → IsCall roster.now call.now }
{
    match call {
        Call::NewFileset {
            server,
            name: _,
            objects,
            owner,
        } => {
            is_server(roster, *server)
                && 1 <= *objects
                && *objects <= OBJECTS_MAX
                && 1 <= owner.groups.len()
                && owner.groups.len() <= GROUPS_MAX
        }
        Call::CloneFileset { server, .. } => is_server(roster, *server),
        Call::MoveFileset {
            server,
            fileset: _,
            to,
        } => is_server(roster, *server) && is_server(roster, *to),
        Call::Rename { from, to } => is_place(roster, from) && is_place(roster, to),
        Call::Create { place } => is_place(roster, place),
        Call::MakeDir { place } => is_place(roster, place),
        Call::Remove { place } => is_place(roster, place),
        Call::Truncate { place, .. } => is_place(roster, place),
        Call::SetAcl { place, .. } => is_place(roster, place),
        Call::Read { place, .. } => is_place(roster, place),
        Call::Write { place, bytes, .. } => {
            bytes.len() <= 4_294_967_295 && is_place(roster, place)
        }
        Call::List { place } => is_place(roster, place),
        Call::Stat { place } => is_place(roster, place),
        Call::GetAcl { place, .. } => is_place(roster, place),
        Call::Sync { place } => is_place(roster, place),
        Call::Lock { place, .. } => is_place(roster, place),
        Call::OpenFile { place, .. } => is_place(roster, place),
        Call::Unlock { .. } | Call::CloseFile { .. } => true,
    }
}

/// Whether a new fileset is this server's.
pub fn is_for(server: ServerId, call: &Call) -> bool
    ensures { IsTrue result → IsFor server call.now }
{
    match call {
        Call::NewFileset { server: at, .. } => *at == server,
        _ => true,
    }
}

pub fn is_move(call: &Call) -> bool
    ensures yes { IsTrue result → IsMove call.now }
    ensures no { result ≡ false → IsMove call.now → ⊥ }
{
    matches!(call, Call::MoveFileset { .. })
}

fn is_decided(call: &Call) -> bool
    ensures { IsTrue result → IsDecided call.now }
{
    matches!(
        call,
        Call::NewFileset { .. }
            | Call::Create { .. }
            | Call::MakeDir { .. }
            | Call::Remove { .. }
            | Call::Rename { .. }
            | Call::Truncate { .. }
            | Call::SetAcl { .. }
            | Call::CloneFileset { .. }
    )
}

fn are_pieces(pieces: &[Piece]) -> bool
    ensures { IsTrue result → Each (λ piece. piece.from + length piece.bytes ≤ FILE_BYTES_MAX) pieces.now }
{
    match pieces.split_first() {
        Some((piece, rest)) => {
            piece.from <= FILE_BYTES_MAX
                && piece.bytes.len() <= (FILE_BYTES_MAX - piece.from) as usize
                && are_pieces(rest)
        }
        None => true,
    }
}

fn is_length(length: Option<u32>) -> bool
    ensures { IsTrue result → IfSome length (λ n. n ≤ FILE_BYTES_MAX) }
{
    match length {
        Some(length) => length <= FILE_BYTES_MAX,
        None => true,
    }
}

// Whether a server may send a part of a fileset, and it is that of a free anode.
fn is_free_part(roster: &Roster, from: ServerId, at: u32, part: &ShipPart) -> bool
    ensures from { IsTrue result → IsServer roster.now from }
    ensures part { IsTrue result → IsPart roster.now at part.now }
{
    match part {
        ShipPart::Object {
            anode,
            status: None,
            pieces,
            entries,
            ..
        } => {
            is_server(roster, from)
                && 1 <= at
                && at <= OBJECTS_MAX
                && *anode == at
                && pieces.is_empty()
                && entries.is_empty()
        }
        _ => false,
    }
}

// Whether a store may be given an act, which is no part of a fileset but that of a free anode.
fn is_act(roster: &Roster, server: ServerId, act: &Act) -> bool
    ensures { IsTrue result → IsAct roster.now server act.now }
{
    match act {
        Act::Boot | Act::Epoch | Act::Left { .. } | Act::Settle { .. } => true,
        Act::Host { host, .. } | Act::Refuse { host, .. } | Act::Back { host, .. } => {
            is_host(roster, *host)
        }
        Act::Do {
            host,
            number: _,
            call,
        } => {
            is_host(roster, *host)
                && is_decided(call)
                && is_for(server, call)
                && is_call(roster, call)
        }
        Act::Give {
            host,
            number: _,
            fid: _,
            pieces,
            length,
        } => is_host(roster, *host) && are_pieces(pieces.as_slice()) && is_length(*length),
        Act::Leave { fileset: _, to } => is_server(roster, *to),
        Act::Part { from, at, part, .. } => is_free_part(roster, *from, *at, part),
    }
}

fn is_each_act(roster: &Roster, server: ServerId, batch: &[Act]) -> bool
    ensures { IsTrue result → Each (IsAct roster.now server) batch.now }
{
    match batch.split_first() {
        Some((act, rest)) => is_act(roster, server, act) && is_each_act(roster, server, rest),
        None => true,
    }
}

/// Whether a store may be given a batch, in which parts of filesets are those of free anodes.
pub fn are_acts(roster: &Roster, server: ServerId, batch: &[Act]) -> bool
    ensures { IsTrue result → AreActs roster.now server batch.now }
{
    batch.len() <= BATCH_ACTS_MAX && is_each_act(roster, server, batch)
}

fn slot_of(slots: &[Slot], id: FilesetId) -> Option<&Slot>
    ensures { option_copied result ≡ find (λ slot. slot.fileset.0 == id.0) slots.now }
{
    slots.iter().find(|slot| slot.fileset == id)
}

/// Whether a fileset is leaving, and has an anode of this number, by what is told of the slots.
pub fn is_leaving(slots: &[Slot], id: FilesetId, at: u32) -> bool
    ensures { IsTrue result → (slot : Slot) × (find (λ slot. slot.fileset.0 == id.0) slots.now ≡ Some slot)
        × (is_leaving slot.stay ≡ true) × (at ≤ slot.objects) }
{
    match slot_of(slots, id) {
        Some(slot) => slot.stay.is_leaving() && at <= slot.objects,
        None => false,
    }
}
