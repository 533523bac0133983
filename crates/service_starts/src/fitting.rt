//! Whether the disks of servers fit one another, and which moves are settled.
ghost use Rattle.std.specs.Prelude.{◌≡◌, ◌≤◌, ◌++◌, ◌&&◌, None, length, not, OnOk, IfOk, IfErr};
ghost use Rattle.std.specs.List.{find, list_any, list_all};
ghost use Rattle.std.specs.Option.{option_copied};
ghost use Rattle.base_types.specs.declared.limits.TheConstants.{SERVERS_MAX};
ghost use Rattle.tree_answers.specs.WellFormed.{is_given};
ghost use Rattle.store_acts.specs.Moving.{is_unsettled};
ghost use Rattle.store_acts.specs.declared.act.Act.TheVariants.{Settle};
ghost use Rattle.service_starts.specs.Told.{placed_at, rooms_of, is_same, is_later, stands};
ghost use Rattle.service_starts.specs.Fitting.{has_disk, is_shipped, is_sender, is_matched, is_clone, is_still};
ghost use Rattle.service_starts.specs.Fitting.{is_still_in, is_continued, is_earlier, fits, misfit, IsRefused, is_open};
ghost use Rattle.service_starts.specs.Fitting.{settlings_in, settlings_of};

use crate::told::{Told, has_come, is_later, is_same, slots_of, stands, told_of};
use base_types::{FilesetId, Items, NoMemory, SERVERS_MAX, ServerId};
use std::alloc::Global;
use store_memory::{Act, Slot, Stay};
use thiserror::Error;

/// Why the disks of servers can't be run together.
#[derive(Clone, Copy, Debug, Error)]
pub enum FitRefused {
    /// A disk doesn't fit the others. It is the first such one, from 1, and its first slot that doesn't fit.
    #[error("disk {disk} doesn't fit: slot {slot}")]
    Unfit { disk: u8, slot: u32 },
    /// Memory ran out.
    #[error("memory ran out")]
    Memory,
}

impl From<NoMemory> for FitRefused {
    ghost use Rattle.service_starts.specs.declared.fitting.FitRefused.TheVariants.{Memory};

    ghost from_gives = { λ _ error. error ≡ Memory };

    fn from(_error: NoMemory) -> FitRefused {
        FitRefused::Memory
    }
}

/// A fileset of which a server has to settle an unfinished move.
#[derive(Clone, Copy)]
pub struct Settling {
    /// The server.
    pub server: ServerId,
    /// The fileset.
    pub fileset: FilesetId,
}

impl Settling {
    /// What the server's store has to do.
    pub fn act(self) -> Act
        ensures { result ≡ Settle self.fileset }
    {
        Act::Settle {
            fileset: self.fileset,
        }
    }
}

// Whether a server has a disk in this run.
fn has_disk(all: &[Told], server: ServerId) -> bool
    ensures { result ≡ has_disk all.now server }
{
    match told_of(all, server) {
        Some(told) => told.on_disk,
        None => false,
    }
}

// Whether a fileset is leaving for a server under a ship number.
fn is_shipped(server: ServerId, ship: u64, stay: Stay) -> bool
    ensures { result ≡ is_shipped server ship stay }
{
    match stay {
        Stay::Leaving { to, ship: sent } => to == server && sent == ship,
        Stay::Writable | Stay::Clone | Stay::Arriving { .. } | Stay::Gone { .. } => false,
    }
}

// Whether what arrives at a server under a ship number comes from another slot.
fn is_sender(server: ServerId, ship: u64, slot: &Slot, other: &Slot) -> bool
    ensures { result ≡ is_sender server ship slot.now other.now }
{
    is_same(slot, other)
        && is_shipped(server, ship, other.stay)
        && other.moves < slot.moves
        && slot.moves - other.moves == 1
        && other.name == slot.name
        && other.objects == slot.objects
}

// Whether what arrives at a server under a ship number comes from one of these slots.
fn has_sender(server: ServerId, ship: u64, slot: &Slot, others: &[Slot]) -> bool
    ensures { result ≡ list_any (is_sender server ship slot.now) others.now }
{
    others
        .iter()
        .any(|other| is_sender(server, ship, slot, other))
}

// Whether the other server that a slot of a server names has what it must.
fn is_matched(all: &[Told], server: ServerId, slot: &Slot) -> bool
    ensures { result ≡ is_matched all.now server slot.now slot.now.stay }
{
    match slot.stay {
        Stay::Writable | Stay::Clone => true,
        Stay::Leaving { to, .. } => has_disk(all, to),
        Stay::Arriving { from, ship, .. } => { has_sender(server, ship, slot, slots_of(all, from)) }
        Stay::Gone { to } => has_disk(all, to) && has_come(all, slot, to),
    }
}

fn is_clone(stay: Stay) -> bool
    ensures { result ≡ is_clone stay }
{
    matches!(stay, Stay::Clone)
}

// Whether a fileset that is in another slot after further moves is still the one that left, or is leaving.
fn is_still(slot: &Slot, other: &Slot) -> bool
    ensures { result ≡ is_still slot.now other.now slot.now.stay }
{
    match slot.stay {
        Stay::Writable | Stay::Clone | Stay::Arriving { .. } => true,
        Stay::Leaving { .. } => {
            other.name == slot.name && !is_clone(other.stay) && other.objects == slot.objects
        }
        Stay::Gone { .. } => other.name == slot.name,
    }
}

// Whether that is so of another slot, where the fileset is in it after further moves.
fn is_still_in(all: &[Told], slot: &Slot, other: &Slot) -> bool
    ensures { result ≡ is_still_in all.now slot.now other.now }
{
    !(is_later(slot, other) && stands(all, other)) || is_still(slot, other)
}

// Whether that is so of all these slots.
fn is_continued_in(all: &[Told], slot: &Slot, others: &[Slot]) -> bool
    ensures { result ≡ list_all (is_still_in all.now slot.now) others.now }
{
    others.iter().all(|other| is_still_in(all, slot, other))
}

fn is_continued(all: &[Told], slot: &Slot) -> bool
    ensures { result ≡ is_continued all.now slot.now }
{
    all.iter()
        .all(|told| is_continued_in(all, slot, told.slots.as_slice()))
}

// Whether the fileset of a slot is in one of these others.
fn is_among(all: &[Told], slot: &Slot, others: &[Slot]) -> bool
    ensures { result ≡ list_any (λ other. is_same slot.now other && stands all.now other) others.now }
{
    others
        .iter()
        .any(|other| is_same(slot, other) && stands(all, other))
}

// Whether the fileset of a slot is in a slot of one of these servers.
fn is_among_all(all: &[Told], slot: &Slot, those: &[Told]) -> bool
    ensures { result ≡ list_any (λ told. list_any (λ other. is_same slot.now other && stands all.now other) told.slots)
        those.now }
{
    those
        .iter()
        .any(|told| is_among(all, slot, told.slots.as_slice()))
}

// Whether the fileset of a slot is in a slot of an earlier server too.
#[tactic(auto, using(std::proofs::lemmas::List::take_min))]
fn is_earlier(all: &[Told], server: ServerId, slot: &Slot) -> bool
    ensures { result ≡ is_earlier all.now server slot.now }
{
    let end = (server.0.saturating_sub(1) as usize).min(all.len());
    is_among_all(all, slot, &all[..end])
}

// Whether no server gives a fileset's number again.
fn is_given(all: &[Told], id: FilesetId) -> bool
    ensures { result ≡ is_given (rooms_of all.now) id }
{
    let server = id.0 / 65_536;
    if server == 0 {
        return true;
    }
    match all.get(server as usize - 1) {
        Some(told) => id.0 % 65_536 < told.kept.next,
        None => true,
    }
}

// Whether a slot of a server fits.
fn fits(all: &[Told], server: ServerId, slot: &Slot) -> bool
    ensures { result ≡ fits all.now (record { server = server; slot = slot.now }) }
{
    is_given(all, slot.fileset)
        && is_matched(all, server, slot)
        && is_continued(all, slot)
        && !(stands(all, slot) && is_earlier(all, server, slot))
}

// The first slot of a server that doesn't fit.
fn misfit_of<'a>(all: &[Told], server: ServerId, slots: &'a [Slot]) -> Option<&'a Slot>
    ensures { option_copied result
        ≡ find (λ slot. not (fits all.now (record { server = server; slot = slot }))) slots.now }
{
    slots.iter().find(|slot| !fits(all, server, slot))
}

// Refuses disks of which one doesn't fit.
fn check(all: &[Told]) -> Result<(), FitRefused>
    requires { length all.now ≤ SERVERS_MAX }
    ensures fits { OnOk result (misfit all.now ≡ None) }
    ensures unfit { IfErr result (λ refused. IsRefused all.now refused) }
{
    for (place, told) in all.iter().enumerate() {
        let server = ServerId(place as u8 + 1);
        if let Some(slot) = misfit_of(all, server, told.slots.as_slice()) {
            return Err(FitRefused::Unfit {
                disk: server.0,
                slot: slot.at,
            });
        }
    }
    Ok(())
}

// Whether a fileset is leaving, or more than its head has arrived.
fn is_unsettled(stay: Stay) -> bool
    ensures { result ≡ is_unsettled stay }
{
    match stay {
        Stay::Leaving { .. } => true,
        Stay::Arriving { parts, .. } => parts != 1,
        Stay::Writable | Stay::Clone | Stay::Gone { .. } => false,
    }
}

// Whether an unfinished move of a slot is to be settled.
fn is_open(all: &[Told], slot: &Slot) -> bool
    ensures { result ≡ is_open all.now slot.now }
{
    is_unsettled(slot.stay) && stands(all, slot)
}

// Adds what a server has to settle.
fn add_settlings(
    all: &[Told],
    server: ServerId,
    slots: &[Slot],
    settlings: &mut Items<Settling>,
) -> Result<(), NoMemory>
    ensures { OnOk result (settlings.new ≡ settlings.old ++ settlings_in all.now (placed_at server.0 slots.now)) }
{
    for slot in slots {
        if is_open(all, slot) {
            settlings.push(Settling {
                server,
                fileset: slot.fileset,
            })?;
        }
    }
    Ok(())
}

// What is to be settled.
fn settlings(alloc: Global, all: &[Told]) -> Result<Items<Settling>, NoMemory>
    requires { length all.now ≤ SERVERS_MAX }
    ensures { IfOk result (λ settlings. settlings ≡ settlings_of all.now) }
{
    let mut settlings = Items::new(alloc);
    for (place, told) in all.iter().enumerate() {
        let server = ServerId(place as u8 + 1);
        add_settlings(all, server, told.slots.as_slice(), &mut settlings)?;
    }
    Ok(settlings)
}

/// What each server has to settle before a run, if the disks fit one another. A move that was stopped in its middle
/// goes on where the other server has the fileset, and begins anew behind its head; where it hasn't, the fileset is
/// writable again. It is told of each declared server, from the first on.
///
/// `Unfit` comes exactly where a disk doesn't fit, and `Memory` where memory runs out.
///
/// The rules are this project's own; that filesets move between servers while they are in use is after Kazar et al.,
/// "DEcorum File System Architectural Overview", 1990.
pub fn fit(alloc: Global, all: &[Told]) -> Result<Items<Settling>, FitRefused>
    requires { length all.now ≤ SERVERS_MAX }
    ensures fits { OnOk result (misfit all.now ≡ None) }
    ensures settlings { IfOk result (λ settlings. settlings ≡ settlings_of all.now) }
    ensures unfit { IfErr result (λ refused. IsRefused all.now refused) }
{
    check(all)?;
    Ok(settlings(alloc, all)?)
}
