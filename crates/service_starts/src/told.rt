ghost use Rattle.std.specs.Prelude.{◌≡◌};
ghost use Rattle.std.specs.Option.{option_copied};
ghost use Rattle.service_starts.specs.Told.{told_of, slots_of, is_same, is_later, has_come, stands};

use base_types::{Items, ServerId};
use store_memory::{Kept, Slot, Stay};

/// What the store of a server tells when a run begins.
#[derive(Drop)]
pub struct Told {
    /// Whether it is on a disk, and not in memory alone.
    pub on_disk: bool,
    /// The filesets that it keeps, and what it has for further ones. On a blank disk, and without one, there are no
    /// filesets, and the next number is 1.
    pub kept: Kept,
    /// Its slots that are used, in the order of the table.
    pub slots: Items<Slot>,
}

/// What is told of a server.
pub(crate) fn told_of(all: &[Told], server: ServerId) -> Option<&Told>
    ensures { option_copied result ≡ told_of all.now server }
{
    if server.0 == 0 {
        return None;
    }
    all.get(server.0 as usize - 1)
}

/// The used slots of a server's store.
pub(crate) fn slots_of(all: &[Told], server: ServerId) -> &[Slot]
    ensures { result.now ≡ slots_of all.now server }
{
    match told_of(all, server) {
        Some(told) => told.slots.as_slice(),
        None => &[],
    }
}

/// Whether two slots are of one fileset.
pub(crate) fn is_same(slot: &Slot, other: &Slot) -> bool
    ensures { result ≡ is_same slot.now other.now }
{
    other.fileset == slot.fileset
}

/// Whether another slot is of the same fileset, after further moves.
pub(crate) fn is_later(slot: &Slot, other: &Slot) -> bool
    ensures { result ≡ is_later slot.now other.now }
{
    is_same(slot, other) && slot.moves < other.moves
}

/// Whether a fileset has come to a server, from the slot that it was to leave for it.
pub(crate) fn has_come(all: &[Told], slot: &Slot, to: ServerId) -> bool
    ensures { result ≡ has_come all.now slot.now to }
{
    slots_of(all, to).iter().any(|other| is_later(slot, other))
}

/// Whether a fileset is in a slot once the unfinished moves are settled.
pub(crate) fn stands(all: &[Told], slot: &Slot) -> bool
    ensures { result ≡ stands all.now slot.now }
{
    match slot.stay {
        Stay::Writable | Stay::Clone | Stay::Arriving { .. } => true,
        Stay::Leaving { to, .. } => !has_come(all, slot, to),
        Stay::Gone { .. } => false,
    }
}
