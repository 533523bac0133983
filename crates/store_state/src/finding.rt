//! Where filesets are found in the table.
ghost use Rattle.std.specs.Prelude.{◌≡◌, length, is_none, unwrap_or};
ghost use Rattle.std.specs.List.{position, list_any};
ghost use Rattle.std.specs.Option.{option_copied};
ghost use Rattle.store_state.specs.Founding.{free_slot};
ghost use Rattle.store_state.specs.Sought.{is_sought};
ghost use Rattle.store_state.specs.State.{is_used_so, slot_so, held_at, held_so};

use crate::state::Holding;
use base_types::{FilesetId, Items, Name, ServerId};

/// A part of a fileset that comes from a server, under a ship number of that server's.
#[derive(Clone, Copy)]
pub struct Coming {
    /// The fileset.
    pub id: FilesetId,
    /// The server.
    pub from: ServerId,
    /// The ship number.
    pub ship: u64,
    /// How often the fileset has moved, this time counted.
    pub moves: u32,
    /// The part's number, 0 for the head.
    pub at: u32,
}

/// What is sought among the filesets of a table.
#[derive(Clone, Copy)]
pub enum Sought<'a> {
    /// A fileset.
    Of(FilesetId),
    /// A fileset, if it is here.
    HereOf(FilesetId),
    /// The fileset of a name that is here.
    HereAs(&'a Name),
    /// A fileset of a name that has left.
    GoneAs(&'a Name),
    /// A fileset of a name.
    Named(&'a Name),
    /// Another fileset than this one, of a name.
    Other(FilesetId, &'a Name),
    /// A fileset that is here, or has left with so many moves or more.
    Past(FilesetId, u32),
    /// A fileset that is leaving.
    Leaving,
    /// The fileset that waits for a part.
    Awaiting(Coming),
}

impl Sought<'_> {
    fn is(&self, holding: &Holding) -> bool
        ensures { result ≡ is_sought self.now holding.now }
    {
        let (fileset, stay) = (&holding.fileset, holding.stay);
        match self {
            Sought::Of(id) => fileset.id == *id,
            Sought::HereOf(id) => fileset.id == *id && stay.is_here(),
            Sought::HereAs(name) => stay.is_here() && fileset.name == **name,
            Sought::GoneAs(name) => stay.is_gone() && fileset.name == **name,
            Sought::Named(name) => fileset.name == **name,
            Sought::Other(id, name) => fileset.name == **name && fileset.id != *id,
            Sought::Past(id, moves) => {
                fileset.id == *id && (!stay.is_gone() || *moves <= fileset.moves)
            }
            Sought::Leaving => stay.is_leaving(),
            Sought::Awaiting(coming) => {
                fileset.id == coming.id
                    && stay.is_due(coming.from, coming.ship, coming.at)
                    && fileset.moves == coming.moves
            }
        }
    }

    fn is_in(&self, slot: &Option<Holding>) -> bool
        ensures { result ≡ is_used_so (is_sought self.now) slot.now }
    {
        match slot {
            Some(holding) => self.is(holding),
            None => false,
        }
    }

    fn place(&self, slots: &[Option<Holding>]) -> Option<usize>
        ensures { result ≡ position (is_used_so (is_sought self.now)) slots.now }
    {
        slots.iter().position(|slot| self.is_in(slot))
    }
}

// A place in the table, or its end.
fn or_end(place: Option<usize>, slots: &Items<Option<Holding>>) -> usize
    ensures { result ≡ unwrap_or place (length slots.now) }
{
    match place {
        Some(place) => place,
        None => slots.len(),
    }
}

/// The first slot with what is sought, or the end of the table.
pub fn slot_of(slots: &Items<Option<Holding>>, sought: &Sought) -> usize
    ensures { result ≡ slot_so (is_sought sought.now) slots.now }
{
    or_end(sought.place(slots.as_slice()), slots)
}

/// Whether some slot has what is sought.
pub fn has_some(slots: &Items<Option<Holding>>, sought: &Sought) -> bool
    ensures { result ≡ list_any (is_used_so (is_sought sought.now)) slots.now }
{
    slots.as_slice().iter().any(|slot| sought.is_in(slot))
}

fn place_free(slots: &[Option<Holding>]) -> Option<usize>
    ensures { result ≡ position is_none slots.now }
{
    slots.iter().position(|slot| slot.is_none())
}

/// The lowest slot that is free, or the end of the table.
pub fn free_slot(slots: &Items<Option<Holding>>) -> usize
    ensures { result ≡ free_slot slots.now }
{
    or_end(place_free(slots.as_slice()), slots)
}

/// What is held in a slot.
pub fn held_at(slots: &Items<Option<Holding>>, at: usize) -> Option<&Holding>
    ensures { option_copied result ≡ held_at slots.now at }
{
    match slots.at(at) {
        Some(slot) => slot.as_ref(),
        None => None,
    }
}

/// What is held of what is sought.
pub fn held<'a>(slots: &'a Items<Option<Holding>>, sought: &Sought) -> Option<&'a Holding>
    ensures { option_copied result ≡ held_so (is_sought sought.now) slots.now }
{
    held_at(slots, slot_of(slots, sought))
}
