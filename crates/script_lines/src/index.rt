ghost use Rattle.std.specs.Prelude.{◌≡◌, ◌<◌, ℕ, [], length, true, slice_index_or, OnOk};
ghost use Rattle.script_lines.specs.Index.{slot_of, places_of, is_in, StayIn};
ghost use Rattle.script_lines.specs.declared.index.TheConstants.{SLOTS};

use base_types::{Items, Name, NoMemory};
use std::alloc::Global;
use std::marker::Model;

/// So many slots. Names that are numbered in a row have different ones.
pub(crate) const SLOTS: usize = 256;

/// Where names stand in a list, to find them there. Each name has a slot, in which are the places of all names that
/// share it. Contracts see it as the places of each slot.
#[derive(Drop)]
pub struct Index {
    // up to the last slot that was used
    slots: Items<Items<usize>>,
}

impl Model for Index {
    ghost use Rattle.std.specs.Prelude.{ℕ, List};

    ghost Value = { List (List ℕ) };

    ghost view = { λ index. index.slots };
}

impl Index {
    /// No name stands anywhere. It takes no memory.
    pub fn new(alloc: Global) -> Index
        ensures { result ≡ [] }
    {
        Index {
            slots: Items::new(alloc),
        }
    }

    /// The places at which a name may stand, in the order in which they were added: all of its own, and those of the
    /// names that share its slot.
    #[tactic(auto, using(crate::proofs::Found::no_slot))]
    pub fn places(&self, name: &Name) -> &[usize]
        ensures { result.now ≡ places_of self.now name.now }
    {
        match self.slots.at(slot_of(name.as_bytes())) {
            Some(places) => places.as_slice(),
            None => &[],
        }
    }

    /// A name stands at one more place. The only error is that memory ran out.
    #[tactic(auto, using(crate::proofs::Found::slots_more))]
    pub fn add(&mut self, name: &Name, place: usize) -> Result<(), NoMemory>
        ensures added { OnOk result (is_in (places_of self.new name.now) place ≡ true) }
        ensures kept { StayIn self.old self.new }
    {
        let slot = slot_of(name.as_bytes());
        grow(&mut self.slots, slot)?;
        self.slots.get_mut(slot).push(place)?;
        Ok(())
    }
}

// There are slots up to this one.
#[tactic(auto, using(crate::proofs::Found::empty_slot))]
fn grow(slots: &mut Items<Items<usize>>, slot: usize) -> Result<(), NoMemory>
    requires { slot < SLOTS }
    ensures room { OnOk result (slot < length slots.new) }
    ensures kept { (i : ℕ) → slice_index_or slots.new i [] ≡ slice_index_or slots.old i [] }
{
    let alloc = slots.alloc();
    for _place in slots.len()..slot + 1 {
        slots.push(Items::new(alloc))?;
    }
    Ok(())
}

fn slot_of(name: &[u8]) -> usize
    ensures value { result ≡ slot_of name.now }
    ensures within { result < SLOTS }
{
    let mut slot = 0;
    for byte in name {
        slot = (slot * 31 + *byte as usize) % SLOTS;
    }
    slot
}
