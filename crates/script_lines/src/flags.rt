ghost use Rattle.std.specs.Prelude.{◌≡◌, ◌++◌, ◌∷◌, [], OnOk};
ghost use Rattle.std.specs.List.{list_any};
ghost use Rattle.base_types.specs.Name.{is_among};
ghost use Rattle.script_lines.specs.Index.{is_at};

use crate::context::is_same;
use crate::index::Index;
use base_types::{Items, Name, NoMemory};
use std::alloc::Global;
use std::marker::Model;

/// Flags in the order in which they were raised, of which each is found without a look at all. Contracts see it as the
/// list of flags.
#[derive(Drop)]
pub struct Flags {
    names: Items<Name>,
    index: Index,
}

impl Model for Flags {
    ghost use Rattle.std.specs.Prelude.{ℕ, List};
    ghost use Rattle.script_lines.specs.Index.{AreFound};

    ghost Value = { List (List ℕ) };

    ghost view = { λ flags. flags.names };

    ghost invariant = { λ flags. AreFound flags.names flags.index };
}

impl Flags {
    /// None. It takes no memory.
    #[tactic(auto, using(crate::proofs::Found::none_found))]
    pub fn new(alloc: Global) -> Flags
        ensures { result ≡ [] }
    {
        Flags {
            names: Items::new(alloc),
            index: Index::new(alloc),
        }
    }

    /// Whether a flag was raised.
    #[tactic(auto, using(crate::proofs::Found::told_found))]
    pub fn has(&self, flag: &Name) -> bool
        ensures { result ≡ is_among self.now flag.now }
    {
        stands_in(self.names.as_slice(), self.index.places(flag), flag)
    }

    /// A flag is raised. The only error is that memory ran out.
    #[tactic(auto, using(crate::proofs::Found::finds))]
    pub fn push(&mut self, flag: Name) -> Result<(), NoMemory>
        ensures { OnOk result (self.new ≡ self.old ++ flag ∷ []) }
    {
        self.index.add(&flag, self.names.len())?;
        self.names.push(flag)?;
        Ok(())
    }
}

// Whether a name stands at one of these places.
fn stands_in(names: &[Name], places: &[usize], name: &Name) -> bool
    ensures { result ≡ list_any (is_at names.now name.now) places.now }
{
    places.iter().any(|place| stands_at(names, *place, name))
}

fn stands_at(names: &[Name], place: usize, name: &Name) -> bool
    ensures { result ≡ is_at names.now name.now place }
{
    match names.get(place) {
        Some(other) => is_same(other, name),
        None => false,
    }
}
