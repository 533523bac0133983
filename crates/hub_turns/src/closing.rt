//! Room for the end of a hub.
ghost use Rattle.std.specs.Prelude.{◌≡◌, ◌≤◌, [], IfOk, vec_capacity};

use base_types::NoMemory;
use hub_board::Turn;
use hub_cell::Pass;
use std::alloc::Global;
use std::marker::Model;

/// Where the passes of a hub are handed over when it is closed, so that its end takes no memory. Contracts see for how
/// many there is room.
#[derive(Drop)]
pub struct ClosingRoom {
    passes: Vec<Pass<Turn>>,
}

impl Model for ClosingRoom {
    ghost use Rattle.std.specs.Prelude.{◌≡◌, [], vec_capacity, ℕ};

    ghost Value = { ℕ };

    ghost view = { λ r. vec_capacity r.passes };

    ghost invariant = { λ r. r.passes.items ≡ [] };
}

impl ClosingRoom {
    /// Room for at least so many passes. The only error is that memory ran out.
    pub fn new(alloc: Global, count: usize) -> Result<ClosingRoom, NoMemory>
        ensures { IfOk result (λ room. count ≤ room) }
    {
        let mut passes = Vec::new(alloc);
        passes.reserve(count)?;
        Ok(ClosingRoom { passes })
    }

    // The list that has this room, and nothing in it.
    pub(crate) fn into_passes(self) -> Vec<Pass<Turn>>
        ensures empty { result.items ≡ [] }
        ensures room { vec_capacity result ≡ self }
    {
        let ClosingRoom { passes } = self;
        passes
    }
}
