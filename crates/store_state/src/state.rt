ghost use Rattle.std.specs.Prelude.{◌≡◌};
ghost use Rattle.store_state.specs.State.{is_here, is_writable, is_leaving, is_arriving, is_gone};
ghost use Rattle.store_state.specs.Sought.{is_due};

use base_types::{Items, ServerId};
use tree_calls::{Record, Roster};
use tree_filesets::Fileset;

/// What a server knows of a host.
#[derive(Clone, Copy, PartialEq)]
pub enum HostState {
    /// It hasn't come yet.
    Unknown,
    /// It takes part.
    Live,
    /// It has stopped for good.
    IsDown,
    /// It has said that it ends.
    Ended,
}

/// How a fileset stays in a slot of a store.
#[derive(Clone, Copy, PartialEq)]
pub enum Stay {
    /// It is here, and may be changed.
    Writable,
    /// It is here, and read-only.
    Clone,
    /// It is leaving for another server, under a ship number of this one.
    Leaving {
        to: ServerId,
        ship: u64,
    },
    /// It is arriving from another server, under a ship number of that one. So many parts were taken, the head counted.
    Arriving {
        from: ServerId,
        ship: u64,
        parts: u32,
    },
    /// It has left for another server.
    Gone {
        to: ServerId,
    },
}

/// What a store keeps in a slot.
pub struct Holding {
    /// How the fileset stays.
    pub stay: Stay,
    /// The fileset, with nothing unsaved. One that is arriving has the anodes that were taken, and one that has left
    /// has none.
    pub fileset: Fileset,
    /// What is kept of each host's requests on it, from the setup host on.
    pub records: Items<Record>,
}

impl Drop for Holding {
    fn drop(self) {
        let Holding {
            stay: _,
            fileset: _,
            records: _,
        } = self;
    }
}

/// The last ship that was taken from a server.
#[derive(Clone, Copy, PartialEq)]
pub struct TakenShip {
    /// Its number among the ships of that server, 0 for none.
    pub ship: u64,
    /// The code of the reply to its head.
    pub code: u8,
}

/// All that a store keeps.
#[derive(Drop)]
pub struct StoreState {
    /// The server whose store it is.
    pub server: ServerId,
    /// For whom hosts act.
    pub roster: Roster,
    /// The blocks that it offers to promises.
    pub capacity: u32,
    /// The number of its next fileset, from 1.
    pub next: u32,
    /// The table of filesets: `FILESETS_MAX` slots.
    pub slots: Items<Option<Holding>>,
    /// What is kept of each host's requests on filesets themselves, from the setup host on.
    pub records: Items<Record>,
    /// What is known of each host, from the setup host on.
    pub hosts: Items<HostState>,
    /// How often the server has started, over all runs.
    pub epoch: u64,
    /// The number of the last ship that it sent, 0 for none.
    pub ship: u64,
    /// The last ship that was taken from each server, from the first server on.
    pub taken: Items<TakenShip>,
}

impl Stay {
    /// Whether the fileset is here: writable or a clone.
    pub fn is_here(self) -> bool
        ensures { result ≡ is_here self }
    {
        matches!(self, Stay::Writable | Stay::Clone)
    }

    /// Whether it may be changed.
    pub fn is_writable(self) -> bool
        ensures { result ≡ is_writable self }
    {
        matches!(self, Stay::Writable)
    }

    /// Whether it is leaving.
    pub fn is_leaving(self) -> bool
        ensures { result ≡ is_leaving self }
    {
        matches!(self, Stay::Leaving { .. })
    }

    /// Whether it is arriving.
    pub fn is_arriving(self) -> bool
        ensures { result ≡ is_arriving self }
    {
        matches!(self, Stay::Arriving { .. })
    }

    /// Whether it has left.
    pub fn is_gone(self) -> bool
        ensures { result ≡ is_gone self }
    {
        matches!(self, Stay::Gone { .. })
    }

    /// Whether it waits for a part of a ship.
    pub fn is_due(self, from: ServerId, ship: u64, at: u32) -> bool
        ensures { result ≡ is_due from ship at self }
    {
        match self {
            Stay::Arriving {
                from: sender,
                ship: taken,
                parts,
            } => sender == from && taken == ship && parts == at,
            Stay::Writable | Stay::Clone | Stay::Leaving { .. } | Stay::Gone { .. } => false,
        }
    }
}
