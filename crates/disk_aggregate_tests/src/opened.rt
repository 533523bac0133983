//! Disks that are formatted and mounted, as far as it goes.
ghost use Rattle.std.specs.Prelude.{◌≡◌, ◌≤◌, IsTrue, length};
ghost use Rattle.base_types.specs.declared.limits.TheConstants.{SERVERS_MAX, CAPACITY_MIN, CAPACITY_MAX};
ghost use Rattle.message_types.specs.Soundness.{IsServer};
ghost use Rattle.store_state.specs.Capacity.{capacity_of};

use base_types::{CAPACITY_MAX, CAPACITY_MIN, SERVERS_MAX, ServerId};
use disk_aggregate::{Aggregate, MountRefused};
use disk_device::MemDisk;
use std::alloc::{AllocError, Global};
use tree_calls::Roster;

/// What a format or a mount comes to.
#[derive(Clone, Copy)]
pub enum Outcome {
    Done,
    Refused(u64),
    Failed,
    Memory,
    /// It can't be asked for.
    Unfit,
}

impl From<MountRefused> for Outcome {
    fn from(refused: MountRefused) -> Self {
        match refused {
            MountRefused::NotAggregate(place) => Outcome::Refused(place),
            MountRefused::Failed => Outcome::Failed,
            MountRefused::Memory => Outcome::Memory,
        }
    }
}

impl Outcome {
    /// It as a word, and a refusal's place.
    pub fn text(self, alloc: Global) -> Result<String, AllocError> {
        match self {
            Outcome::Done => String::from_str(alloc, "done"),
            Outcome::Refused(place) => format!(in alloc; "refused {place}"),
            Outcome::Failed => String::from_str(alloc, "failed"),
            Outcome::Memory => String::from_str(alloc, "memory"),
            Outcome::Unfit => String::from_str(alloc, "unfit"),
        }
    }
}

fn capacity_of(roster: &Roster, server: ServerId) -> u32
    ensures { result ≡ capacity_of roster.now server }
{
    let place = server.0.saturating_sub(1) as usize;
    roster.capacity.at(place).copied().unwrap_or(0)
}

// Whether a roster declares a server, and few enough in all.
fn is_declared(roster: &Roster, server: ServerId) -> bool
    ensures server { IsTrue result → IsServer roster.now server }
    ensures servers { IsTrue result → length roster.now.capacity ≤ SERVERS_MAX }
{
    let servers = roster.capacity.len();
    1 <= server.0 && server.0 as usize <= servers && servers <= SERVERS_MAX as usize
}

/// What is done to a disk.
#[derive(Clone, Copy)]
pub enum Work {
    Format,
    Mount,
}

impl Work {
    /// Does it, and hands back the disk.
    pub fn done(
        self,
        alloc: Global,
        disk: MemDisk,
        server: ServerId,
        roster: &Roster,
    ) -> (MemDisk, Outcome) {
        if !is_declared(roster, server) {
            return (disk, Outcome::Unfit);
        }
        let opened = match self {
            Work::Mount => Aggregate::mount(alloc, disk, server, roster),
            Work::Format => {
                let capacity = capacity_of(roster, server);
                if capacity < CAPACITY_MIN || CAPACITY_MAX < capacity {
                    return (disk, Outcome::Unfit);
                }
                Aggregate::format(alloc, disk, server, roster)
            }
        };
        match opened {
            Ok(aggregate) => (aggregate.into_disk(), Outcome::Done),
            Err((disk, refused)) => (disk, Outcome::from(refused)),
        }
    }
}
