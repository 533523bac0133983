//! Stores of servers on disks.
ghost use Rattle.std.specs.Prelude.{◌≡◌, ◌≤◌, IsTrue, length, IfOk};
ghost use Rattle.base_types.specs.declared.limits.TheConstants.{SERVERS_MAX, CAPACITY_MIN, CAPACITY_MAX};
ghost use Rattle.message_types.specs.Soundness.{IsServer};
ghost use Rattle.store_state.specs.Capacity.{capacity_of};
ghost use Rattle.disk_aggregate.specs.StoreView.{aggregate_view};
ghost use Rattle.store_test_rows.specs.Standing.{Stands};
ghost use Rattle.store_test_rows.specs.Worlds.{BothStand};

use anyhow::{Result, bail};
use base_types::{CAPACITY_MAX, CAPACITY_MIN, Disk, SERVERS_MAX, ServerId};
use disk_aggregate::Aggregate;
use std::alloc::Global;
use store_test_rows::{Tried, World};
use tree_calls::Roster;

fn capacity_of(roster: &Roster, server: ServerId) -> u32
    ensures { result ≡ capacity_of roster.now server }
{
    let place = server.0.saturating_sub(1) as usize;
    roster.capacity.at(place).copied().unwrap_or(0)
}

// Whether a disk may be formatted for a server of a roster.
fn may_format(roster: &Roster, server: ServerId) -> bool
    ensures declared { IsTrue result → IsServer roster.now server }
    ensures servers { IsTrue result → length roster.now.capacity ≤ SERVERS_MAX }
    ensures least { IsTrue result → CAPACITY_MIN ≤ capacity_of roster.now server }
    ensures most { IsTrue result → capacity_of roster.now server ≤ CAPACITY_MAX }
{
    let servers = roster.capacity.len();
    let capacity = capacity_of(roster, server);
    1 <= server.0
        && server.0 as usize <= servers
        && servers <= SERVERS_MAX as usize
        && CAPACITY_MIN <= capacity
        && capacity <= CAPACITY_MAX
}

/// The new store of a server, on a disk that it takes.
pub fn formatted<D: Disk + Drop>(
    alloc: Global,
    disk: D,
    server: ServerId,
    roster: &Roster,
) -> Result<Tried<Aggregate<D>>>
    ensures stands { IfOk result (λ tried. Stands (aggregate_view D.tells D.view) roster.now tried) }
{
    if !may_format(roster, server) {
        drop(disk);
        bail!("no server for a disk");
    }
    match Aggregate::format(alloc, disk, server, roster) {
        Ok(aggregate) => Ok(Tried::new(server, roster, aggregate)),
        Err((disk, refused)) => {
            drop(disk);
            bail!("not formatted: {refused:?}")
        }
    }
}

/// The store of a server that is on a disk, or the disk again.
pub fn mounted<D: Disk + Drop>(
    alloc: Global,
    disk: D,
    server: ServerId,
    roster: &Roster,
) -> Result<Tried<Aggregate<D>>, D>
    ensures stands { IfOk result (λ tried. Stands (aggregate_view D.tells D.view) roster.now tried) }
{
    if roster.capacity.len() > SERVERS_MAX as usize {
        return Err(disk);
    }
    match Aggregate::mount(alloc, disk, server, roster) {
        Ok(aggregate) => Ok(Tried::new(server, roster, aggregate)),
        Err((disk, _)) => Err(disk),
    }
}

/// The new stores of the two servers of a roster.
pub fn both_formatted<D: Disk + Drop>(
    alloc: Global,
    one: D,
    two: D,
    roster: Roster,
) -> Result<World<Aggregate<D>>>
    ensures stand { IfOk result (λ world. BothStand (aggregate_view D.tells D.view) world) }
{
    let one = formatted(alloc, one, ServerId(1), &roster)?;
    match formatted(alloc, two, ServerId(2), &roster) {
        Ok(two) => Ok(World::new(roster, one, two)),
        Err(error) => {
            drop(one);
            Err(error)
        }
    }
}

// The store of a server that is on a disk, which has to be one.
fn mounted_well<D: Disk + Drop>(
    alloc: Global,
    disk: D,
    server: ServerId,
    roster: &Roster,
) -> Result<Tried<Aggregate<D>>>
    ensures stands { IfOk result (λ tried. Stands (aggregate_view D.tells D.view) roster.now tried) }
{
    match mounted(alloc, disk, server, roster) {
        Ok(tried) => Ok(tried),
        Err(disk) => {
            drop(disk);
            bail!("not mounted")
        }
    }
}

/// The stores of two servers, whose disks are mounted anew.
pub fn both_mounted<D: Disk + Drop>(
    alloc: Global,
    world: World<Aggregate<D>>,
    roster: Roster,
) -> Result<World<Aggregate<D>>>
    ensures stand { IfOk result (λ world. BothStand (aggregate_view D.tells D.view) world) }
{
    let (one, two) = world.into_stores();
    let (one, two) = (one.into_disk(), two.into_disk());
    let one = mounted_well(alloc, one, ServerId(1), &roster)?;
    match mounted_well(alloc, two, ServerId(2), &roster) {
        Ok(two) => Ok(World::new(roster, one, two)),
        Err(error) => {
            drop(one);
            Err(error)
        }
    }
}
