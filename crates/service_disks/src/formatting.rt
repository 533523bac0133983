// A blank disk is formatted. Where that fails it is done anew, behind a gate that is closed first.
ghost use Rattle.std.specs.Prelude.{◌≡◌, ◌≢◌, ◌≤◌, true, length, IfOk, IfErr, OnOk};
ghost use Rattle.base_types.specs.Image.{byte_at};
ghost use Rattle.base_types.specs.declared.limits.TheConstants.{SERVERS_MAX, CAPACITY_MIN, CAPACITY_MAX};
ghost use Rattle.base_outside.specs.Runs.{LeavesOnly};
ghost use Rattle.message_types.specs.Soundness.{IsServer};
ghost use Rattle.store_state.specs.Capacity.{capacity_of};
ghost use Rattle.disk_layout.specs.Half.{HasNoLog};
ghost use Rattle.disk_log.specs.Blame.{IsBlamed};
ghost use Rattle.disk_image.specs.Aggregate.{is_blank};
ghost use Rattle.disk_aggregate.specs.Records.{HasRecord};
ghost use Rattle.disk_aggregate.specs.Refused.{IsOpenFault};
ghost use Rattle.disk_aggregate.specs.Stands.{disk_in, state_in};
ghost use Rattle.disk_aggregate.specs.StoreView.{IsOpened};
ghost use Rattle.service_disks.specs.Opening.{new_store, IsNotFormatted, LeavesFormatted};

use base_outside::{read_byte, write_through};
use base_types::{Disk, Failed, ServerId};
use disk_aggregate::{Aggregate, MountRefused};
use disk_layout::{CLOSED, OPEN};
use std::alloc::Global;
use tree_calls::Roster;

// Closes the gate of a superblock where a format that failed left it open: behind an open one a crash in another format
// could leave a log in part. A crash meanwhile leaves what it could have left before, or no log.
fn shut_gate<D: Disk>(disk: &mut D) -> Result<(), Failed>
    ensures shut { D.tells → OnOk result (byte_at (D.view disk.new).image 0 ≢ 1) }
    ensures crash { D.tells → LeavesOnly (HasNoLog 0) (D.view disk.old) (D.view disk.new) }
    ensures blamed { IsBlamed result (D.view disk.old) (D.view disk.new) }
{
    if read_byte(disk, 0)? != OPEN {
        return Ok(());
    }
    disk.sync()?;
    write_through(disk, 0, &[CLOSED])
}

// Formats a disk whose format failed, whatever that left.
fn format_again<D: Disk>(
    alloc: Global,
    disk: D,
    server: ServerId,
    roster: &Roster,
) -> Result<Aggregate<D>, (D, MountRefused)>
    requires declared { IsServer roster.now server }
    requires servers { length roster.now.capacity ≤ SERVERS_MAX }
    requires least { CAPACITY_MIN ≤ capacity_of roster.now server }
    requires most { capacity_of roster.now server ≤ CAPACITY_MAX }
    ensures new { IfOk result (λ aggregate. state_in aggregate ≡ new_store roster.now server) }
    ensures opened { IfOk result (λ aggregate. IsOpened D.tells D.view aggregate) }
    ensures record { D.tells
        → IfOk result (λ aggregate. HasRecord (state_in aggregate) (D.view (disk_in aggregate)).image) }
    ensures crash { D.tells → IfOk result
        (λ aggregate. LeavesFormatted roster.now server (D.view disk) (D.view (disk_in aggregate))) }
    ensures crash_err { D.tells → IfErr result (λ e. LeavesFormatted roster.now server (D.view disk) (D.view e.0)) }
    ensures counted { IfOk result (λ aggregate. (D.view disk).faults ≤ (D.view (disk_in aggregate)).faults) }
    ensures counted_err { IfErr result (λ e. (D.view disk).faults ≤ (D.view e.0).faults) }
    ensures only { IfErr result (λ e. IsOpenFault e.1 (D.view disk) (D.view e.0)) }
{
    let mut disk = disk;
    match shut_gate(&mut disk) {
        Ok(()) => Aggregate::format(alloc, disk, server, roster),
        Err(Failed) => Err((disk, MountRefused::Failed)),
    }
}

/// Formats a blank disk. A format that fails is done once more.
pub(crate) fn format_disk<D: Disk>(
    alloc: Global,
    disk: D,
    server: ServerId,
    roster: &Roster,
) -> Result<Aggregate<D>, (D, MountRefused)>
    requires declared { IsServer roster.now server }
    requires servers { length roster.now.capacity ≤ SERVERS_MAX }
    requires least { CAPACITY_MIN ≤ capacity_of roster.now server }
    requires most { capacity_of roster.now server ≤ CAPACITY_MAX }
    ensures new { IfOk result (λ aggregate. state_in aggregate ≡ new_store roster.now server) }
    ensures opened { IfOk result (λ aggregate. IsOpened D.tells D.view aggregate) }
    ensures record { D.tells
        → IfOk result (λ aggregate. HasRecord (state_in aggregate) (D.view (disk_in aggregate)).image) }
    ensures crash { D.tells → is_blank (D.view disk).image ≡ true → IfOk result
        (λ aggregate. LeavesFormatted roster.now server (D.view disk) (D.view (disk_in aggregate))) }
    ensures crash_err { D.tells → is_blank (D.view disk).image ≡ true → IfErr result
        (λ e. LeavesFormatted roster.now server (D.view disk) (D.view e.0)) }
    ensures counted { IfOk result (λ aggregate. (D.view disk).faults ≤ (D.view (disk_in aggregate)).faults) }
    ensures counted_err { IfErr result (λ e. (D.view disk).faults ≤ (D.view e.0).faults) }
    ensures only { IfErr result (λ e. IsNotFormatted e.1 (D.view disk) (D.view e.0)) }
{
    match Aggregate::format(alloc, disk, server, roster) {
        Ok(store) => Ok(store),
        Err((disk, refused)) => match refused {
            MountRefused::Failed => format_again(alloc, disk, server, roster),
            MountRefused::NotAggregate(_) | MountRefused::Memory => Err((disk, refused)),
        },
    }
}
