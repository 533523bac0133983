// A server's disk is opened as it is found. What fails is tried once more.
ghost use Rattle.std.specs.Prelude.{◌≡◌, ◌≤◌, false, Some, length, IfOk, IfErr, OnErr, IsTrue};
ghost use Rattle.base_types.specs.Crash.{IsQuiet};
ghost use Rattle.base_types.specs.Faults.{RoseBy};
ghost use Rattle.base_types.specs.declared.limits.TheConstants.{SERVERS_MAX, CAPACITY_MIN, CAPACITY_MAX};
ghost use Rattle.base_outside.specs.Runs.{LeavesOnly};
ghost use Rattle.message_types.specs.Soundness.{IsServer};
ghost use Rattle.store_state.specs.Capacity.{capacity_of};
ghost use Rattle.disk_image.specs.Aggregate.{is_blank};
ghost use Rattle.disk_aggregate.specs.Records.{HasRecord, HasSameRecord};
ghost use Rattle.disk_aggregate.specs.Stands.{disk_in, state_in};
ghost use Rattle.disk_aggregate.specs.StoreView.{IsOpened};
ghost use Rattle.service_disks.specs.Opening.{
  store_on,
  IsNotMounted,
  IsNotOpened,
  IsTaken,
  LeavesOpened,
};

use crate::formatting::format_disk;
use base_types::{Disk, Failed, ServerId};
use disk_aggregate::{Aggregate, MountRefused};
use disk_log::is_blank;
use std::alloc::Global;
use tree_calls::Roster;

// Whether a disk is blank. The only error is the disk's second failure.
fn is_new<D: Disk>(disk: &mut D) -> Result<bool, Failed>
    ensures blank { D.tells → IfOk result (λ blank. blank ≡ is_blank (D.view disk.old).image) }
    ensures quiet { IsQuiet (D.view disk.old) (D.view disk.new) }
    ensures counted { (D.view disk.old).faults ≤ (D.view disk.new).faults }
    ensures twice { OnErr result (RoseBy 2 (D.view disk.old).faults (D.view disk.new).faults) }
    ensures last { OnErr result (IsTrue (D.view disk.new).last_failed) }
{
    match is_blank(disk) {
        Ok(blank) => Ok(blank),
        Err(Failed) => is_blank(disk),
    }
}

// Mounts a disk that isn't blank.
fn mount_disk<D: Disk>(
    alloc: Global,
    disk: D,
    server: ServerId,
    roster: &Roster,
) -> Result<Aggregate<D>, (D, MountRefused)>
    requires servers { length roster.now.capacity ≤ SERVERS_MAX }
    ensures own { IfOk result (λ aggregate.
        ((state_in aggregate).server ≡ server) × ((state_in aggregate).roster ≡ roster.now)) }
    ensures opened { IfOk result (λ aggregate. IsOpened D.tells D.view aggregate) }
    ensures kept { D.tells → IfOk result (λ aggregate. HasRecord (state_in aggregate) (D.view disk).image) }
    ensures record { D.tells
        → IfOk result (λ aggregate. HasRecord (state_in aggregate) (D.view (disk_in aggregate)).image) }
    ensures taken { D.tells → IfOk result
        (λ aggregate. IsTaken roster.now server (D.view disk) (D.view (disk_in aggregate))) }
    ensures record_err { D.tells → IfErr result
        (λ e. HasSameRecord roster.now server (D.view disk).image (D.view e.0).image) }
    ensures crash { D.tells → IfOk result (λ aggregate. LeavesOnly
        (HasSameRecord roster.now server (D.view disk).image) (D.view disk) (D.view (disk_in aggregate))) }
    ensures crash_err { D.tells → IfErr result (λ e. LeavesOnly
        (HasSameRecord roster.now server (D.view disk).image) (D.view disk) (D.view e.0)) }
    ensures counted { IfOk result (λ aggregate. (D.view disk).faults ≤ (D.view (disk_in aggregate)).faults) }
    ensures counted_err { IfErr result (λ e. (D.view disk).faults ≤ (D.view e.0).faults) }
    ensures only { IfErr result (λ e. IsNotMounted D.tells roster.now server e.1 (D.view disk) (D.view e.0)) }
{
    match Aggregate::mount(alloc, disk, server, roster) {
        Ok(store) => Ok(store),
        Err((disk, refused)) => match refused {
            MountRefused::Failed => Aggregate::mount(alloc, disk, server, roster),
            MountRefused::NotAggregate(_) | MountRefused::Memory => Err((disk, refused)),
        },
    }
}

/// Opens a server's disk as it is found: a blank one is formatted as the aggregate of the server, with the capacity
/// that the roster gives it, and any other is mounted. What fails is tried once more: the look whether it is blank,
/// the format, and the mount, for which the disk is judged anew.
///
/// It answers `NotAggregate` exactly where the disk isn't blank and its bytes are refused, with the place; they are
/// those with which it was handed in, or those that a first mount left that failed; not a byte is written then.
/// `Failed` comes only where the disk failed twice, the second time at its last call, and `Memory` where memory ran
/// out. Each error hands the disk back; one that isn't blank has the same record. A crash at any moment of the call
/// leaves what a crash before could leave, or that record again; of a blank disk, whatever failed, no log, refused at
/// place 0, or the new store.
pub fn open_disk<D: Disk>(
    alloc: Global,
    disk: D,
    server: ServerId,
    roster: &Roster,
) -> Result<Aggregate<D>, (D, MountRefused)>
    requires declared { IsServer roster.now server }
    requires servers { length roster.now.capacity ≤ SERVERS_MAX }
    requires least { CAPACITY_MIN ≤ capacity_of roster.now server }
    requires most { capacity_of roster.now server ≤ CAPACITY_MAX }
    ensures own { IfOk result (λ aggregate.
        ((state_in aggregate).server ≡ server) × ((state_in aggregate).roster ≡ roster.now)) }
    ensures opened { IfOk result (λ aggregate. IsOpened D.tells D.view aggregate) }
    ensures kept { D.tells → IfOk result
        (λ aggregate. store_on roster.now server (D.view disk).image ≡ Some (state_in aggregate)) }
    ensures record { D.tells
        → IfOk result (λ aggregate. HasRecord (state_in aggregate) (D.view (disk_in aggregate)).image) }
    ensures taken { D.tells → is_blank (D.view disk).image ≡ false → IfOk result
        (λ aggregate. IsTaken roster.now server (D.view disk) (D.view (disk_in aggregate))) }
    ensures record_err { D.tells → is_blank (D.view disk).image ≡ false → IfErr result
        (λ e. HasSameRecord roster.now server (D.view disk).image (D.view e.0).image) }
    ensures crash { D.tells → IfOk result
        (λ aggregate. LeavesOpened roster.now server (D.view disk) (D.view (disk_in aggregate))) }
    ensures crash_err { D.tells → IfErr result
        (λ e. LeavesOpened roster.now server (D.view disk) (D.view e.0)) }
    ensures counted { IfOk result (λ aggregate. (D.view disk).faults ≤ (D.view (disk_in aggregate)).faults) }
    ensures counted_err { IfErr result (λ e. (D.view disk).faults ≤ (D.view e.0).faults) }
    ensures only { IfErr result (λ e. IsNotOpened D.tells roster.now server e.1 (D.view disk) (D.view e.0)) }
{
    let mut disk = disk;
    match is_new(&mut disk) {
        Ok(true) => format_disk(alloc, disk, server, roster),
        Ok(false) => mount_disk(alloc, disk, server, roster),
        Err(Failed) => Err((disk, MountRefused::Failed)),
    }
}
